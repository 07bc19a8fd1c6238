// The pass over a body, instruction by instruction.
ghost use Rattle.std.specs.Prelude.{◌≡◌, ◌<◌, ◌≤◌, ◌+◌, ℕ, length, take, slice_index, slice_get, Some, None, IfOk, OnErr, MatchResult};
ghost use Rattle.cil_flow.specs.Depths.{depths_of, depth_after};
ghost use Rattle.cil_flow.specs.Flow as spec;
ghost use Rattle.cil_flow.specs.Pass.{Knows};
ghost use Rattle.cil_flow.specs.Regions.{first_bad_place};
ghost use Rattle.mn_outside.specs.declared.outside.Refused.TheVariants as refused;
ghost use Rattle.std.specs.Result.{result_err};

use crate::bad_places::first_bad_place;
use crate::control::control_of;
use crate::effect::effect_of;
use crate::fault::{FlowCause, FlowFault};
use crate::judging::{has_enough, is_bad_step};
use crate::marking::targets_of_code;
use crate::meeting::{clashes_somewhere, depth_left, known, note_followers};
use crate::outcome::Flow;
use crate::region::begins_handler;
use il_model::{Body, Op};
use mn_outside::{NoMemory, Refused};
use sqlite_items::Items;
use std::alloc::Global;

// The depth before an instruction, from what is known of the earlier ones.
fn depth_before(body: &Body, has_result: bool, arrived: &[Option<u32>], at: u32) -> u32
    requires within { at < length body.now.code }
    requires knows { Knows has_result body.now at arrived.now }
    ensures { result ≡ slice_index (depths_of has_result body.now) at }
{
    if begins_handler(body.clauses.as_slice(), at) {
        return 1;
    }
    known(arrived, at).unwrap_or(0)
}

// Judges an instruction, where the rules on clauses are kept: the depth that it leaves, or its fault.
fn judge(
    body: &Body,
    has_result: bool,
    arrived: &[Option<u32>],
    depth: &[u32],
    at: u32,
    op: &Op,
) -> Result<u32, FlowCause>
    requires few { length body.now.code ≤ 16384 }
    requires is { slice_get body.now.code at ≡ Some op.now }
    requires knows { Knows has_result body.now at arrived.now }
    requires depth { depth.now ≡ take (at + 1) (depths_of has_result body.now) }
    ensures cause { spec.cause_of_step has_result body.now (depths_of has_result body.now) at op.now ≡ result_err result }
    ensures left { IfOk result (λ left. left ≡ depth_after has_result op.now (slice_index (depths_of has_result body.now) at)) }
{
    if is_bad_step(body, at, op) {
        return Err(FlowCause::BadFlow);
    }
    let control = control_of(op);
    let effect = effect_of(op, has_result);
    let here = depth[at as usize];
    if !has_enough(control, effect, here) {
        return Err(FlowCause::Underflow);
    }
    let left = depth_left(control, effect, here);
    if clashes_somewhere(body.clauses.as_slice(), arrived, depth, at, left, op) {
        return Err(FlowCause::BadFlow);
    }
    Ok(left)
}

/// The flow of a body, in a method that has a result or has none: the depth before each instruction and the
/// targets, or the first instruction at which a rule is broken. The body has at most 16,384 instructions.
/// The time is that of instructions and targets times clauses, and of clauses squared.
pub fn flow(alloc: Global, body: &Body, has_result: bool) -> Result<Flow, Refused<FlowFault>>
    requires { length body.now.code ≤ 16384 }
    ensures { spec.Gives result (spec.flow_of has_result body.now) }
{
    let code = body.code.as_slice();
    let Ok(targets) = targets_of_code(alloc, code) else {
        return Err(Refused::NoMemory);
    };
    let depth = depths(alloc, body, has_result)?;
    Ok(Flow { depth, targets })
}

fn fault(at: u32, cause: FlowCause) -> Refused<FlowFault>
    ensures { result ≡ refused.Fault (spec.fault_with at cause) }
{
    Refused::Fault(FlowFault { instr: at, cause })
}

fn is_at(at: u32, place: Option<u32>) -> bool
    ensures { result ≡ spec.is_at at place }
{
    match place {
        Some(found) => found == at,
        None => false,
    }
}

// The depth before each instruction, or the first fault.
fn depths(alloc: Global, body: &Body, has_result: bool) -> Result<Items<u32>, Refused<FlowFault>>
    requires { length body.now.code ≤ 16384 }
    ensures { spec.GivesDepths result (depths_of has_result body.now) (spec.first_fault has_result body.now) }
{
    let count = body.code.len() as u32;
    let bad_place = first_bad_place(body.clauses.as_slice(), count);
    if count == 0 {
        if is_at(0, bad_place) {
            return Err(fault(0, FlowCause::BadFlow));
        }
        return Ok(Items::new(alloc));
    }
    let Ok(mut arrived) = Vec::from_elem(alloc, None, body.code.len()) else {
        return Err(Refused::NoMemory);
    };
    pass(alloc, body, has_result, bad_place, &mut arrived)
}

// Goes over a body that has instructions, where nothing is known of them yet.
fn pass(
    alloc: Global,
    body: &Body,
    has_result: bool,
    bad_place: Option<u32>,
    arrived: &mut [Option<u32>],
) -> Result<Items<u32>, Refused<FlowFault>>
    requires few { length body.now.code ≤ 16384 }
    requires some { 0 < length body.now.code }
    requires bad { bad_place ≡ first_bad_place (length body.now.code) body.now.clauses }
    requires knows { Knows has_result body.now 0 arrived.old }
    ensures { spec.GivesDepths result (depths_of has_result body.now) (spec.first_fault has_result body.now) }
{
    let code = body.code.as_slice();
    let mut depth = Items::new(alloc);
    for at in 0..code.len() as u32 {
        let Ok(()) = depth.push(depth_before(body, has_result, arrived, at)) else {
            return Err(Refused::NoMemory);
        };
        if is_at(at, bad_place) {
            return Err(fault(at, FlowCause::BadFlow));
        }
        let op = &code[at as usize];
        match judge(body, has_result, arrived, depth.as_slice(), at, op) {
            Ok(left) => note_followers(arrived, at, left, op),
            Err(cause) => return Err(fault(at, cause)),
        }
    }
    Ok(depth)
}
