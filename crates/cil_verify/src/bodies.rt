// The rules on a method's body, and on its size.
ghost use Rattle.std.specs.Prelude.{◌≡◌, ◌≤◌, ◌-◌, IfOk, Some, None, nat_le, length, if◌then◌else◌};
ghost use Rattle.il_model.specs.ClassRules.{HasTypes};
ghost use Rattle.cil_flow.specs.Flow.{first_fault};
ghost use Rattle.cil_verify.specs.Places.{view_of, code_of, locals_of};
ghost use Rattle.cil_verify.specs.States.{states_of};
ghost use Rattle.cil_verify.specs.WellTyped.{flow_cause_of, deepest, place_count, most_places, size_rules};
ghost use Rattle.cil_verify.specs.Arrivals.{stacks_of};
ghost use Rattle.cil_verify.specs.Judging.{Judges, FlowsOr, GivesBody};

use crate::fault::{BodyFault, VerifyCause};
use crate::naming::takes_object;
use crate::pass::states_of;
use cil_flow::{FlowCause, FlowFault, State, States, flow};
use il_model::{Body, MethodDef, Program};
use mn_outside::{NoMemory, Refused};
use rgctx_template::{Def, template};
use sqlite_items::Items;
use std::alloc::Global;

/// The states of a method's body, or the first instruction that is refused, by the flow or else by the
/// forward pass. A method without a body has no states.
pub(crate) fn body_states(
    alloc: Global,
    program: &Program,
    method: &MethodDef,
) -> Result<States, Refused<BodyFault>>
    requires types { HasTypes program.now }
    requires few { length (code_of method.now.body) ≤ 16384 }
    ensures { GivesBody program.now method.now result }
{
    let Some(body) = &method.body else {
        return Ok(States {
            states: Items::new(alloc),
        });
    };
    judge_flow(alloc, body, method.result.is_some())?;
    states_of(alloc, program, method)
}

fn judge_flow(alloc: Global, body: &Body, has_result: bool) -> Result<(), Refused<BodyFault>>
    requires { length body.now.code ≤ 16384 }
    ensures { FlowsOr (first_fault has_result body.now) result }
{
    match flow(alloc, body, has_result) {
        Ok(_) => Ok(()),
        Err(Refused::Fault(fault)) => Err(Refused::Fault(of_flow(fault))),
        Err(Refused::NoMemory) => Err(Refused::NoMemory),
    }
}

fn of_flow(fault: FlowFault) -> BodyFault
    ensures instr { result.instr ≡ fault.instr }
    ensures cause { result.cause ≡ flow_cause_of fault.cause }
{
    BodyFault {
        instr: fault.instr,
        cause: cause_of_flow(fault.cause),
    }
}

fn cause_of_flow(cause: FlowCause) -> VerifyCause
    ensures { result ≡ flow_cause_of cause }
{
    match cause {
        FlowCause::BadFlow => VerifyCause::BadFlow,
        FlowCause::Underflow => VerifyCause::Underflow,
    }
}

/// The cause of the first of the rules on a method's size that does not hold of the method with this number,
/// whose states these are.
pub(crate) fn size_cause(
    alloc: Global,
    program: &Program,
    number: u16,
    method: &MethodDef,
    states: &States,
) -> Result<Option<VerifyCause>, NoMemory>
    requires { stacks_of states.now.states ≡ states_of (view_of program.now method.now) }
    ensures { IfOk result (λ found. Judges size_rules program.now number method.now found) }
{
    if !has_few_places(program, method, states) {
        return Ok(Some(VerifyCause::TooManyPlaces));
    }
    let entries = template(alloc, program, Def::Method(number))?;
    if entries.len() > 224 {
        return Ok(Some(VerifyCause::TooManyEntries));
    }
    Ok(None)
}

// Whether arguments, locals and the deepest stack are few.
fn has_few_places(program: &Program, method: &MethodDef, states: &States) -> bool
    requires { stacks_of states.now.states ≡ states_of (view_of program.now method.now) }
    ensures { result ≡ nat_le (place_count program.now method.now) most_places }
{
    let object = if takes_object(method.shape) { 1 } else { 0 };
    let Some(left) = left_of(120, object) else {
        return false;
    };
    let Some(left) = left_of(left, method.params.len()) else {
        return false;
    };
    let Some(left) = left_of(left, local_count(&method.body)) else {
        return false;
    };
    deepest(states.states.as_slice()) <= left
}

// What is left of so many once a count is taken away.
fn left_of(most: usize, count: usize) -> Option<usize>
    ensures { result ≡ (if nat_le count most then Some (most - count) else None) }
{
    if count <= most {
        Some(most - count)
    } else {
        None
    }
}

fn local_count(body: &Option<Body>) -> usize
    ensures { result ≡ length (locals_of body.now) }
{
    match body {
        Some(body) => body.locals.len(),
        None => 0,
    }
}

// The depth of the deepest stack.
fn deepest(states: &[State]) -> usize
    ensures { result ≡ deepest (stacks_of states.now) }
{
    let mut top = 0;
    for state in states {
        let depth = state.stack.len();
        if depth > top {
            top = depth;
        }
    }
    top
}
