// The forward pass over a body, instruction by instruction.
ghost use Rattle.std.specs.Prelude.{◌≡◌, ◌<◌, ◌≤◌, ◌+◌, [], ◌∷◌, ◌++◌, OnOk, length, take, slice_get, find, unwrap_or, option_map, Some, None, IfOk};
ghost use Rattle.std.specs.Option.{option_copied};
ghost use Rattle.il_model.specs.ClassRules.{HasTypes};
ghost use Rattle.cil_flow.specs.Regions as regions;
ghost use Rattle.cil_verify.specs.Places.{view_of, code_of};
ghost use Rattle.cil_verify.specs.States as judged;
ghost use Rattle.cil_verify.specs.Arrivals as spec;
ghost use Rattle.cil_verify.specs.Passes.{refusal_of, FlowsWell, GivesStates};

use crate::arrival::{Arrival, go_on, known, stack_at};
use crate::fault::{BodyFault, VerifyCause};
use crate::kinds::stack_of;
use crate::leaving::{copied_stack, left_by};
use crate::naming::names_well;
use crate::stacks::put;
use crate::written::meets_all_bounds;
use cil_flow::{StackType, State, States};
use il_model::{Body, Clause, MethodDef, Op, Program, Sort};
use mn_outside::{NoMemory, Refused};
use sqlite_items::Items;
use std::alloc::Global;

fn begins(clause: &Clause, at: u32) -> bool
    ensures { result ≡ regions.begins (regions.handler_of clause.now) at }
{
    clause.handler == at && at < clause.end
}

// The first clause whose handler begins with this instruction.
fn handler_at(clauses: &[Clause], at: u32) -> Option<&Clause>
    ensures { option_copied result ≡ find (λ c. regions.begins (regions.handler_of c) at) clauses.now }
{
    for clause in clauses {
        if begins(clause, at) {
            return Some(clause);
        }
    }
    None
}

// The stack at a handler's start: the type that it catches alone.
fn caught_of(alloc: Global, sort: &Sort) -> Result<Items<StackType>, NoMemory>
    ensures { IfOk result (λ stack. stack ≡ judged.caught_of sort.now) }
{
    let mut stack = Items::new(alloc);
    match sort {
        Sort::Catch(kind) => {
            put(&mut stack, stack_of(alloc, kind)?)?;
            Ok(stack)
        }
        Sort::Finally => Ok(stack),
    }
}

// What arrived at an instruction, or an empty stack.
fn stack_arrived(alloc: Global, all: &[Arrival], at: u32) -> Result<Items<StackType>, NoMemory>
    ensures { IfOk result (λ stack. stack ≡ unwrap_or (spec.known all.now at) []) }
{
    match known(all, at) {
        Some(stack) => copied_stack(alloc, stack),
        None => Ok(Items::new(alloc)),
    }
}

// The stack before an instruction, from what the earlier ones left for it.
fn state_before(
    alloc: Global,
    clauses: &[Clause],
    all: &[Arrival],
    at: u32,
) -> Result<Items<StackType>, NoMemory>
    ensures { IfOk result (λ stack. stack ≡ spec.state_from clauses.now (spec.known all.now at) at) }
{
    match handler_at(clauses, at) {
        Some(clause) => caught_of(alloc, &clause.sort),
        None => stack_arrived(alloc, all, at),
    }
}

// Judges an instruction, and goes on from it; or the cause for which it is refused.
fn judge(
    alloc: Global,
    program: &Program,
    method: &MethodDef,
    states: &[State],
    all: &mut Items<Arrival>,
    at: u32,
    op: &Op,
) -> Result<Option<VerifyCause>, NoMemory>
    requires types { HasTypes program.now }
    requires few { length (code_of method.now.body) ≤ 16384 }
    requires inside { spec.StaysInside (view_of program.now method.now) }
    requires is { slice_get (code_of method.now.body) at ≡ Some op.now }
    requires knows { spec.Knows (view_of program.now method.now) at all.old }
    requires so_far { spec.stacks_of states.now ≡ take (at + 1) (judged.states_of (view_of program.now method.now)) }
    ensures cause { IfOk result (λ cause. cause ≡
        judged.cause_of_instr (view_of program.now method.now) (judged.states_of (view_of program.now method.now)) at op.now) }
    ensures knows { IfOk result (λ cause. cause ≡ None → spec.Knows (view_of program.now method.now) (at + 1) all.new) }
{
    if !names_well(program, op) {
        return Ok(Some(VerifyCause::BadMember));
    }
    if !meets_all_bounds(alloc, program, method, op)? {
        return Ok(Some(VerifyCause::BadConstraint));
    }
    let Some(left) = left_by(alloc, program, method, op, stack_at(states, at))? else {
        return Ok(Some(VerifyCause::BadType));
    };
    if !go_on(alloc, program, method, states, all, at, left.as_slice(), op)? {
        return Ok(Some(VerifyCause::BadMerge));
    }
    Ok(None)
}

// Puts the stack before the next instruction at the end of the list.
fn put_state(states: &mut Items<State>, stack: Items<StackType>) -> Result<(), NoMemory>
    ensures { OnOk result (spec.stacks_of states.new ≡ spec.stacks_of states.old ++ stack ∷ []) }
{
    states.push(State { stack }).map_err(|_| NoMemory)
}

// Goes over a body in which nothing has arrived yet, and puts the stack before each instruction into the list,
// up to the first instruction that is refused.
fn pass(
    alloc: Global,
    program: &Program,
    method: &MethodDef,
    body: &Body,
    all: &mut Items<Arrival>,
    states: &mut Items<State>,
) -> Result<Option<BodyFault>, NoMemory>
    requires types { HasTypes program.now }
    requires body { method.now.body ≡ Some body.now }
    requires few { length body.now.code ≤ 16384 }
    requires inside { spec.StaysInside (view_of program.now method.now) }
    requires knows { spec.Knows (view_of program.now method.now) 0 all.old }
    requires none { states.old ≡ [] }
    ensures fault { IfOk result (λ fault. option_map refusal_of fault ≡ judged.first_refused (view_of program.now method.now)) }
    ensures states { IfOk result (λ fault. fault ≡ None → spec.stacks_of states.new ≡ judged.states_of (view_of program.now method.now)) }
{
    let code = body.code.as_slice();
    for at in 0..code.len() as u32 {
        let stack = state_before(alloc, body.clauses.as_slice(), all.as_slice(), at)?;
        put_state(states, stack)?;
        let op = &code[at as usize];
        if let Some(cause) = judge(alloc, program, method, states.as_slice(), all, at, op)? {
            return Ok(Some(BodyFault { instr: at, cause }));
        }
    }
    Ok(None)
}

// Adds an instruction at which nothing has arrived.
fn put_arrival(all: &mut Items<Arrival>) -> Result<(), NoMemory>
    ensures { OnOk result (all.new ≡ all.old ++ spec.nothing ∷ []) }
{
    let nothing = Arrival {
        before: 0,
        stack: None,
    };
    all.push(nothing).map_err(|_| NoMemory)
}

// A list in which nothing has arrived at so many instructions.
fn none_arrived(alloc: Global, count: usize) -> Result<Items<Arrival>, NoMemory>
    ensures { IfOk result (λ all. all ≡ spec.none_arrived count) }
{
    let mut all = Items::new(alloc);
    for i in 0..count {
        put_arrival(&mut all)?;
    }
    Ok(all)
}

/// The stack before each instruction of a method's body, or its first instruction that is refused, with the
/// cause. The flow of the body has no fault, and it has at most 16,384 instructions. Each instruction and each
/// target takes one step, apart from the depth of the stack and from the way up the hierarchy.
pub fn states_of(
    alloc: Global,
    program: &Program,
    method: &MethodDef,
) -> Result<States, Refused<BodyFault>>
    requires types { HasTypes program.now }
    requires few { length (code_of method.now.body) ≤ 16384 }
    requires flow { FlowsWell method.now }
    ensures { GivesStates result (view_of program.now method.now) }
{
    let mut states: Items<State> = Items::new(alloc);
    let Some(body) = &method.body else {
        return Ok(States { states });
    };
    let Ok(mut all) = none_arrived(alloc, body.code.len()) else {
        return Err(Refused::NoMemory);
    };
    match pass(alloc, program, method, body, &mut all, &mut states) {
        Ok(None) => Ok(States { states }),
        Ok(Some(fault)) => Err(Refused::Fault(fault)),
        Err(NoMemory) => Err(Refused::NoMemory),
    }
}
