// What the earlier instructions left for each one, on the way through a body.
ghost use Rattle.std.specs.Prelude.{◌≡◌, ◌<◌, ◌^◌, ◌-◌, nat_le, false, length, IfOk, if◌then◌else◌, Some, None, option_map};
ghost use Rattle.std.specs.List.{list_any};
ghost use Rattle.il_model.specs.ClassRules.{HasTypes};
ghost use Rattle.cil_flow.specs.Control.{falls};
ghost use Rattle.cil_flow.specs.Flow.{leads_out};
ghost use Rattle.cil_verify.specs.Places.{view_of};
ghost use Rattle.cil_verify.specs.States.{stack_at};
ghost use Rattle.cil_verify.specs.Arrivals as spec;

use crate::leaving::copied_stack;
use crate::stacks::{are_assignable, joined_stacks};
use cil_flow::{Control, StackType, State, control_of, targets_of};
use il_model::{MethodDef, Op, Program};
use mn_outside::NoMemory;
use sqlite_items::Items;
use std::alloc::Global;

/// What arrived at an instruction so far. Every instruction that went on there stands before `before`, and
/// `stack` is the join of what they left, or None where there is none.
#[derive(Drop)]
pub(crate) struct Arrival {
    pub before: u32,
    pub stack: Option<Items<StackType>>,
}

// What arrived at this instruction.
pub(crate) fn known(all: &[Arrival], to: u32) -> Option<&[StackType]>
    ensures { option_map (λ s. s.now) result ≡ spec.known all.now to }
{
    match all.get(to as usize) {
        Some(
            Arrival {
                before: _,
                stack: Some(stack),
            },
        ) => Some(stack.as_slice()),
        Some(
            Arrival {
                before: _,
                stack: None,
            },
        )
        | None => None,
    }
}

// Whether the instruction at `at` is known to have gone on there.
fn came(all: &[Arrival], at: u32, to: u32) -> bool
    ensures { result ≡ spec.came all.now at to }
{
    match all.get(to as usize) {
        Some(arrival) => at < arrival.before,
        None => false,
    }
}

// What is left where the stack arrives beside what arrived before; None where the two do not agree.
fn met(
    alloc: Global,
    program: &Program,
    method: &MethodDef,
    arrived: Option<&[StackType]>,
    left: &[StackType],
) -> Result<Option<Items<StackType>>, NoMemory>
    requires { HasTypes program.now }
    ensures { IfOk result (λ both. both ≡ spec.met (view_of program.now method.now) (option_map (λ s. s.now) arrived.entry) left.now) }
{
    match arrived {
        Some(arrived) => joined_stacks(alloc, program, method, arrived, left),
        None => Ok(Some(copied_stack(alloc, left)?)),
    }
}

// The stack before this instruction, one of those so far.
pub(crate) fn stack_at(states: &[State], at: u32) -> &[StackType]
    ensures { result.now ≡ stack_at (spec.stacks_of states.now) at }
{
    match states.get(at as usize) {
        Some(state) => state.stack.as_slice(),
        None => &[],
    }
}

// Notes that the instruction at `at` goes on to a later one with this stack; false where that does not agree
// with what arrived there before.
fn go_forward(
    alloc: Global,
    program: &Program,
    method: &MethodDef,
    all: &mut Items<Arrival>,
    at: u32,
    left: &[StackType],
    to: u32,
) -> Result<bool, NoMemory>
    requires types { HasTypes program.now }
    requires within { to < length all.old }
    requires small { at < 2 ^ 32 - 1 }
    ensures size { IfOk result (λ _. length all.new ≡ length all.old) }
    ensures stack { IfOk result (λ agreed. (if agreed then Some all.new else None) ≡
        spec.gone_forward (view_of program.now method.now) at left.now to all.old) }
{
    if came(all.as_slice(), at, to) {
        return Ok(true);
    }
    let Some(both) = met(alloc, program, method, known(all.as_slice(), to), left)? else {
        return Ok(false);
    };
    let arrival = Arrival {
        before: at + 1,
        stack: Some(both),
    };
    all.set(to as usize, arrival);
    Ok(true)
}

// Goes on to one instruction: forward the stack joins what arrived there, backward it has to be assignable to
// the state there.
fn go_on_to(
    alloc: Global,
    program: &Program,
    method: &MethodDef,
    states: &[State],
    all: &mut Items<Arrival>,
    at: u32,
    left: &[StackType],
    to: u32,
) -> Result<bool, NoMemory>
    requires types { HasTypes program.now }
    requires within { to < length all.old }
    requires small { at < 2 ^ 32 - 1 }
    ensures size { IfOk result (λ _. length all.new ≡ length all.old) }
    ensures stack { IfOk result (λ agreed. (if agreed then Some all.new else None) ≡
        spec.gone_on_to (view_of program.now method.now) (spec.stacks_of states.now) at left.now to all.old) }
{
    if to <= at {
        are_assignable(alloc, program, method, left, stack_at(states, to))
    } else {
        go_forward(alloc, program, method, all, at, left, to)
    }
}

// Goes on to each of these.
fn go_among(
    alloc: Global,
    program: &Program,
    method: &MethodDef,
    states: &[State],
    all: &mut Items<Arrival>,
    at: u32,
    left: &[StackType],
    targets: &[u32],
) -> Result<bool, NoMemory>
    requires types { HasTypes program.now }
    requires within { list_any (λ j. nat_le (length all.old) j) targets.now ≡ false }
    requires small { at < 2 ^ 32 - 1 }
    ensures size { IfOk result (λ _. length all.new ≡ length all.old) }
    ensures stack { IfOk result (λ agreed. (if agreed then Some all.new else None) ≡
        spec.gone_among (view_of program.now method.now) (spec.stacks_of states.now) at left.now targets.now all.old) }
{
    for to in targets {
        if !go_on_to(alloc, program, method, states, all, at, left, *to)? {
            return Ok(false);
        }
    }
    Ok(true)
}

// Whether control goes on to the next instruction.
fn falls(control: Control) -> bool
    ensures { result ≡ falls control }
{
    match control {
        Control::Falls | Control::Branches => true,
        Control::Jumps | Control::Leaves | Control::Returns => false,
        Control::Stops | Control::Refused => false,
    }
}

/// Goes on with this stack to each instruction that the one at `at` goes on to; false where it does not agree
/// with what is there.
pub(crate) fn go_on(
    alloc: Global,
    program: &Program,
    method: &MethodDef,
    states: &[State],
    all: &mut Items<Arrival>,
    at: u32,
    left: &[StackType],
    op: &Op,
) -> Result<bool, NoMemory>
    requires types { HasTypes program.now }
    requires within { leads_out (length all.old) op.now at ≡ false }
    requires small { at < 2 ^ 32 - 1 }
    ensures { IfOk result (λ agreed. (if agreed then Some all.new else None) ≡
        spec.gone_among (view_of program.now method.now) (spec.stacks_of states.now) at left.now (spec.followers_of op.now at) all.old) }
{
    if !go_among(
        alloc,
        program,
        method,
        states,
        all,
        at,
        left,
        targets_of(op),
    )? {
        return Ok(false);
    }
    if falls(control_of(op)) {
        return go_on_to(alloc, program, method, states, all, at, left, at + 1);
    }
    Ok(true)
}
