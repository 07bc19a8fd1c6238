// How wide the places of the stack are.
ghost use Rattle.std.specs.Prelude.{◌≡◌, ◌<◌, Some, length, map, slice_get, IfOk, OnOk};
ghost use Rattle.frame_plan.specs.Places.{width_of_stack, widest, stack_widths};
ghost use Rattle.frame_plan.specs.Raising.{raised};

use crate::kinds::StandIns;
use crate::laying::put;
use crate::widths::width_of_stack;
use cil_flow::{StackType, State};
use il_model::Program;
use mn_outside::NoMemory;
use sqlite_items::Items;
use std::alloc::Global;

// The widths of the places of the stack: each place is as wide as the widest value that it holds before
// some instruction.
pub(crate) fn stack_widths(
    alloc: Global,
    program: &Program,
    ins: &StandIns,
    states: &[State],
) -> Result<Items<u32>, NoMemory>
    ensures { IfOk result (λ widths. widths ≡ stack_widths program.now ins.now states.now) }
{
    let mut widths: Items<u32> = Items::new(alloc);
    for state in states {
        widen_all(alloc, program, ins, state.stack.as_slice(), &mut widths)?;
    }
    Ok(widths)
}

// Makes the places wide enough for a stack.
#[tactic(auto, using(crate::proofs::StackLemmas::raise_next, crate::proofs::StackLemmas::widest_none, crate::proofs::StackLemmas::taken_whole))]
fn widen_all(
    alloc: Global,
    program: &Program,
    ins: &StandIns,
    stack: &[StackType],
    widths: &mut Items<u32>,
) -> Result<(), NoMemory>
    ensures { OnOk result (widths.new ≡ widest widths.old (map (width_of_stack program.now ins.now) stack.now)) }
{
    for i in 0..stack.len() {
        let width = width_of_stack(alloc, program, ins, &stack[i])?;
        widen(widths, i, width)?;
    }
    Ok(())
}

// Makes the place with this number so wide at least.
#[tactic(auto, using(crate::proofs::StackLemmas::raised_outside))]
fn widen(widths: &mut Items<u32>, place: usize, width: u32) -> Result<(), NoMemory>
    ensures { OnOk result (widths.new ≡ raised widths.old place width) }
{
    match widths.get(place).copied() {
        Some(now) => {
            set_larger(widths, place, now, width);
            Ok(())
        }
        None => {
            put(widths, width)?;
            Ok(())
        }
    }
}

// Sets the place that has the width `now`.
#[tactic(auto, using(crate::proofs::StackLemmas::set_wider, crate::proofs::StackLemmas::set_same))]
fn set_larger(widths: &mut Items<u32>, place: usize, now: u32, width: u32)
    requires inside { place < length widths.old }
    requires now { slice_get widths.old place ≡ Some now }
    ensures { widths.new ≡ raised widths.old place width }
{
    if now < width {
        widths.set(place, width);
    }
}
