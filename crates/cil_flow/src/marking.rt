// Which instructions are targets.
ghost use Rattle.std.specs.Prelude.{◌≡◌, ◌<◌, ◌||◌, ◌==◌, ℕ, length, slice_index_or, IfOk, false};
ghost use Rattle.std.specs.List.{list_any};
ghost use Rattle.cil_flow.specs.Depths.{targets_before, is_target};

use crate::control::targets_of;
use il_model::Op;
use mn_outside::NoMemory;
use sqlite_items::Items;
use std::alloc::Global;

// Marks this instruction, if it is in the body.
fn mark_one(marks: &mut [bool], to: u32)
    ensures size { length marks.new ≡ length marks.old }
    ensures marked { (j : ℕ) → j < length marks.old → slice_index_or marks.new j false ≡ (slice_index_or marks.old j false || (to == j)) }
{
    if (to as usize) < marks.len() {
        marks[to as usize] = true;
    }
}

// Marks these instructions, if they are in the body.
fn mark(marks: &mut [bool], targets: &[u32])
    ensures size { length marks.new ≡ length marks.old }
    ensures marked { (j : ℕ) → j < length marks.old → slice_index_or marks.new j false ≡ (slice_index_or marks.old j false || list_any (λ to. to == j) targets.now) }
{
    for to in targets {
        mark_one(marks, *to);
    }
}

/// For each instruction, whether some instruction names it as a target.
pub(crate) fn targets_of_code(alloc: Global, code: &[Op]) -> Result<Items<bool>, NoMemory>
    ensures { IfOk result (λ marks. marks ≡ targets_before code.now (length code.now)) }
{
    let Ok(mut marks) = Vec::from_elem(alloc, false, code.len()) else {
        return Err(NoMemory);
    };
    for op in code {
        mark(&mut marks, targets_of(op));
    }
    Ok(Items::from_vec(marks))
}
