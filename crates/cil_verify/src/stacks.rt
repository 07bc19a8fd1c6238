// Whole stacks, place by place.
ghost use Rattle.std.specs.Prelude.{◌≡◌, ◌∷◌, [], ◌++◌, IfOk, OnOk};
ghost use Rattle.il_model.specs.ClassRules.{HasTypes};
ghost use Rattle.cil_verify.specs.Places.{view_of};
ghost use Rattle.cil_verify.specs.Joins.{are_assignable, joined_stacks};

use crate::joining::{is_assignable_type, joined};
use cil_flow::StackType;
use il_model::{MethodDef, Program};
use mn_outside::NoMemory;
use sqlite_items::Items;
use std::alloc::Global;

/// Whether each stack type of the first list is assignable to that of the second, in a body of this
/// method. Lists of two lengths are not.
pub fn are_assignable(
    alloc: Global,
    program: &Program,
    method: &MethodDef,
    from: &[StackType],
    to: &[StackType],
) -> Result<bool, NoMemory>
    requires { HasTypes program.now }
    ensures { IfOk result (λ answer. answer ≡ are_assignable (view_of program.now method.now) from.now to.now) }
{
    if from.len() != to.len() {
        return Ok(false);
    }
    for i in 0..from.len() {
        if !is_assignable_type(alloc, program, method, &from[i], &to[i])? {
            return Ok(false);
        }
    }
    Ok(true)
}

/// What two ways leave on the stack, place by place, in a body of this method; None where the stacks have
/// two depths, or do not agree in a place.
pub fn joined_stacks(
    alloc: Global,
    program: &Program,
    method: &MethodDef,
    first: &[StackType],
    second: &[StackType],
) -> Result<Option<Items<StackType>>, NoMemory>
    requires { HasTypes program.now }
    ensures { IfOk result (λ found. found ≡ joined_stacks (view_of program.now method.now) first.now second.now) }
{
    if first.len() != second.len() {
        return Ok(None);
    }
    let mut both: Items<StackType> = Items::new(alloc);
    for i in 0..first.len() {
        match joined(alloc, program, method, &first[i], &second[i])? {
            Some(kind) => put(&mut both, kind)?,
            None => return Ok(None),
        }
    }
    Ok(Some(both))
}

// Puts what stands in a place at the end of a list.
pub(crate) fn put(all: &mut Items<StackType>, kind: StackType) -> Result<(), NoMemory>
    ensures { OnOk result (all.new ≡ all.old ++ kind ∷ []) }
{
    all.push(kind).map_err(|_| NoMemory)
}
