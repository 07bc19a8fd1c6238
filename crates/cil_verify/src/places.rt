// What instructions on arguments and locals leave on the stack.
ghost use Rattle.std.specs.Prelude.{◌≡◌, ◌∷◌, slice_get, reverse, option_and_then, IfOk};
ghost use Rattle.std.specs.Option.{option_copied};
ghost use Rattle.il_model.specs.Bases.{own_of};
ghost use Rattle.il_model.specs.Kinds.{is_struct_class};
ghost use Rattle.il_model.specs.ClassRules.{HasTypes};
ghost use Rattle.cil_verify.specs.Places.{view_of, locals_of, object_place, argument_places, addressed};
ghost use Rattle.cil_verify.specs.Admits.{load_place, address_of, store_place};
ghost use Rattle.cil_verify.specs.Taking.{Leaves};

use crate::objects::stack_of_place;
use crate::taking::{push, take_for_place};
use cil_flow::StackType;
use il_model::{MethodDef, PType, Program};
use mn_outside::NoMemory;
use sqlite_items::Items;
use std::alloc::Global;

/// Leaves what a place holds; where there is no such place, nothing is admitted.
pub(crate) fn load(
    alloc: Global,
    place: Option<&PType>,
    stack: &mut Items<StackType>,
) -> Result<bool, NoMemory>
    ensures { IfOk result (λ admitted. Leaves admitted stack.new (load_place (option_copied place.entry) (reverse stack.old))) }
{
    let Some(place) = place else {
        return Ok(false);
    };
    push(stack, stack_of_place(alloc, place)?)?;
    Ok(true)
}

/// Leaves the address of a place that holds no pointer.
pub(crate) fn load_address(
    alloc: Global,
    place: Option<&PType>,
    stack: &mut Items<StackType>,
) -> Result<bool, NoMemory>
    ensures { IfOk result (λ admitted. Leaves admitted stack.new
        (address_of (option_and_then addressed (option_copied place.entry)) (reverse stack.old))) }
{
    match place {
        Some(PType::Value(kind)) => {
            push(stack, StackType::Pointer(kind.copy(alloc)?))?;
            Ok(true)
        }
        Some(PType::Pointer(_) | PType::Native) | None => Ok(false),
    }
}

/// Takes what fits a place, in a body of this method.
pub(crate) fn store(
    alloc: Global,
    program: &Program,
    method: &MethodDef,
    place: Option<&PType>,
    stack: &mut Items<StackType>,
) -> Result<bool, NoMemory>
    requires { HasTypes program.now }
    ensures { IfOk result (λ admitted. Leaves admitted stack.new
        (store_place (view_of program.now method.now) (option_copied place.entry) (reverse stack.old))) }
{
    let Some(place) = place else {
        return Ok(false);
    };
    Ok(take_for_place(alloc, program, method, place, stack)?)
}
