// Members of the program that instructions name.
ghost use Rattle.std.specs.Prelude.{◌≡◌};
ghost use Rattle.std.specs.Option.{option_copied};
ghost use Rattle.il_model.specs.Found.{method_at, method_found, field_found};
ghost use Rattle.il_model.specs.Entries.{has_slot, has_slot_in};
ghost use Rattle.unshared.specs.Silent.{Gives, there};

use crate::pause::{Halt, Pause};
use il_model::{FRef, MRef, MethodDef, Program, Shape, find_field, find_method};

/// The number of the method that is named, if its class has it.
pub(crate) fn method_found(program: &Program, named: &MRef) -> Option<u16>
    ensures { result ≡ method_found program.now named.now }
{
    find_method(program, named)
}

/// The place of the field that is named, if its class has it.
pub(crate) fn field_found(program: &Program, named: &FRef) -> Option<u16>
    ensures { result ≡ field_found program.now named.now }
{
    find_field(program, named)
}

/// The method with a number, if there is one.
pub(crate) fn method_at(program: &Program, number: u16) -> Option<&MethodDef>
    ensures { option_copied result ≡ method_at program.now number }
{
    program.methods.as_slice().get(usize::from(number))
}

/// The same, or no rule.
pub(crate) fn method_there(program: &Program, number: u16) -> Result<&MethodDef, Pause>
    ensures { Gives (λ method. method.now) (there (method_at program.now number)) result }
{
    match method_at(program, number) {
        Some(method) => Ok(method),
        None => Err(Pause::Halts(Halt::Stuck)),
    }
}

/// The number of the method that is named, or no rule.
pub(crate) fn method_named(program: &Program, named: &MRef) -> Result<u16, Pause>
    ensures { Gives (λ number. number) (there (method_found program.now named.now)) result }
{
    match method_found(program, named) {
        Some(number) => Ok(number),
        None => Err(Pause::Halts(Halt::Stuck)),
    }
}

/// The place of the field that is named, or no rule.
pub(crate) fn field_named(program: &Program, named: &FRef) -> Result<u16, Pause>
    ensures { Gives (λ place. place) (there (field_found program.now named.now)) result }
{
    match field_found(program, named) {
        Some(place) => Ok(place),
        None => Err(Pause::Halts(Halt::Stuck)),
    }
}

/// Whether a method of this shape has a slot.
pub(crate) fn has_slot(shape: Shape) -> bool
    ensures { result ≡ has_slot shape }
{
    match shape {
        Shape::Fixed | Shape::Instance => false,
        Shape::Virtual | Shape::NewSlot | Shape::Abstract => true,
    }
}

/// Whether the method with a number has a slot.
pub(crate) fn has_slot_at(program: &Program, number: u16) -> bool
    ensures { result ≡ has_slot_in (method_at program.now number) }
{
    match method_at(program, number) {
        Some(method) => has_slot(method.shape),
        None => false,
    }
}
