// Which virtual method has a name and signature.
ghost use Rattle.std.specs.Prelude.{◌≡◌, IfOk};
ghost use Rattle.std.specs.Option.{option_copied};
ghost use Rattle.il_model.specs.Entries.{has_slot};
ghost use Rattle.il_model.specs.Found.{method_at};
ghost use Rattle.il_model.specs.Signatures.{signature_at};
ghost use Rattle.il_model.specs.Slots.{own_methods_of, is_match};
ghost use Rattle.type_inst.specs.Matching.{own_match, number_matched};

use crate::signatures::same_signature;
use il_model::{MethodDef, Program, Shape, class_of};
use mn_outside::NoMemory;
use std::alloc::Global;
use type_tree::TExpr;

// The method with this number.
pub(crate) fn method_at(program: &Program, number: u16) -> Option<&MethodDef>
    ensures { option_copied result ≡ method_at program.now number }
{
    program.methods.as_slice().get(number as usize)
}

// Whether a method of this shape has a slot.
pub(crate) fn has_slot(shape: Shape) -> bool
    ensures { result ≡ has_slot shape }
{
    match shape {
        Shape::Fixed | Shape::Instance => false,
        Shape::Virtual | Shape::NewSlot | Shape::Abstract => true,
    }
}

/// The numbers of the methods that the class of a type has itself, in order of the text.
pub fn own_methods_of<'a>(program: &'a Program, kind: &TExpr) -> &'a [u16]
    ensures { result.now ≡ own_methods_of program.now kind.now }
{
    match class_of(program, kind) {
        Some(class) => class.methods.as_slice(),
        None => &[],
    }
}

/// The number of the virtual method with the name and signature of a method of the first type's class: the
/// first in the text of the first of these types that has one.
pub fn nearest_match(
    alloc: Global,
    program: &Program,
    kind: &TExpr,
    method: &MethodDef,
    kinds: &[TExpr],
) -> Result<Option<u16>, NoMemory>
    ensures { IfOk result (λ found. found ≡ number_matched program.now (signature_at kind.now method.now) kinds.now) }
{
    for each in kinds {
        let found = own_match(alloc, program, kind, method, each)?;
        if let Some(number) = found {
            return Ok(Some(number));
        }
    }
    Ok(None)
}

// The first of the own methods of one type's class.
fn own_match(
    alloc: Global,
    program: &Program,
    kind: &TExpr,
    method: &MethodDef,
    each: &TExpr,
) -> Result<Option<u16>, NoMemory>
    ensures { IfOk result (λ found. found ≡ own_match program.now (signature_at kind.now method.now) each.now) }
{
    for number in own_methods_of(program, each) {
        if is_match(alloc, program, kind, method, each, *number)? {
            return Ok(Some(*number));
        }
    }
    Ok(None)
}

// Whether the method with this number, of the class of `each`, is virtual and has that name and signature.
fn is_match(
    alloc: Global,
    program: &Program,
    kind: &TExpr,
    method: &MethodDef,
    each: &TExpr,
    number: u16,
) -> Result<bool, NoMemory>
    ensures { IfOk result (λ is. is ≡ is_match (signature_at kind.now method.now) each.now (method_at program.now number)) }
{
    let Some(other) = method_at(program, number) else {
        return Ok(false);
    };
    if !has_slot(other.shape) {
        return Ok(false);
    }
    same_signature(alloc, kind, method, each, other)
}
