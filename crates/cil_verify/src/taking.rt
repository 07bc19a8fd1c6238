// Takes operands from the top of a stack, each of which has to pass a test, and puts others there.
ghost use Rattle.std.specs.Prelude.{◌≡◌, [], ◌∷◌, reverse, true, MatchOption, IfOk, OnOk};
ghost use Rattle.il_model.specs.declared.method.MethodDef.{MethodDef};
ghost use Rattle.il_model.specs.ClassRules.{HasTypes};
ghost use Rattle.cil_verify.specs.Places.{view_of};
ghost use Rattle.cil_verify.specs.Fits.{is_int32, is_number, is_length, is_object, is_vector, fits, fits_place, points_to, is_object_of};
ghost use Rattle.cil_verify.specs.Admits.{take_one, may_test, is_called_on, may_be_read};
ghost use Rattle.cil_verify.specs.Taking.{Takes};

use crate::admitting::{is_called_on, may_be_read, may_test};
use crate::fitting::fits;
use crate::objects::{fits_place, is_object_of, is_vector};
use crate::operands::{is_int32, is_length, is_number, is_object, points_to};
use cil_flow::StackType;
use il_model::{MRef, MethodDef, PType, Program};
use mn_outside::NoMemory;
use sqlite_items::Items;
use std::alloc::Global;
use type_tree::TExpr;

/// Takes the operand on top, if there is one.
pub(crate) fn take(stack: &mut Items<StackType>) -> Option<StackType>
    ensures { MatchOption result (reverse stack.old ≡ []) (λ top. reverse stack.old ≡ top ∷ reverse stack.new) }
{
    stack.pop()
}

/// Puts an operand on top.
pub(crate) fn push(stack: &mut Items<StackType>, top: StackType) -> Result<(), NoMemory>
    ensures { OnOk result (reverse stack.new ≡ top ∷ reverse stack.old) }
{
    stack.push(top).map_err(|_| NoMemory)
}

/// Takes any operand.
#[tactic(auto, using(crate::proofs::TakingLemmas::takes_none, crate::proofs::TakingLemmas::takes_top))]
pub(crate) fn take_any(stack: &mut Items<StackType>) -> bool
    ensures { Takes (take_one (λ _. true)) result stack.old stack.new }
{
    take(stack).is_some()
}

/// Takes an int32.
#[tactic(auto, using(crate::proofs::TakingLemmas::takes_none, crate::proofs::TakingLemmas::takes_top))]
pub(crate) fn take_int32(stack: &mut Items<StackType>) -> bool
    ensures { Takes (take_one is_int32) result stack.old stack.new }
{
    match take(stack) {
        Some(top) => is_int32(&top),
        None => false,
    }
}

/// Takes an int32, an int64 or a native int.
#[tactic(auto, using(crate::proofs::TakingLemmas::takes_none, crate::proofs::TakingLemmas::takes_top))]
pub(crate) fn take_number(stack: &mut Items<StackType>) -> bool
    ensures { Takes (take_one is_number) result stack.old stack.new }
{
    match take(stack) {
        Some(top) => is_number(&top),
        None => false,
    }
}

/// Takes what may be a vector's length.
#[tactic(auto, using(crate::proofs::TakingLemmas::takes_none, crate::proofs::TakingLemmas::takes_top))]
pub(crate) fn take_length(stack: &mut Items<StackType>) -> bool
    ensures { Takes (take_one is_length) result stack.old stack.new }
{
    match take(stack) {
        Some(top) => is_length(&top),
        None => false,
    }
}

/// Takes null, a value of a reference type, or a boxed form.
#[tactic(auto, using(crate::proofs::TakingLemmas::takes_none, crate::proofs::TakingLemmas::takes_top))]
pub(crate) fn take_object(program: &Program, stack: &mut Items<StackType>) -> bool
    ensures { Takes (take_one (is_object program.now)) result stack.old stack.new }
{
    match take(stack) {
        Some(top) => is_object(program, &top),
        None => false,
    }
}

/// Takes what `brtrue` and `brfalse` test.
#[tactic(auto, using(crate::proofs::TakingLemmas::takes_none, crate::proofs::TakingLemmas::takes_top))]
pub(crate) fn take_tested(program: &Program, stack: &mut Items<StackType>) -> bool
    ensures { (method : MethodDef) → Takes (take_one (may_test (view_of program.now method))) result stack.old stack.new }
{
    match take(stack) {
        Some(top) => may_test(program, &top),
        None => false,
    }
}

/// Takes an operand that fits some vector type, in a body of this method.
#[tactic(auto, using(crate::proofs::TakingLemmas::takes_none, crate::proofs::TakingLemmas::takes_top))]
pub(crate) fn take_any_vector(
    program: &Program,
    method: &MethodDef,
    stack: &mut Items<StackType>,
) -> bool
    ensures { Takes (take_one (is_vector (view_of program.now method.now))) result stack.old stack.new }
{
    match take(stack) {
        Some(top) => is_vector(program, method, &top),
        None => false,
    }
}

/// Takes a pointer to just this type.
#[tactic(auto, using(crate::proofs::TakingLemmas::takes_none, crate::proofs::TakingLemmas::takes_top))]
pub(crate) fn take_pointer(kind: &TExpr, stack: &mut Items<StackType>) -> bool
    ensures { Takes (take_one (points_to kind.now)) result stack.old stack.new }
{
    match take(stack) {
        Some(top) => points_to(kind, &top),
        None => false,
    }
}

/// Takes an operand that fits the type, in a body of this method.
#[tactic(auto, using(crate::proofs::TakingLemmas::takes_none, crate::proofs::TakingLemmas::takes_top))]
pub(crate) fn take_fitting(
    alloc: Global,
    program: &Program,
    method: &MethodDef,
    kind: &TExpr,
    stack: &mut Items<StackType>,
) -> Result<bool, NoMemory>
    requires { HasTypes program.now }
    ensures { IfOk result (λ admitted. Takes (take_one (fits (view_of program.now method.now) kind.now)) admitted stack.old stack.new) }
{
    match take(stack) {
        Some(top) => Ok(fits(alloc, program, method, kind, &top)?),
        None => Ok(false),
    }
}

/// Takes an operand that fits the place, in a body of this method.
#[tactic(auto, using(crate::proofs::TakingLemmas::takes_none, crate::proofs::TakingLemmas::takes_top))]
pub(crate) fn take_for_place(
    alloc: Global,
    program: &Program,
    method: &MethodDef,
    place: &PType,
    stack: &mut Items<StackType>,
) -> Result<bool, NoMemory>
    requires { HasTypes program.now }
    ensures { IfOk result (λ admitted. Takes (take_one (fits_place (view_of program.now method.now) place.now)) admitted stack.old stack.new) }
{
    match take(stack) {
        Some(top) => Ok(fits_place(alloc, program, method, place, &top)?),
        None => Ok(false),
    }
}

/// Takes an object of the class that a member is named with, in a body of this method.
#[tactic(auto, using(crate::proofs::TakingLemmas::takes_none, crate::proofs::TakingLemmas::takes_top))]
pub(crate) fn take_object_of(
    alloc: Global,
    program: &Program,
    method: &MethodDef,
    class: &TExpr,
    stack: &mut Items<StackType>,
) -> Result<bool, NoMemory>
    requires { HasTypes program.now }
    ensures { IfOk result (λ admitted. Takes (take_one (is_object_of (view_of program.now method.now) class.now)) admitted stack.old stack.new) }
{
    match take(stack) {
        Some(top) => Ok(is_object_of(alloc, program, method, class, &top)?),
        None => Ok(false),
    }
}

/// Takes the object of `callvirt`, in a body of this method.
#[tactic(auto, using(crate::proofs::TakingLemmas::takes_none, crate::proofs::TakingLemmas::takes_top))]
pub(crate) fn take_called_on(
    alloc: Global,
    program: &Program,
    method: &MethodDef,
    named: &MRef,
    stack: &mut Items<StackType>,
) -> Result<bool, NoMemory>
    requires { HasTypes program.now }
    ensures { IfOk result (λ admitted. Takes (take_one (is_called_on (view_of program.now method.now) named.now)) admitted stack.old stack.new) }
{
    match take(stack) {
        Some(top) => Ok(is_called_on(alloc, program, method, named, &top)?),
        None => Ok(false),
    }
}

/// Takes what a field of the class may be read from, in a body of this method.
#[tactic(auto, using(crate::proofs::TakingLemmas::takes_none, crate::proofs::TakingLemmas::takes_top))]
pub(crate) fn take_read(
    alloc: Global,
    program: &Program,
    method: &MethodDef,
    class: &TExpr,
    stack: &mut Items<StackType>,
) -> Result<bool, NoMemory>
    requires { HasTypes program.now }
    ensures { IfOk result (λ admitted. Takes (take_one (may_be_read (view_of program.now method.now) class.now)) admitted stack.old stack.new) }
{
    match take(stack) {
        Some(top) => Ok(may_be_read(alloc, program, method, class, &top)?),
        None => Ok(false),
    }
}
