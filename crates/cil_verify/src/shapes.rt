// The rule on the shape of a method.
ghost use Rattle.std.specs.Prelude.{◌≡◌, ◌++◌, IfOk, slice_get};
ghost use Rattle.std.specs.List.{list_any, list_all};
ghost use Rattle.std.specs.Bool.{Decides};
ghost use Rattle.il_model.specs.Bases.{own_of};
ghost use Rattle.il_model.specs.Slots.{is_interface_class};
ghost use Rattle.il_model.specs.Methods.{type_of_place, types_of_places};
ghost use Rattle.il_model.specs.ClassRules.{HasTypes};
ghost use Rattle.cil_verify.specs.Places.{locals_of};
ghost use Rattle.cil_verify.specs.WellTyped.{is_native_place, has_instructions, has_its_body, suits_class, is_not_refused, is_admitted_main, HasShape};

use crate::bounds::has_counts;
use crate::class_kinds::{is_abstract_shape, is_interface_kind};
use crate::heights::class_at;
use crate::hierarchy::own_of;
use crate::limits::is_admitted;
use il_model::{Body, MethodDef, PType, Program};
use mn_outside::NoMemory;
use std::alloc::Global;
use type_tree::{Head, TExpr};

/// Whether the shape of the method with this number goes with its class and its body, and, if it is Main,
/// whether its class and the types of its locals are admitted.
pub(crate) fn has_shape(
    alloc: Global,
    program: &Program,
    number: u16,
    method: &MethodDef,
) -> Result<bool, NoMemory>
    requires { HasTypes program.now }
    ensures { IfOk result (λ holds. Decides holds (HasShape program.now number method.now)) }
{
    if !suits_class(program, method) {
        return Ok(false);
    }
    if has_native(method) {
        return Ok(false);
    }
    if !has_its_body(method) {
        return Ok(false);
    }
    if number != program.main {
        return Ok(true);
    }
    is_admitted_main(alloc, program, method)
}

// In an interface every method is abstract.
fn suits_class(program: &Program, method: &MethodDef) -> bool
    ensures { result ≡ suits_class program.now method.now }
{
    if is_in_interface(program, method) {
        is_abstract_shape(method.shape)
    } else {
        true
    }
}

fn is_in_interface(program: &Program, method: &MethodDef) -> bool
    ensures { result ≡ is_interface_class (slice_get program.now.classes method.now.owner) }
{
    match class_at(program, method.owner) {
        Some(class) => is_interface_kind(class.kind),
        None => false,
    }
}

// Whether a parameter or a local is a native int.
fn has_native(method: &MethodDef) -> bool
    ensures { result ≡ list_any is_native_place (method.now.params ++ locals_of method.now.body) }
{
    if is_any_native(method.params.as_slice()) {
        return true;
    }
    has_native_local(&method.body)
}

fn has_native_local(body: &Option<Body>) -> bool
    ensures { result ≡ list_any is_native_place (locals_of body.now) }
{
    match body {
        Some(body) => is_any_native(body.locals.as_slice()),
        None => false,
    }
}

fn is_any_native(places: &[PType]) -> bool
    ensures { result ≡ list_any is_native_place places.now }
{
    for place in places {
        if is_native_place(place) {
            return true;
        }
    }
    false
}

fn is_native_place(place: &PType) -> bool
    ensures { result ≡ is_native_place place.now }
{
    match place {
        PType::Value(_) | PType::Pointer(_) => false,
        PType::Native => true,
    }
}

// An abstract method has no body, and every other has one with an instruction.
fn has_its_body(method: &MethodDef) -> bool
    ensures { result ≡ has_its_body method.now }
{
    if is_abstract_shape(method.shape) {
        method.body.is_none()
    } else {
        has_instructions(&method.body)
    }
}

fn has_instructions(body: &Option<Body>) -> bool
    ensures { result ≡ has_instructions body.now }
{
    match body {
        Some(body) => body.code.len() > 0,
        None => false,
    }
}

// Whether the class of Main and the types of its locals are admitted.
fn is_admitted_main(alloc: Global, program: &Program, method: &MethodDef) -> Result<bool, NoMemory>
    requires { HasTypes program.now }
    ensures { IfOk result (λ admitted. admitted ≡ is_admitted_main program.now method.now) }
{
    let own = own_class(alloc, program, method.owner)?;
    if !is_admitted(alloc, program, &own)? {
        return Ok(false);
    }
    match &method.body {
        Some(body) => are_not_refused(alloc, program, body.locals.as_slice()),
        None => Ok(true),
    }
}

// The class with this number, applied to its own variables.
fn own_class(alloc: Global, program: &Program, number: u16) -> Result<TExpr, NoMemory>
    requires { HasTypes program.now }
    ensures { IfOk result (λ own. own ≡ own_of program.now number) }
{
    match class_at(program, number) {
        Some(class) => own_of(alloc, number, class),
        None => Ok(TExpr::plain(alloc, Head::Class(number))),
    }
}

fn are_not_refused(alloc: Global, program: &Program, places: &[PType]) -> Result<bool, NoMemory>
    requires { HasTypes program.now }
    ensures { IfOk result (λ fine. fine ≡ list_all (is_not_refused program.now) (types_of_places places.now)) }
{
    for place in places {
        if !is_place_admitted(alloc, program, place)? {
            return Ok(false);
        }
    }
    Ok(true)
}

fn is_place_admitted(alloc: Global, program: &Program, place: &PType) -> Result<bool, NoMemory>
    requires { HasTypes program.now }
    ensures { IfOk result (λ fine. fine ≡ list_all (is_not_refused program.now) (type_of_place place.now)) }
{
    match place {
        PType::Value(kind) | PType::Pointer(kind) => is_not_refused(alloc, program, kind),
        PType::Native => Ok(true),
    }
}

// Whether a type is admitted. One with a wrong number of arguments is passed over.
fn is_not_refused(alloc: Global, program: &Program, kind: &TExpr) -> Result<bool, NoMemory>
    requires { HasTypes program.now }
    ensures { IfOk result (λ fine. fine ≡ is_not_refused program.now kind.now) }
{
    if !has_counts(program, kind) {
        return Ok(true);
    }
    is_admitted(alloc, program, kind)
}
