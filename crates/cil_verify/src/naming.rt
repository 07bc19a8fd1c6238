// The members that an instruction names, and whether they may be named so.
ghost use Rattle.std.specs.Prelude.{◌≡◌, ◌&&◌, not, codes, is_none, bytes_eq};
ghost use Rattle.std.specs.Option.{option_copied};
ghost use Rattle.il_model.specs.declared.method.MethodDef.{MethodDef};
ghost use Rattle.il_model.specs.Find.{class_of, takes_object};
ghost use Rattle.il_model.specs.Found.{method_found, field_found};
ghost use Rattle.il_model.specs.Entries.{has_slot};
ghost use Rattle.il_model.specs.Layouts.{fields_in};
ghost use Rattle.il_model.specs.ClassRules.{is_abstract_shape};
ghost use Rattle.cil_verify.specs.Places.{view_of};
ghost use Rattle.cil_verify.specs.Members.{called, field_named, is_shape_of, may_be_called, is_instance, is_constructor, is_abstract_kind, is_abstract_class, may_be_made, is_static_field, is_instance_field, names_well};

use il_model::{
    ClassKind, FRef, FieldDef, MRef, MethodDef, Op, Program, Shape, class_of, find_field,
    find_method,
};
use mn_outside::Name;
use type_tree::TExpr;

/// Whether the member that an instruction names is there, and may be named so. No memory is taken.
pub fn names_well(program: &Program, op: &Op) -> bool
    ensures { (method : MethodDef) → result ≡ names_well (view_of program.now method) op.now }
{
    match op {
        Op::Call(m) => names_callable(program, m),
        Op::Callvirt(m) => names_instance(program, m),
        Op::Constrained(_, m) => names_slotted(program, m),
        Op::Newobj(m) => may_be_made(program, m),
        Op::Ldfld(f) | Op::Stfld(f) | Op::Ldflda(f) => names_instance_field(program, f),
        Op::Ldsfld(f) | Op::Stsfld(f) | Op::Ldsflda(f) => names_static_field(program, f),
        _ => true,
    }
}

// The number of the method that is named, if its class has it.
fn method_found(program: &Program, named: &MRef) -> Option<u16>
    ensures { result ≡ method_found program.now named.now }
{
    find_method(program, named)
}

// The place of the field that is named, if its class has it.
fn field_found(program: &Program, named: &FRef) -> Option<u16>
    ensures { result ≡ field_found program.now named.now }
{
    find_field(program, named)
}

// The definition of the method that is named.
pub(crate) fn called<'a>(program: &'a Program, named: &MRef) -> Option<&'a MethodDef>
    ensures { option_copied result ≡ called program.now named.now }
{
    match method_found(program, named) {
        Some(number) => program.methods.as_slice().get(number as usize),
        None => None,
    }
}

// The fields of the class that a type names.
pub(crate) fn fields_of<'a>(program: &'a Program, kind: &TExpr) -> &'a [FieldDef]
    ensures { result.now ≡ fields_in (class_of program.now kind.now) }
{
    match class_of(program, kind) {
        Some(class) => class.fields.as_slice(),
        None => &[],
    }
}

// The definition of the field that is named.
fn field_named<'a>(program: &'a Program, named: &FRef) -> Option<&'a FieldDef>
    ensures { option_copied result ≡ field_named program.now named.now }
{
    match field_found(program, named) {
        Some(place) => fields_of(program, &named.class).get(place as usize),
        None => None,
    }
}

fn names_callable(program: &Program, named: &MRef) -> bool
    ensures { result ≡ is_shape_of may_be_called (called program.now named.now) }
{
    match called(program, named) {
        Some(method) => may_be_called(method.shape),
        None => false,
    }
}

fn names_instance(program: &Program, named: &MRef) -> bool
    ensures { result ≡ is_shape_of takes_object (called program.now named.now) }
{
    match called(program, named) {
        Some(method) => takes_object(method.shape),
        None => false,
    }
}

fn names_slotted(program: &Program, named: &MRef) -> bool
    ensures { result ≡ is_shape_of has_slot (called program.now named.now) }
{
    match called(program, named) {
        Some(method) => has_slot(method.shape),
        None => false,
    }
}

fn names_instance_field(program: &Program, named: &FRef) -> bool
    ensures { result ≡ is_instance_field (field_named program.now named.now) }
{
    match field_named(program, named) {
        Some(field) => !field.fixed,
        None => false,
    }
}

fn names_static_field(program: &Program, named: &FRef) -> bool
    ensures { result ≡ is_static_field (field_named program.now named.now) }
{
    match field_named(program, named) {
        Some(field) => field.fixed,
        None => false,
    }
}

// Whether a method that is named is a constructor of a class that is not abstract.
fn may_be_made(program: &Program, named: &MRef) -> bool
    ensures { result ≡ may_be_made program.now named.now }
{
    names_constructor(program, named) && !is_abstract_class(program, &named.class)
}

fn names_constructor(program: &Program, named: &MRef) -> bool
    ensures { result ≡ is_constructor (called program.now named.now) }
{
    match called(program, named) {
        Some(method) => is_instance(method.shape)
            && is_named_ctor(&method.name)
            && method.result.is_none(),
        None => false,
    }
}

fn is_named_ctor(name: &Name) -> bool
    ensures { result ≡ bytes_eq name.now (codes ".ctor") }
{
    name.text() == ".ctor"
}

fn is_abstract_class(program: &Program, kind: &TExpr) -> bool
    ensures { result ≡ is_abstract_class (class_of program.now kind.now) }
{
    match class_of(program, kind) {
        Some(class) => is_abstract_kind(class.kind),
        None => false,
    }
}

fn is_abstract_kind(kind: ClassKind) -> bool
    ensures { result ≡ is_abstract_kind kind }
{
    match kind {
        ClassKind::Abstract => true,
        ClassKind::Plain | ClassKind::Interface | ClassKind::Struct | ClassKind::Delegate => false,
    }
}

// What `call` may name.
fn may_be_called(shape: Shape) -> bool
    ensures { result ≡ may_be_called shape }
{
    match shape {
        Shape::Abstract => false,
        Shape::Fixed | Shape::Instance | Shape::Virtual | Shape::NewSlot => true,
    }
}

fn is_instance(shape: Shape) -> bool
    ensures { result ≡ is_instance shape }
{
    match shape {
        Shape::Instance => true,
        Shape::Fixed | Shape::Virtual | Shape::NewSlot | Shape::Abstract => false,
    }
}

pub(crate) fn takes_object(shape: Shape) -> bool
    ensures { result ≡ takes_object shape }
{
    match shape {
        Shape::Fixed => false,
        Shape::Instance | Shape::Virtual | Shape::NewSlot | Shape::Abstract => true,
    }
}

fn has_slot(shape: Shape) -> bool
    ensures { result ≡ has_slot shape }
{
    match shape {
        Shape::Fixed | Shape::Instance => false,
        Shape::Virtual | Shape::NewSlot | Shape::Abstract => true,
    }
}
