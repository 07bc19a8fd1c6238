// How the members that an instruction names are found.
ghost use Rattle.std.specs.Prelude.{◌≡◌, ◌<◌, ◌≤◌, ◌↔◌, IsTrue, IfNone, IfSome, length};
ghost use Rattle.std.specs.Option.{option_copied};
ghost use Rattle.il_model.specs.Find.{class_number_of, class_of, takes_object, IsMethodNamed, IsFieldNamed, HasMethod, FindsMethod, FindsField, FindsFieldIn, FirstOrNone, HoldsForNone, IsFirst};

use crate::class::{ClassDef, FieldDef};
use crate::front::front_of;
use crate::member::{FRef, MRef};
use crate::method::{MethodDef, PType, Shape};
use crate::program::Program;
use mn_outside::Name;
use type_tree::{Head, TExpr, TNode};

/// The number of the method that is named: the first of the class's own methods with this name, as many
/// type variables as type arguments are given, just these written types, and an object exactly where
/// `instance` is written. None where the class has none. No memory is taken.
pub fn find_method(program: &Program, named: &MRef) -> Option<u16>
    ensures { FindsMethod program.now named.now (class_of program.now named.now.class) result }
{
    match class_of(program, &named.class) {
        Some(class) => first_named(program, named, class.methods.as_slice()),
        None => None,
    }
}

/// The place of the field that is named among the class's own fields, of which the first 65,536 are
/// looked at: the first with this name and this written type. None where there is none. No memory is taken.
pub fn find_field(program: &Program, named: &FRef) -> Option<u16>
    ensures { FindsField named.now (class_of program.now named.now.class) result }
{
    match class_of(program, &named.class) {
        Some(class) => own_field(named, class, 65536),
        None => None,
    }
}

// The place of the field that is named among the first so many of this class.
fn own_field(named: &FRef, class: &ClassDef, most: usize) -> Option<u16>
    requires { most ≤ 65536 }
    ensures { FindsFieldIn most named.now class.now result }
{
    match first_field(named, front_of(class.fields.as_slice(), most)) {
        Some(place) => Some(place as u16),
        None => None,
    }
}

/// The definition of the class that a type names; None where it names none, or none of the program's. No
/// memory is taken.
pub fn class_of<'a>(program: &'a Program, kind: &TExpr) -> Option<&'a ClassDef>
    ensures { option_copied result ≡ class_of program.now kind.now }
{
    match kind.top() {
        TNode::Node(Head::Class(number), _) => program.classes.as_slice().get(*number as usize),
        TNode::Node(Head::Int32 | Head::Int64 | Head::Bool | Head::Vector, _) => None,
        TNode::ClassVar(_) | TNode::MethodVar(_) => None,
    }
}

// The first of these methods that is named.
fn first_named(program: &Program, named: &MRef, numbers: &[u16]) -> Option<u16>
    ensures none { IfNone result (HoldsForNone (HasMethod program.now named.now) numbers.now) }
    ensures some { IfSome result (λ number. IsFirst (HasMethod program.now named.now) numbers.now number) }
{
    for number in numbers {
        if has_method(program, named, *number) {
            return Some(*number);
        }
    }
    None
}

fn has_method(program: &Program, named: &MRef, number: u16) -> bool
    ensures { IsTrue result ↔ HasMethod program.now named.now number }
{
    match program.methods.as_slice().get(number as usize) {
        Some(method) => is_method_named(named, method),
        None => false,
    }
}

fn is_method_named(named: &MRef, method: &MethodDef) -> bool
    ensures { IsTrue result ↔ IsMethodNamed named.now method.now }
{
    if !same_name(&method.name, &named.name) {
        return false;
    }
    if method.vars.len() != named.args.len() {
        return false;
    }
    if !same_params(method.params.as_slice(), named.params.as_slice()) {
        return false;
    }
    if !same_result(&method.result, &named.result) {
        return false;
    }
    takes_object(method.shape) == named.instance
}

// Whether a method of this shape takes an object.
fn takes_object(shape: Shape) -> bool
    ensures { result ≡ takes_object shape }
{
    match shape {
        Shape::Fixed => false,
        Shape::Instance | Shape::Virtual | Shape::NewSlot | Shape::Abstract => true,
    }
}

fn first_field(named: &FRef, fields: &[FieldDef]) -> Option<usize>
    ensures within { IfSome result (λ place. place < length fields.now) }
    ensures found { FirstOrNone (IsFieldNamed named.now) fields.now result }
{
    for (i, field) in fields.iter().enumerate() {
        if is_field_named(named, field) {
            return Some(i);
        }
    }
    None
}

fn is_field_named(named: &FRef, field: &FieldDef) -> bool
    ensures { IsTrue result ↔ IsFieldNamed named.now field.now }
{
    same_name(&field.name, &named.name) && field.kind.same(&named.kind)
}

fn same_name(first: &Name, second: &Name) -> bool
    ensures { IsTrue result ↔ (first.now ≡ second.now) }
{
    first.text() == second.text()
}

/// Whether the results are equal. No memory is taken.
pub fn same_result(first: &Option<TExpr>, second: &Option<TExpr>) -> bool
    ensures { IsTrue result ↔ (first.now ≡ second.now) }
{
    match (first, second) {
        (Some(kind), Some(other)) => kind.same(other),
        (None, None) => true,
        (Some(_), None) | (None, Some(_)) => false,
    }
}

fn same_param(first: &PType, second: &PType) -> bool
    ensures { IsTrue result ↔ (first.now ≡ second.now) }
{
    match (first, second) {
        (PType::Value(kind), PType::Value(other)) => kind.same(other),
        (PType::Pointer(kind), PType::Pointer(other)) => kind.same(other),
        (PType::Native, PType::Native) => true,
        (PType::Value(_) | PType::Pointer(_) | PType::Native, _) => false,
    }
}

/// Whether the lists are equal, parameter by parameter. No memory is taken.
pub fn same_params(first: &[PType], second: &[PType]) -> bool
    ensures { IsTrue result ↔ (first.now ≡ second.now) }
{
    if first.len() != second.len() {
        return false;
    }
    for i in 0..first.len() {
        if !same_param(&first[i], &second[i]) {
            return false;
        }
    }
    true
}
