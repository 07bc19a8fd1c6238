// Types and members as the entries need them.
ghost use Rattle.std.specs.Prelude.{◌≡◌};
ghost use Rattle.std.specs.Option.{option_copied};
ghost use Rattle.il_model.specs.Kinds.{is_reference, is_reference_kind};
ghost use Rattle.il_model.specs.Find.{class_of};
ghost use Rattle.il_model.specs.Found.{method_at, method_found, field_found};
ghost use Rattle.il_model.specs.Entries.{arguments_of, has_slot, has_slot_in};

use il_model::{
    ClassDef, ClassKind, FRef, MRef, MethodDef, Program, Shape, find_field, find_method,
};
use type_tree::{Head, TExpr, TNode};

// The definition of the class that a type names.
fn class_of<'a>(program: &'a Program, kind: &TExpr) -> Option<&'a ClassDef>
    ensures { option_copied result ≡ class_of program.now kind.now }
{
    match kind.top() {
        TNode::Node(Head::Class(number), _) => program.classes.as_slice().get(*number as usize),
        TNode::Node(Head::Int32 | Head::Int64 | Head::Bool | Head::Vector, _) => None,
        TNode::ClassVar(_) | TNode::MethodVar(_) => None,
    }
}

fn is_reference_kind(kind: ClassKind) -> bool
    ensures { result ≡ is_reference_kind kind }
{
    match kind {
        ClassKind::Plain | ClassKind::Abstract | ClassKind::Interface | ClassKind::Delegate => true,
        ClassKind::Struct => false,
    }
}

/// Whether a type is a reference type: a vector, or a class that is no struct. No memory is taken.
pub(crate) fn is_reference(program: &Program, kind: &TExpr) -> bool
    ensures { result ≡ is_reference program.now kind.now }
{
    match kind.top() {
        TNode::Node(Head::Vector, _) => true,
        TNode::Node(Head::Class(_), _) => match class_of(program, kind) {
            Some(class) => is_reference_kind(class.kind),
            None => false,
        },
        TNode::Node(Head::Int32 | Head::Int64 | Head::Bool, _) => false,
        TNode::ClassVar(_) | TNode::MethodVar(_) => false,
    }
}

/// The arguments of a type; a variable has none. No memory is taken.
pub(crate) fn arguments_of(kind: &TExpr) -> &[TExpr]
    ensures { result.now ≡ arguments_of kind.now }
{
    match kind.top() {
        TNode::Node(_, parts) => parts.as_slice(),
        TNode::ClassVar(_) | TNode::MethodVar(_) => &[],
    }
}

/// The number of the method that is named, if its class has it. No memory is taken.
pub(crate) fn method_found(program: &Program, named: &MRef) -> Option<u16>
    ensures { result ≡ method_found program.now named.now }
{
    find_method(program, named)
}

/// The place of the field that is named, if its class has it. No memory is taken.
pub(crate) fn field_found(program: &Program, named: &FRef) -> Option<u16>
    ensures { result ≡ field_found program.now named.now }
{
    find_field(program, named)
}

/// The method with this number, if there is one. No memory is taken.
pub(crate) fn method_at(program: &Program, number: u16) -> Option<&MethodDef>
    ensures { option_copied result ≡ method_at program.now number }
{
    program.methods.as_slice().get(number as usize)
}

fn has_slot(shape: Shape) -> bool
    ensures { result ≡ has_slot shape }
{
    match shape {
        Shape::Fixed | Shape::Instance => false,
        Shape::Virtual | Shape::NewSlot | Shape::Abstract => true,
    }
}

/// Whether the method with this number has a slot. No memory is taken.
pub(crate) fn has_slot_at(program: &Program, number: u16) -> bool
    ensures { result ≡ has_slot_in (method_at program.now number) }
{
    match method_at(program, number) {
        Some(method) => has_slot(method.shape),
        None => false,
    }
}
