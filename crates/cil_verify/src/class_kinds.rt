// What the kind of a class says of it.
ghost use Rattle.std.specs.Prelude.{◌≡◌};
ghost use Rattle.il_model.specs.Slots.{is_interface_kind, is_interface};
ghost use Rattle.il_model.specs.ClassRules.{is_delegate_kind, is_base_kind, has_objects, is_abstract_shape};

use il_model::{ClassKind, Program, Shape, class_of};
use type_tree::TExpr;

pub(crate) fn is_delegate_kind(kind: ClassKind) -> bool
    ensures { result ≡ is_delegate_kind kind }
{
    match kind {
        ClassKind::Delegate => true,
        ClassKind::Plain | ClassKind::Abstract | ClassKind::Interface | ClassKind::Struct => false,
    }
}

/// Whether a class of this kind may be a base.
pub(crate) fn is_base_kind(kind: ClassKind) -> bool
    ensures { result ≡ is_base_kind kind }
{
    match kind {
        ClassKind::Plain | ClassKind::Abstract => true,
        ClassKind::Interface | ClassKind::Struct | ClassKind::Delegate => false,
    }
}

pub(crate) fn is_interface_kind(kind: ClassKind) -> bool
    ensures { result ≡ is_interface_kind kind }
{
    match kind {
        ClassKind::Interface => true,
        ClassKind::Plain | ClassKind::Abstract | ClassKind::Struct | ClassKind::Delegate => false,
    }
}

/// Whether a class of this kind has objects of just its own type.
pub(crate) fn has_objects(kind: ClassKind) -> bool
    ensures { result ≡ has_objects kind }
{
    match kind {
        ClassKind::Plain | ClassKind::Struct => true,
        ClassKind::Abstract | ClassKind::Interface | ClassKind::Delegate => false,
    }
}

/// Whether a type is an interface.
pub(crate) fn is_interface(program: &Program, kind: &TExpr) -> bool
    ensures { result ≡ is_interface program.now kind.now }
{
    match class_of(program, kind) {
        Some(class) => is_interface_kind(class.kind),
        None => false,
    }
}

pub(crate) fn is_abstract_shape(shape: Shape) -> bool
    ensures { result ≡ is_abstract_shape shape }
{
    match shape {
        Shape::Abstract => true,
        Shape::Fixed | Shape::Instance | Shape::Virtual | Shape::NewSlot => false,
    }
}
