// What fits a place, what is the object of a member, and what stands on the stack for a reference.
ghost use Rattle.std.specs.Prelude.{◌≡◌, is_some, IfOk};
ghost use Rattle.std.specs.List.{list_any};
ghost use Rattle.il_model.specs.Find.{class_of};
ghost use Rattle.il_model.specs.Kinds.{is_struct_kind, is_struct_class};
ghost use Rattle.il_model.specs.Assignable.{only_of};
ghost use Rattle.il_model.specs.ClassRules.{HasTypes};
ghost use Rattle.cil_verify.specs.Places.{view_of, stack_of_place};
ghost use Rattle.cil_verify.specs.Fits.{fits_place, is_object_of, is_vector_type, is_vector, reference_to};

use crate::fitting::{bounds_of, fits};
use crate::kinds::{is_reference, stack_of};
use crate::operands::points_to;
use cil_flow::StackType;
use il_model::{ClassKind, MethodDef, PType, Program, class_of};
use mn_outside::NoMemory;
use std::alloc::Global;
use type_tree::{Head, TExpr, TNode};

/// How what a place holds stands on the stack.
pub fn stack_of_place(alloc: Global, place: &PType) -> Result<StackType, NoMemory>
    ensures { IfOk result (λ found. found ≡ stack_of_place place.now) }
{
    match place {
        PType::Value(kind) => stack_of(alloc, kind),
        PType::Pointer(kind) => Ok(StackType::Pointer(kind.copy(alloc)?)),
        PType::Native => Ok(StackType::Native),
    }
}

/// Whether an operand fits a place, in a body of this method: a place of a pointer takes a pointer to just
/// its type.
pub fn fits_place(
    alloc: Global,
    program: &Program,
    method: &MethodDef,
    place: &PType,
    operand: &StackType,
) -> Result<bool, NoMemory>
    requires { HasTypes program.now }
    ensures { IfOk result (λ answer. answer ≡ fits_place (view_of program.now method.now) place.now operand.now) }
{
    match place {
        PType::Value(kind) => fits(alloc, program, method, kind, operand),
        PType::Pointer(kind) => Ok(points_to(kind, operand)),
        PType::Native => Ok(false),
    }
}

/// Whether an operand is an object of the class that a method or a field is named with, in a body of this
/// method: of a struct a pointer to it, of any other class a reference.
pub fn is_object_of(
    alloc: Global,
    program: &Program,
    method: &MethodDef,
    class: &TExpr,
    operand: &StackType,
) -> Result<bool, NoMemory>
    requires { HasTypes program.now }
    ensures { IfOk result (λ answer. answer ≡ is_object_of (view_of program.now method.now) class.now operand.now) }
{
    if is_struct(program, class) {
        Ok(points_to(class, operand))
    } else {
        fits(alloc, program, method, class, operand)
    }
}

pub(crate) fn is_struct(program: &Program, kind: &TExpr) -> bool
    ensures { result ≡ is_struct_class (class_of program.now kind.now) }
{
    match class_of(program, kind) {
        Some(class) => is_struct_kind(class.kind),
        None => false,
    }
}

pub(crate) fn is_struct_kind(kind: ClassKind) -> bool
    ensures { result ≡ is_struct_kind kind }
{
    match kind {
        ClassKind::Struct => true,
        ClassKind::Plain | ClassKind::Abstract | ClassKind::Interface | ClassKind::Delegate =>
            false,
    }
}

/// What an instruction leaves that makes a reference of a type: a reference type itself, or the boxed form
/// of any other.
pub fn reference_to(alloc: Global, program: &Program, kind: &TExpr) -> Result<StackType, NoMemory>
    ensures { IfOk result (λ found. found ≡ reference_to program.now kind.now) }
{
    if is_reference(program, kind) {
        Ok(StackType::Kind(kind.copy(alloc)?))
    } else {
        Ok(StackType::Boxed(kind.copy(alloc)?))
    }
}

/// Whether an operand fits some vector type, in a body of this method. A boxed variable does where one of
/// its bounds is a vector type.
pub fn is_vector(program: &Program, method: &MethodDef, operand: &StackType) -> bool
    ensures { result ≡ is_vector (view_of program.now method.now) operand.now }
{
    match operand {
        StackType::Null => true,
        StackType::Kind(kind) => is_vector_type(kind),
        StackType::Boxed(kind) => is_any_vector(bounds_of(program, method, kind)),
        StackType::Int32 | StackType::Int64 | StackType::Native => false,
        StackType::Pointer(_) => false,
    }
}

// Whether one of the types is a vector type.
fn is_any_vector(kinds: &[TExpr]) -> bool
    ensures { result ≡ list_any is_vector_type kinds.now }
{
    for kind in kinds {
        if is_vector_type(kind) {
            return true;
        }
    }
    false
}

fn is_vector_type(kind: &TExpr) -> bool
    ensures { result ≡ is_vector_type kind.now }
{
    match kind.top() {
        TNode::Node(Head::Vector, parts) => is_single(parts.as_slice()),
        TNode::Node(Head::Int32 | Head::Int64 | Head::Bool | Head::Class(_), _) => false,
        TNode::ClassVar(_) | TNode::MethodVar(_) => false,
    }
}

// Whether the list has one type.
fn is_single(kinds: &[TExpr]) -> bool
    ensures { result ≡ is_some (only_of kinds.now) }
{
    match kinds {
        [_] => true,
        _ => false,
    }
}
