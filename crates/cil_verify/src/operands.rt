// Tests on what stands on the stack.
ghost use Rattle.std.specs.Prelude.{◌≡◌, IfOk};
ghost use Rattle.il_model.specs.Kinds.{is_reference};
ghost use Rattle.cil_verify.specs.Fits.{is_int32, is_int64, is_number, is_length, is_null, is_object, points_to};
ghost use Rattle.cil_verify.specs.Joins.{is_native, is_of_kind, is_box_of, same_type};

use crate::equality::is_same;
use crate::kinds::is_reference;
use cil_flow::StackType;
use il_model::Program;
use mn_outside::NoMemory;
use std::alloc::Global;
use type_tree::TExpr;

pub(crate) fn is_int32(operand: &StackType) -> bool
    ensures { result ≡ is_int32 operand.now }
{
    match operand {
        StackType::Int32 => true,
        StackType::Int64 | StackType::Native | StackType::Null => false,
        StackType::Kind(_) | StackType::Boxed(_) | StackType::Pointer(_) => false,
    }
}

pub(crate) fn is_int64(operand: &StackType) -> bool
    ensures { result ≡ is_int64 operand.now }
{
    match operand {
        StackType::Int64 => true,
        StackType::Int32 | StackType::Native | StackType::Null => false,
        StackType::Kind(_) | StackType::Boxed(_) | StackType::Pointer(_) => false,
    }
}

pub(crate) fn is_native(operand: &StackType) -> bool
    ensures { result ≡ is_native operand.now }
{
    match operand {
        StackType::Native => true,
        StackType::Int32 | StackType::Int64 | StackType::Null => false,
        StackType::Kind(_) | StackType::Boxed(_) | StackType::Pointer(_) => false,
    }
}

pub(crate) fn is_null(operand: &StackType) -> bool
    ensures { result ≡ is_null operand.now }
{
    match operand {
        StackType::Null => true,
        StackType::Int32 | StackType::Int64 | StackType::Native => false,
        StackType::Kind(_) | StackType::Boxed(_) | StackType::Pointer(_) => false,
    }
}

// An int32, an int64 or a native int.
pub(crate) fn is_number(operand: &StackType) -> bool
    ensures { result ≡ is_number operand.now }
{
    match operand {
        StackType::Int32 | StackType::Int64 | StackType::Native => true,
        StackType::Null => false,
        StackType::Kind(_) | StackType::Boxed(_) | StackType::Pointer(_) => false,
    }
}

// What may be a vector's length: an int32 or a native int.
pub(crate) fn is_length(operand: &StackType) -> bool
    ensures { result ≡ is_length operand.now }
{
    match operand {
        StackType::Int32 | StackType::Native => true,
        StackType::Int64 | StackType::Null => false,
        StackType::Kind(_) | StackType::Boxed(_) | StackType::Pointer(_) => false,
    }
}

// The value of just this type.
pub(crate) fn is_of_kind(kind: &TExpr, operand: &StackType) -> bool
    ensures { result ≡ is_of_kind kind.now operand.now }
{
    match operand {
        StackType::Kind(other) => is_same(other, kind),
        StackType::Boxed(_) | StackType::Pointer(_) => false,
        StackType::Int32 | StackType::Int64 | StackType::Native | StackType::Null => false,
    }
}

// The boxed form of just this type.
pub(crate) fn is_box_of(kind: &TExpr, operand: &StackType) -> bool
    ensures { result ≡ is_box_of kind.now operand.now }
{
    match operand {
        StackType::Boxed(other) => is_same(other, kind),
        StackType::Kind(_) | StackType::Pointer(_) => false,
        StackType::Int32 | StackType::Int64 | StackType::Native | StackType::Null => false,
    }
}

// A pointer to just this type.
pub(crate) fn points_to(kind: &TExpr, operand: &StackType) -> bool
    ensures { result ≡ points_to kind.now operand.now }
{
    match operand {
        StackType::Pointer(other) => is_same(other, kind),
        StackType::Kind(_) | StackType::Boxed(_) => false,
        StackType::Int32 | StackType::Int64 | StackType::Native | StackType::Null => false,
    }
}

// Null, a reference type or a boxed form.
pub(crate) fn is_object(program: &Program, operand: &StackType) -> bool
    ensures { result ≡ is_object program.now operand.now }
{
    match operand {
        StackType::Null | StackType::Boxed(_) => true,
        StackType::Kind(kind) => is_reference(program, kind),
        StackType::Int32 | StackType::Int64 | StackType::Native => false,
        StackType::Pointer(_) => false,
    }
}

// Whether two stack types are equal.
pub(crate) fn same_type(first: &StackType, second: &StackType) -> bool
    ensures { result ≡ same_type first.now second.now }
{
    match first {
        StackType::Int32 => is_int32(second),
        StackType::Int64 => is_int64(second),
        StackType::Native => is_native(second),
        StackType::Null => is_null(second),
        StackType::Kind(kind) => is_of_kind(kind, second),
        StackType::Boxed(kind) => is_box_of(kind, second),
        StackType::Pointer(kind) => points_to(kind, second),
    }
}

pub(crate) fn copied(alloc: Global, operand: &StackType) -> Result<StackType, NoMemory>
    ensures { IfOk result (λ copy. copy ≡ operand.now) }
{
    match operand {
        StackType::Int32 => Ok(StackType::Int32),
        StackType::Int64 => Ok(StackType::Int64),
        StackType::Native => Ok(StackType::Native),
        StackType::Null => Ok(StackType::Null),
        StackType::Kind(kind) => Ok(StackType::Kind(kind.copy(alloc)?)),
        StackType::Boxed(kind) => Ok(StackType::Boxed(kind.copy(alloc)?)),
        StackType::Pointer(kind) => Ok(StackType::Pointer(kind.copy(alloc)?)),
    }
}
