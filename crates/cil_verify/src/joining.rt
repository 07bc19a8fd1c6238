// How what stands in one place on two ways meets.
ghost use Rattle.std.specs.Prelude.{◌≡◌, ◌&&◌, not, Some, None, if◌then◌else◌, IfOk};
ghost use Rattle.std.specs.Option.{option_copied};
ghost use Rattle.il_model.specs.Find.{class_of};
ghost use Rattle.il_model.specs.Kinds.{is_reference, is_reference_kind};
ghost use Rattle.il_model.specs.Slots.{is_interface_kind};
ghost use Rattle.il_model.specs.ClassRules.{HasTypes};
ghost use Rattle.cil_verify.specs.Places.{view_of};
ghost use Rattle.cil_verify.specs.Fits.{refers_to};
ghost use Rattle.cil_verify.specs.Joins.{widens_to, is_assignable_type, is_class_def, class_type, common_base, wider, join_references, joined};

use crate::equality::first_among;
use crate::fitting::refers_to;
use crate::kinds::is_reference;
use crate::operands::{copied, is_null, is_object, same_type};
use cil_flow::StackType;
use il_model::{ClassKind, MethodDef, Program, class_of};
use mn_outside::NoMemory;
use std::alloc::Global;
use type_inst::bases;
use type_tree::{Head, TExpr};

/// What two ways leave in one place, in a body of this method; None where they do not agree. Equal types
/// stay. Two references join to the nearest common base of two classes, to the wider one where one is
/// assignable to the other, or else to `object`.
pub fn joined(
    alloc: Global,
    program: &Program,
    method: &MethodDef,
    first: &StackType,
    second: &StackType,
) -> Result<Option<StackType>, NoMemory>
    requires { HasTypes program.now }
    ensures { IfOk result (λ found. found ≡ joined (view_of program.now method.now) first.now second.now) }
{
    if same_type(first, second) {
        return Ok(Some(copied(alloc, first)?));
    }
    if !is_object(program, first) {
        return Ok(None);
    }
    if !is_object(program, second) {
        return Ok(None);
    }
    Ok(Some(join_references(alloc, program, method, first, second)?))
}

/// Whether the first stack type is assignable to the second, in a body of this method: they are equal, or
/// the second is a reference that takes the first.
pub fn is_assignable_type(
    alloc: Global,
    program: &Program,
    method: &MethodDef,
    from: &StackType,
    to: &StackType,
) -> Result<bool, NoMemory>
    requires { HasTypes program.now }
    ensures { IfOk result (λ answer. answer ≡ is_assignable_type (view_of program.now method.now) from.now to.now) }
{
    if same_type(from, to) {
        return Ok(true);
    }
    widens_to(alloc, program, method, from, to)
}

// Whether the first is a reference that the second takes.
fn widens_to(
    alloc: Global,
    program: &Program,
    method: &MethodDef,
    from: &StackType,
    to: &StackType,
) -> Result<bool, NoMemory>
    requires { HasTypes program.now }
    ensures { IfOk result (λ answer. answer ≡ widens_to (view_of program.now method.now) from.now to.now) }
{
    match to {
        StackType::Kind(kind) => widens_to_kind(alloc, program, method, from, kind),
        StackType::Boxed(_) => Ok(is_null(from)),
        StackType::Int32 | StackType::Int64 | StackType::Native | StackType::Null => Ok(false),
        StackType::Pointer(_) => Ok(false),
    }
}

fn widens_to_kind(
    alloc: Global,
    program: &Program,
    method: &MethodDef,
    from: &StackType,
    kind: &TExpr,
) -> Result<bool, NoMemory>
    requires { HasTypes program.now }
    ensures { IfOk result (λ answer. answer ≡ is_reference program.now kind.now && refers_to (view_of program.now method.now) kind.now from.now) }
{
    if !is_reference(program, kind) {
        return Ok(false);
    }
    refers_to(alloc, program, method, kind, from)
}

// Whether a class of this kind is one in the narrow sense, and no interface or struct.
fn is_class_kind(kind: ClassKind) -> bool
    ensures { result ≡ is_reference_kind kind && not (is_interface_kind kind) }
{
    match kind {
        ClassKind::Plain | ClassKind::Abstract | ClassKind::Delegate => true,
        ClassKind::Interface | ClassKind::Struct => false,
    }
}

// Whether a type names a class in the narrow sense.
fn names_class(program: &Program, kind: &TExpr) -> bool
    ensures { result ≡ is_class_def (class_of program.now kind.now) }
{
    match class_of(program, kind) {
        Some(class) => is_class_kind(class.kind),
        None => false,
    }
}

fn only_if(kind: &TExpr, holds: bool) -> Option<&TExpr>
    ensures { option_copied result ≡ (if holds then Some kind.now else None) }
{
    if holds { Some(kind) } else { None }
}

// The type of a class, if the stack type is one.
fn class_type<'a>(program: &Program, operand: &'a StackType) -> Option<&'a TExpr>
    ensures { option_copied result ≡ class_type program.now operand.now }
{
    match operand {
        StackType::Kind(kind) => only_if(kind, names_class(program, kind)),
        StackType::Int32 | StackType::Int64 | StackType::Native | StackType::Null => None,
        StackType::Boxed(_) | StackType::Pointer(_) => None,
    }
}

// The nearest base of both.
fn common_base(
    alloc: Global,
    program: &Program,
    first: &TExpr,
    second: &TExpr,
) -> Result<TExpr, NoMemory>
    ensures { IfOk result (λ base. base ≡ common_base program.now first.now second.now) }
{
    let uppers = bases(alloc, program, first)?;
    let others = bases(alloc, program, second)?;
    match first_among(uppers.as_slice(), others.as_slice()) {
        Some(base) => base.copy(alloc),
        None => Ok(TExpr::plain(alloc, Head::Class(0))),
    }
}

// Of two references that are not both of classes the wider one, or `object`.
fn wider(
    alloc: Global,
    program: &Program,
    method: &MethodDef,
    first: &StackType,
    second: &StackType,
) -> Result<StackType, NoMemory>
    requires { HasTypes program.now }
    ensures { IfOk result (λ found. found ≡ wider (view_of program.now method.now) first.now second.now) }
{
    if is_assignable_type(alloc, program, method, first, second)? {
        return copied(alloc, second);
    }
    if is_assignable_type(alloc, program, method, second, first)? {
        return copied(alloc, first);
    }
    Ok(StackType::Kind(TExpr::plain(alloc, Head::Class(0))))
}

// What two references that differ join to.
fn join_references(
    alloc: Global,
    program: &Program,
    method: &MethodDef,
    first: &StackType,
    second: &StackType,
) -> Result<StackType, NoMemory>
    requires { HasTypes program.now }
    ensures { IfOk result (λ found. found ≡ join_references (view_of program.now method.now) first.now second.now) }
{
    let Some(kind) = class_type(program, first) else {
        return wider(alloc, program, method, first, second);
    };
    let Some(other) = class_type(program, second) else {
        return wider(alloc, program, method, first, second);
    };
    Ok(StackType::Kind(common_base(alloc, program, kind, other)?))
}
