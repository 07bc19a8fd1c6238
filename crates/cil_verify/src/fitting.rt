// Which operand fits what a form names.
ghost use Rattle.std.specs.Prelude.{◌≡◌, ◌&&◌, slice_get, IfOk};
ghost use Rattle.std.specs.Option.{option_copied};
ghost use Rattle.il_model.specs.Kinds.{is_reference};
ghost use Rattle.il_model.specs.Assignable.{is_object, is_assignable, bounds_in, bounds_of, is_box_assignable};
ghost use Rattle.il_model.specs.ClassRules.{HasTypes, vars_in};
ghost use Rattle.cil_verify.specs.Places.{view_of, scope_of, stack_of};
ghost use Rattle.cil_verify.specs.Fits.{is_int32, is_int64, stands_as, refers_to, fits};

use crate::equality::{is_among, is_same};
use crate::kinds::is_reference;
use cil_flow::StackType;
use il_model::{MethodDef, Program, VarDef};
use mn_outside::NoMemory;
use std::alloc::Global;
use type_inst::{assignable, interfaces};
use type_tree::{Head, TExpr, TNode};

/// Whether an operand fits a type, in a body of this method: a reference type takes references that are
/// assignable to it, and any other type its own values alone.
pub fn fits(
    alloc: Global,
    program: &Program,
    method: &MethodDef,
    kind: &TExpr,
    operand: &StackType,
) -> Result<bool, NoMemory>
    requires { HasTypes program.now }
    ensures { IfOk result (λ answer. answer ≡ fits (view_of program.now method.now) kind.now operand.now) }
{
    if is_reference(program, kind) {
        refers_to(alloc, program, method, kind, operand)
    } else {
        Ok(stands_as(kind, operand))
    }
}

// Whether the operand is a reference that a reference type takes.
pub(crate) fn refers_to(
    alloc: Global,
    program: &Program,
    method: &MethodDef,
    kind: &TExpr,
    operand: &StackType,
) -> Result<bool, NoMemory>
    requires { HasTypes program.now }
    ensures { IfOk result (λ answer. answer ≡ refers_to (view_of program.now method.now) kind.now operand.now) }
{
    match operand {
        StackType::Null => Ok(true),
        StackType::Kind(other) => is_narrower(alloc, program, other, kind),
        StackType::Boxed(other) => is_box_assignable(alloc, program, method, other, kind),
        StackType::Int32 | StackType::Int64 | StackType::Native => Ok(false),
        StackType::Pointer(_) => Ok(false),
    }
}

// Whether the first is a reference type that is assignable to the second.
fn is_narrower(alloc: Global, program: &Program, from: &TExpr, to: &TExpr) -> Result<bool, NoMemory>
    requires { HasTypes program.now }
    ensures { IfOk result (λ answer. answer ≡ is_reference program.now from.now && is_assignable program.now from.now to.now) }
{
    if !is_reference(program, from) {
        return Ok(false);
    }
    assignable(alloc, program, from, to)
}

// Whether the boxed form of the first is assignable to the second.
fn is_box_assignable(
    alloc: Global,
    program: &Program,
    method: &MethodDef,
    from: &TExpr,
    to: &TExpr,
) -> Result<bool, NoMemory>
    requires { HasTypes program.now }
    ensures { IfOk result (λ answer. answer ≡ is_box_assignable program.now (scope_of program.now method.now) from.now to.now) }
{
    if is_object_class(alloc, to) {
        return Ok(true);
    }
    if is_among(interfaces(alloc, program, from)?.as_slice(), to) {
        return Ok(true);
    }
    Ok(is_among(bounds_of(program, method, from), to))
}

// Whether the type is `object`.
pub(crate) fn is_object_class(alloc: Global, kind: &TExpr) -> bool
    ensures { result ≡ is_object kind.now }
{
    let object = TExpr::plain(alloc, Head::Class(0));
    is_same(kind, &object)
}

// The bounds of a variable; any other type has none.
pub(crate) fn bounds_of<'a>(
    program: &'a Program,
    method: &'a MethodDef,
    kind: &TExpr,
) -> &'a [TExpr]
    ensures { result.now ≡ bounds_of (scope_of program.now method.now) kind.now }
{
    match kind.top() {
        TNode::Node(_, _) => &[],
        TNode::ClassVar(number) => bounds_in(class_vars(program, method).get(*number as usize)),
        TNode::MethodVar(number) => bounds_in(method.vars.as_slice().get(*number as usize)),
    }
}

// The variables of a method's class.
pub(crate) fn class_vars<'a>(program: &'a Program, method: &MethodDef) -> &'a [VarDef]
    ensures { result.now ≡ vars_in (slice_get program.now.classes method.now.owner) }
{
    match program.classes.as_slice().get(method.owner as usize) {
        Some(class) => class.vars.as_slice(),
        None => &[],
    }
}

pub(crate) fn bounds_in(var: Option<&VarDef>) -> &[TExpr]
    ensures { result.now ≡ bounds_in (option_copied var.entry) }
{
    match var {
        Some(var) => var.bounds.as_slice(),
        None => &[],
    }
}

// Whether the operand stands on the stack as a value of the type does.
pub(crate) fn stands_as(kind: &TExpr, operand: &StackType) -> bool
    ensures { result ≡ stands_as kind.now operand.now }
{
    match operand {
        StackType::Int32 => stands_as_int32(kind),
        StackType::Int64 => stands_as_int64(kind),
        StackType::Kind(other) => is_same(other, kind),
        StackType::Native | StackType::Null => false,
        StackType::Boxed(_) | StackType::Pointer(_) => false,
    }
}

fn stands_as_int32(kind: &TExpr) -> bool
    ensures { result ≡ is_int32 (stack_of kind.now) }
{
    match kind.top() {
        TNode::Node(Head::Int32 | Head::Bool, _) => true,
        TNode::Node(Head::Int64 | Head::Vector | Head::Class(_), _) => false,
        TNode::ClassVar(_) | TNode::MethodVar(_) => false,
    }
}

fn stands_as_int64(kind: &TExpr) -> bool
    ensures { result ≡ is_int64 (stack_of kind.now) }
{
    match kind.top() {
        TNode::Node(Head::Int64, _) => true,
        TNode::Node(Head::Int32 | Head::Bool | Head::Vector | Head::Class(_), _) => false,
        TNode::ClassVar(_) | TNode::MethodVar(_) => false,
    }
}
