// What instructions through pointers leave on the stack, in a body of a method.
ghost use Rattle.std.specs.Prelude.{◌≡◌, reverse, IfOk};
ghost use Rattle.il_model.specs.ClassRules.{HasTypes};
ghost use Rattle.cil_verify.specs.Places.{view_of, stack_of};
ghost use Rattle.cil_verify.specs.Fits.{points_to};
ghost use Rattle.cil_verify.specs.Rows as row;
ghost use Rattle.cil_verify.specs.Admits.{left_by_row, take_one, push};
ghost use Rattle.cil_verify.specs.Taking.{Leaves};

use crate::kinds::stack_of;
use crate::taking::{push, take_fitting, take_pointer};
use cil_flow::StackType;
use il_model::{MethodDef, Program};
use mn_outside::NoMemory;
use sqlite_items::Items;
use std::alloc::Global;
use type_tree::TExpr;

/// `ldobj`.
pub(crate) fn load_through(
    alloc: Global,
    kind: &TExpr,
    stack: &mut Items<StackType>,
) -> Result<bool, NoMemory>
    ensures { IfOk result (λ admitted. Leaves admitted stack.new
        (take_one (points_to kind.now) (push (stack_of kind.now)) (reverse stack.old))) }
{
    if !take_pointer(kind, stack) {
        return Ok(false);
    }
    push(stack, stack_of(alloc, kind)?)?;
    Ok(true)
}

/// `stobj`: the value on top, and the pointer below it.
pub(crate) fn store_through(
    alloc: Global,
    program: &Program,
    method: &MethodDef,
    kind: &TExpr,
    stack: &mut Items<StackType>,
) -> Result<bool, NoMemory>
    requires { HasTypes program.now }
    ensures { IfOk result (λ admitted. Leaves admitted stack.new
        (left_by_row (view_of program.now method.now) (row.stores_through kind.now) (reverse stack.old))) }
{
    if !take_fitting(alloc, program, method, kind, stack)? {
        return Ok(false);
    }
    Ok(take_pointer(kind, stack))
}

/// `Exchange` and `Add`: a value on top, and the pointer to the word below it.
pub(crate) fn exchange_one(
    alloc: Global,
    program: &Program,
    method: &MethodDef,
    kind: &TExpr,
    stack: &mut Items<StackType>,
) -> Result<bool, NoMemory>
    requires { HasTypes program.now }
    ensures { IfOk result (λ admitted. Leaves admitted stack.new
        (left_by_row (view_of program.now method.now) (row.exchanges kind.now 1) (reverse stack.old))) }
{
    if !take_fitting(alloc, program, method, kind, stack)? {
        return Ok(false);
    }
    if !take_pointer(kind, stack) {
        return Ok(false);
    }
    push(stack, stack_of(alloc, kind)?)?;
    Ok(true)
}

/// `CompareExchange`: two values on top, and the pointer to the word below them.
pub(crate) fn exchange_two(
    alloc: Global,
    program: &Program,
    method: &MethodDef,
    kind: &TExpr,
    stack: &mut Items<StackType>,
) -> Result<bool, NoMemory>
    requires { HasTypes program.now }
    ensures { IfOk result (λ admitted. Leaves admitted stack.new
        (left_by_row (view_of program.now method.now) (row.exchanges kind.now 2) (reverse stack.old))) }
{
    if !take_fitting(alloc, program, method, kind, stack)? {
        return Ok(false);
    }
    exchange_one(alloc, program, method, kind, stack)
}
