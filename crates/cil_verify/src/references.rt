// What `box`, `unbox.any`, `castclass` and `isinst` leave on the stack.
ghost use Rattle.std.specs.Prelude.{◌≡◌, reverse, IfOk};
ghost use Rattle.il_model.specs.ClassRules.{HasTypes};
ghost use Rattle.cil_verify.specs.Places.{view_of, stack_of};
ghost use Rattle.cil_verify.specs.Fits.{is_object, reference_to};
ghost use Rattle.cil_verify.specs.Rows as row;
ghost use Rattle.cil_verify.specs.Admits.{left_by_row, take_one, push};
ghost use Rattle.cil_verify.specs.Taking.{Leaves};

use crate::kinds::stack_of;
use crate::objects::reference_to;
use crate::taking::{push, take_fitting, take_object};
use cil_flow::StackType;
use il_model::{MethodDef, Program};
use mn_outside::NoMemory;
use sqlite_items::Items;
use std::alloc::Global;
use type_tree::TExpr;

/// `box`, in a body of this method.
pub(crate) fn make_box(
    alloc: Global,
    program: &Program,
    method: &MethodDef,
    kind: &TExpr,
    stack: &mut Items<StackType>,
) -> Result<bool, NoMemory>
    requires { HasTypes program.now }
    ensures { IfOk result (λ admitted. Leaves admitted stack.new
        (left_by_row (view_of program.now method.now) (row.boxes kind.now) (reverse stack.old))) }
{
    if !take_fitting(alloc, program, method, kind, stack)? {
        return Ok(false);
    }
    push(stack, reference_to(alloc, program, kind)?)?;
    Ok(true)
}

/// `unbox.any`.
pub(crate) fn unbox(
    alloc: Global,
    program: &Program,
    kind: &TExpr,
    stack: &mut Items<StackType>,
) -> Result<bool, NoMemory>
    ensures { IfOk result (λ admitted. Leaves admitted stack.new
        (take_one (is_object program.now) (push (stack_of kind.now)) (reverse stack.old))) }
{
    if !take_object(program, stack) {
        return Ok(false);
    }
    push(stack, stack_of(alloc, kind)?)?;
    Ok(true)
}

/// `castclass` and `isinst`.
pub(crate) fn cast(
    alloc: Global,
    program: &Program,
    kind: &TExpr,
    stack: &mut Items<StackType>,
) -> Result<bool, NoMemory>
    ensures { IfOk result (λ admitted. Leaves admitted stack.new
        (take_one (is_object program.now) (push (reference_to program.now kind.now)) (reverse stack.old))) }
{
    if !take_object(program, stack) {
        return Ok(false);
    }
    push(stack, reference_to(alloc, program, kind)?)?;
    Ok(true)
}
