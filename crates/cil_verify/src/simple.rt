// What instructions leave on the stack that name no place, member or type.
ghost use Rattle.std.specs.Prelude.{◌≡◌, reverse, IfOk};
ghost use Rattle.il_model.specs.declared.method.MethodDef.{MethodDef};
ghost use Rattle.il_model.specs.ClassRules.{HasTypes};
ghost use Rattle.il_model.specs.Library.{plain};
ghost use Rattle.cil_verify.specs.Places.{View, view_of};
ghost use Rattle.cil_verify.specs.Fits.{fits};
ghost use Rattle.cil_verify.specs.Rows as row;
ghost use Rattle.cil_verify.specs.Admits.{left_by_row, take_one, push as put_on};
ghost use Rattle.cil_verify.specs.Taking.{Takes, Leaves};

use crate::operands::copied;
use crate::taking::{push, take, take_fitting};
use cil_flow::StackType;
use il_model::{MethodDef, Program};
use mn_outside::NoMemory;
use sqlite_items::Items;
use std::alloc::Global;
use type_tree::{Head, TExpr};

/// `dup`.
pub(crate) fn copy(alloc: Global, stack: &mut Items<StackType>) -> Result<bool, NoMemory>
    ensures { IfOk result (λ admitted. (v : View) → Leaves admitted stack.new (left_by_row v row.copies (reverse stack.old))) }
{
    let Some(top) = take(stack) else {
        return Ok(false);
    };
    let copy = copied(alloc, &top)?;
    push(stack, top)?;
    push(stack, copy)?;
    Ok(true)
}

/// Leaves this on top.
pub(crate) fn load_value(stack: &mut Items<StackType>, value: StackType) -> Result<bool, NoMemory>
    ensures { IfOk result (λ admitted. Leaves admitted stack.new (put_on value (reverse stack.old))) }
{
    push(stack, value)?;
    Ok(true)
}

/// Takes a value of the type of the class with this number, which has no variables, in a body of this
/// method.
pub(crate) fn take_of_class(
    alloc: Global,
    program: &Program,
    method: &MethodDef,
    number: u16,
    stack: &mut Items<StackType>,
) -> Result<bool, NoMemory>
    requires { HasTypes program.now }
    ensures { IfOk result (λ admitted. Takes (take_one (fits (view_of program.now method.now) (plain number))) admitted stack.old stack.new) }
{
    let kind = TExpr::plain(alloc, Head::Class(number));
    Ok(take_fitting(alloc, program, method, &kind, stack)?)
}

/// `Start`: leaves the number of the thread.
pub(crate) fn start(
    alloc: Global,
    program: &Program,
    method: &MethodDef,
    stack: &mut Items<StackType>,
) -> Result<bool, NoMemory>
    requires { HasTypes program.now }
    ensures { IfOk result (λ admitted. Leaves admitted stack.new (left_by_row (view_of program.now method.now) row.starts (reverse stack.old))) }
{
    if !take_of_class(alloc, program, method, 11, stack)? {
        return Ok(false);
    }
    push(stack, StackType::Int32)?;
    Ok(true)
}
