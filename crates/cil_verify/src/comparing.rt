// Which two operands comparisons and branches take.
ghost use Rattle.std.specs.Prelude.{◌≡◌, reverse, IfOk};
ghost use Rattle.il_model.specs.declared.method.MethodDef.{MethodDef};
ghost use Rattle.cil_flow.specs.declared.state.StackType.TheVariants as on_stack;
ghost use Rattle.cil_verify.specs.Places.{view_of};
ghost use Rattle.cil_verify.specs.Rows.{also_references, also_with_null};
ghost use Rattle.cil_verify.specs.Admits.{are_numbers, may_compare, take_two, push};
ghost use Rattle.cil_verify.specs.Taking.{Takes, Leaves};

use crate::admitting::{are_numbers, may_equal, may_exceed};
use crate::taking::{push, take};
use cil_flow::StackType;
use il_model::Program;
use mn_outside::NoMemory;
use sqlite_items::Items;

/// Takes two that may be ordered: two numbers of one type.
pub(crate) fn take_ordered(stack: &mut Items<StackType>) -> bool
    ensures { Takes (take_two are_numbers) result stack.old stack.new }
{
    let Some(second) = take(stack) else {
        return false;
    };
    let Some(first) = take(stack) else {
        return false;
    };
    are_numbers(&first, &second)
}

/// Takes two that may be equal: two numbers of one type, or two references.
pub(crate) fn take_equal(program: &Program, stack: &mut Items<StackType>) -> bool
    ensures { (method : MethodDef) → Takes (take_two (may_compare (view_of program.now method) also_references)) result stack.old stack.new }
{
    let Some(second) = take(stack) else {
        return false;
    };
    let Some(first) = take(stack) else {
        return false;
    };
    may_equal(program, &first, &second)
}

/// Takes what `cgt.un` compares: two numbers of one type, or a reference and null above it.
pub(crate) fn take_exceeding(program: &Program, stack: &mut Items<StackType>) -> bool
    ensures { (method : MethodDef) → Takes (take_two (may_compare (view_of program.now method) also_with_null)) result stack.old stack.new }
{
    let Some(second) = take(stack) else {
        return false;
    };
    let Some(first) = take(stack) else {
        return false;
    };
    may_exceed(program, &first, &second)
}

/// `ceq`: two that may be equal leave an int32.
pub(crate) fn compare_equal(
    program: &Program,
    stack: &mut Items<StackType>,
) -> Result<bool, NoMemory>
    ensures { IfOk result (λ admitted. (method : MethodDef) → Leaves admitted stack.new
        (take_two (may_compare (view_of program.now method) also_references) (push on_stack.Int32) (reverse stack.old))) }
{
    if !take_equal(program, stack) {
        return Ok(false);
    }
    push(stack, StackType::Int32)?;
    Ok(true)
}

/// `cgt.un`: what it compares leaves an int32.
pub(crate) fn compare_exceeding(
    program: &Program,
    stack: &mut Items<StackType>,
) -> Result<bool, NoMemory>
    ensures { IfOk result (λ admitted. (method : MethodDef) → Leaves admitted stack.new
        (take_two (may_compare (view_of program.now method) also_with_null) (push on_stack.Int32) (reverse stack.old))) }
{
    if !take_exceeding(program, stack) {
        return Ok(false);
    }
    push(stack, StackType::Int32)?;
    Ok(true)
}

/// The other comparisons: two that may be ordered leave an int32.
pub(crate) fn compare_ordered(stack: &mut Items<StackType>) -> Result<bool, NoMemory>
    ensures { IfOk result (λ admitted. Leaves admitted stack.new
        (take_two are_numbers (push on_stack.Int32) (reverse stack.old))) }
{
    if !take_ordered(stack) {
        return Ok(false);
    }
    push(stack, StackType::Int32)?;
    Ok(true)
}
