// What arithmetic, conversions and comparisons leave on the stack.
ghost use Rattle.std.specs.Prelude.{◌≡◌, ◌||◌, reverse, IfOk};
ghost use Rattle.cil_flow.specs.declared.state.StackType.TheVariants as on_stack;
ghost use Rattle.cil_verify.specs.Fits.{is_int32, is_int64, is_number};
ghost use Rattle.cil_verify.specs.Admits.{combined, shifted, changed, take_one, push};
ghost use Rattle.cil_verify.specs.Taking.{Leaves};

use crate::admitting::are_numbers;
use crate::operands::{is_int32, is_int64};
use crate::taking::{push, take, take_number};
use cil_flow::StackType;
use mn_outside::NoMemory;
use sqlite_items::Items;

// Whether the operand is an int32 or an int64.
fn is_integer(operand: &StackType) -> bool
    ensures { result ≡ (is_int32 operand.now || is_int64 operand.now) }
{
    is_int32(operand) || is_int64(operand)
}

/// Two of one number type leave one of it.
pub(crate) fn combine(stack: &mut Items<StackType>) -> Result<bool, NoMemory>
    ensures { IfOk result (λ admitted. Leaves admitted stack.new (combined (reverse stack.old))) }
{
    let Some(second) = take(stack) else {
        return Ok(false);
    };
    let Some(first) = take(stack) else {
        return Ok(false);
    };
    if !are_numbers(&first, &second) {
        return Ok(false);
    }
    push(stack, first)?;
    Ok(true)
}

/// An integer and the int32 above it leave the integer.
pub(crate) fn shift(stack: &mut Items<StackType>) -> Result<bool, NoMemory>
    ensures { IfOk result (λ admitted. Leaves admitted stack.new (shifted (reverse stack.old))) }
{
    let Some(count) = take(stack) else {
        return Ok(false);
    };
    let Some(shifted) = take(stack) else {
        return Ok(false);
    };
    if !(is_integer(&shifted) && is_int32(&count)) {
        return Ok(false);
    }
    push(stack, shifted)?;
    Ok(true)
}

/// An integer leaves one of its type.
pub(crate) fn change(stack: &mut Items<StackType>) -> Result<bool, NoMemory>
    ensures { IfOk result (λ admitted. Leaves admitted stack.new (changed (reverse stack.old))) }
{
    let Some(operand) = take(stack) else {
        return Ok(false);
    };
    if !is_integer(&operand) {
        return Ok(false);
    }
    push(stack, operand)?;
    Ok(true)
}

/// A number leaves an int32.
pub(crate) fn convert_to_int32(stack: &mut Items<StackType>) -> Result<bool, NoMemory>
    ensures { IfOk result (λ admitted. Leaves admitted stack.new (take_one is_number (push on_stack.Int32) (reverse stack.old))) }
{
    if !take_number(stack) {
        return Ok(false);
    }
    push(stack, StackType::Int32)?;
    Ok(true)
}

/// A number leaves an int64.
pub(crate) fn convert_to_int64(stack: &mut Items<StackType>) -> Result<bool, NoMemory>
    ensures { IfOk result (λ admitted. Leaves admitted stack.new (take_one is_number (push on_stack.Int64) (reverse stack.old))) }
{
    if !take_number(stack) {
        return Ok(false);
    }
    push(stack, StackType::Int64)?;
    Ok(true)
}
