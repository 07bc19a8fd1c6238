// What instructions on vectors leave on the stack, in a body of a method.
ghost use Rattle.std.specs.Prelude.{◌≡◌, reverse, IfOk};
ghost use Rattle.il_model.specs.Entries.{vector_of};
ghost use Rattle.il_model.specs.ClassRules.{HasTypes};
ghost use Rattle.cil_flow.specs.declared.state.StackType.TheVariants as on_stack;
ghost use Rattle.cil_verify.specs.Places.{view_of};
ghost use Rattle.cil_verify.specs.Fits.{is_length};
ghost use Rattle.cil_verify.specs.Rows as row;
ghost use Rattle.cil_verify.specs.Admits.{left_by_row, take_one, push};
ghost use Rattle.cil_verify.specs.Taking.{Leaves};

use crate::kinds::stack_of;
use crate::members::vector_of;
use crate::taking::{push, take_any_vector, take_fitting, take_int32, take_length};
use cil_flow::StackType;
use il_model::{MethodDef, Program};
use mn_outside::NoMemory;
use sqlite_items::Items;
use std::alloc::Global;
use type_tree::TExpr;

/// `newarr`: a length leaves the vector.
pub(crate) fn make_vector(
    alloc: Global,
    kind: &TExpr,
    stack: &mut Items<StackType>,
) -> Result<bool, NoMemory>
    ensures { IfOk result (λ admitted. Leaves admitted stack.new
        (take_one is_length (push (on_stack.Kind (vector_of kind.now))) (reverse stack.old))) }
{
    if !take_length(stack) {
        return Ok(false);
    }
    push(stack, StackType::Kind(vector_of(alloc, kind)?))?;
    Ok(true)
}

/// `ldlen`: a vector leaves a native int.
pub(crate) fn load_length(
    program: &Program,
    method: &MethodDef,
    stack: &mut Items<StackType>,
) -> Result<bool, NoMemory>
    ensures { IfOk result (λ admitted. Leaves admitted stack.new
        (left_by_row (view_of program.now method.now) (row.takes_length) (reverse stack.old))) }
{
    if !take_any_vector(program, method, stack) {
        return Ok(false);
    }
    push(stack, StackType::Native)?;
    Ok(true)
}

/// `ldelem`: the index on top, and the vector below it.
pub(crate) fn load_element(
    alloc: Global,
    program: &Program,
    method: &MethodDef,
    kind: &TExpr,
    stack: &mut Items<StackType>,
) -> Result<bool, NoMemory>
    requires { HasTypes program.now }
    ensures { IfOk result (λ admitted. Leaves admitted stack.new
        (left_by_row (view_of program.now method.now) (row.loads_element kind.now) (reverse stack.old))) }
{
    if !take_int32(stack) {
        return Ok(false);
    }
    let vector = vector_of(alloc, kind)?;
    if !take_fitting(alloc, program, method, &vector, stack)? {
        return Ok(false);
    }
    push(stack, stack_of(alloc, kind)?)?;
    Ok(true)
}

/// `stelem`: the value on top, the index and the vector below it.
pub(crate) fn store_element(
    alloc: Global,
    program: &Program,
    method: &MethodDef,
    kind: &TExpr,
    stack: &mut Items<StackType>,
) -> Result<bool, NoMemory>
    requires { HasTypes program.now }
    ensures { IfOk result (λ admitted. Leaves admitted stack.new
        (left_by_row (view_of program.now method.now) (row.stores_element kind.now) (reverse stack.old))) }
{
    if !take_fitting(alloc, program, method, kind, stack)? {
        return Ok(false);
    }
    if !take_int32(stack) {
        return Ok(false);
    }
    let vector = vector_of(alloc, kind)?;
    Ok(take_fitting(alloc, program, method, &vector, stack)?)
}
