// What instructions on fields leave on the stack, in a body of a method.
ghost use Rattle.std.specs.Prelude.{◌≡◌, reverse, IfOk};
ghost use Rattle.il_model.specs.Entries.{field_type};
ghost use Rattle.il_model.specs.ClassRules.{HasTypes};
ghost use Rattle.cil_flow.specs.declared.state.StackType.TheVariants as on_stack;
ghost use Rattle.cil_verify.specs.Places.{view_of, stack_of};
ghost use Rattle.cil_verify.specs.Rows as row;
ghost use Rattle.cil_verify.specs.Admits.{left_by_row, push};
ghost use Rattle.cil_verify.specs.Taking.{Leaves};

use crate::kinds::stack_of;
use crate::members::field_type;
use crate::taking::{push, take_fitting, take_object_of, take_read};
use cil_flow::StackType;
use il_model::{FRef, MethodDef, Program};
use mn_outside::NoMemory;
use sqlite_items::Items;
use std::alloc::Global;

/// `ldfld`.
pub(crate) fn load_field(
    alloc: Global,
    program: &Program,
    method: &MethodDef,
    field: &FRef,
    stack: &mut Items<StackType>,
) -> Result<bool, NoMemory>
    requires { HasTypes program.now }
    ensures { IfOk result (λ admitted. Leaves admitted stack.new
        (left_by_row (view_of program.now method.now) (row.loads_field field.now) (reverse stack.old))) }
{
    if !take_read(alloc, program, method, &field.class, stack)? {
        return Ok(false);
    }
    let kind = field_type(alloc, field)?;
    push(stack, stack_of(alloc, &kind)?)?;
    Ok(true)
}

/// `stfld`: the value on top, and the object below it.
pub(crate) fn store_field(
    alloc: Global,
    program: &Program,
    method: &MethodDef,
    field: &FRef,
    stack: &mut Items<StackType>,
) -> Result<bool, NoMemory>
    requires { HasTypes program.now }
    ensures { IfOk result (λ admitted. Leaves admitted stack.new
        (left_by_row (view_of program.now method.now) (row.stores_field field.now) (reverse stack.old))) }
{
    let kind = field_type(alloc, field)?;
    if !take_fitting(alloc, program, method, &kind, stack)? {
        return Ok(false);
    }
    Ok(take_object_of(alloc, program, method, &field.class, stack)?)
}

/// `ldflda`.
pub(crate) fn load_field_address(
    alloc: Global,
    program: &Program,
    method: &MethodDef,
    field: &FRef,
    stack: &mut Items<StackType>,
) -> Result<bool, NoMemory>
    requires { HasTypes program.now }
    ensures { IfOk result (λ admitted. Leaves admitted stack.new
        (left_by_row (view_of program.now method.now) (row.addresses_field field.now) (reverse stack.old))) }
{
    if !take_object_of(alloc, program, method, &field.class, stack)? {
        return Ok(false);
    }
    push(stack, StackType::Pointer(field_type(alloc, field)?))?;
    Ok(true)
}

/// `ldsfld`.
pub(crate) fn load_static(
    alloc: Global,
    field: &FRef,
    stack: &mut Items<StackType>,
) -> Result<bool, NoMemory>
    ensures { IfOk result (λ admitted. Leaves admitted stack.new (push (stack_of (field_type field.now)) (reverse stack.old))) }
{
    let kind = field_type(alloc, field)?;
    push(stack, stack_of(alloc, &kind)?)?;
    Ok(true)
}

/// `stsfld`.
pub(crate) fn store_static(
    alloc: Global,
    program: &Program,
    method: &MethodDef,
    field: &FRef,
    stack: &mut Items<StackType>,
) -> Result<bool, NoMemory>
    requires { HasTypes program.now }
    ensures { IfOk result (λ admitted. Leaves admitted stack.new
        (left_by_row (view_of program.now method.now) (row.stores_static field.now) (reverse stack.old))) }
{
    let kind = field_type(alloc, field)?;
    Ok(take_fitting(alloc, program, method, &kind, stack)?)
}

/// `ldsflda`.
pub(crate) fn load_static_address(
    alloc: Global,
    field: &FRef,
    stack: &mut Items<StackType>,
) -> Result<bool, NoMemory>
    ensures { IfOk result (λ admitted. Leaves admitted stack.new (push (on_stack.Pointer (field_type field.now)) (reverse stack.old))) }
{
    push(stack, StackType::Pointer(field_type(alloc, field)?))?;
    Ok(true)
}
