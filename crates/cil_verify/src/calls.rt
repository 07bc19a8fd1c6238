// What calls, `newobj` and `ret` leave on the stack, in a body of a method.
ghost use Rattle.std.specs.Prelude.{◌≡◌, reverse, IfOk};
ghost use Rattle.std.specs.Option.{option_copied};
ghost use Rattle.il_model.specs.ClassRules.{HasTypes};
ghost use Rattle.cil_verify.specs.Places.{view_of, stack_of};
ghost use Rattle.cil_verify.specs.Fits.{points_to};
ghost use Rattle.cil_verify.specs.Members.{result_at};
ghost use Rattle.cil_verify.specs.Rows as row;
ghost use Rattle.cil_verify.specs.Admits.{after_call, take_object, push_all, return_value, may_constrain, left_by_row};
ghost use Rattle.cil_verify.specs.Taking.{Takes, Leaves};

use crate::bounds::meets_bound;
use crate::fitting::class_vars;
use crate::kinds::stack_of;
use crate::members::{place_at, result_at};
use crate::taking::{
    push, take_called_on, take_fitting, take_for_place, take_object_of, take_pointer,
};
use cil_flow::StackType;
use il_model::{MRef, MethodDef, Program};
use mn_outside::NoMemory;
use sqlite_items::Items;
use std::alloc::Global;
use type_tree::TExpr;

// Takes the arguments of the method that is named, the last of which is on top.
fn take_arguments(
    alloc: Global,
    program: &Program,
    method: &MethodDef,
    named: &MRef,
    stack: &mut Items<StackType>,
) -> Result<bool, NoMemory>
    requires { HasTypes program.now }
    ensures { IfOk result (λ admitted. Takes (after_call (view_of program.now method.now) named.now) admitted stack.old stack.new) }
{
    let params = named.params.as_slice();
    for i in 0..params.len() {
        let place = place_at(alloc, named, &params[params.len() - 1 - i])?;
        if !take_for_place(alloc, program, method, &place, stack)? {
            return Ok(false);
        }
    }
    Ok(true)
}

// Takes the object of a call, if the method takes one as it is named.
fn take_object(
    alloc: Global,
    program: &Program,
    method: &MethodDef,
    named: &MRef,
    stack: &mut Items<StackType>,
) -> Result<bool, NoMemory>
    requires { HasTypes program.now }
    ensures { IfOk result (λ admitted. Takes (take_object (view_of program.now method.now) named.now) admitted stack.old stack.new) }
{
    if !named.instance {
        return Ok(true);
    }
    Ok(take_object_of(alloc, program, method, &named.class, stack)?)
}

// Puts a result on top, if there is one.
fn push_result(alloc: Global, named: &MRef, stack: &mut Items<StackType>) -> Result<bool, NoMemory>
    ensures { IfOk result (λ admitted. Leaves admitted stack.new (push_all (result_at named.now) (reverse stack.old))) }
{
    let Some(kind) = result_at(alloc, named)? else {
        return Ok(true);
    };
    push(stack, stack_of(alloc, &kind)?)?;
    Ok(true)
}

/// `call`: the arguments, and the object where there is one.
pub(crate) fn call(
    alloc: Global,
    program: &Program,
    method: &MethodDef,
    named: &MRef,
    stack: &mut Items<StackType>,
) -> Result<bool, NoMemory>
    requires { HasTypes program.now }
    ensures { IfOk result (λ admitted. Leaves admitted stack.new
        (left_by_row (view_of program.now method.now) (row.calls named.now) (reverse stack.old))) }
{
    if !take_arguments(alloc, program, method, named, stack)? {
        return Ok(false);
    }
    if !take_object(alloc, program, method, named, stack)? {
        return Ok(false);
    }
    push_result(alloc, named, stack)
}

/// `callvirt`: the arguments and a reference.
pub(crate) fn call_virtual(
    alloc: Global,
    program: &Program,
    method: &MethodDef,
    named: &MRef,
    stack: &mut Items<StackType>,
) -> Result<bool, NoMemory>
    requires { HasTypes program.now }
    ensures { IfOk result (λ admitted. Leaves admitted stack.new
        (left_by_row (view_of program.now method.now) (row.calls_on named.now) (reverse stack.old))) }
{
    if !take_arguments(alloc, program, method, named, stack)? {
        return Ok(false);
    }
    if !take_called_on(alloc, program, method, named, stack)? {
        return Ok(false);
    }
    push_result(alloc, named, stack)
}

// Whether `constrained.` may be made for this type.
fn may_constrain(
    alloc: Global,
    program: &Program,
    method: &MethodDef,
    kind: &TExpr,
    named: &MRef,
) -> Result<bool, NoMemory>
    requires { HasTypes program.now }
    ensures { IfOk result (λ answer. answer ≡ may_constrain (view_of program.now method.now) kind.now named.now) }
{
    let of_class = class_vars(program, method);
    let of_method = method.vars.as_slice();
    meets_bound(alloc, program, of_class, of_method, kind, &named.class)
}

/// `constrained.` and its `callvirt`: the arguments and a pointer to the type.
pub(crate) fn call_constrained(
    alloc: Global,
    program: &Program,
    method: &MethodDef,
    kind: &TExpr,
    named: &MRef,
    stack: &mut Items<StackType>,
) -> Result<bool, NoMemory>
    requires { HasTypes program.now }
    ensures { IfOk result (λ admitted. Leaves admitted stack.new
        (left_by_row (view_of program.now method.now) (row.calls_through kind.now named.now) (reverse stack.old))) }
{
    if !may_constrain(alloc, program, method, kind, named)? {
        return Ok(false);
    }
    if !take_arguments(alloc, program, method, named, stack)? {
        return Ok(false);
    }
    if !take_pointer(kind, stack) {
        return Ok(false);
    }
    push_result(alloc, named, stack)
}

/// `newobj`: the arguments alone.
pub(crate) fn make(
    alloc: Global,
    program: &Program,
    method: &MethodDef,
    named: &MRef,
    stack: &mut Items<StackType>,
) -> Result<bool, NoMemory>
    requires { HasTypes program.now }
    ensures { IfOk result (λ admitted. Leaves admitted stack.new
        (left_by_row (view_of program.now method.now) (row.makes named.now) (reverse stack.old))) }
{
    if !take_arguments(alloc, program, method, named, stack)? {
        return Ok(false);
    }
    push(stack, stack_of(alloc, &named.class)?)?;
    Ok(true)
}

/// `ret`: the method's result, if it has one.
pub(crate) fn give_back(
    alloc: Global,
    program: &Program,
    method: &MethodDef,
    stack: &mut Items<StackType>,
) -> Result<bool, NoMemory>
    requires { HasTypes program.now }
    ensures { IfOk result (λ admitted. Leaves admitted stack.new
        (return_value (view_of program.now method.now) method.now.result (reverse stack.old))) }
{
    let Some(kind) = &method.result else {
        return Ok(true);
    };
    Ok(take_fitting(alloc, program, method, kind, stack)?)
}
