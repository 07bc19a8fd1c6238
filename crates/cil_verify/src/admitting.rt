// Which operands a row of the table of instructions admits.
ghost use Rattle.std.specs.Prelude.{◌≡◌, ◌&&◌, ◌||◌, IfOk};
ghost use Rattle.il_model.specs.declared.method.MethodDef.{MethodDef};
ghost use Rattle.il_model.specs.ClassRules.{HasTypes};
ghost use Rattle.cil_verify.specs.Places.{view_of};
ghost use Rattle.cil_verify.specs.Fits.{is_int32, is_int64};
ghost use Rattle.cil_verify.specs.Rows.{also_references, also_with_null};
ghost use Rattle.cil_verify.specs.Admits.{are_numbers, may_compare, may_test, is_called_on, may_be_read};

use crate::fitting::{fits, stands_as};
use crate::objects::{is_object_of, is_struct};
use crate::operands::{is_int32, is_int64, is_null, is_number, is_object};
use cil_flow::StackType;
use il_model::{MRef, MethodDef, Program};
use mn_outside::NoMemory;
use std::alloc::Global;
use type_tree::TExpr;

/// Whether both are int32, or both int64: what arithmetic and the order of numbers take.
pub fn are_numbers(first: &StackType, second: &StackType) -> bool
    ensures { result ≡ are_numbers first.now second.now }
{
    are_int32(first, second) || are_int64(first, second)
}

fn are_int32(first: &StackType, second: &StackType) -> bool
    ensures { result ≡ (is_int32 first.now && is_int32 second.now) }
{
    is_int32(first) && is_int32(second)
}

fn are_int64(first: &StackType, second: &StackType) -> bool
    ensures { result ≡ (is_int64 first.now && is_int64 second.now) }
{
    is_int64(first) && is_int64(second)
}

/// Whether the two may be compared for being equal: two numbers of one type, or two references.
pub fn may_equal(program: &Program, first: &StackType, second: &StackType) -> bool
    ensures { (method : MethodDef) → result ≡ may_compare (view_of program.now method) also_references first.now second.now }
{
    if are_numbers(first, second) {
        return true;
    }
    is_object(program, first) && is_object(program, second)
}

/// Whether `cgt.un` may compare the two: two numbers of one type, or a reference and null above it.
pub fn may_exceed(program: &Program, first: &StackType, second: &StackType) -> bool
    ensures { (method : MethodDef) → result ≡ may_compare (view_of program.now method) also_with_null first.now second.now }
{
    if are_numbers(first, second) {
        return true;
    }
    is_object(program, first) && is_null(second)
}

/// Whether `brtrue` and `brfalse` may test the operand: a number or a reference.
pub fn may_test(program: &Program, operand: &StackType) -> bool
    ensures { (method : MethodDef) → result ≡ may_test (view_of program.now method) operand.now }
{
    is_number(operand) || is_object(program, operand)
}

/// Whether `callvirt` may be made on the operand, in a body of this method: a reference that fits the class,
/// which is no struct.
pub fn is_called_on(
    alloc: Global,
    program: &Program,
    method: &MethodDef,
    named: &MRef,
    operand: &StackType,
) -> Result<bool, NoMemory>
    requires { HasTypes program.now }
    ensures { IfOk result (λ answer. answer ≡ is_called_on (view_of program.now method.now) named.now operand.now) }
{
    if is_struct(program, &named.class) {
        return Ok(false);
    }
    fits(alloc, program, method, &named.class, operand)
}

/// Whether a field of a class may be read from the operand, in a body of this method: from an object of it,
/// or from a struct's value.
pub fn may_be_read(
    alloc: Global,
    program: &Program,
    method: &MethodDef,
    class: &TExpr,
    operand: &StackType,
) -> Result<bool, NoMemory>
    requires { HasTypes program.now }
    ensures { IfOk result (λ answer. answer ≡ may_be_read (view_of program.now method.now) class.now operand.now) }
{
    if is_object_of(alloc, program, method, class, operand)? {
        return Ok(true);
    }
    Ok(is_struct(program, class) && stands_as(class, operand))
}
