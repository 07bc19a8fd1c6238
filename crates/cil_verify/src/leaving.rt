// What an instruction leaves on the stack.
ghost use Rattle.std.specs.Prelude.{◌≡◌, [], Some, reverse, IfOk};
ghost use Rattle.type_tree.specs.declared.tree.TExpr.{TExpr};
ghost use Rattle.il_model.specs.ClassRules.{HasTypes};
ghost use Rattle.cil_verify.specs.Places.{View, view_of, locals_of};
ghost use Rattle.cil_verify.specs.Rows as row;
ghost use Rattle.cil_verify.specs.Admits.{left_by_row, left_by};
ghost use Rattle.cil_verify.specs.Steps as steps;
ghost use Rattle.cil_verify.specs.Taking.{Leaves};

use crate::arithmetic::{change, combine, convert_to_int32, convert_to_int64, shift};
use crate::calls::{call, call_constrained, call_virtual, give_back, make};
use crate::comparing::{
    compare_equal, compare_exceeding, compare_ordered, take_equal, take_exceeding, take_ordered,
};
use crate::fields::{
    load_field, load_field_address, load_static, load_static_address, store_field, store_static,
};
use crate::operands::copied;
use crate::own::argument;
use crate::places::{load, load_address, store};
use crate::pointers::{exchange_one, exchange_two, load_through, store_through};
use crate::references::{cast, make_box, unbox};
use crate::simple::{copy, load_value, start, take_of_class};
use crate::stacks::put;
use crate::step::{
    Access, Arithmetic, Calling, Compared, Constant, FieldAccess, Plain, Printed, Step, TypeAccess,
    Word, step_of,
};
use crate::taking::{push, take_any, take_fitting, take_int32, take_pointer, take_tested};
use crate::vectors::{load_element, load_length, make_vector, store_element};
use cil_flow::StackType;
use il_model::{FRef, MRef, MethodDef, Op, PType, Program};
use mn_outside::NoMemory;
use sqlite_items::Items;
use std::alloc::Global;
use type_tree::{Head, TExpr};

fn leave_plain(
    alloc: Global,
    program: &Program,
    method: &MethodDef,
    step: Plain,
    stack: &mut Items<StackType>,
) -> Result<bool, NoMemory>
    requires { HasTypes program.now }
    ensures { IfOk result (λ admitted. Leaves admitted stack.new
        (left_by_row (view_of program.now method.now) (steps.row_of_plain step) (reverse stack.old))) }
{
    match step {
        Plain::Keep => Ok(true),
        Plain::Copy => copy(alloc, stack),
        Plain::Discard => Ok(take_any(stack)),
        Plain::Empty => Ok(empty(alloc, stack)),
        Plain::Refuse => Ok(false),
        Plain::Test => Ok(take_tested(program, stack)),
        Plain::Choose | Plain::Join => Ok(take_int32(stack)),
        Plain::Return => give_back(alloc, program, method, stack),
        Plain::Throw => Ok(take_of_class(alloc, program, method, 2, stack)?),
        Plain::Length => load_length(program, method, stack),
        Plain::Start => start(alloc, program, method, stack),
    }
}

// Empties the stack.
fn empty(alloc: Global, stack: &mut Items<StackType>) -> bool
    ensures { Leaves result stack.new (Some []) }
{
    *stack = Items::new(alloc);
    true
}

// What a constant stands as.
fn value_of(alloc: Global, constant: Constant) -> StackType
    ensures { result ≡ steps.value_of constant }
{
    match constant {
        Constant::Int32 => StackType::Int32,
        Constant::Int64 => StackType::Int64,
        Constant::Null => StackType::Null,
        Constant::Text => StackType::Kind(TExpr::plain(alloc, Head::Class(1))),
    }
}

fn leave_arithmetic(step: Arithmetic, stack: &mut Items<StackType>) -> Result<bool, NoMemory>
    ensures { IfOk result (λ admitted. (v : View) → Leaves admitted stack.new
        (left_by_row v (steps.row_of_arithmetic step) (reverse stack.old))) }
{
    match step {
        Arithmetic::Combine => combine(stack),
        Arithmetic::Shift => shift(stack),
        Arithmetic::Change => change(stack),
        Arithmetic::ToInt32 => convert_to_int32(stack),
        Arithmetic::ToInt64 => convert_to_int64(stack),
    }
}

fn leave_comparison(
    program: &Program,
    method: &MethodDef,
    compared: Compared,
    stack: &mut Items<StackType>,
) -> Result<bool, NoMemory>
    ensures { IfOk result (λ admitted. Leaves admitted stack.new
        (left_by_row (view_of program.now method.now) (row.compares (steps.comparison_of compared)) (reverse stack.old))) }
{
    match compared {
        Compared::Ordered => compare_ordered(stack),
        Compared::Equal => compare_equal(program, stack),
        Compared::Exceeding => compare_exceeding(program, stack),
    }
}

fn leave_branch(
    program: &Program,
    method: &MethodDef,
    compared: Compared,
    stack: &mut Items<StackType>,
) -> bool
    ensures { Leaves result stack.new
        (left_by_row (view_of program.now method.now) (row.branches (steps.comparison_of compared)) (reverse stack.old)) }
{
    match compared {
        Compared::Ordered => take_ordered(stack),
        Compared::Equal => take_equal(program, stack),
        Compared::Exceeding => take_exceeding(program, stack),
    }
}

fn leave_argument(
    alloc: Global,
    program: &Program,
    method: &MethodDef,
    access: Access,
    number: u64,
    stack: &mut Items<StackType>,
) -> Result<bool, NoMemory>
    requires { HasTypes program.now }
    ensures { IfOk result (λ admitted. Leaves admitted stack.new
        (left_by_row (view_of program.now method.now) (steps.row_of_access access row.arguments number) (reverse stack.old))) }
{
    let place = argument(alloc, program, method, number)?;
    match access {
        Access::Load => load(alloc, place.as_ref(), stack),
        Access::Address => load_address(alloc, place.as_ref(), stack),
        Access::Store => store(alloc, program, method, place.as_ref(), stack),
    }
}

// The locals of a method's body.
fn locals_of(method: &MethodDef) -> &[PType]
    ensures { result.now ≡ locals_of method.now.body }
{
    match &method.body {
        Some(body) => body.locals.as_slice(),
        None => &[],
    }
}

fn leave_local(
    alloc: Global,
    program: &Program,
    method: &MethodDef,
    access: Access,
    number: u64,
    stack: &mut Items<StackType>,
) -> Result<bool, NoMemory>
    requires { HasTypes program.now }
    ensures { IfOk result (λ admitted. Leaves admitted stack.new
        (left_by_row (view_of program.now method.now) (steps.row_of_access access row.locals number) (reverse stack.old))) }
{
    let place = locals_of(method).get(number as usize);
    match access {
        Access::Load => load(alloc, place, stack),
        Access::Address => load_address(alloc, place, stack),
        Access::Store => store(alloc, program, method, place, stack),
    }
}

fn leave_call(
    alloc: Global,
    program: &Program,
    method: &MethodDef,
    calling: Calling,
    named: &MRef,
    stack: &mut Items<StackType>,
) -> Result<bool, NoMemory>
    requires { HasTypes program.now }
    ensures { IfOk result (λ admitted. Leaves admitted stack.new
        (left_by_row (view_of program.now method.now) (steps.row_of_call calling named.now) (reverse stack.old))) }
{
    match calling {
        Calling::Direct => call(alloc, program, method, named, stack),
        Calling::Virtual => call_virtual(alloc, program, method, named, stack),
        Calling::Make => make(alloc, program, method, named, stack),
    }
}

fn leave_field(
    alloc: Global,
    program: &Program,
    method: &MethodDef,
    access: FieldAccess,
    field: &FRef,
    stack: &mut Items<StackType>,
) -> Result<bool, NoMemory>
    requires { HasTypes program.now }
    ensures { IfOk result (λ admitted. Leaves admitted stack.new
        (left_by_row (view_of program.now method.now) (steps.row_of_field access field.now) (reverse stack.old))) }
{
    match access {
        FieldAccess::Load => load_field(alloc, program, method, field, stack),
        FieldAccess::Store => store_field(alloc, program, method, field, stack),
        FieldAccess::Address => load_field_address(alloc, program, method, field, stack),
        FieldAccess::LoadStatic => load_static(alloc, field, stack),
        FieldAccess::StoreStatic => store_static(alloc, program, method, field, stack),
        FieldAccess::AddressStatic => load_static_address(alloc, field, stack),
    }
}

fn leave_of_type(
    alloc: Global,
    program: &Program,
    method: &MethodDef,
    access: TypeAccess,
    kind: &TExpr,
    stack: &mut Items<StackType>,
) -> Result<bool, NoMemory>
    requires { HasTypes program.now }
    ensures { IfOk result (λ admitted. Leaves admitted stack.new
        (left_by_row (view_of program.now method.now) (steps.row_of_type access kind.now) (reverse stack.old))) }
{
    match access {
        TypeAccess::LoadThrough => load_through(alloc, kind, stack),
        TypeAccess::StoreThrough => store_through(alloc, program, method, kind, stack),
        TypeAccess::Clear => Ok(take_pointer(kind, stack)),
        TypeAccess::MakeVector => make_vector(alloc, kind, stack),
        TypeAccess::LoadElement => load_element(alloc, program, method, kind, stack),
        TypeAccess::StoreElement => store_element(alloc, program, method, kind, stack),
        TypeAccess::Box => make_box(alloc, program, method, kind, stack),
        TypeAccess::Unbox => unbox(alloc, program, kind, stack),
        TypeAccess::Cast => cast(alloc, program, kind, stack),
    }
}

fn type_printed(alloc: Global, printed: Printed) -> TExpr
    ensures { result ≡ steps.type_printed printed }
{
    match printed {
        Printed::Int32 => TExpr::plain(alloc, Head::Int32),
        Printed::Int64 => TExpr::plain(alloc, Head::Int64),
        Printed::Text => TExpr::plain(alloc, Head::Class(1)),
    }
}

fn type_of_word(alloc: Global, word: Word) -> TExpr
    ensures { result ≡ steps.type_of_word word }
{
    match word {
        Word::Int32 => TExpr::plain(alloc, Head::Int32),
        Word::Int64 => TExpr::plain(alloc, Head::Int64),
        Word::Object => TExpr::plain(alloc, Head::Class(0)),
    }
}

fn leave_print(
    alloc: Global,
    program: &Program,
    method: &MethodDef,
    printed: Printed,
    stack: &mut Items<StackType>,
) -> Result<bool, NoMemory>
    requires { HasTypes program.now }
    ensures { IfOk result (λ admitted. Leaves admitted stack.new
        (left_by_row (view_of program.now method.now) (row.prints (steps.type_printed printed)) (reverse stack.old))) }
{
    let kind = type_printed(alloc, printed);
    Ok(take_fitting(alloc, program, method, &kind, stack)?)
}

// Changes a stack as the row says, where it admits what is there; else the stack is not to be used again.
fn leave(
    alloc: Global,
    program: &Program,
    method: &MethodDef,
    step: Step<'_>,
    stack: &mut Items<StackType>,
) -> Result<bool, NoMemory>
    requires { HasTypes program.now }
    ensures { IfOk result (λ admitted. Leaves admitted stack.new
        (left_by_row (view_of program.now method.now) (steps.row_of_step step.entry) (reverse stack.old))) }
{
    match step {
        Step::Plain(plain) => leave_plain(alloc, program, method, plain, stack),
        Step::Constant(constant) => load_value(stack, value_of(alloc, constant)),
        Step::Arithmetic(arithmetic) => leave_arithmetic(arithmetic, stack),
        Step::Comparison(compared) => leave_comparison(program, method, compared, stack),
        Step::Branch(compared) => Ok(leave_branch(program, method, compared, stack)),
        Step::Argument(access, n) => leave_argument(alloc, program, method, access, n, stack),
        Step::Local(access, n) => leave_local(alloc, program, method, access, n, stack),
        Step::Call(calling, named) => leave_call(alloc, program, method, calling, named, stack),
        Step::CallThrough(kind, named) => {
            call_constrained(alloc, program, method, kind, named, stack)
        }
        Step::Field(access, field) => leave_field(alloc, program, method, access, field, stack),
        Step::OfType(access, kind) => leave_of_type(alloc, program, method, access, kind, stack),
        Step::Print(printed) => leave_print(alloc, program, method, printed, stack),
        Step::Exchange(word) => {
            exchange_one(alloc, program, method, &type_of_word(alloc, word), stack)
        }
        Step::CompareExchange(word) => {
            exchange_two(alloc, program, method, &type_of_word(alloc, word), stack)
        }
    }
}

/// A stack as it is.
pub(crate) fn copied_stack(alloc: Global, stack: &[StackType]) -> Result<Items<StackType>, NoMemory>
    ensures { IfOk result (λ copy. copy ≡ stack.now) }
{
    let mut copy = Items::new(alloc);
    for kind in stack {
        put(&mut copy, copied(alloc, kind)?)?;
    }
    Ok(copy)
}

/// What an instruction leaves of a stack that it admits, in a body of this method; else None. Both are from
/// the deepest place up.
pub fn left_by(
    alloc: Global,
    program: &Program,
    method: &MethodDef,
    op: &Op,
    stack: &[StackType],
) -> Result<Option<Items<StackType>>, NoMemory>
    requires { HasTypes program.now }
    ensures { IfOk result (λ left. left ≡ left_by (view_of program.now method.now) op.now stack.now) }
{
    let mut left = copied_stack(alloc, stack)?;
    if leave(alloc, program, method, step_of(op), &mut left)? {
        Ok(Some(left))
    } else {
        Ok(None)
    }
}
