// Programs of the first form: one class with one static method, which adds int32 constants and prints them.
ghost use Rattle.std.specs.Prelude.{◌≡◌, List, Option, Some, None, IfOk, IfSome, IfNone, option_copied};
ghost use Rattle.run_top.specs.declared.first.FirstOp.{FirstOp};
ghost use Rattle.run_top.specs.FirstForm.{IsFirstForm, first_body, first_code, has_one_method, is_first_class, is_first_class_at, is_object, one_body, op_of, ops_of};

use crate::first::{FirstOp, is_well_formed};
use il_model::{Body, ClassDef, ClassKind, MethodDef, Op, Program, Shape};
use mn_outside::NoMemory;
use std::alloc::{AllocError, Global};
use type_tree::{Head, TExpr, TNode};

// The classes and the methods of the library, behind which stand those of the text.
const LIBRARY_CLASSES: usize = 13;

const LIBRARY_METHODS: usize = 12;

// The instruction of the first form that this one is, if it is one.
fn first_op(op: &Op) -> Option<FirstOp>
    ensures { result ≡ op_of op.now }
{
    match op {
        Op::LdcI4(number) => Some(FirstOp::Push(*number)),
        Op::Add => Some(FirstOp::Add),
        Op::WriteLineInt32 => Some(FirstOp::Print),
        Op::Ret => Some(FirstOp::Ret),
        _ => None,
    }
}

// The instructions of the first form that these are, if each is one.
fn first_ops(alloc: Global, code: &[Op]) -> Result<Option<Vec<FirstOp>>, AllocError>
    ensures some { IfOk result (λ found. IfSome found (λ ops. ops_of code.now ≡ Some ops.items)) }
    ensures none { IfOk result (λ found. IfNone found (ops_of code.now ≡ None)) }
{
    let mut ops = Vec::new(alloc);
    for op in code {
        let Some(first) = first_op(op) else {
            return Ok(None);
        };
        ops.push(first)?;
    }
    Ok(Some(ops))
}

// Whether the type is `object`.
fn is_object(kind: &TExpr) -> bool
    ensures { result ≡ is_object kind.now }
{
    match kind.top() {
        TNode::Node(Head::Class(number), parts) => *number == 0 && parts.is_empty(),
        _ => false,
    }
}

// Whether the class is plain, with the base `object`, and has neither type variables, interfaces nor fields.
fn is_first_class(class: &ClassDef) -> bool
    ensures { result ≡ is_first_class class.now }
{
    let Some(base) = &class.base else {
        return false;
    };
    is_object(base)
        && class.kind == ClassKind::Plain
        && class.vars.is_empty()
        && class.interfaces.is_empty()
        && class.fields.is_empty()
}

// The body of a static method without type variables, parameters and result, if it has neither locals nor clauses.
fn first_body(method: &MethodDef) -> Option<&Body>
    ensures { option_copied result ≡ first_body method.now }
{
    if method.shape != Shape::Fixed
        || !method.vars.is_empty()
        || !method.params.is_empty()
        || method.result.is_some()
    {
        return None;
    }
    let Some(body) = &method.body else {
        return None;
    };
    if body.locals.is_empty() && body.clauses.is_empty() {
        Some(body)
    } else {
        None
    }
}

fn is_first_class_at(class: Option<&ClassDef>) -> bool
    ensures { result ≡ is_first_class_at (option_copied class.entry) }
{
    match class {
        None => false,
        Some(class) => is_first_class(class),
    }
}

// Whether one class and one method stand behind those of the library, with which the program begins.
fn has_one_method(program: &Program) -> bool
    ensures { result ≡ has_one_method program.now }
{
    program.classes.len() == LIBRARY_CLASSES + 1
        && program.methods.len() == LIBRARY_METHODS + 1
        && program.main == 12
        && is_first_class_at(program.classes.as_slice().get(LIBRARY_CLASSES))
}

// The body of the one method.
fn one_body(program: &Program) -> Option<&Body>
    ensures { option_copied result ≡ one_body program.now }
{
    if !has_one_method(program) {
        return None;
    }
    let Some(method) = program.methods.as_slice().get(LIBRARY_METHODS) else {
        return None;
    };
    first_body(method)
}

// The instructions of a program, where all are of the first form.
fn first_code(alloc: Global, program: &Program) -> Result<Option<Vec<FirstOp>>, AllocError>
    ensures some { IfOk result (λ found. IfSome found (λ ops. first_code program.now ≡ Some ops.items)) }
    ensures none { IfOk result (λ found. IfNone found (first_code program.now ≡ None)) }
{
    let Some(body) = one_body(program) else {
        return Ok(None);
    };
    let found = first_ops(alloc, body.code.as_slice())?;
    Ok(found)
}

/// The instructions of a program of the first form, if it is one.
pub(crate) fn first_form(alloc: Global, program: &Program) -> Result<Option<Vec<FirstOp>>, NoMemory>
    ensures some { IfOk result (λ found. IfSome found (λ ops. IsFirstForm program.now ops.items)) }
    ensures none { IfOk result (λ found. IfNone found ((ops : List FirstOp) → ¬ IsFirstForm program.now ops)) }
{
    let Ok(found) = first_code(alloc, program) else {
        return Err(NoMemory);
    };
    let Some(ops) = found else {
        return Ok(None);
    };
    if !is_well_formed(ops.as_slice()) {
        return Ok(None);
    }
    Ok(Some(ops))
}
