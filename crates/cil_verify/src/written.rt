// Whether the types that an instruction writes meet their bounds.
ghost use Rattle.std.specs.Prelude.{◌≡◌, ◌&&◌, zip, Some, IfOk};
ghost use Rattle.std.specs.List.{list_all};
ghost use Rattle.std.specs.Option.{option_copied};
ghost use Rattle.il_model.specs.ClassRules.{HasTypes, meets_bounds};
ghost use Rattle.cil_verify.specs.Places.{view_of, scope_of};
ghost use Rattle.cil_verify.specs.Members.{called, vars_of_method, meets_bounds_at, arguments_meet_bounds, meets_all_bounds};

use crate::bounds::{all_meet, meets_bound, meets_bounds};
use crate::fitting::class_vars;
use crate::members::type_at;
use crate::naming::called;
use il_model::{MRef, MethodDef, Op, Program, VarDef};
use mn_outside::NoMemory;
use std::alloc::Global;
use type_tree::TExpr;

// Whether a type that is written in a body of this method meets the bounds of its classes' variables.
fn type_meets(
    alloc: Global,
    program: &Program,
    method: &MethodDef,
    kind: &TExpr,
) -> Result<bool, NoMemory>
    requires { HasTypes program.now }
    ensures { IfOk result (λ answer. answer ≡ meets_bounds program.now (scope_of program.now method.now) kind.now) }
{
    meets_bounds(
        alloc,
        program,
        class_vars(program, method),
        method.vars.as_slice(),
        kind,
    )
}

// Whether all of these do.
fn types_meet(
    alloc: Global,
    program: &Program,
    method: &MethodDef,
    kinds: &[TExpr],
) -> Result<bool, NoMemory>
    requires { HasTypes program.now }
    ensures { IfOk result (λ answer. answer ≡ list_all (meets_bounds program.now (scope_of program.now method.now)) kinds.now) }
{
    all_meet(
        alloc,
        program,
        class_vars(program, method),
        method.vars.as_slice(),
        kinds,
    )
}

// Whether an argument of the method that is named meets each bound of its variable.
fn argument_meets(
    alloc: Global,
    program: &Program,
    method: &MethodDef,
    named: &MRef,
    var: &VarDef,
    argument: &TExpr,
) -> Result<bool, NoMemory>
    requires { HasTypes program.now }
    ensures { IfOk result (λ answer. answer ≡ meets_bounds_at (view_of program.now method.now) named.now (var.now, argument.now)) }
{
    for bound in var.bounds.as_slice() {
        let at = type_at(alloc, named, bound)?;
        let of_class = class_vars(program, method);
        if !meets_bound(
            alloc,
            program,
            of_class,
            method.vars.as_slice(),
            argument,
            &at,
        )? {
            return Ok(false);
        }
    }
    Ok(true)
}

// Whether each argument of the method that is named meets the bounds of its variable.
fn pairs_meet(
    alloc: Global,
    program: &Program,
    method: &MethodDef,
    named: &MRef,
    vars: &[VarDef],
    arguments: &[TExpr],
) -> Result<bool, NoMemory>
    requires { HasTypes program.now }
    ensures { IfOk result (λ answer. answer ≡
        list_all (meets_bounds_at (view_of program.now method.now) named.now) (zip vars.now arguments.now)) }
{
    for i in 0..vars.len() {
        if i >= arguments.len() {
            return Ok(true);
        }
        if !argument_meets(alloc, program, method, named, &vars[i], &arguments[i])? {
            return Ok(false);
        }
    }
    Ok(true)
}

// The variables of the method that is named.
fn vars_called<'a>(program: &'a Program, named: &MRef) -> &'a [VarDef]
    ensures { result.now ≡ vars_of_method (called program.now named.now) }
{
    match called(program, named) {
        Some(method) => method.vars.as_slice(),
        None => &[],
    }
}

// Whether the class and the arguments that a method is named with meet their bounds.
fn method_meets(
    alloc: Global,
    program: &Program,
    method: &MethodDef,
    named: &MRef,
) -> Result<bool, NoMemory>
    requires { HasTypes program.now }
    ensures { IfOk result (λ answer. answer ≡
        ((meets_bounds program.now (scope_of program.now method.now) named.now.class &&
        list_all (meets_bounds program.now (scope_of program.now method.now)) named.now.args) &&
        arguments_meet_bounds (view_of program.now method.now) named.now)) }
{
    if !type_meets(alloc, program, method, &named.class)? {
        return Ok(false);
    }
    if !types_meet(alloc, program, method, named.args.as_slice())? {
        return Ok(false);
    }
    let vars = vars_called(program, named);
    pairs_meet(alloc, program, method, named, vars, named.args.as_slice())
}

// The same, and a type that stands before it.
fn constrained_meets(
    alloc: Global,
    program: &Program,
    method: &MethodDef,
    kind: &TExpr,
    named: &MRef,
) -> Result<bool, NoMemory>
    requires { HasTypes program.now }
    ensures { IfOk result (λ answer. answer ≡
        (meets_bounds program.now (scope_of program.now method.now) kind.now &&
        ((meets_bounds program.now (scope_of program.now method.now) named.now.class &&
        list_all (meets_bounds program.now (scope_of program.now method.now)) named.now.args) &&
        arguments_meet_bounds (view_of program.now method.now) named.now))) }
{
    if !type_meets(alloc, program, method, kind)? {
        return Ok(false);
    }
    method_meets(alloc, program, method, named)
}

/// Whether all types that an instruction writes, in a body of this method, have the right numbers of
/// arguments, which meet their bounds.
pub fn meets_all_bounds(
    alloc: Global,
    program: &Program,
    method: &MethodDef,
    op: &Op,
) -> Result<bool, NoMemory>
    requires { HasTypes program.now }
    ensures { IfOk result (λ answer. answer ≡ meets_all_bounds (view_of program.now method.now) op.now) }
{
    match op {
        Op::Call(m) | Op::Callvirt(m) | Op::Newobj(m) => method_meets(alloc, program, method, m),
        Op::Constrained(t, m) => constrained_meets(alloc, program, method, t, m),
        Op::Ldfld(f) | Op::Stfld(f) | Op::Ldflda(f) => type_meets(alloc, program, method, &f.class),
        Op::Ldsfld(f) | Op::Stsfld(f) | Op::Ldsflda(f) => {
            type_meets(alloc, program, method, &f.class)
        }
        Op::Ldobj(t) | Op::Stobj(t) | Op::Initobj(t) => type_meets(alloc, program, method, t),
        Op::Newarr(t) | Op::Ldelem(t) | Op::Stelem(t) => type_meets(alloc, program, method, t),
        Op::Box(t) | Op::UnboxAny(t) | Op::Castclass(t) | Op::Isinst(t) | Op::NameOf(t) => {
            type_meets(alloc, program, method, t)
        }
        _ => Ok(true),
    }
}
