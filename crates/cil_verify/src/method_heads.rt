// The rules on a method that are judged before its body.
ghost use Rattle.std.specs.Prelude.{◌≡◌, ◌++◌, IfOk, nat_le, length, flat_map, option_to_list};
ghost use Rattle.std.specs.List.{list_all};
ghost use Rattle.il_model.specs.Methods.{type_of_place, types_of_places};
ghost use Rattle.il_model.specs.ClassRules.{HasTypes, meets_bounds};
ghost use Rattle.cil_verify.specs.Places.{scope_of, clauses_of};
ghost use Rattle.cil_verify.specs.WellTyped.{types_of_method, type_of_sort, most_clauses, head_rules};
ghost use Rattle.cil_verify.specs.Judging.{Judges};

use crate::bounds::{all_bounds_meet, meets_bounds};
use crate::fault::VerifyCause;
use crate::fitting::class_vars;
use crate::shapes::has_shape;
use il_model::{Body, Clause, MethodDef, PType, Program, Sort};
use mn_outside::NoMemory;
use std::alloc::Global;
use type_tree::TExpr;

/// The cause of the first of the rules on a method's head that does not hold of the method with this number.
pub(crate) fn head_cause(
    alloc: Global,
    program: &Program,
    number: u16,
    method: &MethodDef,
) -> Result<Option<VerifyCause>, NoMemory>
    requires { HasTypes program.now }
    ensures { IfOk result (λ found. Judges head_rules program.now number method.now found) }
{
    if !has_shape(alloc, program, number, method)? {
        return Ok(Some(VerifyCause::BadMember));
    }
    if !has_few_clauses(&method.body) {
        return Ok(Some(VerifyCause::TooManyClauses));
    }
    if !meets_all(alloc, program, method)? {
        return Ok(Some(VerifyCause::BadConstraint));
    }
    Ok(None)
}

fn has_few_clauses(body: &Option<Body>) -> bool
    ensures { result ≡ nat_le (length (clauses_of body.now)) most_clauses }
{
    match body {
        Some(body) => body.clauses.len() <= 32,
        None => true,
    }
}

// Whether all types that a method's head, locals and clauses write meet their bounds.
fn meets_all(alloc: Global, program: &Program, method: &MethodDef) -> Result<bool, NoMemory>
    requires { HasTypes program.now }
    ensures { IfOk result (λ met. met ≡ list_all (meets_bounds program.now (scope_of program.now method.now)) (types_of_method method.now)) }
{
    let of_class = class_vars(program, method);
    let of_method = method.vars.as_slice();
    if !all_bounds_meet(alloc, program, of_class, of_method, of_method)? {
        return Ok(false);
    }
    if !places_meet(alloc, program, method, method.params.as_slice())? {
        return Ok(false);
    }
    if !result_meets(alloc, program, method)? {
        return Ok(false);
    }
    match &method.body {
        Some(body) => body_meets(alloc, program, method, body),
        None => Ok(true),
    }
}

// Whether a type meets its bounds, among the variables of a method and its class.
fn type_meets(
    alloc: Global,
    program: &Program,
    method: &MethodDef,
    kind: &TExpr,
) -> Result<bool, NoMemory>
    requires { HasTypes program.now }
    ensures { IfOk result (λ met. met ≡ meets_bounds program.now (scope_of program.now method.now) kind.now) }
{
    meets_bounds(
        alloc,
        program,
        class_vars(program, method),
        method.vars.as_slice(),
        kind,
    )
}

fn result_meets(alloc: Global, program: &Program, method: &MethodDef) -> Result<bool, NoMemory>
    requires { HasTypes program.now }
    ensures { IfOk result (λ met. met ≡ list_all (meets_bounds program.now (scope_of program.now method.now)) (option_to_list method.now.result)) }
{
    match &method.result {
        Some(kind) => type_meets(alloc, program, method, kind),
        None => Ok(true),
    }
}

fn body_meets(
    alloc: Global,
    program: &Program,
    method: &MethodDef,
    body: &Body,
) -> Result<bool, NoMemory>
    requires { HasTypes program.now }
    ensures { IfOk result (λ met. met ≡ list_all (meets_bounds program.now (scope_of program.now method.now))
        (types_of_places body.now.locals ++ flat_map (λ c. type_of_sort c.sort) body.now.clauses)) }
{
    if !places_meet(alloc, program, method, body.locals.as_slice())? {
        return Ok(false);
    }
    clauses_meet(alloc, program, method, body.clauses.as_slice())
}

fn places_meet(
    alloc: Global,
    program: &Program,
    method: &MethodDef,
    places: &[PType],
) -> Result<bool, NoMemory>
    requires { HasTypes program.now }
    ensures { IfOk result (λ met. met ≡ list_all (meets_bounds program.now (scope_of program.now method.now)) (types_of_places places.now)) }
{
    for place in places {
        if !place_meets(alloc, program, method, place)? {
            return Ok(false);
        }
    }
    Ok(true)
}

fn place_meets(
    alloc: Global,
    program: &Program,
    method: &MethodDef,
    place: &PType,
) -> Result<bool, NoMemory>
    requires { HasTypes program.now }
    ensures { IfOk result (λ met. met ≡ list_all (meets_bounds program.now (scope_of program.now method.now)) (type_of_place place.now)) }
{
    match place {
        PType::Value(kind) | PType::Pointer(kind) => type_meets(alloc, program, method, kind),
        PType::Native => Ok(true),
    }
}

fn clauses_meet(
    alloc: Global,
    program: &Program,
    method: &MethodDef,
    clauses: &[Clause],
) -> Result<bool, NoMemory>
    requires { HasTypes program.now }
    ensures { IfOk result (λ met. met ≡ list_all (meets_bounds program.now (scope_of program.now method.now)) (flat_map (λ c. type_of_sort c.sort) clauses.now)) }
{
    for clause in clauses {
        if !sort_meets(alloc, program, method, &clause.sort)? {
            return Ok(false);
        }
    }
    Ok(true)
}

fn sort_meets(
    alloc: Global,
    program: &Program,
    method: &MethodDef,
    sort: &Sort,
) -> Result<bool, NoMemory>
    requires { HasTypes program.now }
    ensures { IfOk result (λ met. met ≡ list_all (meets_bounds program.now (scope_of program.now method.now)) (type_of_sort sort.now)) }
{
    match sort {
        Sort::Catch(kind) => type_meets(alloc, program, method, kind),
        Sort::Finally => Ok(true),
    }
}
