// What the rows of an image are judged by.
ghost use Rattle.std.specs.Prelude.{◌≡◌, ◌-◌, flat_map, option_to_list, sum_by, zip, IfOk};
ghost use Rattle.std.specs.List.{list_all};
ghost use Rattle.type_tree.specs.Positions.{positions_of};
ghost use Rattle.il_model.specs.Methods.{type_of_place, types_of_body, types_of_method, types_of_places};
ghost use Rattle.il_model.specs.ClassRules.{HasTypes};
ghost use Rattle.rgctx_template.specs.Admitted.{is_admitted, is_admitted_method, is_bounded_method, is_bounded_throughout, meets_all};
ghost use Rattle.aot_image.specs.ImageJudging.{is_bounded_here, is_admitted_with};

use cil_verify::{meets_bound, meets_own_bounds};
use il_model::{Body, MethodDef, PType, Program, VarDef};
use mn_outside::{NoMemory, Refused};
use std::alloc::Global;
use type_inst::{admitted, arguments_of};
use type_tree::{TExpr, TNode, subst_whole};

// A tree that is admitted has at most so many positions.
const MOST_POSITIONS: u32 = 256;

/// What is left of a number once a tree's positions are taken off, down to 0. No more of the tree is looked
/// at than that.
#[cycle(left_after)]
#[tactic(auto, using(crate::proofs::JudgingLemmas::left_of_node, crate::proofs::JudgingLemmas::positions_class_var, crate::proofs::JudgingLemmas::positions_method_var))]
pub(crate) fn left_after(tree: &TExpr, most: u32) -> u32
    ensures { result ≡ most - positions_of tree.now }
{
    if most == 0 {
        return 0;
    }
    match tree.top() {
        TNode::Node(_, parts) => left_after_all(parts.as_slice(), most - 1),
        TNode::ClassVar(_) | TNode::MethodVar(_) => most - 1,
    }
}

#[cycle(left_after)]
pub(crate) fn left_after_all(trees: &[TExpr], most: u32) -> u32
    ensures { result ≡ most - sum_by positions_of trees.now }
{
    let mut left = most;
    for tree in trees {
        left = left_after(tree, left);
    }
    left
}

/// Whether a tree is admitted. One of too many positions is counted no further.
#[tactic(auto, using(crate::proofs::JudgingLemmas::used_up))]
pub(crate) fn is_admitted(alloc: Global, program: &Program, tree: &TExpr) -> Result<bool, NoMemory>
    ensures { IfOk result (λ answer. answer ≡ is_admitted program.now tree.now) }
{
    if left_after(tree, MOST_POSITIONS + 1) == 0 {
        return Ok(false);
    }
    match admitted(alloc, program, tree) {
        Ok(()) => Ok(true),
        Err(Refused::Fault(_)) => Ok(false),
        Err(Refused::NoMemory) => Err(NoMemory),
    }
}

/// Whether each admitted tree in this one, at any depth, meets its bounds.
#[cycle(bounded)]
pub(crate) fn is_bounded_throughout(
    alloc: Global,
    program: &Program,
    tree: &TExpr,
) -> Result<bool, NoMemory>
    requires { HasTypes program.now }
    ensures { IfOk result (λ answer. answer ≡ is_bounded_throughout program.now tree.now) }
{
    if !is_bounded_here(alloc, program, tree)? {
        return Ok(false);
    }
    match tree.top() {
        TNode::Node(_, parts) => are_bounded_throughout(alloc, program, parts.as_slice()),
        TNode::ClassVar(_) | TNode::MethodVar(_) => Ok(true),
    }
}

#[cycle(bounded)]
fn are_bounded_throughout(
    alloc: Global,
    program: &Program,
    trees: &[TExpr],
) -> Result<bool, NoMemory>
    requires { HasTypes program.now }
    ensures { IfOk result (λ answer. answer ≡ list_all (is_bounded_throughout program.now) trees.now) }
{
    for tree in trees {
        if !is_bounded_throughout(alloc, program, tree)? {
            return Ok(false);
        }
    }
    Ok(true)
}

// Whether a tree meets its own bounds, where it is admitted.
fn is_bounded_here(alloc: Global, program: &Program, tree: &TExpr) -> Result<bool, NoMemory>
    requires { HasTypes program.now }
    ensures { IfOk result (λ answer. answer ≡ is_bounded_here program.now tree.now) }
{
    if !is_admitted(alloc, program, tree)? {
        return Ok(true);
    }
    meets_own_bounds(alloc, program, &[], &[], tree)
}

// Whether all of these trees are admitted.
fn are_admitted(alloc: Global, program: &Program, trees: &[TExpr]) -> Result<bool, NoMemory>
    ensures { IfOk result (λ answer. answer ≡ list_all (is_admitted program.now) trees.now) }
{
    for tree in trees {
        if !is_admitted(alloc, program, tree)? {
            return Ok(false);
        }
    }
    Ok(true)
}

// Whether a type is admitted once these arguments are put for its variables.
fn is_admitted_with(
    alloc: Global,
    program: &Program,
    class_args: &[TExpr],
    method_args: &[TExpr],
    kind: &TExpr,
) -> Result<bool, NoMemory>
    ensures { IfOk result (λ answer. answer ≡ is_admitted_with program.now class_args.now method_args.now kind.now) }
{
    let whole = subst_whole(alloc, kind, class_args, method_args)?;
    is_admitted(alloc, program, &whole)
}

// The same of the types of places.
fn are_admitted_places(
    alloc: Global,
    program: &Program,
    class_args: &[TExpr],
    method_args: &[TExpr],
    places: &[PType],
) -> Result<bool, NoMemory>
    ensures { IfOk result (λ answer. answer ≡
        list_all (is_admitted_with program.now class_args.now method_args.now) (types_of_places places.now)) }
{
    for place in places {
        if !is_admitted_place(alloc, program, class_args, method_args, place)? {
            return Ok(false);
        }
    }
    Ok(true)
}

fn is_admitted_place(
    alloc: Global,
    program: &Program,
    class_args: &[TExpr],
    method_args: &[TExpr],
    place: &PType,
) -> Result<bool, NoMemory>
    ensures { IfOk result (λ answer. answer ≡
        list_all (is_admitted_with program.now class_args.now method_args.now) (type_of_place place.now)) }
{
    match place {
        PType::Value(kind) | PType::Pointer(kind) => {
            is_admitted_with(alloc, program, class_args, method_args, kind)
        }
        PType::Native => Ok(true),
    }
}

// The same of the type of a result.
fn is_admitted_result(
    alloc: Global,
    program: &Program,
    class_args: &[TExpr],
    method_args: &[TExpr],
    kind: &Option<TExpr>,
) -> Result<bool, NoMemory>
    ensures { IfOk result (λ answer. answer ≡
        list_all (is_admitted_with program.now class_args.now method_args.now) (option_to_list kind.now)) }
{
    match kind {
        Some(kind) => is_admitted_with(alloc, program, class_args, method_args, kind),
        None => Ok(true),
    }
}

// The same of the types of a body's locals.
fn are_admitted_locals(
    alloc: Global,
    program: &Program,
    class_args: &[TExpr],
    method_args: &[TExpr],
    body: &Option<Body>,
) -> Result<bool, NoMemory>
    ensures { IfOk result (λ answer. answer ≡
        list_all (is_admitted_with program.now class_args.now method_args.now) (flat_map types_of_body (option_to_list body.now))) }
{
    match body {
        Some(body) => {
            are_admitted_places(
                alloc,
                program,
                class_args,
                method_args,
                body.locals.as_slice(),
            )
        }
        None => Ok(true),
    }
}

// Whether the types of a method's signature and locals are admitted at these arguments.
#[tactic(auto, using(crate::proofs::JudgingLemmas::signature_all))]
fn is_admitted_signature(
    alloc: Global,
    program: &Program,
    class_args: &[TExpr],
    method_args: &[TExpr],
    method: &MethodDef,
) -> Result<bool, NoMemory>
    ensures { IfOk result (λ answer. answer ≡
        list_all (is_admitted_with program.now class_args.now method_args.now) (types_of_method method.now)) }
{
    if !are_admitted_places(
        alloc,
        program,
        class_args,
        method_args,
        method.params.as_slice(),
    )? {
        return Ok(false);
    }
    if !is_admitted_result(alloc, program, class_args, method_args, &method.result)? {
        return Ok(false);
    }
    are_admitted_locals(alloc, program, class_args, method_args, &method.body)
}

/// Whether a method is admitted at this class and these arguments.
#[tactic(auto, using(crate::proofs::JudgingLemmas::method_used_up, crate::proofs::JudgingLemmas::method_within))]
pub(crate) fn is_admitted_method(
    alloc: Global,
    program: &Program,
    class: &TExpr,
    args: &[TExpr],
    method: &MethodDef,
) -> Result<bool, NoMemory>
    ensures { IfOk result (λ answer. answer ≡ is_admitted_method program.now class.now args.now method.now) }
{
    if left_after_all(args, left_after(class, MOST_POSITIONS)) == 0 {
        return Ok(false);
    }
    if !is_admitted(alloc, program, class)? {
        return Ok(false);
    }
    if !are_admitted(alloc, program, args)? {
        return Ok(false);
    }
    is_admitted_signature(alloc, program, arguments_of(class), args, method)
}

/// Whether the arguments of a method meet the bounds of its variables, where it is admitted.
pub(crate) fn is_bounded_method(
    alloc: Global,
    program: &Program,
    class: &TExpr,
    args: &[TExpr],
    method: &MethodDef,
) -> Result<bool, NoMemory>
    requires { HasTypes program.now }
    ensures { IfOk result (λ answer. answer ≡ is_bounded_method program.now class.now args.now method.now) }
{
    if !is_admitted_method(alloc, program, class, args, method)? {
        return Ok(true);
    }
    all_meet(
        alloc,
        program,
        arguments_of(class),
        args,
        method.vars.as_slice(),
    )
}

// Whether each of a method's arguments meets the bounds of its variable.
fn all_meet(
    alloc: Global,
    program: &Program,
    class_args: &[TExpr],
    args: &[TExpr],
    vars: &[VarDef],
) -> Result<bool, NoMemory>
    requires { HasTypes program.now }
    ensures { IfOk result (λ answer. answer ≡
        list_all (meets_all program.now class_args.now args.now) (zip vars.now args.now)) }
{
    for i in 0..vars.len() {
        if i >= args.len() {
            return Ok(true);
        }
        if !meets_all(alloc, program, class_args, args, &vars[i], &args[i])? {
            return Ok(false);
        }
    }
    Ok(true)
}

// Whether an argument meets all bounds of its variable.
fn meets_all(
    alloc: Global,
    program: &Program,
    class_args: &[TExpr],
    args: &[TExpr],
    var: &VarDef,
    arg: &TExpr,
) -> Result<bool, NoMemory>
    requires { HasTypes program.now }
    ensures { IfOk result (λ answer. answer ≡ meets_all program.now class_args.now args.now (var.now, arg.now)) }
{
    for bound in var.bounds.as_slice() {
        let at = subst_whole(alloc, bound, class_args, args)?;
        if !meets_bound(alloc, program, &[], &[], arg, &at)? {
            return Ok(false);
        }
    }
    Ok(true)
}
