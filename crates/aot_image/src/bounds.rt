// Whether a key meets the bounds of the variables that it is for.
ghost use Rattle.std.specs.Prelude.{◌≡◌, ◌+◌, ◌<◌, ◌||◌, ◌++◌, ◌∷◌, [], not, length, zip, IfOk, OnOk};
ghost use Rattle.std.specs.List.{list_all};
ghost use Rattle.il_model.specs.ClassRules.{HasTypes};
ghost use Rattle.il_model.specs.Assignable.{meets_bound};
ghost use Rattle.type_tree.specs.Tree.{has_variables_below};
ghost use Rattle.rgctx_template.specs.Admitted.{no_variables};
ghost use Rattle.rgctx_template.specs.BodyRows.{key_meets, part_meets, meets_judged, class_arguments, method_arguments, argument_of_part};

use cil_verify::meets_bound;
use il_model::{KeyPart, Program, VarDef};
use mn_outside::NoMemory;
use sqlite_items::Items;
use std::alloc::Global;
use type_tree::{TExpr, is_closed, subst_whole};

/// Whether the parts of a key meet the bounds of the class's variables and then of the method's.
pub(crate) fn key_meets(
    alloc: Global,
    program: &Program,
    of_class: &[VarDef],
    of_method: &[VarDef],
    parts: &[KeyPart],
) -> Result<bool, NoMemory>
    requires types { HasTypes program.now }
    requires count { length parts.now ≡ length of_class.now + length of_method.now }
    requires few { length parts.now < 256 }
    ensures { IfOk result (λ answer. answer ≡ key_meets program.now of_class.now of_method.now parts.now) }
{
    let (class_parts, method_parts) = parts.split_at(of_class.len());
    let class_args = class_arguments(alloc, class_parts)?;
    let method_args = method_arguments(alloc, method_parts)?;
    if !parts_meet(
        alloc,
        program,
        class_args.as_slice(),
        method_args.as_slice(),
        of_class,
        class_parts,
    )? {
        return Ok(false);
    }
    parts_meet(
        alloc,
        program,
        class_args.as_slice(),
        method_args.as_slice(),
        of_method,
        method_parts,
    )
}

// What the parts give for the variables of a class.
fn class_arguments(alloc: Global, parts: &[KeyPart]) -> Result<Items<TExpr>, NoMemory>
    requires { length parts.now < 256 }
    ensures { IfOk result (λ args. args ≡ class_arguments 0 parts.now) }
{
    let mut args = Items::new(alloc);
    for i in 0..parts.len() {
        let arg = argument_of_part(alloc, TExpr::class_var(variable_number(i)), &parts[i])?;
        put(&mut args, arg)?;
    }
    Ok(args)
}

// What the parts give for the variables of a method.
fn method_arguments(alloc: Global, parts: &[KeyPart]) -> Result<Items<TExpr>, NoMemory>
    requires { length parts.now < 256 }
    ensures { IfOk result (λ args. args ≡ method_arguments 0 parts.now) }
{
    let mut args = Items::new(alloc);
    for i in 0..parts.len() {
        let arg = argument_of_part(alloc, TExpr::method_var(variable_number(i)), &parts[i])?;
        put(&mut args, arg)?;
    }
    Ok(args)
}

fn variable_number(place: usize) -> u8
    requires { place < 256 }
    ensures { result ≡ place }
{
    match u8::try_from(place) {
        Ok(number) => number,
        Err(_) => unreachable!(),
    }
}

fn put(args: &mut Items<TExpr>, arg: TExpr) -> Result<(), NoMemory>
    ensures { OnOk result (args.new ≡ args.old ++ arg ∷ []) }
{
    match args.push(arg) {
        Ok(()) => Ok(()),
        Err(_) => Err(NoMemory),
    }
}

// What a part gives for a variable.
fn argument_of_part(alloc: Global, variable: TExpr, part: &KeyPart) -> Result<TExpr, NoMemory>
    ensures { IfOk result (λ arg. arg ≡ argument_of_part variable part.now) }
{
    match part {
        KeyPart::Ref | KeyPart::Any => Ok(variable),
        KeyPart::Exact(tree) => tree.copy(alloc),
    }
}

// Whether each part meets the bounds of its variable.
fn parts_meet(
    alloc: Global,
    program: &Program,
    class_args: &[TExpr],
    method_args: &[TExpr],
    vars: &[VarDef],
    parts: &[KeyPart],
) -> Result<bool, NoMemory>
    requires { HasTypes program.now }
    ensures { IfOk result (λ answer. answer ≡
        list_all (part_meets program.now class_args.now method_args.now) (zip vars.now parts.now)) }
{
    for i in 0..vars.len() {
        if i >= parts.len() {
            return Ok(true);
        }
        if !part_meets(alloc, program, class_args, method_args, &vars[i], &parts[i])? {
            return Ok(false);
        }
    }
    Ok(true)
}

// Whether a part meets the bounds of its variable.
fn part_meets(
    alloc: Global,
    program: &Program,
    class_args: &[TExpr],
    method_args: &[TExpr],
    var: &VarDef,
    part: &KeyPart,
) -> Result<bool, NoMemory>
    requires { HasTypes program.now }
    ensures { IfOk result (λ answer. answer ≡ part_meets program.now class_args.now method_args.now (var.now, part.now)) }
{
    match part {
        KeyPart::Ref | KeyPart::Any => Ok(true),
        KeyPart::Exact(tree) => {
            tree_meets(
                alloc,
                program,
                class_args,
                method_args,
                var.bounds.as_slice(),
                tree,
            )
        }
    }
}

// Whether a type meets each of these bounds that are judged.
fn tree_meets(
    alloc: Global,
    program: &Program,
    class_args: &[TExpr],
    method_args: &[TExpr],
    bounds: &[TExpr],
    tree: &TExpr,
) -> Result<bool, NoMemory>
    requires { HasTypes program.now }
    ensures { IfOk result (λ answer. answer ≡
        list_all (meets_judged program.now class_args.now method_args.now tree.now) bounds.now) }
{
    for bound in bounds {
        let at = subst_whole(alloc, bound, class_args, method_args)?;
        if !meets_where_closed(alloc, program, tree, &at)? {
            return Ok(false);
        }
    }
    Ok(true)
}

// Whether a type meets a bound, if that has no variable.
fn meets_where_closed(
    alloc: Global,
    program: &Program,
    tree: &TExpr,
    bound: &TExpr,
) -> Result<bool, NoMemory>
    requires { HasTypes program.now }
    ensures { IfOk result (λ answer. answer ≡ (not (has_variables_below 0 0 bound.now) || meets_bound program.now no_variables tree.now bound.now)) }
{
    if !is_closed(bound) {
        return Ok(true);
    }
    meets_bound(alloc, program, &[], &[], tree, bound)
}
