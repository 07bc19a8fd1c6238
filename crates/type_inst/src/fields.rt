// The types of the fields of a type, with its arguments put.
ghost use Rattle.std.specs.Prelude.{◌≡◌, ◌++◌, IfOk, OnOk, not, filter, flat_map, reverse};
ghost use Rattle.il_model.specs.Layouts.{kinds_at, own_kinds_of, instance_kinds_of, static_kinds_of, parts_of};

use crate::ascent::bases;
use crate::classes::with_args_of;
use crate::steps::{is_struct, put};
use il_model::{FieldDef, Program, class_of};
use mn_outside::NoMemory;
use sqlite_items::Items;
use std::alloc::Global;
use type_tree::TExpr;

// The types of the parts of a value: a struct's fields. Any other type has no parts.
pub(crate) fn parts_of(
    alloc: Global,
    program: &Program,
    kind: &TExpr,
) -> Result<Option<Items<TExpr>>, NoMemory>
    ensures { IfOk result (λ parts. parts ≡ parts_of program.now kind.now) }
{
    if is_struct(program, kind) {
        return Ok(Some(instance_kinds_of(alloc, program, kind)?));
    }
    Ok(None)
}

// The types of all instance fields, base fields first.
pub(crate) fn instance_kinds_of(
    alloc: Global,
    program: &Program,
    kind: &TExpr,
) -> Result<Items<TExpr>, NoMemory>
    ensures { IfOk result (λ all. all ≡ instance_kinds_of program.now kind.now) }
{
    let chain = bases(alloc, program, kind)?;
    let mut all: Items<TExpr> = Items::new(alloc);
    put_upwards(alloc, program, &mut all, chain.as_slice())?;
    Ok(all)
}

// Puts the types of the instance fields of these classes at the end of a list, those of the last first.
fn put_upwards(
    alloc: Global,
    program: &Program,
    all: &mut Items<TExpr>,
    chain: &[TExpr],
) -> Result<(), NoMemory>
    ensures { OnOk result (all.new ≡ all.old ++ flat_map (own_kinds_of program.now) (reverse chain.now)) }
{
    for i in 0..chain.len() {
        put_own_kinds(alloc, program, all, &chain[chain.len() - 1 - i])?;
    }
    Ok(())
}

// Puts the types of the instance fields that the class of a type has itself at the end of a list.
fn put_own_kinds(
    alloc: Global,
    program: &Program,
    all: &mut Items<TExpr>,
    kind: &TExpr,
) -> Result<(), NoMemory>
    ensures { OnOk result (all.new ≡ all.old ++ own_kinds_of program.now kind.now) }
{
    match class_of(program, kind) {
        Some(class) => put_instance(alloc, all, kind, class.fields.as_slice()),
        None => Ok(()),
    }
}

fn put_instance(
    alloc: Global,
    all: &mut Items<TExpr>,
    kind: &TExpr,
    fields: &[FieldDef],
) -> Result<(), NoMemory>
    ensures { OnOk result (all.new ≡ all.old ++ kinds_at kind.now (filter (λ f. not f.fixed) fields.now)) }
{
    for field in fields {
        if !field.fixed {
            put(all, with_args_of(alloc, kind, &field.kind)?)?;
        }
    }
    Ok(())
}

// The types of the static fields of the class itself.
pub(crate) fn static_kinds_of(
    alloc: Global,
    program: &Program,
    kind: &TExpr,
) -> Result<Items<TExpr>, NoMemory>
    ensures { IfOk result (λ all. all ≡ static_kinds_of program.now kind.now) }
{
    match class_of(program, kind) {
        Some(class) => static_of(alloc, kind, class.fields.as_slice()),
        None => Ok(Items::new(alloc)),
    }
}

fn static_of(alloc: Global, kind: &TExpr, fields: &[FieldDef]) -> Result<Items<TExpr>, NoMemory>
    ensures { IfOk result (λ all. all ≡ kinds_at kind.now (filter (λ f. f.fixed) fields.now)) }
{
    let mut all: Items<TExpr> = Items::new(alloc);
    for field in fields {
        if field.fixed {
            put(&mut all, with_args_of(alloc, kind, &field.kind)?)?;
        }
    }
    Ok(all)
}
