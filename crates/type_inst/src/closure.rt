// What is reached from a type, each tree once.
ghost use Rattle.std.specs.Prelude.{◌≡◌, ◌++◌, IfOk, OnOk, fold, List};
ghost use Rattle.std.specs.List.{list_any};
ghost use Rattle.type_tree.specs.declared.tree.TExpr.{TExpr};
ghost use Rattle.il_model.specs.Trees.{with_new};
ghost use Rattle.il_model.specs.Admission.{is_large};
ghost use Rattle.type_inst.specs.Reaching.{spread_one, Reached};

use crate::known::{Kinds, add};
use crate::steps::{put, steps_of};
use il_model::Program;
use mn_outside::NoMemory;
use sqlite_items::Items;
use std::alloc::Global;
use type_tree::{TExpr, positions};

// What is reached from a type in so many steps, each tree once; None where one of them is too large. No
// step is gone from one that is too large.
pub(crate) fn reached(
    alloc: Global,
    program: &Program,
    root: &TExpr,
    levels: usize,
) -> Result<Option<Items<TExpr>>, NoMemory>
    ensures { IfOk result (λ found. Reached program.now levels root.now found) }
{
    if is_large(root) {
        return Ok(None);
    }
    let mut all = Kinds::new(alloc);
    add(alloc, &mut all, root)?;
    let mut fresh: Items<TExpr> = Items::new(alloc);
    put(&mut fresh, root.copy(alloc)?)?;
    for _ in 0..levels {
        if fresh.is_empty() {
            return Ok(Some(all.into_items(alloc)?));
        }
        let next = spread(alloc, program, &mut all, fresh.as_slice())?;
        if has_large(next.as_slice()) {
            return Ok(None);
        }
        fresh = next;
    }
    Ok(Some(all.into_items(alloc)?))
}

// Puts the steps from these types at the end of the list, those listed passed over. The result are copies
// of what was put.
fn spread(
    alloc: Global,
    program: &Program,
    all: &mut Kinds,
    fresh: &[TExpr],
) -> Result<Items<TExpr>, NoMemory>
    ensures steps { OnOk result (all.new ≡ fold (spread_one program.now) all.old fresh.now) }
    ensures put { IfOk result (λ next. all.new ≡ all.old ++ next) }
{
    let mut next: Items<TExpr> = Items::new(alloc);
    for each in fresh {
        let steps = steps_of(alloc, program, each)?;
        put_new(alloc, all, &mut next, steps.as_slice())?;
    }
    Ok(next)
}

// Puts those that aren't in the list at its end, and at the end of a second list.
fn put_new(
    alloc: Global,
    all: &mut Kinds,
    next: &mut Items<TExpr>,
    steps: &[TExpr],
) -> Result<(), NoMemory>
    ensures joined { OnOk result (all.new ≡ fold with_new all.old steps.now) }
    ensures put { OnOk result ((front : List TExpr) → all.old ≡ front ++ next.old → all.new ≡ front ++ next.new) }
{
    for each in steps {
        put_one(alloc, all, next, each)?;
    }
    Ok(())
}

fn put_one(
    alloc: Global,
    all: &mut Kinds,
    next: &mut Items<TExpr>,
    each: &TExpr,
) -> Result<(), NoMemory>
    ensures joined { OnOk result (all.new ≡ with_new all.old each.now) }
    ensures put { OnOk result ((front : List TExpr) → all.old ≡ front ++ next.old → all.new ≡ front ++ next.new) }
{
    if !add(alloc, all, each)? {
        return Ok(());
    }
    next.push(each.copy(alloc)?).map_err(|_| NoMemory)
}

// Whether a tree has too many positions.
pub(crate) fn is_large(kind: &TExpr) -> bool
    ensures { result ≡ is_large kind.now }
{
    positions(kind) > 256
}

// Whether one of these is too large.
fn has_large(kinds: &[TExpr]) -> bool
    ensures { result ≡ list_any is_large kinds.now }
{
    for each in kinds {
        if is_large(each) {
            return true;
        }
    }
    false
}
