// What is reached from several types, each tree once.
ghost use Rattle.std.specs.Prelude.{◌≡◌, IfOk, OnOk, fold, length, nat_lt, slice_get};
ghost use Rattle.std.specs.List.{list_any};
ghost use Rattle.il_model.specs.Trees.{with_new};
ghost use Rattle.il_model.specs.Layouts.{most_trees};
ghost use Rattle.il_model.specs.Admission.{is_large};
ghost use Rattle.cil_verify.specs.TypeSets.{listed_in};
ghost use Rattle.cil_verify.specs.Closures.{steps_from, Closed};

use crate::type_set::TypeSet;
use il_model::Program;
use mn_outside::NoMemory;
use sqlite_items::Items;
use std::alloc::Global;
use type_inst::steps_of;
use type_tree::{TExpr, positions};

/// The base, interface and value-field closures of these types, each tree once; None where one of them has
/// more than 256 positions, or there are more than 8,192.
pub(crate) fn closures(
    alloc: Global,
    program: &Program,
    roots: &[TExpr],
) -> Result<Option<TypeSet>, NoMemory>
    ensures { IfOk result (λ found. Closed program.now roots.now found) }
{
    if has_large(roots) {
        return Ok(None);
    }
    let mut all = TypeSet::new(alloc);
    add_all(alloc, &mut all, roots)?;
    if has_many(&all) {
        return Ok(None);
    }
    let mut at = 0;
    'walk: while at < all.len() {
        let steps = steps_at(alloc, program, &all, at)?;
        if has_large(steps.as_slice()) {
            return Ok(None);
        }
        add_all(alloc, &mut all, steps.as_slice())?;
        if has_many(&all) {
            return Ok(None);
        }
        at += 1;
    }
    Ok(Some(all))
}

// The steps from the type at this place.
fn steps_at(
    alloc: Global,
    program: &Program,
    all: &TypeSet,
    at: usize,
) -> Result<Items<TExpr>, NoMemory>
    ensures { IfOk result (λ steps. steps ≡ steps_from program.now (slice_get (listed_in all.now) at)) }
{
    match all.get(at) {
        Some(kind) => steps_of(alloc, program, kind),
        None => Ok(Items::new(alloc)),
    }
}

// Puts those that aren't in the set at its end.
fn add_all(alloc: Global, all: &mut TypeSet, kinds: &[TExpr]) -> Result<(), NoMemory>
    ensures { OnOk result (listed_in all.new ≡ fold with_new (listed_in all.old) kinds.now) }
{
    for each in kinds {
        all.add(each.copy(alloc)?)?;
    }
    Ok(())
}

// Whether one of these has too many positions.
fn has_large(kinds: &[TExpr]) -> bool
    ensures { result ≡ list_any is_large kinds.now }
{
    for each in kinds {
        if is_large(each) {
            return true;
        }
    }
    false
}

// Whether there are too many different trees.
fn has_many(all: &TypeSet) -> bool
    ensures { result ≡ nat_lt most_trees (length (listed_in all.now)) }
{
    all.len() > 8192
}

fn is_large(kind: &TExpr) -> bool
    ensures { result ≡ is_large kind.now }
{
    positions(kind) > 256
}
