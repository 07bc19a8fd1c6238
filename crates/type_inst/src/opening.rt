// Types with the places of their parts in one list, each type opened once.
ghost use Rattle.std.specs.Prelude.{◌≡◌, ◌++◌, ◌∷◌, [], ℕ, List, Some, None, IfOk, IfSome, OnOk, map, slice_get};
ghost use Rattle.type_tree.specs.declared.tree.TExpr.{TExpr};
ghost use Rattle.type_inst.specs.Sizing.{seen_row, found_parts, IsOpened};
ghost use Rattle.type_inst.specs.Opening.{Extends};

use crate::fields::parts_of;
use crate::known::{Kinds, place_of};
use il_model::Program;
use mn_outside::NoMemory;
use sqlite_items::Items;
use std::alloc::Global;
use type_tree::TExpr;

// A row for each type of a list, with the places of the type's parts in the list, or None where it has no
// parts; and the places of those asked of.
#[derive(Drop)]
pub(crate) struct Table {
    pub(crate) places: Items<usize>,
    pub(crate) rows: Items<Option<Items<usize>>>,
}

// These types, opened.
pub(crate) fn opened(alloc: Global, program: &Program, kinds: &[TExpr]) -> Result<Table, NoMemory>
    ensures { IfOk result (λ table. IsOpened program.now kinds.now table.places table.rows) }
{
    let mut all = Kinds::new(alloc);
    let places = places_of(alloc, &mut all, kinds)?;
    let mut rows: Items<Option<Items<usize>>> = Items::new(alloc);
    for i in 0..usize::MAX {
        let Some(kind) = all.get(i) else {
            return Ok(Table { places, rows });
        };
        let parts = parts_of(alloc, program, kind)?;
        let row = row_of(alloc, &mut all, parts)?;
        put_row(&mut rows, row)?;
    }
    Err(NoMemory)
}

fn put_row(
    rows: &mut Items<Option<Items<usize>>>,
    row: Option<Items<usize>>,
) -> Result<(), NoMemory>
    ensures { OnOk result (rows.new ≡ rows.old ++ row ∷ []) }
{
    rows.push(row).map_err(|_| NoMemory)
}

// The row of a type with these parts. Parts that aren't in the list are put at its end.
fn row_of(
    alloc: Global,
    all: &mut Kinds,
    parts: Option<Items<TExpr>>,
) -> Result<Option<Items<usize>>, NoMemory>
    ensures kept { OnOk result (Extends all.old all.new) }
    ensures row { IfOk result (λ row. seen_row all.new row ≡ found_parts parts) }
{
    match parts {
        Some(kinds) => Ok(Some(places_of(alloc, all, kinds.as_slice())?)),
        None => Ok(None),
    }
}

// The places of these types in the list. Those that aren't in it are put at its end.
fn places_of(alloc: Global, all: &mut Kinds, kinds: &[TExpr]) -> Result<Items<usize>, NoMemory>
    ensures kept { OnOk result (Extends all.old all.new) }
    ensures places { IfOk result (λ places. map (slice_get all.new) places ≡ map Some kinds.now) }
{
    let mut places: Items<usize> = Items::new(alloc);
    for kind in kinds {
        let place = place_of(alloc, all, kind)?;
        put_place(&mut places, place)?;
    }
    Ok(places)
}

fn put_place(places: &mut Items<usize>, place: usize) -> Result<(), NoMemory>
    ensures { OnOk result (places.new ≡ places.old ++ place ∷ []) }
{
    places.push(place).map_err(|_| NoMemory)
}
