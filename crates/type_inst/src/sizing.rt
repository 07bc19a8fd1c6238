// The words of values, found for many types at once.
ghost use Rattle.std.specs.Prelude.{◌≡◌, ◌≤◌, ◌*◌, ◌+◌, ◌++◌, ◌∷◌, [], true, min, length, map, sum_by, IfOk, OnOk};
ghost use Rattle.type_tree.specs.Positions.{positions_of};
ghost use Rattle.il_model.specs.declared.program.Program.{Program};
ghost use Rattle.il_model.specs.Layouts.{most_trees};
ghost use Rattle.type_inst.specs.Sizing.{capped_words, IsOpened, word_in, row_words, next_round, rounds, AreSettled};

use crate::opening::opened;
use il_model::Program;
use mn_outside::NoMemory;
use sqlite_items::Items;
use std::alloc::Global;
use type_tree::{TExpr, positions};

/// The words of a value of each of these types, each cut to a cap. Each type in them is opened once; then
/// there are as many rounds as structs lie in one another, and each opens no type again.
pub fn capped_words(
    alloc: Global,
    program: &Program,
    kinds: &[TExpr],
    most: u32,
) -> Result<Items<u32>, NoMemory>
    ensures { IfOk result (λ words. words ≡ map (capped_words most program.now) kinds.now) }
{
    let table = opened(alloc, program, kinds)?;
    by_rounds(
        alloc,
        table.rows.as_slice(),
        table.places.as_slice(),
        kinds,
        most,
        8192,
    )
}

// The words of the types at these places. So few rounds are tried for all of them at first.
fn by_rounds(
    alloc: Global,
    rows: &[Option<Items<usize>>],
    places: &[usize],
    kinds: &[TExpr],
    most: u32,
    few: usize,
) -> Result<Items<u32>, NoMemory>
    requires few { few ≤ most_trees }
    ensures { IfOk result (λ words. (program : Program) → IsOpened program kinds.now places.now rows.now →
        words ≡ map (capped_words most program) kinds.now) }
{
    let first = settled(alloc, rows, most, few)?;
    if first.still {
        let words = words_at(alloc, first.words.as_slice(), places)?;
        return Ok(words);
    }
    each_alone(alloc, rows, places, kinds, most)
}

// The same, with the rounds of each type gone for it alone.
fn each_alone(
    alloc: Global,
    rows: &[Option<Items<usize>>],
    places: &[usize],
    kinds: &[TExpr],
    most: u32,
) -> Result<Items<u32>, NoMemory>
    ensures { IfOk result (λ words. (program : Program) → IsOpened program kinds.now places.now rows.now →
        words ≡ map (capped_words most program) kinds.now) }
{
    let mut all: Items<u32> = Items::new(alloc);
    for i in 0..kinds.len() {
        let Some(place) = places.get(i) else {
            return Ok(all);
        };
        let levels = levels_of(&kinds[i])?;
        let whole = settled(alloc, rows, most, levels)?;
        put_word(&mut all, word_in(whole.words.as_slice(), *place))?;
    }
    Ok(all)
}

// How many levels the definition opens a type; want of memory where it is larger than any.
fn levels_of(kind: &TExpr) -> Result<usize, NoMemory>
    ensures { IfOk result (λ levels. levels ≡ most_trees * positions_of kind.now) }
{
    let count = positions(kind);
    if count == u32::MAX {
        return Err(NoMemory);
    }
    Ok(8192 * (count as usize))
}

// The words at all places after some rounds, and whether more rounds change nothing.
#[derive(Drop)]
struct Totals {
    words: Items<u32>,
    still: bool,
}

// The words after so many rounds. It stops where a round changes nothing.
fn settled(
    alloc: Global,
    rows: &[Option<Items<usize>>],
    most: u32,
    levels: usize,
) -> Result<Totals, NoMemory>
    ensures words { IfOk result (λ s. s.words ≡ rounds most rows.now levels) }
    ensures still { IfOk result (λ s. s.still ≡ true → AreSettled most rows.now levels) }
{
    let mut now = first_round(alloc, rows, most)?;
    for _ in 0..levels {
        let next = next_round(alloc, rows, now.as_slice(), most)?;
        if is_same_list(next.as_slice(), now.as_slice()) {
            return Ok(Totals {
                words: now,
                still: true,
            });
        }
        now = next;
    }
    Ok(Totals {
        words: now,
        still: false,
    })
}

fn is_same_list(first: &[u32], second: &[u32]) -> bool
    ensures { result ≡ true → first.now ≡ second.now }
{
    first == second
}

pub(crate) fn put_word(words: &mut Items<u32>, word: u32) -> Result<(), NoMemory>
    ensures { OnOk result (words.new ≡ words.old ++ word ∷ []) }
{
    words.push(word).map_err(|_| NoMemory)
}

// The words where nothing is opened: one each.
fn first_round(
    alloc: Global,
    rows: &[Option<Items<usize>>],
    most: u32,
) -> Result<Items<u32>, NoMemory>
    ensures { IfOk result (λ words. words ≡ rounds most rows.now 0) }
{
    let mut words: Items<u32> = Items::new(alloc);
    for _row in rows {
        put_word(&mut words, capped_sum(0, 1, most))?;
    }
    Ok(words)
}

fn next_round(
    alloc: Global,
    rows: &[Option<Items<usize>>],
    now: &[u32],
    most: u32,
) -> Result<Items<u32>, NoMemory>
    ensures { IfOk result (λ words. words ≡ next_round most rows.now now.now) }
{
    let mut words: Items<u32> = Items::new(alloc);
    for row in rows {
        put_word(&mut words, row_words(row, now, most))?;
    }
    Ok(words)
}

fn row_words(row: &Option<Items<usize>>, now: &[u32], most: u32) -> u32
    ensures { result ≡ row_words most now.now row.now }
{
    match row {
        Some(places) => sum_at(places.as_slice(), now, most),
        None => capped_sum(0, 1, most),
    }
}

// The words at these places together.
fn sum_at(places: &[usize], now: &[u32], most: u32) -> u32
    ensures { result ≡ min (sum_by (word_in now.now) places.now) most }
{
    let mut total: u32 = 0;
    for place in places {
        total = capped_sum(total, word_in(now, *place), most);
    }
    total
}

fn capped_sum(total: u32, more: u32, most: u32) -> u32
    ensures { result ≡ min (total + more) most }
{
    let sum = total as u64 + more as u64;
    if sum < most as u64 { sum as u32 } else { most }
}

// The words at each of these places.
fn words_at(alloc: Global, now: &[u32], places: &[usize]) -> Result<Items<u32>, NoMemory>
    ensures { IfOk result (λ words. words ≡ map (word_in now.now) places.now) }
{
    let mut words: Items<u32> = Items::new(alloc);
    for place in places {
        put_word(&mut words, word_in(now, *place))?;
    }
    Ok(words)
}

fn word_in(now: &[u32], place: usize) -> u32
    ensures { result ≡ word_in now.now place }
{
    now.get(place).copied().unwrap_or(0)
}
