// The rows of compiled bodies as they are read.
ghost use Rattle.std.specs.Prelude.{◌≡◌, ◌+◌, ◌==◌, ◌++◌, ◌∷◌, [], true, IfOk, length, slice_get};
ghost use Rattle.std.specs.Option.{option_copied};
ghost use Rattle.il_model.specs.ClassRules.{HasTypes};
ghost use Rattle.rgctx_template.specs.BodyRows.{is_any, is_unmixed, is_code_word, vars_of_owner};
ghost use Rattle.aot_image.specs.ImagePicks.{pick_of};
ghost use Rattle.std.specs.List.{list_any, list_all};
ghost use Rattle.aot_image.specs.ImageReading.{Reads, pick, is_new_pick, read_part, read_exact, read_parts_from, read_key, read_place, read_frame, read_places_from, read_handlers, read_body, read_bodies_from, compiled_at, clauses_in, is_frame};

use crate::bounds::key_meets;
use crate::decoding_cursor::{Cursor, bad_table};
use crate::decoding_picks::{Pick, Picks, copy_parts};
use crate::decoding_trees::read_tree;
use crate::image::ReadError;
use crate::judging::{is_admitted, is_bounded_throughout};
use il_model::{BodyRow, ClassDef, Key, KeyPart, MethodDef, Program, VarDef};
use mn_outside::NoMemory;
use sqlite_items::Items;
use std::alloc::Global;

// A tree of a key has at most so many positions, and so no more levels.
const MOST_POSITIONS: usize = 256;

// The method in which a started thread begins, which is never compiled.
const ENTRY_METHOD: u16 = 0;

// The fewest and the most words of a frame.
const LEAST_FRAME: u32 = 8;

const MOST_FRAME: u32 = 2064;

/// So many bodies, in a code of `words` words.
pub(crate) fn read_bodies(
    alloc: Global,
    program: &Program,
    cursor: &mut Cursor<'_>,
    count: u32,
    words: u32,
) -> Result<Items<BodyRow>, ReadError>
    requires { HasTypes program.now }
    ensures { Reads (read_bodies_from program.now words count [] cursor.old) result cursor.new }
{
    let mut found = Items::new(alloc);
    let mut picks = Picks::new(alloc);
    for _turn in 0..count {
        let row = read_body(alloc, program, cursor, words, &mut picks)?;
        found.push(row)?;
    }
    Ok(found)
}

// A body behind those that are known.
#[tactic(auto, unfolding(crate::specs::ImageReading::read_body))]
fn read_body(
    alloc: Global,
    program: &Program,
    cursor: &mut Cursor<'_>,
    words: u32,
    picks: &mut Picks,
) -> Result<BodyRow, ReadError>
    requires { HasTypes program.now }
    ensures row { Reads (read_body program.now words picks.old.known.keys cursor.old) result cursor.new }
    ensures known { IfOk result (λ row. picks.new.known.keys ≡ picks.old.known.keys ++ pick_of row ∷ []) }
{
    let row = cursor.at();
    let method = cursor.half()?;
    let Some(definition) = compiled_at(program, method) else {
        return Err(bad_table(row));
    };
    let parts = read_key(alloc, program, cursor, row, definition)?;
    if !add_pick(alloc, picks, method, parts.as_slice())? {
        return Err(bad_table(row));
    }
    let entry = read_place(cursor, row, words)?;
    let frame = read_frame(cursor, row)?;
    let handlers = read_handlers(alloc, cursor, row, words, definition)?;
    Ok(BodyRow {
        method,
        key: Key { parts },
        entry,
        frame,
        handlers,
    })
}

// The method with this number, where it has a body and may be compiled.
#[tactic(auto, unfolding(crate::specs::ImageReading::compiled_at))]
fn compiled_at(program: &Program, number: u16) -> Option<&MethodDef>
    ensures { option_copied result ≡ compiled_at program.now number }
{
    match program.methods.as_slice().get(number as usize) {
        Some(method) => {
            if method.body.is_none() {
                return None;
            }
            if number == ENTRY_METHOD {
                return None;
            }
            Some(method)
        }
        None => None,
    }
}

// Notes a method with its key, and whether it is new.
fn add_pick(
    alloc: Global,
    picks: &mut Picks,
    method: u16,
    parts: &[KeyPart],
) -> Result<bool, NoMemory>
    ensures fresh { IfOk result (λ fresh. fresh ≡ is_new_pick picks.old.known.keys method parts.now) }
    ensures list { IfOk result (λ fresh. fresh ≡ true → picks.new.known.keys ≡ picks.old.known.keys ++ pick method parts.now ∷ []) }
{
    let parts = copy_parts(alloc, parts)?;
    picks.add(Pick { method, parts })
}

// The key of a body of this method.
#[tactic(auto, unfolding(crate::specs::ImageReading::read_key))]
fn read_key(
    alloc: Global,
    program: &Program,
    cursor: &mut Cursor<'_>,
    row: u64,
    method: &MethodDef,
) -> Result<Items<KeyPart>, ReadError>
    requires { HasTypes program.now }
    ensures { Reads (read_key program.now row method.now cursor.old) result cursor.new }
{
    let of_class = vars_of_owner(program, method);
    let of_method = method.vars.as_slice();
    let count = cursor.byte()?;
    if !is_sum(count, of_class.len(), of_method.len()) {
        return Err(bad_table(row));
    }
    let parts = read_parts(alloc, program, cursor, row, count)?;
    if !key_meets(alloc, program, of_class, of_method, parts.as_slice())? {
        return Err(bad_table(row));
    }
    Ok(parts)
}

// Whether a number is the sum of two.
fn is_sum(count: u8, first: usize, second: usize) -> bool
    ensures { result ≡ (count == first + second) }
{
    let count = count as usize;
    first <= count && second == count - first
}

/// The variables of the class that has a method.
pub(crate) fn vars_of_owner<'a>(program: &'a Program, method: &MethodDef) -> &'a [VarDef]
    ensures { result.now ≡ vars_of_owner program.now method.now }
{
    match class_at(program, method.owner) {
        Some(class) => class.vars.as_slice(),
        None => &[],
    }
}

fn class_at(program: &Program, number: u16) -> Option<&ClassDef>
    ensures { option_copied result ≡ slice_get program.now.classes number }
{
    program.classes.as_slice().get(number as usize)
}

// So many parts of a key.
fn read_parts(
    alloc: Global,
    program: &Program,
    cursor: &mut Cursor<'_>,
    row: u64,
    count: u8,
) -> Result<Items<KeyPart>, ReadError>
    requires { HasTypes program.now }
    ensures read { Reads (read_parts_from program.now row count [] cursor.old) result cursor.new }
    ensures count { IfOk result (λ parts. length parts ≡ count) }
{
    let mut found = Items::new(alloc);
    for _turn in 0..count {
        let part = read_part(alloc, program, cursor, row)?;
        found.push(part)?;
        if !is_unmixed(found.as_slice()) {
            return Err(bad_table(row));
        }
    }
    Ok(found)
}

// A part of a key.
#[tactic(auto, unfolding(crate::specs::ImageReading::read_part))]
fn read_part(
    alloc: Global,
    program: &Program,
    cursor: &mut Cursor<'_>,
    row: u64,
) -> Result<KeyPart, ReadError>
    requires { HasTypes program.now }
    ensures { Reads (read_part program.now row cursor.old) result cursor.new }
{
    let first = cursor.byte()?;
    if first == 0 {
        return Ok(KeyPart::Ref);
    }
    if first == 1 {
        return Ok(KeyPart::Any);
    }
    if first == 2 {
        return read_exact(alloc, program, cursor, row);
    }
    Err(bad_table(row))
}

// The type of a part that is exact.
#[tactic(auto, unfolding(crate::specs::ImageReading::read_exact))]
fn read_exact(
    alloc: Global,
    program: &Program,
    cursor: &mut Cursor<'_>,
    row: u64,
) -> Result<KeyPart, ReadError>
    requires { HasTypes program.now }
    ensures { Reads (read_exact program.now row cursor.old) result cursor.new }
{
    let tree = read_tree(alloc, program, cursor, row, MOST_POSITIONS, MOST_POSITIONS)?;
    if !is_admitted(alloc, program, &tree)? {
        return Err(bad_table(row));
    }
    if !is_bounded_throughout(alloc, program, &tree)? {
        return Err(bad_table(row));
    }
    Ok(KeyPart::Exact(tree))
}

// Whether all parts serve every type, or none does.
fn is_unmixed(parts: &[KeyPart]) -> bool
    ensures { result ≡ is_unmixed parts.now }
{
    !has_any(parts) || are_any(parts)
}

fn has_any(parts: &[KeyPart]) -> bool
    ensures { result ≡ list_any is_any parts.now }
{
    for part in parts {
        if is_any(part) {
            return true;
        }
    }
    false
}

fn are_any(parts: &[KeyPart]) -> bool
    ensures { result ≡ list_all is_any parts.now }
{
    for part in parts {
        if !is_any(part) {
            return false;
        }
    }
    true
}

/// Whether a part is `any`.
pub(crate) fn is_any(part: &KeyPart) -> bool
    ensures { result ≡ is_any part.now }
{
    match part {
        KeyPart::Any => true,
        KeyPart::Ref | KeyPart::Exact(_) => false,
    }
}

// A word of the code, of `words` words, that is not the first.
#[tactic(auto, unfolding(crate::specs::ImageReading::read_place))]
fn read_place(cursor: &mut Cursor<'_>, row: u64, words: u32) -> Result<u32, ReadError>
    ensures { Reads (read_place row words cursor.old) result cursor.new }
{
    let place = cursor.word()?;
    if !is_code_word(words, place) {
        return Err(bad_table(row));
    }
    Ok(place)
}

fn is_code_word(words: u32, place: u32) -> bool
    ensures { result ≡ is_code_word words place }
{
    1 <= place && place < words
}

// The words of a body's frame.
#[tactic(auto, unfolding(crate::specs::ImageReading::read_frame))]
fn read_frame(cursor: &mut Cursor<'_>, row: u64) -> Result<u32, ReadError>
    ensures { Reads (read_frame row cursor.old) result cursor.new }
{
    let frame = cursor.word()?;
    if !is_frame(frame) {
        return Err(bad_table(row));
    }
    Ok(frame)
}

fn is_frame(words: u32) -> bool
    ensures { result ≡ is_frame words }
{
    LEAST_FRAME <= words && words <= MOST_FRAME
}

// The handlers of a body of this method, one for each clause.
#[tactic(auto, unfolding(crate::specs::ImageReading::read_handlers))]
fn read_handlers(
    alloc: Global,
    cursor: &mut Cursor<'_>,
    row: u64,
    words: u32,
    method: &MethodDef,
) -> Result<Items<u32>, ReadError>
    ensures { Reads (read_handlers row words method.now cursor.old) result cursor.new }
{
    let count = cursor.byte()?;
    if count as usize != clause_count(method) {
        return Err(bad_table(row));
    }
    read_places(alloc, cursor, row, words, count)
}

fn clause_count(method: &MethodDef) -> usize
    ensures { result ≡ length (clauses_in method.now.body) }
{
    match &method.body {
        Some(body) => body.clauses.len(),
        None => 0,
    }
}

// So many places of the code.
fn read_places(
    alloc: Global,
    cursor: &mut Cursor<'_>,
    row: u64,
    words: u32,
    count: u8,
) -> Result<Items<u32>, ReadError>
    ensures { Reads (read_places_from row words count [] cursor.old) result cursor.new }
{
    let mut found = Items::new(alloc);
    for _turn in 0..count {
        let place = read_place(cursor, row, words)?;
        found.push(place)?;
    }
    Ok(found)
}
