// Which entries were filled.
ghost use Rattle.std.specs.Prelude.{◌≡◌, ◌*◌, ◌<◌, ◌^◌, ◌++◌, ℕ, filter_map, length, option_to_list, slice_index, IfOk, OnOk};
ghost use Rattle.rgctx_words.specs.Regions.{word_count, row_count};
ghost use Rattle.rgctx_words.specs.Places.{entry_of};
ghost use Rattle.rgctx_fill.specs.Fitting.{directory};
ghost use Rattle.thread_core.specs.Runs.{note_at};

use crate::record::FillNote;
use mn_outside::NoMemory;
use rgctx_words::{ContextPlace, DirectoryWord};
use std::alloc::Global;

// The entry at a word of a row of a depth.
fn entry_of(depth: u8, slot: u8) -> u16
    requires { slot < 8 }
    ensures { result ≡ entry_of depth slot }
{
    (7 * u16::from(depth) + u16::from(slot)).saturating_sub(1)
}

// The number at a place of a list; 0 past its end.
fn number_at(numbers: &[u32], at: usize) -> u32
    ensures { result ≡ slice_index numbers.now at }
{
    match numbers.get(at) {
        Some(number) => *number,
        None => 0,
    }
}

// The entry that the claim of an index filled, if the word is one of a row.
fn note_of(words: &[u64], index: u32) -> Option<FillNote>
    requires count { length words.now ≡ word_count }
    requires inside { index < word_count }
    requires small { (row : ℕ) → row < row_count → directory (slice_index words.now) row < 256 * 2 ^ 16 }
    ensures { result ≡ note_at words.now index }
{
    match ContextPlace::at(index) {
        ContextPlace::Entry(row, slot) => {
            let used = DirectoryWord::of(words[ContextPlace::Directory(row).index() as usize]);
            Some(FillNote {
                node: used.node,
                entry: entry_of(used.depth, slot),
                value: words[index as usize],
            })
        }
        ContextPlace::Node(_) | ContextPlace::Directory(_) => None,
        ContextPlace::Root(_) | ContextPlace::Link(_) => None,
    }
}

fn put_if(notes: &mut Vec<FillNote>, note: Option<FillNote>) -> Result<(), NoMemory>
    ensures { OnOk result (notes.new.items ≡ notes.old.items ++ option_to_list note) }
{
    match note {
        Some(note) => match notes.push(note) {
            Ok(()) => Ok(()),
            Err(_) => Err(NoMemory),
        },
        None => Ok(()),
    }
}

/// The entries that claims filled, in order. The claims are those of these indexes, which found 0, and these are the
/// last words.
pub(crate) fn fills_in(
    alloc: Global,
    words: &[u64],
    claimed: &[u32],
) -> Result<Vec<FillNote>, NoMemory>
    requires count { length words.now ≡ word_count }
    requires inside { (i : ℕ) → i < length claimed.now → slice_index claimed.now i < word_count }
    requires small { (row : ℕ) → row < row_count → directory (slice_index words.now) row < 256 * 2 ^ 16 }
    ensures { IfOk result (λ notes. notes.items ≡ filter_map (note_at words.now) claimed.now) }
{
    let mut notes = Vec::new(alloc);
    for place in 0..claimed.len() {
        let claim = number_at(claimed, place);
        let note = note_of(words, claim);
        put_if(&mut notes, note)?;
    }
    Ok(notes)
}
