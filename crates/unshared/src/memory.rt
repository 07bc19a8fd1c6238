// Words read and written where pointers lead, and words of the store.
ghost use Rattle.std.specs.Prelude.{◌≡◌, [], ◌∷◌, ◌++◌, List, IfOk, OnOk};
ghost use Rattle.cil_meaning.specs.Pieces.{next_place};
ghost use Rattle.unshared.specs.Forms.{the_pointer, the_value};
ghost use Rattle.unshared.specs.Held.{places_of, the_places};
ghost use Rattle.unshared.specs.Kept.{all_words, part_of, changed, held_part, fresh_part, value_with, with_words, with_built};
ghost use Rattle.unshared.specs.Memory.{loads_from, saves_all, reads_at, saved, writes_at};
ghost use Rattle.unshared.specs.Moved.{OnlyPlaces};
ghost use Rattle.unshared.specs.Silent.{Gives};
ghost use Rattle.unshared.specs.Talk.{Talks};

use crate::frames::Frames;
use crate::pause::{Halt, Pause, Replies};
use crate::value::{Pointer, Value};
use mn_outside::NoMemory;
use std::alloc::Global;
use store_object::{Place, Request};

// The next word of an object or of a type.
fn next_place(place: Place) -> Result<Place, NoMemory>
    ensures { IfOk result (λ next. next ≡ next_place place) }
{
    match place {
        Place::Object { object, index } => match index.checked_add(1) {
            Some(index) => Ok(Place::Object { object, index }),
            None => Err(NoMemory),
        },
        Place::Fixed { kind, index } => match index.checked_add(1) {
            Some(index) => Ok(Place::Fixed { kind, index }),
            None => Err(NoMemory),
        },
    }
}

fn put(words: &mut Vec<u64>, word: u64) -> Result<(), NoMemory>
    ensures { OnOk result (words.new.items ≡ words.old.items ++ word ∷ []) }
{
    match words.push(word) {
        Ok(()) => Ok(()),
        Err(_) => Err(NoMemory),
    }
}

/// So many words from a place of the store on, in ascending order, one request each.
pub(crate) fn loads(
    alloc: Global,
    replies: &mut Replies<'_>,
    count: u32,
    place: Place,
) -> Result<Vec<u64>, Pause>
    ensures { Talks (λ words. words.items) (loads_from count place [] replies.old) result replies.new }
{
    let mut words = Vec::new(alloc);
    let mut at = place;
    for _turn in 0..count {
        let word = replies.word(Request::Load { place: at })?;
        put(&mut words, word)?;
        at = next_place(at)?;
    }
    Ok(words)
}

/// Puts words from a place of the store on, in ascending order, one request each.
pub(crate) fn saves(replies: &mut Replies<'_>, words: &[u64], place: Place) -> Result<(), Pause>
    ensures { Talks (λ nothing. nothing) (saves_all words.now place replies.old) result replies.new }
{
    let mut at = place;
    for word in words {
        replies.done(Request::Save {
            place: at,
            word: *word,
        })?;
        at = next_place(at)?;
    }
    Ok(())
}

/// So many of the words from this one on, if there are as many.
#[tactic(auto, using(crate::proofs::WordLemmas::cut_is), unfolding(crate::specs::Kept::part_of))]
pub(crate) fn cut(alloc: Global, words: &[u64], from: u32, count: u32) -> Result<Vec<u64>, Pause>
    ensures { Gives (λ part. part.items) (part_of words.now from count) result }
{
    let from = from as usize;
    let to = from + count as usize;
    if to > words.len() {
        return Err(Pause::Halts(Halt::Stuck));
    }
    match words[from..to].to_vec(alloc) {
        Ok(part) => Ok(part),
        Err(_) => Err(Pause::NoMemory),
    }
}

/// The words of a value.
pub(crate) fn words_in(alloc: Global, value: &Value) -> Result<Vec<u64>, Pause>
    ensures { Gives (λ words. words.items) (all_words (the_value value.now)) result }
{
    match value {
        Value::Word(_, word) => {
            let mut words = Vec::new(alloc);
            put(&mut words, *word)?;
            Ok(words)
        }
        Value::Words(_, words) => match words.as_slice().to_vec(alloc) {
            Ok(words) => Ok(words),
            Err(_) => Err(Pause::NoMemory),
        },
        Value::Managed(_) => Err(Pause::Halts(Halt::Stuck)),
    }
}

// So many words of a place of a frame.
#[tactic(auto, unfolding(crate::specs::Kept::held_part))]
fn read_held(
    alloc: Global,
    frames: &Frames,
    level: u32,
    place: u32,
    word: u32,
    count: u32,
) -> Result<Vec<u64>, Pause>
    ensures { Gives (λ words. words.items) (held_part (places_of frames.now) level place word count) result }
{
    let places = frames.places_at(level)?;
    let value = places.value(place as usize)?;
    let words = words_in(alloc, value)?;
    Ok(cut(alloc, words.as_slice(), word, count)?)
}

// So many words of the struct that a frame builds.
#[tactic(auto, unfolding(crate::specs::Kept::fresh_part))]
fn read_fresh(
    alloc: Global,
    frames: &Frames,
    level: u32,
    word: u32,
    count: u32,
) -> Result<Vec<u64>, Pause>
    ensures { Gives (λ words. words.items) (fresh_part (places_of frames.now) level word count) result }
{
    let places = frames.places_at(level)?;
    Ok(cut(alloc, places.fresh.as_slice(), word, count)?)
}

/// So many words from where a pointer leads, which isn't null. A pointer into a frame makes no request.
pub(crate) fn reads(
    alloc: Global,
    replies: &mut Replies<'_>,
    frames: &Frames,
    pointer: Pointer,
    count: u32,
) -> Result<Vec<u64>, Pause>
    ensures { Talks (λ words. words.items) (reads_at (places_of frames.now) (the_pointer pointer) count replies.old) result replies.new }
{
    match pointer {
        Pointer::Null => Err(Pause::Halts(Halt::Stuck)),
        Pointer::InFrame { level, place, word } => {
            Ok(read_held(alloc, frames, level, place, word, count)?)
        }
        Pointer::InFresh { level, word } => Ok(read_fresh(alloc, frames, level, word, count)?),
        Pointer::InObject { object, index } => Ok(loads(
            alloc,
            replies,
            count,
            Place::Object { object, index },
        )?),
        Pointer::InStatic { kind, index } => {
            Ok(loads(alloc, replies, count, Place::Fixed { kind, index })?)
        }
    }
}

// The words, with others in place of those from this one on.
#[tactic(auto, using(crate::proofs::WordLemmas::changed_is), unfolding(crate::specs::Kept::changed))]
fn change(alloc: Global, words: &[u64], from: u32, new: &[u64]) -> Result<Vec<u64>, Pause>
    ensures { Gives (λ after. after.items) (changed words.now from new.now) result }
{
    let from = from as usize;
    if new.len() > words.len() {
        return Err(Pause::Halts(Halt::Stuck));
    }
    if from > words.len() - new.len() {
        return Err(Pause::Halts(Halt::Stuck));
    }
    Ok(joined(alloc, &words[..from], new, &words[from + new.len()..])?)
}

// Three lists, one behind the other.
fn joined(alloc: Global, front: &[u64], middle: &[u64], back: &[u64]) -> Result<Vec<u64>, NoMemory>
    ensures { IfOk result (λ all. all.items ≡ (front.now ++ middle.now) ++ back.now) }
{
    let mut all = Vec::new(alloc);
    append(&mut all, front)?;
    append(&mut all, middle)?;
    append(&mut all, back)?;
    Ok(all)
}

fn append(all: &mut Vec<u64>, words: &[u64]) -> Result<(), NoMemory>
    ensures { OnOk result (all.new.items ≡ all.old.items ++ words.now) }
{
    for word in words {
        put(all, *word)?;
    }
    Ok(())
}

// A value with other words.
#[tactic(auto, unfolding(crate::specs::Kept::value_with))]
fn value_with(alloc: Global, value: &Value, word: u32, new: &[u64]) -> Result<Value, Pause>
    ensures { Gives the_value (value_with (the_value value.now) word new.now) result }
{
    let words = words_in(alloc, value)?;
    let after = change(alloc, words.as_slice(), word, new)?;
    Ok(crate::value::value_of(value.kind(), after))
}

// Puts words into a place of a frame.
#[tactic(auto, unfolding(crate::specs::Kept::with_words))]
fn write_held(
    alloc: Global,
    frames: &mut Frames,
    level: u32,
    place: u32,
    word: u32,
    new: &[u64],
) -> Result<(), Pause>
    ensures places { Gives (λ nothing. places_of frames.new) (with_words (places_of frames.old) level place word new.now) result }
    ensures rest { OnlyPlaces result frames.old frames.new }
{
    let places = frames.places_at(level)?;
    let value = places.value(place as usize)?;
    let after = value_with(alloc, value, word, new)?;
    frames.put_held(level, place, after);
    Ok(())
}

// Puts words into the struct that a frame builds.
#[tactic(auto, unfolding(crate::specs::Kept::with_built))]
fn write_fresh(
    alloc: Global,
    frames: &mut Frames,
    level: u32,
    word: u32,
    new: &[u64],
) -> Result<(), Pause>
    ensures places { Gives (λ nothing. places_of frames.new) (with_built (places_of frames.old) level word new.now) result }
    ensures rest { OnlyPlaces result frames.old frames.new }
{
    let places = frames.places_at(level)?;
    let after = change(alloc, places.fresh.as_slice(), word, new)?;
    frames.put_fresh(level, after);
    Ok(())
}

/// Puts words where a pointer leads, which isn't null. The frames are written last of all.
#[tactic(auto, unfolding(crate::specs::Memory::saved))]
pub(crate) fn writes(
    alloc: Global,
    replies: &mut Replies<'_>,
    frames: &mut Frames,
    pointer: Pointer,
    words: &[u64],
) -> Result<(), Pause>
    ensures places { Talks (λ nothing. places_of frames.new) (writes_at (places_of frames.old) (the_pointer pointer) words.now replies.old) result replies.new }
    ensures rest { OnlyPlaces result frames.old frames.new }
{
    match pointer {
        Pointer::Null => Err(Pause::Halts(Halt::Stuck)),
        Pointer::InFrame { level, place, word } => {
            Ok(write_held(alloc, frames, level, place, word, words)?)
        }
        Pointer::InFresh { level, word } => Ok(write_fresh(alloc, frames, level, word, words)?),
        Pointer::InObject { object, index } => {
            Ok(saves(replies, words, Place::Object { object, index })?)
        }
        Pointer::InStatic { kind, index } => {
            Ok(saves(replies, words, Place::Fixed { kind, index })?)
        }
    }
}
