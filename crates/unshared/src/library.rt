// The calls of the library that have no body. This project's own.
ghost use Rattle.std.specs.Prelude.{◌≡◌, IfOk};
ghost use Rattle.cil_meaning.specs.Words.{low_32};
ghost use Rattle.store_object.specs.Store.{summed};
ghost use Rattle.cil_meaning.specs.LibraryCalls.{request_of, gives, leaves};
ghost use Rattle.unshared.specs.Forms.{the_kind, the_pointer};
ghost use Rattle.unshared.specs.Given.{the_given};
ghost use Rattle.unshared.specs.Going.{did, Keeps};
ghost use Rattle.unshared.specs.Served.{kind_word_at, judged_string, judged, prints, gives_one, gives_two, operands, swaps_stored, swaps_held, swaps_at, swaps, names, starts, joined, joins};
ghost use Rattle.unshared.specs.Silent.{Gives};
ghost use Rattle.unshared.specs.Swaps.{the_swapping};
ghost use Rattle.unshared.specs.Talk.{Talks};

use crate::boxes::{pointer_at, reference_at, reference_on};
use crate::exact::as_string;
use crate::fault::Fault;
use crate::frames::{Done, Frames};
use crate::memory::{reads, writes};
use crate::operands::{as_object, is_int32, only, word_of_kind};
use crate::pause::{Halt, Pause, Replies};
use crate::trees::Trees;
use crate::value::{Kind, Pointer, Value};
use crate::words::{low_32, narrow};
use il_model::Program;
use mn_outside::NoMemory;
use std::alloc::Global;
use store_object::{Form, Place, Request};

// The word of a value of a kind that stands so far below the top.
#[tactic(auto, unfolding(crate::specs::Served::kind_word_at))]
fn kind_word_at(
    replies: &Replies<'_>,
    frames: &Frames,
    kind: Kind,
    below: usize,
) -> Result<u64, Pause>
    ensures { Talks (λ word. word) (kind_word_at (the_kind kind) frames.now below replies.now) result replies.now }
{
    let value = frames.value(below)?;
    Ok(word_of_kind(kind, value)?)
}

// Whether a word is null or names a string.
#[tactic(auto, unfolding(crate::specs::Served::judged_string))]
fn judge_string(program: &Program, trees: &Trees, word: u64) -> Result<(), Pause>
    ensures { Gives (λ nothing. nothing) (judged_string program.now trees.now.kinds word) result }
{
    if word == 0 {
        return Ok(());
    }
    if word < 4294967296 {
        return Err(Pause::Halts(Halt::Stuck));
    }
    Ok(as_string(program, trees, word)?)
}

fn judge(program: &Program, trees: &Trees, form: Form, word: u64) -> Result<(), Pause>
    ensures { Gives (λ nothing. nothing) (judged program.now trees.now.kinds form word) result }
{
    match form {
        Form::Number => Ok(()),
        Form::String => Ok(judge_string(program, trees, word)?),
    }
}

/// `WriteLine` of a word of a kind.
#[tactic(auto, unfolding(crate::specs::Served::prints))]
pub(crate) fn print(
    program: &Program,
    trees: &Trees,
    replies: &mut Replies<'_>,
    frames: &mut Frames,
    form: Form,
    kind: Kind,
) -> Result<Done, Pause>
    ensures acts { Talks (did frames.new) (prints program.now trees.now.kinds form (the_kind kind) frames.old replies.old) result replies.new }
    ensures kept { Keeps result frames.old frames.new }
{
    let word = kind_word_at(replies, frames, kind, 0)?;
    judge(program, trees, form, word)?;
    replies.done(Request::Print { form, word })?;
    Ok(frames.drops(1)?)
}

/// One word that is read and written at once.
#[derive(Clone, Copy)]
pub(crate) enum Swapping {
    Exchanging,
    Comparing,
    Adding,
}

/// The word and the comparand of an exchange, how many values stand above the pointer, and how many are taken.
#[derive(Clone, Copy)]
pub(crate) struct Given {
    pub word: u64,
    pub comparand: u64,
    pub above: usize,
    pub taken: usize,
}

#[tactic(auto, unfolding(crate::specs::Served::gives_one))]
fn give_one(replies: &Replies<'_>, frames: &Frames, kind: Kind) -> Result<Given, Pause>
    ensures { Talks the_given (gives_one (the_kind kind) frames.now replies.now) result replies.now }
{
    let word = kind_word_at(replies, frames, kind, 0)?;
    Ok(Given {
        word,
        comparand: 0,
        above: 1,
        taken: 2,
    })
}

#[tactic(auto, unfolding(crate::specs::Served::gives_two))]
fn give_two(replies: &Replies<'_>, frames: &Frames, kind: Kind) -> Result<Given, Pause>
    ensures { Talks the_given (gives_two (the_kind kind) frames.now replies.now) result replies.now }
{
    let comparand = kind_word_at(replies, frames, kind, 0)?;
    let word = kind_word_at(replies, frames, kind, 1)?;
    Ok(Given {
        word,
        comparand,
        above: 2,
        taken: 3,
    })
}

// The word, the comparand, and how many values stand above the pointer.
fn operands(
    replies: &Replies<'_>,
    frames: &Frames,
    form: Swapping,
    kind: Kind,
) -> Result<Given, Pause>
    ensures { Talks the_given (operands (the_swapping form) (the_kind kind) frames.now replies.now) result replies.now }
{
    match form {
        Swapping::Exchanging => Ok(give_one(replies, frames, kind)?),
        Swapping::Comparing => Ok(give_two(replies, frames, kind)?),
        Swapping::Adding => Ok(give_one(replies, frames, kind)?),
    }
}

fn request_of(form: Swapping, kind: Kind, place: Place, word: u64, comparand: u64) -> Request
    ensures { result ≡ request_of (the_swapping form) (the_kind kind) place word comparand }
{
    match form {
        Swapping::Exchanging => Request::Exchange { place, word },
        Swapping::Comparing => Request::CompareExchange {
            place,
            word,
            comparand,
        },
        Swapping::Adding => Request::Add {
            place,
            word,
            narrow: is_int32(kind),
        },
    }
}

// The sum of two words, at 32 bits or at 64.
fn summed(is_narrow: bool, old: u64, word: u64) -> u64
    ensures { result ≡ summed is_narrow old word }
{
    let sum = old.wrapping_add(word);
    if is_narrow { narrow(sum) } else { sum }
}

// What an exchange in a frame leaves of an old word.
fn leaves(form: Swapping, kind: Kind, old: u64, word: u64, comparand: u64) -> u64
    ensures { result ≡ leaves (the_swapping form) (the_kind kind) old word comparand }
{
    match form {
        Swapping::Exchanging => word,
        Swapping::Comparing => { if old == comparand { word } else { old } }
        Swapping::Adding => summed(is_int32(kind), old, word),
    }
}

// What it gives.
fn gives(form: Swapping, kind: Kind, old: u64, word: u64, comparand: u64) -> u64
    ensures { result ≡ gives (the_swapping form) (the_kind kind) old word comparand }
{
    match form {
        Swapping::Exchanging => old,
        Swapping::Comparing => old,
        Swapping::Adding => summed(is_int32(kind), old, word),
    }
}

#[tactic(auto, unfolding(crate::specs::Served::swaps_stored))]
fn swap_stored(
    replies: &mut Replies<'_>,
    frames: &mut Frames,
    form: Swapping,
    kind: Kind,
    given: Given,
    place: Place,
) -> Result<Done, Pause>
    ensures acts { Talks (did frames.new) (swaps_stored (the_swapping form) (the_kind kind) frames.old (the_given given) place replies.old) result replies.new }
    ensures kept { Keeps result frames.old frames.new }
{
    let request = request_of(form, kind, place, given.word, given.comparand);
    let word = replies.word(request)?;
    Ok(frames.pushes(given.taken, Value::Word(kind, word))?)
}

// In a frame it makes no request.
#[tactic(auto, unfolding(crate::specs::Served::swaps_held))]
fn swap_held(
    alloc: Global,
    replies: &mut Replies<'_>,
    frames: &mut Frames,
    form: Swapping,
    kind: Kind,
    given: Given,
    pointer: Pointer,
) -> Result<Done, Pause>
    ensures acts { Talks (did frames.new) (swaps_held (the_swapping form) (the_kind kind) frames.old (the_given given) (the_pointer pointer) replies.old) result replies.new }
    ensures kept { Keeps result frames.old frames.new }
{
    let words = reads(alloc, replies, frames, pointer, 1)?;
    let old = only(words.as_slice())?;
    let left = leaves(form, kind, old, given.word, given.comparand);
    let result = gives(form, kind, old, given.word, given.comparand);
    writes(alloc, replies, frames, pointer, &[left])?;
    Ok(frames.pushes(given.taken, Value::Word(kind, result))?)
}

fn swap_at(
    alloc: Global,
    replies: &mut Replies<'_>,
    frames: &mut Frames,
    form: Swapping,
    kind: Kind,
    given: Given,
    pointer: Pointer,
) -> Result<Done, Pause>
    ensures acts { Talks (did frames.new) (swaps_at (the_swapping form) (the_kind kind) frames.old (the_given given) (the_pointer pointer) replies.old) result replies.new }
    ensures kept { Keeps result frames.old frames.new }
{
    match pointer {
        Pointer::Null => Ok(Done::Throws(Fault::NullReference)),
        Pointer::InFrame { level, place, word } => Ok(swap_held(
            alloc,
            replies,
            frames,
            form,
            kind,
            given,
            Pointer::InFrame { level, place, word },
        )?),
        Pointer::InFresh { level, word } => Ok(swap_held(
            alloc,
            replies,
            frames,
            form,
            kind,
            given,
            Pointer::InFresh { level, word },
        )?),
        Pointer::InObject { object, index } => {
            let place = Place::Object { object, index };
            Ok(swap_stored(replies, frames, form, kind, given, place)?)
        }
        Pointer::InStatic {
            kind: number,
            index,
        } => {
            let place = Place::Fixed {
                kind: number,
                index,
            };
            Ok(swap_stored(replies, frames, form, kind, given, place)?)
        }
    }
}

/// `CompareExchange`, `Exchange` and `Add`: one request, or none in a frame.
#[tactic(auto, unfolding(crate::specs::Served::swaps))]
pub(crate) fn swap(
    alloc: Global,
    replies: &mut Replies<'_>,
    frames: &mut Frames,
    form: Swapping,
    kind: Kind,
) -> Result<Done, Pause>
    ensures acts { Talks (did frames.new) (swaps (the_swapping form) (the_kind kind) frames.old replies.old) result replies.new }
    ensures kept { Keeps result frames.old frames.new }
{
    let given = operands(replies, frames, form, kind)?;
    let pointer = pointer_at(frames, given.above)?;
    Ok(swap_at(alloc, replies, frames, form, kind, given, pointer)?)
}

/// `NameOf`, of the type with a number.
pub(crate) fn name(frames: &mut Frames, number: u32) -> Result<Done, Pause>
    ensures acts { Gives (did frames.new) (Ok (names number frames.old)) result }
    ensures kept { Keeps result frames.old frames.new }
{
    Ok(reference_on(frames, 0, 8589934592 + u64::from(number))?)
}

/// `Start`.
#[tactic(auto, unfolding(crate::specs::Served::starts))]
pub(crate) fn start(replies: &mut Replies<'_>, frames: &mut Frames) -> Result<Done, Pause>
    ensures acts { Talks (did frames.new) (starts frames.old replies.old) result replies.new }
    ensures kept { Keeps result frames.old frames.new }
{
    let word = reference_at(frames, 0)?;
    if word == 0 {
        return Ok(Done::Throws(Fault::NullReference));
    }
    let object = as_object(word)?;
    let thread = replies.thread(Request::Start { object })?;
    Ok(frames.pushes(1, Value::int32(u64::from(thread)))?)
}

fn joined(frames: &mut Frames, ended: Option<bool>) -> Result<Done, Pause>
    ensures acts { Gives (did frames.new) (Ok (joined frames.old ended)) result }
    ensures kept { Keeps result frames.old frames.new }
{
    match ended {
        Some(true) => Ok(frames.drops(1)?),
        Some(false) => Ok(Done::Goes),
        None => Ok(Done::Throws(Fault::IndexOutOfRange)),
    }
}

// The number of a thread that an int32 is.
fn thread_of(word: u64) -> Result<u32, NoMemory>
    ensures { IfOk result (λ thread. thread ≡ low_32 word) }
{
    match u32::try_from(low_32(word)) {
        Ok(thread) => Ok(thread),
        Err(_) => Err(NoMemory),
    }
}

/// `Join`. While the other thread has not finished, it is the same instruction again.
#[tactic(auto, unfolding(crate::specs::Served::joins))]
pub(crate) fn join(replies: &mut Replies<'_>, frames: &mut Frames) -> Result<Done, Pause>
    ensures acts { Talks (did frames.new) (joins frames.old replies.old) result replies.new }
    ensures kept { Keeps result frames.old frames.new }
{
    let word = kind_word_at(replies, frames, Kind::Int32, 0)?;
    let thread = thread_of(word)?;
    let ended = replies.ended(Request::Ended { thread })?;
    Ok(joined(frames, ended)?)
}
