// Boxes and casts. ECMA-335, Partition III.
ghost use Rattle.std.specs.Prelude.{◌≡◌};
ghost use Rattle.il_model.specs.ClassRules.{HasTypes};
ghost use Rattle.unshared.specs.Boxed.{reference_on, words_on, boxes_new, boxes_value, stays, boxes, passes, casts, tests, unboxes_words, unboxes_exact, unboxes_value, unboxes};
ghost use Rattle.unshared.specs.Exacts.{the_exact};
ghost use Rattle.unshared.specs.Going.{did, Keeps};
ghost use Rattle.unshared.specs.Operands.{reference_at, pointer_at};
ghost use Rattle.unshared.specs.Forms.{the_pointer};
ghost use Rattle.unshared.specs.Silent.{Gives};
ghost use Rattle.unshared.specs.Talk.{Talks};

use crate::exact::{Exact, spells, types};
use crate::fault::Fault;
use crate::frames::{Done, Frames};
use crate::memory::{loads, saves};
use crate::operands::{as_object, as_pointer, as_reference};
use crate::pause::{Pause, Replies};
use crate::trees::Trees;
use crate::types::{keeps, kind_of, passes_as};
use crate::value::{Pointer, Value, value_of};
use il_model::Program;
use std::alloc::Global;
use store_object::{Place, Request};
use type_inst::{is_reference, words_of};
use type_tree::TExpr;

/// The reference so far below the top.
#[tactic(auto, unfolding(crate::specs::Operands::reference_at))]
pub(crate) fn reference_at(frames: &Frames, below: usize) -> Result<u64, Pause>
    ensures { Gives (λ word. word) (reference_at frames.now below) result }
{
    let value = frames.value(below)?;
    Ok(as_reference(value)?)
}

/// The pointer so far below the top.
#[tactic(auto, unfolding(crate::specs::Operands::pointer_at))]
pub(crate) fn pointer_at(frames: &Frames, below: usize) -> Result<Pointer, Pause>
    ensures { Gives the_pointer (pointer_at frames.now below) result }
{
    let value = frames.value(below)?;
    Ok(as_pointer(value)?)
}

/// A reference in place of so many values.
pub(crate) fn reference_on(frames: &mut Frames, taken: usize, word: u64) -> Result<Done, Pause>
    ensures acts { Gives (did frames.new) (Ok (reference_on frames.old taken word)) result }
    ensures kept { Keeps result frames.old frames.new }
{
    Ok(frames.pushes(taken, Value::reference(word))?)
}

/// The words of a value of a type in place of so many values.
pub(crate) fn words_on(
    program: &Program,
    kind: &TExpr,
    frames: &mut Frames,
    taken: usize,
    words: Vec<u64>,
) -> Result<Done, Pause>
    ensures acts { Gives (did frames.new) (Ok (words_on program.now kind.now frames.old taken words.items)) result }
    ensures kept { Keeps result frames.old frames.new }
{
    let value = value_of(kind_of(program, kind), words);
    Ok(frames.pushes(taken, value)?)
}

/// A new box of the type with a number, holding these words.
#[tactic(auto, unfolding(crate::specs::Boxed::boxes_new))]
pub(crate) fn new_box(replies: &mut Replies<'_>, number: u32, words: &[u64]) -> Result<u32, Pause>
    ensures { Talks (λ object. object) (boxes_new number words.now replies.old) result replies.new }
{
    let object = replies.object(Request::Alloc {
        kind: number,
        length: 0,
        words: words.len() as u64,
    })?;
    saves(replies, words, Place::Object { object, index: 0 })?;
    Ok(object)
}

#[tactic(auto, unfolding(crate::specs::Boxed::boxes_value))]
fn box_value(
    alloc: Global,
    program: &Program,
    replies: &mut Replies<'_>,
    frames: &mut Frames,
    number: u32,
    kind: &TExpr,
) -> Result<Done, Pause>
    ensures acts { Talks (did frames.new) (boxes_value program.now number kind.now frames.old replies.old) result replies.new }
    ensures kept { Keeps result frames.old frames.new }
{
    let value = frames.value(0)?;
    let words = keeps(alloc, program, kind, value)?;
    let object = new_box(replies, number, words.as_slice())?;
    Ok(reference_on(frames, 1, u64::from(object))?)
}

#[tactic(auto, unfolding(crate::specs::Boxed::stays))]
fn stay(replies: &Replies<'_>, frames: &mut Frames) -> Result<Done, Pause>
    ensures acts { Talks (did frames.new) (stays frames.old replies.now) result replies.now }
    ensures kept { Keeps result frames.old frames.new }
{
    frames.value(0)?;
    Ok(frames.drops(0)?)
}

/// `box`, of the type with a number.
#[tactic(auto, unfolding(crate::specs::Boxed::boxes))]
pub(crate) fn put_in_box(
    alloc: Global,
    program: &Program,
    replies: &mut Replies<'_>,
    frames: &mut Frames,
    number: u32,
    kind: &TExpr,
) -> Result<Done, Pause>
    ensures acts { Talks (did frames.new) (boxes program.now number kind.now frames.old replies.old) result replies.new }
    ensures kept { Keeps result frames.old frames.new }
{
    if is_reference(program, kind) {
        Ok(stay(replies, frames)?)
    } else {
        Ok(box_value(alloc, program, replies, frames, number, kind)?)
    }
}

// Whether a reference passes as a type. Null passes.
#[tactic(auto, unfolding(crate::specs::Boxed::passes))]
fn passes(
    alloc: Global,
    program: &Program,
    trees: &Trees,
    replies: &mut Replies<'_>,
    word: u64,
    asked: &TExpr,
) -> Result<bool, Pause>
    requires { HasTypes program.now }
    ensures { Talks (λ passed. passed) (passes program.now trees.now.kinds asked.now word replies.old) result replies.new }
{
    if word == 0 {
        return Ok(true);
    }
    let exact = types(program, trees, replies, word)?;
    let exact = spells(alloc, trees, exact)?;
    Ok(passes_as(alloc, program, &exact, asked)?)
}

/// `castclass`.
#[tactic(auto, unfolding(crate::specs::Boxed::casts))]
pub(crate) fn cast(
    alloc: Global,
    program: &Program,
    trees: &Trees,
    replies: &mut Replies<'_>,
    frames: &mut Frames,
    kind: &TExpr,
) -> Result<Done, Pause>
    requires { HasTypes program.now }
    ensures acts { Talks (did frames.new) (casts program.now trees.now.kinds kind.now frames.old replies.old) result replies.new }
    ensures kept { Keeps result frames.old frames.new }
{
    let word = reference_at(frames, 0)?;
    if passes(alloc, program, trees, replies, word, kind)? {
        Ok(reference_on(frames, 1, word)?)
    } else {
        Ok(Done::Throws(Fault::InvalidCast))
    }
}

/// `isinst`.
#[tactic(auto, unfolding(crate::specs::Boxed::tests))]
pub(crate) fn test(
    alloc: Global,
    program: &Program,
    trees: &Trees,
    replies: &mut Replies<'_>,
    frames: &mut Frames,
    kind: &TExpr,
) -> Result<Done, Pause>
    requires { HasTypes program.now }
    ensures acts { Talks (did frames.new) (tests program.now trees.now.kinds kind.now frames.old replies.old) result replies.new }
    ensures kept { Keeps result frames.old frames.new }
{
    let word = reference_at(frames, 0)?;
    if passes(alloc, program, trees, replies, word, kind)? {
        Ok(reference_on(frames, 1, word)?)
    } else {
        Ok(reference_on(frames, 1, 0)?)
    }
}

#[tactic(auto, unfolding(crate::specs::Boxed::unboxes_words))]
fn unbox_words(
    alloc: Global,
    program: &Program,
    replies: &mut Replies<'_>,
    frames: &mut Frames,
    kind: &TExpr,
    word: u64,
) -> Result<Done, Pause>
    ensures acts { Talks (did frames.new) (unboxes_words program.now kind.now frames.old word replies.old) result replies.new }
    ensures kept { Keeps result frames.old frames.new }
{
    let object = as_object(word)?;
    let count = words_of(alloc, program, kind)?;
    let words = loads(alloc, replies, count, Place::Object { object, index: 0 })?;
    Ok(words_on(program, kind, frames, 1, words)?)
}

fn unbox_exact(
    alloc: Global,
    program: &Program,
    replies: &mut Replies<'_>,
    frames: &mut Frames,
    number: u32,
    kind: &TExpr,
    word: u64,
    exact: Exact,
) -> Result<Done, Pause>
    ensures acts { Talks (did frames.new) (unboxes_exact program.now number kind.now frames.old word (the_exact exact) replies.old) result replies.new }
    ensures kept { Keeps result frames.old frames.new }
{
    match exact {
        Exact::Text => Ok(Done::Throws(Fault::InvalidCast)),
        Exact::Numbered(own) => {
            if own == number {
                Ok(unbox_words(alloc, program, replies, frames, kind, word)?)
            } else {
                Ok(Done::Throws(Fault::InvalidCast))
            }
        }
    }
}

#[tactic(auto, unfolding(crate::specs::Boxed::unboxes_value))]
fn unbox_value(
    alloc: Global,
    program: &Program,
    trees: &Trees,
    replies: &mut Replies<'_>,
    frames: &mut Frames,
    number: u32,
    kind: &TExpr,
) -> Result<Done, Pause>
    ensures acts { Talks (did frames.new) (unboxes_value program.now trees.now.kinds number kind.now frames.old replies.old) result replies.new }
    ensures kept { Keeps result frames.old frames.new }
{
    let word = reference_at(frames, 0)?;
    if word == 0 {
        return Ok(Done::Throws(Fault::NullReference));
    }
    let exact = types(program, trees, replies, word)?;
    Ok(unbox_exact(alloc, program, replies, frames, number, kind, word, exact)?)
}

/// `unbox.any`, of the type with a number.
#[tactic(auto, unfolding(crate::specs::Boxed::unboxes))]
pub(crate) fn take_from_box(
    alloc: Global,
    program: &Program,
    trees: &Trees,
    replies: &mut Replies<'_>,
    frames: &mut Frames,
    number: u32,
    kind: &TExpr,
) -> Result<Done, Pause>
    requires { HasTypes program.now }
    ensures acts { Talks (did frames.new) (unboxes program.now trees.now.kinds number kind.now frames.old replies.old) result replies.new }
    ensures kept { Keeps result frames.old frames.new }
{
    if is_reference(program, kind) {
        Ok(cast(alloc, program, trees, replies, frames, kind)?)
    } else {
        Ok(unbox_value(alloc, program, trees, replies, frames, number, kind)?)
    }
}
