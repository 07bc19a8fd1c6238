// Vectors. ECMA-335, Partition III.
ghost use Rattle.std.specs.Prelude.{◌≡◌, ◌*◌, ◌||◌, IfOk};
ghost use Rattle.cil_meaning.specs.Values.{is_int32, is_native};
ghost use Rattle.unshared.specs.Forms.{the_kind};
ghost use Rattle.il_model.specs.ClassRules.{HasTypes};
ghost use Rattle.store_object.specs.declared.place.Place.TheVariants as at;
ghost use Rattle.unshared.specs.Elements.{allocates_of, allocates_by, allocates, measures, the_element, index_at, measured, element_at, reads_words, reads_element, puts, may_put, puts_tested, puts_one, puts_into, writes_element};
ghost use Rattle.unshared.specs.Going.{did, Keeps};
ghost use Rattle.unshared.specs.Talk.{Talks};

use crate::arithmetic::one_word;
use crate::boxes::{reference_at, reference_on, words_on};
use crate::exact::{spells, types};
use crate::fault::Fault;
use crate::frames::{Done, Frames};
use crate::memory::{loads, saves};
use crate::operands::{as_object, is_int32, is_native, only, word_of_kind};
use crate::pause::{Halt, Pause, Replies};
use crate::trees::Trees;
use crate::types::{keeps, passes_as};
use crate::value::{Kind, Value};
use il_model::Program;
use mn_outside::NoMemory;
use std::alloc::Global;
use store_object::{Place, Request};
use type_inst::{element_of, is_reference, words_of};
use type_tree::TExpr;

#[tactic(auto, unfolding(crate::specs::Elements::allocates_of))]
fn allocate_of(
    replies: &mut Replies<'_>,
    frames: &mut Frames,
    number: u32,
    length: u32,
    size: u32,
) -> Result<Done, Pause>
    ensures acts { Talks (did frames.new) (allocates_of number length size frames.old replies.old) result replies.new }
    ensures kept { Keeps result frames.old frames.new }
{
    let object = replies.object(Request::Alloc {
        kind: number,
        length,
        words: u64::from(length) * u64::from(size),
    })?;
    Ok(reference_on(frames, 1, u64::from(object))?)
}

fn allocate_by(
    alloc: Global,
    program: &Program,
    replies: &mut Replies<'_>,
    frames: &mut Frames,
    number: u32,
    element: &TExpr,
    length: u64,
) -> Result<Done, Pause>
    ensures acts { Talks (did frames.new) (allocates_by program.now number element.now frames.old length replies.old) result replies.new }
    ensures kept { Keeps result frames.old frames.new }
{
    match u32::try_from(length) {
        Ok(length) => {
            let size = words_of(alloc, program, element)?;
            Ok(allocate_of(replies, frames, number, length, size)?)
        }
        Err(_) => {
            if length < 9223372036854775808 {
                Err(Pause::Halts(Halt::Stuck))
            } else {
                Ok(Done::Throws(Fault::Overflow))
            }
        }
    }
}

fn is_length(kind: Kind) -> bool
    ensures { result ≡ (is_int32 (the_kind kind) || is_native (the_kind kind)) }
{
    if is_int32(kind) {
        true
    } else {
        is_native(kind)
    }
}

/// `newarr`, of a vector type with a number and elements of a type.
#[tactic(auto, unfolding(crate::specs::Elements::allocates))]
pub(crate) fn allocate(
    alloc: Global,
    program: &Program,
    replies: &mut Replies<'_>,
    frames: &mut Frames,
    number: u32,
    element: &TExpr,
) -> Result<Done, Pause>
    ensures acts { Talks (did frames.new) (allocates program.now number element.now frames.old replies.old) result replies.new }
    ensures kept { Keeps result frames.old frames.new }
{
    let (kind, length) = one_word(frames)?;
    if !is_length(kind) {
        return Err(Pause::Halts(Halt::Stuck));
    }
    Ok(allocate_by(alloc, program, replies, frames, number, element, length)?)
}

/// `ldlen`.
#[tactic(auto, unfolding(crate::specs::Elements::measures))]
pub(crate) fn measure(replies: &mut Replies<'_>, frames: &mut Frames) -> Result<Done, Pause>
    ensures acts { Talks (did frames.new) (measures frames.old replies.old) result replies.new }
    ensures kept { Keeps result frames.old frames.new }
{
    let word = reference_at(frames, 0)?;
    if word == 0 {
        return Ok(Done::Throws(Fault::NullReference));
    }
    let object = as_object(word)?;
    let length = replies.word(Request::Length { object })?;
    Ok(frames.pushes(1, Value::Word(Kind::Native, length))?)
}

/// An element that an instruction names: its vector and its index, or what is thrown for it.
#[derive(Clone, Copy)]
pub(crate) enum Element {
    At { object: u32, index: u64 },
    Missing(Fault),
}

#[tactic(auto, unfolding(crate::specs::Elements::index_at))]
fn index_at(replies: &Replies<'_>, frames: &Frames, below: usize) -> Result<u64, Pause>
    ensures { Talks (λ index. index) (index_at frames.now below replies.now) result replies.now }
{
    let value = frames.value(below)?;
    Ok(word_of_kind(Kind::Int32, value)?)
}

#[tactic(auto, unfolding(crate::specs::Elements::measured))]
fn measured(replies: &mut Replies<'_>, word: u64, index: u64) -> Result<Element, Pause>
    ensures { Talks the_element (measured word index replies.old) result replies.new }
{
    let object = as_object(word)?;
    let length = replies.word(Request::Length { object })?;
    if index < length {
        Ok(Element::At { object, index })
    } else {
        Ok(Element::Missing(Fault::IndexOutOfRange))
    }
}

// The element of the vector and the index that stand so far below the top.
#[tactic(auto, unfolding(crate::specs::Elements::element_at))]
fn element_at(
    replies: &mut Replies<'_>,
    frames: &Frames,
    vector: usize,
    index: usize,
) -> Result<Element, Pause>
    ensures { Talks the_element (element_at frames.now vector index replies.old) result replies.new }
{
    let index = index_at(replies, frames, index)?;
    let word = reference_at(frames, vector)?;
    if word == 0 {
        return Ok(Element::Missing(Fault::NullReference));
    }
    Ok(measured(replies, word, index)?)
}

// The place of an element's first word.
fn place_in(object: u32, index: u64, size: u32) -> Result<Place, NoMemory>
    ensures { IfOk result (λ place. place ≡ at.Object object (index * size)) }
{
    let Some(word) = index.checked_mul(u64::from(size)) else {
        return Err(NoMemory);
    };
    match u32::try_from(word) {
        Ok(index) => Ok(Place::Object { object, index }),
        Err(_) => Err(NoMemory),
    }
}

#[tactic(auto, unfolding(crate::specs::Elements::reads_words))]
fn read_words(
    alloc: Global,
    program: &Program,
    replies: &mut Replies<'_>,
    frames: &mut Frames,
    kind: &TExpr,
    object: u32,
    index: u64,
) -> Result<Done, Pause>
    ensures acts { Talks (did frames.new) (reads_words program.now kind.now frames.old object index replies.old) result replies.new }
    ensures kept { Keeps result frames.old frames.new }
{
    let size = words_of(alloc, program, kind)?;
    let place = place_in(object, index, size)?;
    let words = loads(alloc, replies, size, place)?;
    Ok(words_on(program, kind, frames, 2, words)?)
}

/// `ldelem`.
#[tactic(auto, unfolding(crate::specs::Elements::reads_element))]
pub(crate) fn read_element(
    alloc: Global,
    program: &Program,
    replies: &mut Replies<'_>,
    frames: &mut Frames,
    kind: &TExpr,
) -> Result<Done, Pause>
    ensures acts { Talks (did frames.new) (reads_element program.now kind.now frames.old replies.old) result replies.new }
    ensures kept { Keeps result frames.old frames.new }
{
    match element_at(replies, frames, 1, 0)? {
        Element::Missing(fault) => Ok(Done::Throws(fault)),
        Element::At { object, index } => Ok(read_words(
            alloc, program, replies, frames, kind, object, index,
        )?),
    }
}

// The words of an element are put into it.
#[tactic(auto, unfolding(crate::specs::Elements::puts))]
fn puts(
    replies: &mut Replies<'_>,
    frames: &mut Frames,
    object: u32,
    index: u64,
    size: u32,
    words: &[u64],
) -> Result<Done, Pause>
    ensures acts { Talks (did frames.new) (puts object index size words.now frames.old replies.old) result replies.new }
    ensures kept { Keeps result frames.old frames.new }
{
    let place = place_in(object, index, size)?;
    saves(replies, words, place)?;
    Ok(frames.drops(3)?)
}

// Whether a reference that isn't null may be put into a vector: it passes as the vector's own element type.
#[tactic(auto, unfolding(crate::specs::Elements::may_put))]
fn may_put(
    alloc: Global,
    program: &Program,
    trees: &Trees,
    replies: &mut Replies<'_>,
    vector: u64,
    reference: u64,
) -> Result<bool, Pause>
    requires { HasTypes program.now }
    ensures { Talks (λ may. may) (may_put program.now trees.now.kinds vector reference replies.old) result replies.new }
{
    let vector = types(program, trees, replies, vector)?;
    let item = types(program, trees, replies, reference)?;
    let vector = spells(alloc, trees, vector)?;
    let exact = spells(alloc, trees, item)?;
    let Some(own) = element_of(&vector) else {
        return Err(Pause::Halts(Halt::Stuck));
    };
    Ok(passes_as(alloc, program, &exact, own)?)
}

#[tactic(auto, unfolding(crate::specs::Elements::puts_tested))]
fn put_tested(
    alloc: Global,
    program: &Program,
    trees: &Trees,
    replies: &mut Replies<'_>,
    frames: &mut Frames,
    object: u32,
    index: u64,
    reference: u64,
) -> Result<Done, Pause>
    requires { HasTypes program.now }
    ensures acts { Talks (did frames.new) (puts_tested program.now trees.now.kinds object index reference frames.old replies.old) result replies.new }
    ensures kept { Keeps result frames.old frames.new }
{
    if may_put(alloc, program, trees, replies, u64::from(object), reference)? {
        Ok(puts(replies, frames, object, index, 1, &[reference])?)
    } else {
        Ok(Done::Throws(Fault::ArrayTypeMismatch))
    }
}

#[tactic(auto, unfolding(crate::specs::Elements::puts_one))]
fn put_reference(
    alloc: Global,
    program: &Program,
    trees: &Trees,
    replies: &mut Replies<'_>,
    frames: &mut Frames,
    object: u32,
    index: u64,
    words: &[u64],
) -> Result<Done, Pause>
    requires { HasTypes program.now }
    ensures acts { Talks (did frames.new) (puts_one program.now trees.now.kinds object index words.now frames.old replies.old) result replies.new }
    ensures kept { Keeps result frames.old frames.new }
{
    let reference = only(words)?;
    if reference == 0 {
        return Ok(puts(replies, frames, object, index, 1, &[reference])?);
    }
    Ok(put_tested(
        alloc, program, trees, replies, frames, object, index, reference,
    )?)
}

fn put_into(
    alloc: Global,
    program: &Program,
    trees: &Trees,
    replies: &mut Replies<'_>,
    frames: &mut Frames,
    kind: &TExpr,
    words: &[u64],
    element: Element,
) -> Result<Done, Pause>
    requires { HasTypes program.now }
    ensures acts { Talks (did frames.new) (puts_into program.now trees.now.kinds kind.now words.now frames.old (the_element element) replies.old) result replies.new }
    ensures kept { Keeps result frames.old frames.new }
{
    match element {
        Element::Missing(fault) => Ok(Done::Throws(fault)),
        Element::At { object, index } => {
            if is_reference(program, kind) {
                Ok(put_reference(alloc, program, trees, replies, frames, object, index, words)?)
            } else {
                let size = words_of(alloc, program, kind)?;
                Ok(puts(replies, frames, object, index, size, words)?)
            }
        }
    }
}

/// `stelem`.
#[tactic(auto, unfolding(crate::specs::Elements::writes_element))]
pub(crate) fn write_element(
    alloc: Global,
    program: &Program,
    trees: &Trees,
    replies: &mut Replies<'_>,
    frames: &mut Frames,
    kind: &TExpr,
) -> Result<Done, Pause>
    requires { HasTypes program.now }
    ensures acts { Talks (did frames.new) (writes_element program.now trees.now.kinds kind.now frames.old replies.old) result replies.new }
    ensures kept { Keeps result frames.old frames.new }
{
    let value = frames.value(0)?;
    let words = keeps(alloc, program, kind, value)?;
    let element = element_at(replies, frames, 2, 1)?;
    Ok(put_into(
        alloc,
        program,
        trees,
        replies,
        frames,
        kind,
        words.as_slice(),
        element,
    )?)
}
