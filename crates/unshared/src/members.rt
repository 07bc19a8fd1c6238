// Fields, static fields, and words through a pointer. ECMA-335, Partition III.
ghost use Rattle.std.specs.Prelude.{◌≡◌, length, take, option_map, Option, IfOk};
ghost use Rattle.cil_meaning.specs.Offsets.{instance_fields, static_fields, instance_offset, static_offset};
ghost use Rattle.unshared.specs.Fields.{moved_on, is_struct_value, reads_words, reads_to, writes_words, writes_to, reads_field, writes_field, points_to, points_field, reads_static, writes_static, points_static, reads_object, writes_object, clears_object};
ghost use Rattle.unshared.specs.Forms.{the_pointer, the_value};
ghost use Rattle.unshared.specs.Going.{did, Keeps};
ghost use Rattle.unshared.specs.Owners.{owner_word, owner_of, owner_pointer, value_part};
ghost use Rattle.unshared.specs.Silent.{Gives, there};
ghost use Rattle.unshared.specs.Talk.{Talks};

use crate::boxes::{pointer_at, words_on};
use crate::fault::Fault;
use crate::frames::{Done, Frames};
use crate::memory::{cut, reads, words_in, writes};
use crate::operands::{as_object, is_reference_word, is_struct, only};
use crate::pause::{Halt, Pause, Replies};
use crate::types::{keeps, zeros};
use crate::value::{Pointer, Value, shifted};
use il_model::{FieldDef, Program, class_of};
use mn_outside::NoMemory;
use std::alloc::Global;
use type_inst::{layout, words_of};
use type_tree::TExpr;

/// A field as an instruction of an instantiated method names it: its class and its type with the arguments put, and its
/// place among the class's own fields.
#[derive(Drop)]
pub(crate) struct FieldHere {
    pub class: TExpr,
    pub kind: TExpr,
    pub place: u16,
}

// How many of these fields are static.
fn static_count(fields: &[FieldDef]) -> usize
    ensures { result ≡ length (static_fields fields.now) }
{
    fields.iter().filter(|field| field.fixed).count()
}

// How many are not.
fn instance_count(fields: &[FieldDef]) -> usize
    ensures { result ≡ length (instance_fields fields.now) }
{
    fields.iter().filter(|field| !field.fixed).count()
}

// So many of the first fields.
fn first_fields(fields: &[FieldDef], count: usize) -> &[FieldDef]
    ensures { result.now ≡ take count fields.now }
{
    if count < fields.len() {
        &fields[..count]
    } else {
        fields
    }
}

// Where an instance field lies in an object.
fn instance_offset(alloc: Global, program: &Program, field: &FieldHere) -> Result<u32, Pause>
    ensures { Gives (λ offset. offset) (there (instance_offset program.now field.now.class field.now.place)) result }
{
    let Some(class) = class_of(program, &field.class) else {
        return Err(Pause::Halts(Halt::Stuck));
    };
    let layout = layout(alloc, program, &field.class)?;
    let fields = class.fields.as_slice();
    let own = instance_count(fields);
    let before = instance_count(first_fields(fields, usize::from(field.place)));
    let offsets = layout.offsets.as_slice();
    let Some(place) = offsets.len().saturating_sub(own).checked_add(before) else {
        return Err(Pause::NoMemory);
    };
    match offsets.get(place) {
        Some(offset) => Ok(*offset),
        None => Err(Pause::Halts(Halt::Stuck)),
    }
}

// Where a static field lies among the static words of its class.
fn static_offset(alloc: Global, program: &Program, field: &FieldHere) -> Result<u32, Pause>
    ensures { Gives (λ offset. offset) (there (static_offset program.now field.now.class field.now.place)) result }
{
    let Some(class) = class_of(program, &field.class) else {
        return Err(Pause::Halts(Halt::Stuck));
    };
    let layout = layout(alloc, program, &field.class)?;
    let fields = class.fields.as_slice();
    let place = static_count(first_fields(fields, usize::from(field.place)));
    match layout.fixed_offsets.as_slice().get(place) {
        Some(offset) => Ok(*offset),
        None => Err(Pause::Halts(Halt::Stuck)),
    }
}

/// A pointer that isn't null.
pub(crate) fn not_null(pointer: Pointer) -> Option<Pointer>
    ensures { option_map the_pointer result ≡ owner_pointer (the_pointer pointer) }
{
    match pointer {
        Pointer::Null => None,
        Pointer::InFrame { level, place, word } => Some(Pointer::InFrame { level, place, word }),
        Pointer::InFresh { level, word } => Some(Pointer::InFresh { level, word }),
        Pointer::InObject { object, index } => Some(Pointer::InObject { object, index }),
        Pointer::InStatic { kind, index } => Some(Pointer::InStatic { kind, index }),
    }
}

#[tactic(auto, unfolding(crate::specs::Owners::owner_word))]
fn owner_word(word: u64) -> Result<Option<Pointer>, Pause>
    ensures { Gives (λ (owner : Option Pointer). option_map the_pointer owner) (owner_word word) result }
{
    if word == 0 {
        return Ok(None);
    }
    let object = as_object(word)?;
    Ok(Some(Pointer::InObject { object, index: 0 }))
}

// Where the words of an object or of a struct begin, by a reference or a pointer to it; None where that is null.
#[tactic(auto, unfolding(crate::specs::Owners::owner_of))]
fn as_owner(value: &Value) -> Result<Option<Pointer>, Pause>
    ensures { Gives (λ (owner : Option Pointer). option_map the_pointer owner) (owner_of (the_value value.now)) result }
{
    match value {
        Value::Managed(pointer) => Ok(not_null(*pointer)),
        Value::Word(kind, word) => {
            if is_reference_word(*kind) {
                Ok(owner_word(*word)?)
            } else {
                Err(Pause::Halts(Halt::Stuck))
            }
        }
        Value::Words(kind, words) => {
            if is_reference_word(*kind) {
                let word = only(words.as_slice())?;
                Ok(owner_word(word)?)
            } else {
                Err(Pause::Halts(Halt::Stuck))
            }
        }
    }
}

fn is_struct_value(value: &Value) -> bool
    ensures { result ≡ is_struct_value (the_value value.now) }
{
    match value {
        Value::Word(kind, _) => is_struct(*kind),
        Value::Words(kind, _) => is_struct(*kind),
        Value::Managed(_) => false,
    }
}

// The pointer so many words on, if there is one.
fn moved_on(owner: Option<Pointer>, offset: u32) -> Result<Option<Pointer>, NoMemory>
    ensures { IfOk result (λ (after : Option Pointer). option_map the_pointer after ≡ moved_on offset (option_map the_pointer owner)) }
{
    match owner {
        Some(pointer) => Ok(Some(shifted(pointer, offset)?)),
        None => Ok(None),
    }
}

// The words of a type where a pointer leads, in place of so many values.
#[tactic(auto, unfolding(crate::specs::Fields::reads_words))]
fn read_words(
    alloc: Global,
    program: &Program,
    replies: &mut Replies<'_>,
    frames: &mut Frames,
    kind: &TExpr,
    taken: usize,
    pointer: Pointer,
) -> Result<Done, Pause>
    ensures acts { Talks (did frames.new) (reads_words program.now kind.now frames.old taken (the_pointer pointer) replies.old) result replies.new }
    ensures kept { Keeps result frames.old frames.new }
{
    let count = words_of(alloc, program, kind)?;
    let words = reads(alloc, replies, frames, pointer, count)?;
    Ok(words_on(program, kind, frames, taken, words)?)
}

fn read_to(
    alloc: Global,
    program: &Program,
    replies: &mut Replies<'_>,
    frames: &mut Frames,
    kind: &TExpr,
    pointer: Option<Pointer>,
) -> Result<Done, Pause>
    ensures acts { Talks (did frames.new) (reads_to program.now kind.now frames.old (option_map the_pointer pointer) replies.old) result replies.new }
    ensures kept { Keeps result frames.old frames.new }
{
    match pointer {
        None => Ok(Done::Throws(Fault::NullReference)),
        Some(pointer) => Ok(read_words(alloc, program, replies, frames, kind, 1, pointer)?),
    }
}

// Words put where a pointer leads.
#[tactic(auto, unfolding(crate::specs::Fields::writes_words))]
fn write_words(
    alloc: Global,
    replies: &mut Replies<'_>,
    frames: &mut Frames,
    taken: usize,
    words: &[u64],
    pointer: Pointer,
) -> Result<Done, Pause>
    ensures acts { Talks (did frames.new) (writes_words frames.old taken words.now (the_pointer pointer) replies.old) result replies.new }
    ensures kept { Keeps result frames.old frames.new }
{
    writes(alloc, replies, frames, pointer, words)?;
    Ok(frames.drops(taken)?)
}

fn write_to(
    alloc: Global,
    replies: &mut Replies<'_>,
    frames: &mut Frames,
    taken: usize,
    words: &[u64],
    pointer: Option<Pointer>,
) -> Result<Done, Pause>
    ensures acts { Talks (did frames.new) (writes_to frames.old taken words.now (option_map the_pointer pointer) replies.old) result replies.new }
    ensures kept { Keeps result frames.old frames.new }
{
    match pointer {
        None => Ok(Done::Throws(Fault::NullReference)),
        Some(pointer) => Ok(write_words(alloc, replies, frames, taken, words, pointer)?),
    }
}

#[tactic(auto, unfolding(crate::specs::Owners::value_part))]
fn value_part(alloc: Global, value: &Value, from: u32, count: u32) -> Result<Vec<u64>, Pause>
    ensures { Gives (λ words. words.items) (value_part (the_value value.now) from count) result }
{
    let words = words_in(alloc, value)?;
    Ok(cut(alloc, words.as_slice(), from, count)?)
}

// A field of what the value on top owns.
fn read_owned(
    alloc: Global,
    program: &Program,
    replies: &mut Replies<'_>,
    frames: &mut Frames,
    kind: &TExpr,
    offset: u32,
    owner: Option<Pointer>,
) -> Result<Done, Pause>
    ensures acts { Talks (did frames.new) (reads_to program.now kind.now frames.old (moved_on offset (option_map the_pointer owner)) replies.old) result replies.new }
    ensures kept { Keeps result frames.old frames.new }
{
    let owner = moved_on(owner, offset)?;
    Ok(read_to(alloc, program, replies, frames, kind, owner)?)
}

/// `ldfld`.
#[tactic(auto, unfolding(crate::specs::Fields::reads_field, crate::specs::Fields::reads_struct, crate::specs::Fields::reads_owned))]
pub(crate) fn read_field(
    alloc: Global,
    program: &Program,
    replies: &mut Replies<'_>,
    frames: &mut Frames,
    field: &FieldHere,
) -> Result<Done, Pause>
    ensures acts { Talks (did frames.new) (reads_field program.now field.now.class field.now.place field.now.kind frames.old replies.old) result replies.new }
    ensures kept { Keeps result frames.old frames.new }
{
    let offset = instance_offset(alloc, program, field)?;
    let value = frames.value(0)?;
    if is_struct_value(value) {
        let count = words_of(alloc, program, &field.kind)?;
        let words = value_part(alloc, value, offset, count)?;
        return Ok(words_on(program, &field.kind, frames, 1, words)?);
    }
    let owner = as_owner(value)?;
    Ok(read_owned(alloc, program, replies, frames, &field.kind, offset, owner)?)
}

/// `stfld`.
#[tactic(auto, unfolding(crate::specs::Fields::writes_field))]
pub(crate) fn write_field(
    alloc: Global,
    program: &Program,
    replies: &mut Replies<'_>,
    frames: &mut Frames,
    field: &FieldHere,
) -> Result<Done, Pause>
    ensures acts { Talks (did frames.new) (writes_field program.now field.now.class field.now.place field.now.kind frames.old replies.old) result replies.new }
    ensures kept { Keeps result frames.old frames.new }
{
    let offset = instance_offset(alloc, program, field)?;
    let value = frames.value(0)?;
    let words = keeps(alloc, program, &field.kind, value)?;
    let object = frames.value(1)?;
    let owner = as_owner(object)?;
    let owner = moved_on(owner, offset)?;
    Ok(write_to(alloc, replies, frames, 2, words.as_slice(), owner)?)
}

fn point_to(frames: &mut Frames, pointer: Option<Pointer>) -> Result<Done, Pause>
    ensures acts { Gives (did frames.new) (Ok (points_to frames.old (option_map the_pointer pointer))) result }
    ensures kept { Keeps result frames.old frames.new }
{
    match pointer {
        None => Ok(Done::Throws(Fault::NullReference)),
        Some(pointer) => Ok(frames.pushes(1, Value::Managed(pointer))?),
    }
}

/// `ldflda`.
#[tactic(auto, unfolding(crate::specs::Fields::points_field))]
pub(crate) fn point_field(
    alloc: Global,
    program: &Program,
    replies: &Replies<'_>,
    frames: &mut Frames,
    field: &FieldHere,
) -> Result<Done, Pause>
    ensures acts { Talks (did frames.new) (points_field program.now field.now.class field.now.place frames.old replies.now) result replies.now }
    ensures kept { Keeps result frames.old frames.new }
{
    let offset = instance_offset(alloc, program, field)?;
    let value = frames.value(0)?;
    let owner = as_owner(value)?;
    let owner = moved_on(owner, offset)?;
    Ok(point_to(frames, owner)?)
}

/// `ldsfld`, of a class with a number.
#[tactic(auto, unfolding(crate::specs::Fields::reads_static))]
pub(crate) fn read_static(
    alloc: Global,
    program: &Program,
    replies: &mut Replies<'_>,
    frames: &mut Frames,
    field: &FieldHere,
    number: u32,
) -> Result<Done, Pause>
    ensures acts { Talks (did frames.new) (reads_static program.now field.now.class field.now.place field.now.kind number frames.old replies.old) result replies.new }
    ensures kept { Keeps result frames.old frames.new }
{
    let index = static_offset(alloc, program, field)?;
    let pointer = Pointer::InStatic {
        kind: number,
        index,
    };
    Ok(read_words(alloc, program, replies, frames, &field.kind, 0, pointer)?)
}

/// `stsfld`, of a class with a number.
#[tactic(auto, unfolding(crate::specs::Fields::writes_static))]
pub(crate) fn write_static(
    alloc: Global,
    program: &Program,
    replies: &mut Replies<'_>,
    frames: &mut Frames,
    field: &FieldHere,
    number: u32,
) -> Result<Done, Pause>
    ensures acts { Talks (did frames.new) (writes_static program.now field.now.class field.now.place field.now.kind number frames.old replies.old) result replies.new }
    ensures kept { Keeps result frames.old frames.new }
{
    let index = static_offset(alloc, program, field)?;
    let value = frames.value(0)?;
    let words = keeps(alloc, program, &field.kind, value)?;
    let pointer = Pointer::InStatic {
        kind: number,
        index,
    };
    Ok(write_words(alloc, replies, frames, 1, words.as_slice(), pointer)?)
}

/// `ldsflda`, of a class with a number.
#[tactic(auto, unfolding(crate::specs::Fields::points_static))]
pub(crate) fn point_static(
    alloc: Global,
    program: &Program,
    replies: &Replies<'_>,
    frames: &mut Frames,
    field: &FieldHere,
    number: u32,
) -> Result<Done, Pause>
    ensures acts { Talks (did frames.new) (points_static program.now field.now.class field.now.place number frames.old replies.now) result replies.now }
    ensures kept { Keeps result frames.old frames.new }
{
    let index = static_offset(alloc, program, field)?;
    let pointer = Pointer::InStatic {
        kind: number,
        index,
    };
    Ok(frames.pushes(0, Value::Managed(pointer))?)
}

/// `ldobj`.
#[tactic(auto, unfolding(crate::specs::Fields::reads_object))]
pub(crate) fn read_at(
    alloc: Global,
    program: &Program,
    replies: &mut Replies<'_>,
    frames: &mut Frames,
    kind: &TExpr,
) -> Result<Done, Pause>
    ensures acts { Talks (did frames.new) (reads_object program.now kind.now frames.old replies.old) result replies.new }
    ensures kept { Keeps result frames.old frames.new }
{
    let pointer = pointer_at(frames, 0)?;
    Ok(read_to(alloc, program, replies, frames, kind, not_null(pointer))?)
}

/// `stobj`.
#[tactic(auto, unfolding(crate::specs::Fields::writes_object))]
pub(crate) fn write_at(
    alloc: Global,
    program: &Program,
    replies: &mut Replies<'_>,
    frames: &mut Frames,
    kind: &TExpr,
) -> Result<Done, Pause>
    ensures acts { Talks (did frames.new) (writes_object program.now kind.now frames.old replies.old) result replies.new }
    ensures kept { Keeps result frames.old frames.new }
{
    let pointer = pointer_at(frames, 1)?;
    let value = frames.value(0)?;
    let words = keeps(alloc, program, kind, value)?;
    Ok(write_to(
        alloc,
        replies,
        frames,
        2,
        words.as_slice(),
        not_null(pointer),
    )?)
}

/// `initobj`.
#[tactic(auto, unfolding(crate::specs::Fields::clears_object))]
pub(crate) fn clear_at(
    alloc: Global,
    program: &Program,
    replies: &mut Replies<'_>,
    frames: &mut Frames,
    kind: &TExpr,
) -> Result<Done, Pause>
    ensures acts { Talks (did frames.new) (clears_object program.now kind.now frames.old replies.old) result replies.new }
    ensures kept { Keeps result frames.old frames.new }
{
    let pointer = pointer_at(frames, 0)?;
    let count = words_of(alloc, program, kind)?;
    let zeros = zeros(alloc, count)?;
    Ok(write_to(
        alloc,
        replies,
        frames,
        1,
        zeros.as_slice(),
        not_null(pointer),
    )?)
}
