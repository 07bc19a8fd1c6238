// Values on the stack, arguments and locals. ECMA-335, Partition III.
ghost use Rattle.std.specs.Prelude.{◌≡◌, length, map, slice_get, IfSome};
ghost use Rattle.il_model.specs.declared.program.Program.{Program as TheProgram};
ghost use Rattle.il_model.specs.declared.layout.MethodTree.{MethodTree as TheMethod};
ghost use Rattle.cil_meaning.specs.Types.{argument_places, put_place};
ghost use Rattle.unshared.specs.Going.{did, Keeps};
ghost use Rattle.unshared.specs.Placed.{the_slot, the_place, argument_type, local_type, argument_found, local_found, place_found, reads, points_to, points, writes};
ghost use Rattle.unshared.specs.Silent.{Gives, there};

use crate::frames::{Done, Frames};
use crate::pause::{Halt, Pause};
use crate::types::{fits_place, object_place, put_place, takes_object};
use crate::value::{Pointer, Value};
use il_model::{MethodDef, MethodTree, PType, Program};
use std::alloc::Global;

/// An argument or a local, by its number.
#[derive(Clone, Copy)]
pub(crate) enum Slot {
    Argument(u64),
    Local(u64),
}

/// A place of a frame: its number among the arguments and then the locals, and its type.
#[derive(Drop)]
pub(crate) struct Place {
    pub number: usize,
    pub kind: PType,
}

// The type of the parameter with a number.
#[tactic(auto, using(crate::proofs::PlaceLemmas::got_map))]
fn param_type(
    alloc: Global,
    method: &MethodTree,
    params: &[PType],
    number: usize,
) -> Result<PType, Pause>
    ensures { Gives (λ kind. kind) (there (slice_get (map (put_place method.now) params.now) number)) result }
{
    match params.get(number) {
        Some(kind) => Ok(put_place(alloc, method, kind)?),
        None => Err(Pause::Halts(Halt::Stuck)),
    }
}

// The type of the argument with a number.
#[tactic(auto, using(crate::proofs::PlaceLemmas::got_first, crate::proofs::PlaceLemmas::got_later), unfolding(crate::specs::Placed::argument_type))]
fn argument_type(
    alloc: Global,
    program: &Program,
    method: &MethodTree,
    definition: &MethodDef,
    number: usize,
) -> Result<PType, Pause>
    ensures { Gives (λ kind. kind) (argument_type program.now method.now definition.now number) result }
{
    if !takes_object(definition.shape) {
        return Ok(param_type(alloc, method, definition.params.as_slice(), number)?);
    }
    if number == 0 {
        return Ok(object_place(alloc, program, &method.class)?);
    }
    Ok(param_type(alloc, method, definition.params.as_slice(), number - 1)?)
}

// The type of the local with a number.
#[tactic(auto, unfolding(crate::specs::Placed::local_type))]
fn local_type(
    alloc: Global,
    method: &MethodTree,
    definition: &MethodDef,
    number: usize,
) -> Result<PType, Pause>
    ensures { Gives (λ kind. kind) (local_type method.now definition.now number) result }
{
    match &definition.body {
        Some(body) => Ok(param_type(alloc, method, body.locals.as_slice(), number)?),
        None => Err(Pause::Halts(Halt::Stuck)),
    }
}

// How many arguments a method has, the object among them; None where they pass what the machine counts.
fn argument_count(definition: &MethodDef) -> Option<usize>
    ensures { IfSome result (λ count. (p : TheProgram) (m : TheMethod) → count ≡ length (argument_places p m definition.now)) }
{
    if takes_object(definition.shape) {
        definition.params.len().checked_add(1)
    } else {
        Some(definition.params.len())
    }
}

#[tactic(auto, unfolding(crate::specs::Placed::argument_found))]
fn argument_found(
    alloc: Global,
    program: &Program,
    method: &MethodTree,
    definition: &MethodDef,
    number: usize,
) -> Result<Place, Pause>
    ensures { Gives the_place (argument_found program.now method.now definition.now number) result }
{
    let kind = argument_type(alloc, program, method, definition, number)?;
    Ok(Place { number, kind })
}

#[tactic(auto, unfolding(crate::specs::Placed::local_found))]
fn local_found(
    alloc: Global,
    program: &Program,
    method: &MethodTree,
    definition: &MethodDef,
    number: usize,
) -> Result<Place, Pause>
    ensures { Gives the_place (local_found program.now method.now definition.now number) result }
{
    let kind = local_type(alloc, method, definition, number)?;
    let Some(count) = argument_count(definition) else {
        return Err(Pause::NoMemory);
    };
    match count.checked_add(number) {
        Some(number) => Ok(Place { number, kind }),
        None => Err(Pause::NoMemory),
    }
}

// The place with a number among the arguments or the locals.
fn place_of(
    alloc: Global,
    program: &Program,
    method: &MethodTree,
    definition: &MethodDef,
    slot: Slot,
) -> Result<Place, Pause>
    ensures { Gives the_place (place_found program.now method.now definition.now (the_slot slot)) result }
{
    match slot {
        Slot::Argument(number) => {
            Ok(argument_found(alloc, program, method, definition, number as usize)?)
        }
        Slot::Local(number) => {
            Ok(local_found(alloc, program, method, definition, number as usize)?)
        }
    }
}

/// What a place holds.
#[tactic(auto, unfolding(crate::specs::Placed::reads))]
pub(crate) fn read(
    alloc: Global,
    program: &Program,
    frames: &mut Frames,
    definition: &MethodDef,
    slot: Slot,
) -> Result<Done, Pause>
    ensures acts { Gives (did frames.new) (reads program.now definition.now (the_slot slot) frames.old) result }
    ensures kept { Keeps result frames.old frames.new }
{
    let place = place_of(alloc, program, &frames.top.method, definition, slot)?;
    let value = frames.here.value(place.number)?;
    let copy = value.copied(alloc)?;
    Ok(frames.pushes(0, copy)?)
}

// The address of a place that holds words.
fn point_to(frames: &mut Frames, place: Place) -> Result<Done, Pause>
    ensures acts { Gives (did frames.new) (points_to frames.old place.number place.kind) result }
    ensures kept { Keeps result frames.old frames.new }
{
    let level = frames.level()?;
    let Ok(number) = u32::try_from(place.number) else {
        return Err(Pause::NoMemory);
    };
    match place.kind {
        PType::Value(_) => Ok(frames.pushes(
            0,
            Value::Managed(Pointer::InFrame {
                level,
                place: number,
                word: 0,
            }),
        )?),
        PType::Pointer(_) => Err(Pause::Halts(Halt::Stuck)),
        PType::Native => Err(Pause::Halts(Halt::Stuck)),
    }
}

/// The address of a place that holds words.
#[tactic(auto, unfolding(crate::specs::Placed::points))]
pub(crate) fn point(
    alloc: Global,
    program: &Program,
    frames: &mut Frames,
    definition: &MethodDef,
    slot: Slot,
) -> Result<Done, Pause>
    ensures acts { Gives (did frames.new) (points program.now definition.now (the_slot slot) frames.old) result }
    ensures kept { Keeps result frames.old frames.new }
{
    let place = place_of(alloc, program, &frames.top.method, definition, slot)?;
    Ok(point_to(frames, place)?)
}

/// A place keeps the value on top.
#[tactic(auto, unfolding(crate::specs::Placed::writes))]
pub(crate) fn write(
    alloc: Global,
    program: &Program,
    frames: &mut Frames,
    definition: &MethodDef,
    slot: Slot,
) -> Result<Done, Pause>
    ensures acts { Gives (did frames.new) (writes program.now definition.now (the_slot slot) frames.old) result }
    ensures kept { Keeps result frames.old frames.new }
{
    let place = place_of(alloc, program, &frames.top.method, definition, slot)?;
    let value = frames.value(0)?;
    let kept = fits_place(alloc, program, &place.kind, value)?;
    frames.hold(place.number, kept);
    Ok(frames.drops(1)?)
}
