// Calls, new objects and returns. ECMA-335, Partition III; the limit of frames is this project's own.
ghost use Rattle.std.specs.Prelude.{◌≡◌, ◌==◌, ℕ, ◌+◌, ◌++◌, [], ◌∷◌, List, Option, Ok, true, false, drop, map, position, slice_get, IfOk, OnOk};
ghost use Rattle.il_model.specs.declared.layout.MethodTree.{MethodTree as TheMethod};
ghost use Rattle.il_model.specs.ClassRules.{HasTypes, EachClass, HasFewSlots};
ghost use Rattle.il_model.specs.Found.{method_at};
ghost use Rattle.il_model.specs.Kinds.{is_value};
ghost use Rattle.il_model.specs.Slots.{is_interface, is_interface_kind, slots_of};
ghost use Rattle.cil_meaning.specs.Naming.{put_type};
ghost use Rattle.cil_meaning.specs.Types.{argument_places, put_place, zero_of};
ghost use Rattle.cil_meaning.specs.Calls.{slot_by, slot_found, object_for, first_places};
ghost use Rattle.cil_meaning.specs.Frames.{Result as Returned, outer};
ghost use Rattle.cil_meaning.specs.Threads.{alone_in};
ghost use Rattle.unshared.specs.declared.frames.Frames.{Frames as FramesHere};
ghost use Rattle.unshared.specs.Called.{callee_of, has_room, calls, calls_slot, calls_exact, calls_object, calls_named, calls_plainly, builds, allocates, finishes, returns_to, returns};
ghost use Rattle.unshared.specs.Constrained.{calls_led, calls_boxed, by_numbers, by_slot, constrained};
ghost use Rattle.unshared.specs.Forms.{the_pointer, the_value};
ghost use Rattle.unshared.specs.Going.{did, pushed, Keeps};
ghost use Rattle.unshared.specs.Held.{the_awaited, the_places, frames_around, places_of};
ghost use Rattle.unshared.specs.Objects.{the_object};
ghost use Rattle.unshared.specs.Silent.{Gives, there};
ghost use Rattle.unshared.specs.Standing.{frames_or_none};
ghost use Rattle.unshared.specs.Taken.{values_taken, has_values, taken_behind, kept_from, all_kept, kept_result, result_kept};
ghost use Rattle.unshared.specs.Talk.{Talks};

use crate::boxes::new_box;
use crate::exact::{spells, types};
use crate::fault::Fault;
use crate::found::method_there;
use crate::frames::{Awaited, Done, Frames, Places, first_frame};
use crate::members::not_null;
use crate::memory::reads;
use crate::mentions::settle_method;
use crate::operands::only;
use crate::pause::{Halt, Pause, Replies};
use crate::trees::Trees;
use crate::types::{
    copied, fits_place, object_place, put_place, put_type, takes_object, value_kept, zero_of, zeros,
};
use crate::value::{Kind, Pointer, Value, value_of};
use il_model::{ClassKind, MRef, MethodDef, MethodTree, PType, Program, class_of};
use mn_outside::NoMemory;
use sqlite_items::Items;
use std::alloc::Global;
use std::mem;
use store_object::{Cause, Request};
use type_inst::{implementation, is_reference, is_value, layout, own_methods_of, slots, words_of};
use type_tree::{TExpr, copy_all};

// The most frames of a thread.
const MOST_FRAMES: usize = 1024;

/// What a call leaves of the caller: how many values are taken from its stack, what it waits for, and the words of a struct
/// that is to be built.
#[derive(Drop)]
pub(crate) struct Calling {
    pub taken: usize,
    pub awaits: Awaited,
    pub fresh: Vec<u64>,
}

fn put(kinds: &mut Items<TExpr>, kind: TExpr) -> Result<(), NoMemory>
    ensures { OnOk result (kinds.new ≡ kinds.old ++ kind ∷ []) }
{
    match kinds.push(kind) {
        Ok(()) => Ok(()),
        Err(_) => Err(NoMemory),
    }
}

/// The method that is named, with the arguments of an instantiated method put.
pub(crate) fn callee(
    alloc: Global,
    method: &MethodTree,
    named: &MRef,
    number: u16,
) -> Result<MethodTree, NoMemory>
    ensures { IfOk result (λ callee. callee ≡ callee_of method.now named.now number) }
{
    let class = put_type(alloc, method, &named.class)?;
    let args = put_types(alloc, method, named.args.as_slice())?;
    Ok(MethodTree {
        method: number,
        class,
        args,
    })
}

fn put_types(alloc: Global, method: &MethodTree, kinds: &[TExpr]) -> Result<Items<TExpr>, NoMemory>
    ensures { IfOk result (λ all. all ≡ map (put_type method.now) kinds.now) }
{
    let mut all = Items::new(alloc);
    for kind in kinds {
        let closed = put_type(alloc, method, kind)?;
        put(&mut all, closed)?;
    }
    Ok(all)
}

fn hold(held: &mut Vec<Value>, value: Value) -> Result<(), NoMemory>
    ensures { OnOk result (map the_value held.new.items ≡ map the_value held.old.items ++ the_value value ∷ []) }
{
    match held.push(value) {
        Ok(()) => Ok(()),
        Err(_) => Err(NoMemory),
    }
}

// Copies of these values behind those that are there.
fn hold_all(alloc: Global, held: &mut Vec<Value>, values: &[Value]) -> Result<(), NoMemory>
    ensures { OnOk result (map the_value held.new.items ≡ map the_value held.old.items ++ map the_value values.now) }
{
    for value in values {
        let copy = value.copied(alloc)?;
        hold(held, copy)?;
    }
    Ok(())
}

// Copies of so many values from the top of the stack, the deepest first.
#[tactic(auto, using(crate::proofs::StackLemmas::took), unfolding(crate::specs::Taken::values_taken))]
fn values_taken(alloc: Global, frames: &Frames, count: usize) -> Result<Vec<Value>, Pause>
    ensures { Gives (λ values. map the_value values.items) (values_taken frames.now count) result }
{
    let stack = frames.top.stack.as_slice();
    if count > stack.len() {
        return Err(Pause::Halts(Halt::Stuck));
    }
    let mut held = Vec::new(alloc);
    hold_all(alloc, &mut held, &stack[stack.len() - count..])?;
    Ok(held)
}

// Whether there are so many values.
#[tactic(auto, unfolding(crate::specs::Taken::has_values))]
fn has_values(frames: &Frames, count: usize) -> Result<(), Pause>
    ensures { Gives (λ nothing. nothing) (has_values frames.now count) result }
{
    if count > frames.top.stack.len() {
        Err(Pause::Halts(Halt::Stuck))
    } else {
        Ok(())
    }
}

// A list of one value, or of none.
fn front_of(alloc: Global, object: Option<Value>) -> Result<Vec<Value>, NoMemory>
    ensures { IfOk result (λ front. map the_value front.items ≡ pushed object) }
{
    let mut front = Vec::new(alloc);
    match object {
        Some(object) => {
            hold(&mut front, object)?;
            Ok(front)
        }
        None => Ok(front),
    }
}

// So many values from the top of the stack, the deepest first, behind an object.
#[tactic(auto, unfolding(crate::specs::Taken::taken_behind))]
fn arguments(
    alloc: Global,
    frames: &Frames,
    object: Option<Value>,
    count: usize,
) -> Result<Vec<Value>, Pause>
    ensures { Gives (λ values. map the_value values.items) (taken_behind (pushed object) frames.now count) result }
{
    let mut all = front_of(alloc, object)?;
    let values = values_taken(alloc, frames, count)?;
    hold_all(alloc, &mut all, values.as_slice())?;
    Ok(all)
}

fn add_places(
    alloc: Global,
    method: &MethodTree,
    all: &mut Vec<PType>,
    places: &[PType],
) -> Result<(), NoMemory>
    ensures { OnOk result (all.new.items ≡ all.old.items ++ map (put_place method.now) places.now) }
{
    for place in places {
        let closed = put_place(alloc, method, place)?;
        match all.push(closed) {
            Ok(()) => {}
            Err(_) => return Err(NoMemory),
        }
    }
    Ok(())
}

// The types of the arguments of an instantiated method, the object first.
fn argument_places(
    alloc: Global,
    program: &Program,
    method: &MethodTree,
    definition: &MethodDef,
) -> Result<Vec<PType>, NoMemory>
    ensures { IfOk result (λ places. places.items ≡ argument_places program.now method.now definition.now) }
{
    let mut all = Vec::new(alloc);
    if takes_object(definition.shape) {
        match all.push(object_place(alloc, program, &method.class)?) {
            Ok(()) => {}
            Err(_) => return Err(NoMemory),
        }
    }
    add_places(alloc, method, &mut all, definition.params.as_slice())?;
    Ok(all)
}

// What places keep of values, behind what is there.
#[tactic(auto, unfolding(crate::specs::Taken::kept_from))]
fn keep_from(
    alloc: Global,
    program: &Program,
    places: &[PType],
    values: &[Value],
    found: &mut Vec<Value>,
) -> Result<(), Pause>
    ensures { Gives (λ nothing. map the_value found.new.items) (kept_from program.now places.now (map the_value values.now) (map the_value found.old.items)) result }
{
    match places {
        [] => Ok(()),
        [place, others @ ..] => match values {
            [] => Err(Pause::Halts(Halt::Stuck)),
            [value, rest @ ..] => {
                let kept = fits_place(alloc, program, place, value)?;
                hold(found, kept)?;
                Ok(keep_from(alloc, program, others, rest, found)?)
            }
        },
    }
}

// What places keep of as many values.
#[tactic(auto, unfolding(crate::specs::Taken::all_kept))]
fn keep_all(
    alloc: Global,
    program: &Program,
    places: &[PType],
    values: &[Value],
) -> Result<Vec<Value>, Pause>
    ensures { Gives (λ held. map the_value held.items) (all_kept program.now places.now (map the_value values.now)) result }
{
    if places.len() != values.len() {
        return Err(Pause::Halts(Halt::Stuck));
    }
    let mut found = Vec::new(alloc);
    keep_from(alloc, program, places, values, &mut found)?;
    Ok(found)
}

// Zeros for the locals, behind the arguments.
fn add_zeros(
    alloc: Global,
    program: &Program,
    method: &MethodTree,
    held: &mut Vec<Value>,
    locals: &[PType],
) -> Result<(), NoMemory>
    ensures { OnOk result (map the_value held.new.items ≡ map the_value held.old.items ++ map (zero_of program.now) (map (put_place method.now) locals.now)) }
{
    for local in locals {
        let place = put_place(alloc, method, local)?;
        let zero = zero_of(alloc, program, &place)?;
        hold(held, zero)?;
    }
    Ok(())
}

// The arguments, and then zeros for the locals.
fn first_places(
    alloc: Global,
    program: &Program,
    method: &MethodTree,
    definition: &MethodDef,
    arguments: Vec<Value>,
) -> Result<Places, NoMemory>
    ensures { IfOk result (λ places. the_places places ≡ first_places program.now method.now definition.now (map the_value arguments.items)) }
{
    let mut held = arguments;
    if let Some(body) = &definition.body {
        add_zeros(alloc, program, method, &mut held, body.locals.as_slice())?;
    }
    Ok(Places {
        held,
        fresh: Vec::new(alloc),
    })
}

/// The frame of a method alone, with these arguments; None where the program has no such method.
pub(crate) fn alone_in(
    alloc: Global,
    program: &Program,
    method: MethodTree,
    held: Vec<Value>,
) -> Result<Option<Frames>, NoMemory>
    ensures { IfOk result (λ (frames : Option FramesHere). frames_or_none frames ≡ alone_in program.now method (method_at program.now method.method) (map the_value held.items)) }
{
    let Some(definition) = crate::found::method_at(program, method.method) else {
        return Ok(None);
    };
    let places = first_places(alloc, program, &method, definition, held)?;
    let frame = first_frame(alloc, method);
    Ok(Some(Frames::alone(alloc, frame, places)))
}

// Goes on where there are fewer frames than may be, and else stops the run.
#[tactic(auto, unfolding(crate::specs::Called::has_room))]
fn has_room(replies: &mut Replies<'_>, frames: &Frames) -> Result<(), Pause>
    ensures { Talks (λ nothing. nothing) (has_room frames.now replies.old) result replies.new }
{
    if frames.around.len() < MOST_FRAMES - 1 {
        Ok(())
    } else {
        Ok(replies.stop(Cause::Depth)?)
    }
}

/// Calls a method that has a body, with these arguments.
#[tactic(auto, unfolding(crate::specs::Called::calls))]
pub(crate) fn calls(
    alloc: Global,
    program: &Program,
    replies: &mut Replies<'_>,
    frames: &mut Frames,
    method: MethodTree,
    arguments: &[Value],
    call: Calling,
) -> Result<Done, Pause>
    ensures acts { Talks (did frames.new) (calls program.now method (map the_value arguments.now) frames.old call.taken (the_awaited call.awaits) call.fresh.items replies.old) result replies.new }
    ensures kept { Keeps result frames.old frames.new }
{
    let definition = method_there(program, method.method)?;
    if definition.body.is_none() {
        return Err(Pause::Halts(Halt::Stuck));
    }
    let places = argument_places(alloc, program, &method, definition)?;
    let held = keep_all(alloc, program, places.as_slice(), arguments)?;
    has_room(replies, frames)?;
    let places = first_places(alloc, program, &method, definition, held)?;
    frames.waits(call.taken, call.awaits, call.fresh);
    frames.enter(first_frame(alloc, method), places)?;
    Ok(Done::Goes)
}

fn is_interface(program: &Program, kind: &TExpr) -> bool
    ensures { result ≡ is_interface program.now kind.now }
{
    match class_of(program, kind) {
        Some(class) => is_interface_kind(class.kind),
        None => false,
    }
}

fn is_interface_kind(kind: ClassKind) -> bool
    ensures { result ≡ is_interface_kind kind }
{
    match kind {
        ClassKind::Interface => true,
        ClassKind::Plain | ClassKind::Abstract | ClassKind::Struct | ClassKind::Delegate => false,
    }
}

fn place_of_number(numbers: &[u16], number: u16) -> Option<usize>
    ensures { result ≡ position (λ own. own == number) numbers.now }
{
    numbers.iter().position(|own| *own == number)
}

fn place_of_method(methods: &[MethodTree], number: u16) -> Option<usize>
    ensures { result ≡ position (λ (m : TheMethod). m.method == number) methods.now }
{
    methods.iter().position(|method| method.method == number)
}

// The slot of an exact type that implements an interface's method.
#[tactic(auto, using(crate::proofs::CallLemmas::few_slots, crate::proofs::CallLemmas::among_own, crate::proofs::CallLemmas::if_among))]
fn slot_by_interface(
    alloc: Global,
    program: &Program,
    exact: &TExpr,
    class: &TExpr,
    number: u16,
) -> Result<Option<usize>, NoMemory>
    requires types { HasTypes program.now }
    requires slots { EachClass HasFewSlots program.now }
    ensures { IfOk result (λ (slot : Option ℕ). slot ≡ slot_by program.now true exact.now class.now number) }
{
    let Some(ordinal) = place_of_number(own_methods_of(program, class), number) else {
        return Ok(None);
    };
    let Ok(ordinal) = u16::try_from(ordinal) else {
        return Err(NoMemory);
    };
    match implementation(alloc, program, exact, class, ordinal)? {
        Some(slot) => Ok(Some(usize::from(slot))),
        None => Ok(None),
    }
}

// The same of a class's method, by the class in which the method stands.
fn slot_by_class(
    alloc: Global,
    program: &Program,
    exact: &TExpr,
    class: &TExpr,
    number: u16,
) -> Result<Option<usize>, NoMemory>
    requires { HasTypes program.now }
    ensures { IfOk result (λ (slot : Option ℕ). slot ≡ slot_by program.now false exact.now class.now number) }
{
    let all = slots(alloc, program, class)?;
    Ok(place_of_method(all.as_slice(), number))
}

// The slot of an exact type to which a call goes that names a method of a class.
fn slot_found(
    alloc: Global,
    program: &Program,
    exact: &TExpr,
    class: &TExpr,
    number: u16,
) -> Result<Option<usize>, NoMemory>
    requires types { HasTypes program.now }
    requires slots { EachClass HasFewSlots program.now }
    ensures { IfOk result (λ (slot : Option ℕ). slot ≡ slot_found program.now exact.now class.now number) }
{
    if is_interface(program, class) {
        Ok(slot_by_interface(alloc, program, exact, class, number)?)
    } else {
        Ok(slot_by_class(alloc, program, exact, class, number)?)
    }
}

fn copied_method(alloc: Global, method: &MethodTree) -> Result<MethodTree, NoMemory>
    ensures { IfOk result (λ copy. copy ≡ method.now) }
{
    Ok(MethodTree {
        method: method.method,
        class: copied(alloc, &method.class)?,
        args: copy_all(alloc, method.args.as_slice())?,
    })
}

// The method in a slot of an exact type.
fn method_in_slot(
    alloc: Global,
    program: &Program,
    exact: &TExpr,
    slot: usize,
) -> Result<MethodTree, Pause>
    requires { HasTypes program.now }
    ensures { Gives (λ method. method) (there (slice_get (slots_of program.now exact.now) slot)) result }
{
    let all = slots(alloc, program, exact)?;
    match all.as_slice().get(slot) {
        Some(method) => Ok(copied_method(alloc, method)?),
        None => Err(Pause::Halts(Halt::Stuck)),
    }
}

// The object that a method in a slot takes: a struct's takes the pointer to word 0 of the box.
fn object_for(program: &Program, class: &TExpr, word: u64) -> Result<Value, NoMemory>
    ensures { IfOk result (λ object. the_value object ≡ object_for (is_value program.now class.now) word) }
{
    if is_value(program, class) {
        match u32::try_from(word) {
            Ok(object) => Ok(Value::Managed(Pointer::InObject { object, index: 0 })),
            Err(_) => Err(NoMemory),
        }
    } else {
        Ok(Value::reference(word))
    }
}

// What a call of an object's method leaves, with so many arguments besides, which stand above the object.
fn call_on(alloc: Global, given: usize) -> Result<Calling, NoMemory>
    ensures taken { IfOk result (λ call. call.taken ≡ given + 1) }
    ensures awaits { IfOk result (λ call. the_awaited call.awaits ≡ Returned) }
    ensures fresh { IfOk result (λ call. call.fresh.items ≡ []) }
{
    match given.checked_add(1) {
        Some(taken) => Ok(Calling {
            taken,
            awaits: Awaited::Result,
            fresh: Vec::new(alloc),
        }),
        None => Err(NoMemory),
    }
}

// Calls the method in a slot of an exact type, of this object, or of the struct where a pointer leads.
#[tactic(auto, unfolding(crate::specs::Called::calls_slot, crate::specs::Objects::pointed))]
fn calls_slot(
    alloc: Global,
    program: &Program,
    replies: &mut Replies<'_>,
    frames: &mut Frames,
    exact: &TExpr,
    slot: usize,
    object: Object,
    given: usize,
) -> Result<Done, Pause>
    requires { HasTypes program.now }
    ensures acts { Talks (did frames.new) (calls_slot program.now exact.now slot (the_object program.now object) frames.old given replies.old) result replies.new }
    ensures kept { Keeps result frames.old frames.new }
{
    let method = method_in_slot(alloc, program, exact, slot)?;
    settle_method(alloc, program, replies, &method)?;
    let object = match object {
        Object::Reference(word) => object_for(program, &method.class, word)?,
        Object::Pointed(pointer) => Value::Managed(pointer),
    };
    let all = arguments(alloc, frames, Some(object), given)?;
    let call = call_on(alloc, given)?;
    Ok(calls(
        alloc,
        program,
        replies,
        frames,
        method,
        all.as_slice(),
        call,
    )?)
}

/// The object of a call: by a reference, or by a pointer to a struct.
#[derive(Clone, Copy)]
pub(crate) enum Object {
    Reference(u64),
    Pointed(Pointer),
}

// Calls the method that a reference's exact type has for the one that is named.
#[tactic(auto, unfolding(crate::specs::Called::calls_exact))]
fn calls_exact(
    alloc: Global,
    program: &Program,
    trees: &Trees,
    replies: &mut Replies<'_>,
    frames: &mut Frames,
    class: &TExpr,
    number: u16,
    word: u64,
    given: usize,
) -> Result<Done, Pause>
    requires types { HasTypes program.now }
    requires slots { EachClass HasFewSlots program.now }
    ensures acts { Talks (did frames.new) (calls_exact program.now trees.now.kinds class.now number word frames.old given replies.old) result replies.new }
    ensures kept { Keeps result frames.old frames.new }
{
    let exact = types(program, trees, replies, word)?;
    let exact = spells(alloc, trees, exact)?;
    let Some(slot) = slot_found(alloc, program, &exact, class, number)? else {
        return Err(Pause::Halts(Halt::Stuck));
    };
    Ok(calls_slot(
        alloc,
        program,
        replies,
        frames,
        &exact,
        slot,
        Object::Reference(word),
        given,
    )?)
}

/// The same, where the reference may be null.
pub(crate) fn calls_object(
    alloc: Global,
    program: &Program,
    trees: &Trees,
    replies: &mut Replies<'_>,
    frames: &mut Frames,
    class: &TExpr,
    number: u16,
    word: u64,
    given: usize,
) -> Result<Done, Pause>
    requires types { HasTypes program.now }
    requires slots { EachClass HasFewSlots program.now }
    ensures acts { Talks (did frames.new) (calls_object program.now trees.now.kinds class.now number word frames.old given replies.old) result replies.new }
    ensures kept { Keeps result frames.old frames.new }
{
    if word == 0 {
        return Ok(Done::Throws(Fault::NullReference));
    }
    Ok(calls_exact(
        alloc, program, trees, replies, frames, class, number, word, given,
    )?)
}

/// `call`.
#[tactic(auto, unfolding(crate::specs::Called::calls_named))]
pub(crate) fn calls_named(
    alloc: Global,
    program: &Program,
    replies: &mut Replies<'_>,
    frames: &mut Frames,
    method: MethodTree,
    definition: &MethodDef,
) -> Result<Done, Pause>
    ensures acts { Talks (did frames.new) (calls_named program.now method definition.now frames.old replies.old) result replies.new }
    ensures kept { Keeps result frames.old frames.new }
{
    let places = argument_places(alloc, program, &method, definition)?;
    let taken = places.len();
    let all = arguments(alloc, frames, None, taken)?;
    let call = Calling {
        taken,
        awaits: Awaited::Result,
        fresh: Vec::new(alloc),
    };
    Ok(calls(
        alloc,
        program,
        replies,
        frames,
        method,
        all.as_slice(),
        call,
    )?)
}

/// `callvirt` of a method without a slot.
#[tactic(auto, unfolding(crate::specs::Called::calls_plainly))]
pub(crate) fn calls_plainly(
    alloc: Global,
    program: &Program,
    replies: &mut Replies<'_>,
    frames: &mut Frames,
    method: MethodTree,
    word: u64,
    given: usize,
) -> Result<Done, Pause>
    ensures acts { Talks (did frames.new) (calls_plainly program.now method word frames.old given replies.old) result replies.new }
    ensures kept { Keeps result frames.old frames.new }
{
    if word == 0 {
        return Ok(Done::Throws(Fault::NullReference));
    }
    let all = arguments(alloc, frames, Some(Value::reference(word)), given)?;
    let call = call_on(alloc, given)?;
    Ok(calls(
        alloc,
        program,
        replies,
        frames,
        method,
        all.as_slice(),
        call,
    )?)
}

/// `newobj` of a struct, which is built in a fresh place of this frame.
#[tactic(auto, unfolding(crate::specs::Called::builds))]
pub(crate) fn builds(
    alloc: Global,
    program: &Program,
    replies: &mut Replies<'_>,
    frames: &mut Frames,
    method: MethodTree,
    given: usize,
) -> Result<Done, Pause>
    ensures acts { Talks (did frames.new) (builds program.now method frames.old given replies.old) result replies.new }
    ensures kept { Keeps result frames.old frames.new }
{
    let level = frames.level()?;
    let object = Value::Managed(Pointer::InFresh { level, word: 0 });
    let all = arguments(alloc, frames, Some(object), given)?;
    let count = words_of(alloc, program, &method.class)?;
    let call = Calling {
        taken: given,
        awaits: Awaited::Built,
        fresh: zeros(alloc, count)?,
    };
    Ok(calls(
        alloc,
        program,
        replies,
        frames,
        method,
        all.as_slice(),
        call,
    )?)
}

/// `newobj` of a class, with this number.
#[tactic(auto, unfolding(crate::specs::Called::allocates))]
pub(crate) fn allocates(
    alloc: Global,
    program: &Program,
    replies: &mut Replies<'_>,
    frames: &mut Frames,
    method: MethodTree,
    number: u32,
    given: usize,
) -> Result<Done, Pause>
    ensures acts { Talks (did frames.new) (allocates program.now method number frames.old given replies.old) result replies.new }
    ensures kept { Keeps result frames.old frames.new }
{
    has_values(frames, given)?;
    let words = layout(alloc, program, &method.class)?.words;
    let object = replies.object(Request::Alloc {
        kind: number,
        length: 0,
        words: u64::from(words),
    })?;
    let all = arguments(
        alloc,
        frames,
        Some(Value::reference(u64::from(object))),
        given,
    )?;
    let call = Calling {
        taken: given,
        awaits: Awaited::Object(object),
        fresh: Vec::new(alloc),
    };
    Ok(calls(
        alloc,
        program,
        replies,
        frames,
        method,
        all.as_slice(),
        call,
    )?)
}

// The result, as its type keeps it.
#[tactic(auto, unfolding(crate::specs::Taken::kept_result))]
fn kept_result(
    alloc: Global,
    program: &Program,
    frames: &Frames,
    kind: &TExpr,
) -> Result<Value, Pause>
    ensures { Gives (λ value. the_value value ∷ []) (kept_result program.now frames.now.top.method kind.now frames.now) result }
{
    let kind = put_type(alloc, &frames.top.method, kind)?;
    let value = frames.value(0)?;
    Ok(value_kept(alloc, program, &kind, value)?)
}

fn result_of(
    alloc: Global,
    program: &Program,
    frames: &Frames,
    definition: &MethodDef,
) -> Result<Option<Value>, Pause>
    ensures { Gives pushed (result_kept program.now frames.now.top.method frames.now definition.now.result) result }
{
    match &definition.result {
        None => Ok(None),
        Some(kind) => Ok(Some(kept_result(alloc, program, frames, kind)?)),
    }
}

// Leaves the innermost frame for the one around it, which waits for this and goes on after its call.
fn return_to(
    alloc: Global,
    frames: &mut Frames,
    awaits: Awaited,
    returned: Option<Value>,
) -> Result<Done, Pause>
    ensures acts { Gives (did frames.new) (returns_to (the_awaited awaits) (frames_around frames.old) (outer (places_of frames.old)) (pushed returned)) result }
    ensures kept { Keeps result frames.old frames.new }
{
    match awaits {
        Awaited::Nothing => Err(Pause::Halts(Halt::Stuck)),
        Awaited::Result => {
            frames.leave()?;
            frames.goes(0, returned)?;
            Ok(Done::Goes)
        }
        Awaited::Object(object) => {
            frames.leave()?;
            frames.goes(0, Some(Value::reference(u64::from(object))))?;
            Ok(Done::Goes)
        }
        Awaited::Built => {
            frames.leave()?;
            let words = mem::replace(&mut frames.here.fresh, Vec::new(alloc));
            frames.goes(0, Some(value_of(Kind::Struct, words)))?;
            Ok(Done::Goes)
        }
    }
}

// The thread is at its end.
#[tactic(auto, unfolding(crate::specs::Called::finishes))]
fn finishes(replies: &mut Replies<'_>, frames: &Frames) -> Result<Done, Pause>
    ensures acts { Talks (did frames.now) (finishes replies.old) result replies.new }
    ensures kept { Keeps result frames.now frames.now }
{
    replies.done(Request::Finish)?;
    Err(Pause::Halts(replies.over()))
}

/// `ret`. In the first frame it ends the thread.
#[tactic(auto, unfolding(crate::specs::Called::returns))]
pub(crate) fn returns(
    alloc: Global,
    program: &Program,
    replies: &mut Replies<'_>,
    frames: &mut Frames,
    definition: &MethodDef,
) -> Result<Done, Pause>
    ensures acts { Talks (did frames.new) (returns program.now definition.now frames.old replies.old) result replies.new }
    ensures kept { Keeps result frames.old frames.new }
{
    let returned = result_of(alloc, program, frames, definition)?;
    match frames.awaited() {
        None => Ok(finishes(replies, frames)?),
        Some(awaits) => Ok(return_to(alloc, frames, awaits, returned)?),
    }
}

// `constrained.` on a reference type: the object is what the pointer leads to.
#[tactic(auto, unfolding(crate::specs::Constrained::calls_led))]
fn calls_led(
    alloc: Global,
    program: &Program,
    trees: &Trees,
    replies: &mut Replies<'_>,
    frames: &mut Frames,
    class: &TExpr,
    number: u16,
    pointer: Pointer,
    given: usize,
) -> Result<Done, Pause>
    requires types { HasTypes program.now }
    requires slots { EachClass HasFewSlots program.now }
    ensures acts { Talks (did frames.new) (calls_led program.now trees.now.kinds class.now number (the_pointer pointer) frames.old given replies.old) result replies.new }
    ensures kept { Keeps result frames.old frames.new }
{
    let words = reads(alloc, replies, frames, pointer, 1)?;
    let word = only(words.as_slice())?;
    Ok(calls_object(
        alloc, program, trees, replies, frames, class, number, word, given,
    )?)
}

// `constrained.` on a value type without the method: the object is a new box of the type with this number.
#[tactic(auto, unfolding(crate::specs::Constrained::calls_boxed))]
fn calls_boxed(
    alloc: Global,
    program: &Program,
    trees: &Trees,
    replies: &mut Replies<'_>,
    frames: &mut Frames,
    kind_number: u32,
    kind: &TExpr,
    class: &TExpr,
    number: u16,
    pointer: Pointer,
    given: usize,
) -> Result<Done, Pause>
    requires types { HasTypes program.now }
    requires slots { EachClass HasFewSlots program.now }
    ensures acts { Talks (did frames.new) (calls_boxed program.now trees.now.kinds kind_number kind.now class.now number (the_pointer pointer) frames.old given replies.old) result replies.new }
    ensures kept { Keeps result frames.old frames.new }
{
    let count = words_of(alloc, program, kind)?;
    let words = reads(alloc, replies, frames, pointer, count)?;
    let object = new_box(replies, kind_number, words.as_slice())?;
    Ok(calls_object(
        alloc,
        program,
        trees,
        replies,
        frames,
        class,
        number,
        u64::from(object),
        given,
    )?)
}

// The same, where numbers of types are given and the pointer may be null.
fn calls_value(
    alloc: Global,
    program: &Program,
    trees: &Trees,
    replies: &mut Replies<'_>,
    frames: &mut Frames,
    numbers: &[u32],
    kind: &TExpr,
    class: &TExpr,
    number: u16,
    pointer: Pointer,
    given: usize,
) -> Result<Done, Pause>
    requires types { HasTypes program.now }
    requires slots { EachClass HasFewSlots program.now }
    ensures acts { Talks (did frames.new) (by_numbers program.now trees.now.kinds numbers.now kind.now class.now number (the_pointer pointer) frames.old given replies.old) result replies.new }
    ensures kept { Keeps result frames.old frames.new }
{
    let [kind_number, ..] = numbers else {
        return Err(Pause::Halts(Halt::Stuck));
    };
    match not_null(pointer) {
        None => Ok(Done::Throws(Fault::NullReference)),
        Some(pointer) => Ok(calls_boxed(
            alloc,
            program,
            trees,
            replies,
            frames,
            *kind_number,
            kind,
            class,
            number,
            pointer,
            given,
        )?),
    }
}

// `constrained.` on a value type, whose own method stands in this slot, if it has one.
fn by_slot(
    alloc: Global,
    program: &Program,
    trees: &Trees,
    replies: &mut Replies<'_>,
    frames: &mut Frames,
    numbers: &[u32],
    kind: &TExpr,
    class: &TExpr,
    number: u16,
    pointer: Pointer,
    given: usize,
    slot: Option<usize>,
) -> Result<Done, Pause>
    requires types { HasTypes program.now }
    requires slots { EachClass HasFewSlots program.now }
    ensures acts { Talks (did frames.new) (by_slot program.now trees.now.kinds numbers.now kind.now class.now number (the_pointer pointer) frames.old given slot replies.old) result replies.new }
    ensures kept { Keeps result frames.old frames.new }
{
    match slot {
        Some(slot) => Ok(calls_slot(
            alloc,
            program,
            replies,
            frames,
            kind,
            slot,
            Object::Pointed(pointer),
            given,
        )?),
        None => Ok(calls_value(
            alloc, program, trees, replies, frames, numbers, kind, class, number, pointer, given,
        )?),
    }
}

/// `constrained.` and its `callvirt`, of a type whose number is the first of these.
#[tactic(auto, unfolding(crate::specs::Constrained::constrained))]
pub(crate) fn constrained(
    alloc: Global,
    program: &Program,
    trees: &Trees,
    replies: &mut Replies<'_>,
    frames: &mut Frames,
    numbers: &[u32],
    kind: &TExpr,
    class: &TExpr,
    number: u16,
    pointer: Pointer,
    given: usize,
) -> Result<Done, Pause>
    requires types { HasTypes program.now }
    requires slots { EachClass HasFewSlots program.now }
    ensures acts { Talks (did frames.new) (constrained program.now trees.now.kinds numbers.now kind.now class.now number (the_pointer pointer) frames.old given replies.old) result replies.new }
    ensures kept { Keeps result frames.old frames.new }
{
    if is_reference(program, kind) {
        return match not_null(pointer) {
            None => Ok(Done::Throws(Fault::NullReference)),
            Some(pointer) => Ok(calls_led(
                alloc, program, trees, replies, frames, class, number, pointer, given,
            )?),
        };
    }
    let slot = slot_found(alloc, program, kind, class, number)?;
    Ok(by_slot(
        alloc, program, trees, replies, frames, numbers, kind, class, number, pointer, given, slot,
    )?)
}
