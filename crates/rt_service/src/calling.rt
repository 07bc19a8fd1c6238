// The services CALL and RETURN.
ghost use Rattle.std.specs.Prelude.{◌≡◌, ◌+◌, ◌*◌, ◌<◌, ◌≤◌, ◌++◌, ◌∷◌, [], IfOk, OnOk, List, length, map, Some, true, is_some, slice_get};
ghost use Rattle.std.specs.Option.{option_copied};
ghost use Rattle.il_model.specs.declared.method.PType.{PType};
ghost use Rattle.il_model.specs.Find.{takes_object};
ghost use Rattle.il_model.specs.Found.{method_at};
ghost use Rattle.rgctx_words.specs.Held.{Grows};
ghost use Rattle.rgctx_words.specs.Frames.{header_count, place_words, place_offset, most_words, most_frames};
ghost use Rattle.rgctx_template.specs.declared.catalogue.Catalogue.{Catalogue};
ghost use Rattle.rgctx_template.specs.Catalogue.{CatData, data_of};
ghost use Rattle.cil_meaning.specs.Naming.{put_type};
ghost use Rattle.cil_meaning.specs.Types.{is_bool, put_place, object_place, arguments_with, argument_places};
ghost use Rattle.rgctx_fill.specs.ThreadStates.{ImageData, image_of, now_doing};
ghost use Rattle.rgctx_fill.specs.Moves.{Span, span, IsMade};
ghost use Rattle.rgctx_fill.specs.Serving.{IsServable};
ghost use Rattle.rgctx_fill.specs.CallServices.{argument_width, argument_kept, count_in, with_kept, unboxed, is_struct_method, with_object_pointer, row_entered, takes_result, are_there, calls, calls_method, calls_entry, enters, calls_body, call_words, calls_interpreter, returns, argument_widths};
ghost use Rattle.crossings.specs.Calls.{IsBodyFrame, AreListed, AreWidths, most_places};
ghost use Rattle.interaction.specs.declared.turn.What.TheVariants as noted;
ghost use Rattle.store_object.specs.declared.request.Cause.TheVariants as cause;
ghost use Rattle.rgctx_fill.specs.declared.thread.Want.TheVariants as answers;
ghost use Rattle.rgctx_fill.specs.declared.doing.Doing.TheVariants.{Stops};
ghost use Rattle.rgctx_fill.specs.Nodes.{IsAdmittedMethod};
ghost use Rattle.rt_service.specs.Resuming.{resumed, entered_interpreted};

use crate::reading::{TreeRead, tree_at};
use crate::replying::{refuse, unread};
use crossings::{CallWords, Entered, Left, are_listed, enter, has_caller, leave, lies};
use il_model::{BodyRow, MethodDef, MethodTree, PType, Program, Shape};
use interaction::What;
use mn_outside::NoMemory;
use rgctx_fill::{Doing, Fits, FrameCount, ImageView, NodeTree, ThreadState, Want};
use rgctx_words::{Stack, Words, frame_address};
use sqlite_items::Items;
use std::alloc::Global;
use store_object::Cause;
use type_inst::{arguments_of, is_value, words_of};
use type_tree::{Head, TNode, Tree, subst_whole};

// Of the rows of a method that begin at this word the first.
fn row_entered(rows: &[BodyRow], method: u16, word: u64) -> Option<&BodyRow>
    ensures { option_copied result ≡ row_entered rows.now method word }
{
    rows.iter()
        .find(|row| row.method == method && u64::from(row.entry) == word)
}

// The types of a method's arguments, the object first, with the arguments of the method put.
fn argument_places(
    alloc: Global,
    program: &Program,
    method: &MethodTree,
    definition: &MethodDef,
) -> Result<Items<PType>, NoMemory>
    ensures { IfOk result (λ places. places ≡ argument_places program.now method.now definition.now) }
{
    let mut places = first_place(alloc, program, &method.class, definition.shape)?;
    for param in definition.params.as_slice() {
        let place = put_place(alloc, method, param)?;
        put(&mut places, place)?;
    }
    Ok(places)
}

// The object, where a method takes one.
fn first_place(
    alloc: Global,
    program: &Program,
    class: &Tree,
    shape: Shape,
) -> Result<Items<PType>, NoMemory>
    ensures { IfOk result (λ first. (params : List PType) → first ++ params ≡ arguments_with (takes_object shape) (object_place program.now class.now) params) }
{
    let mut first = Items::new(alloc);
    if takes_object(shape) {
        let object = object_place(alloc, program, class)?;
        put(&mut first, object)?;
        return Ok(first);
    }
    Ok(first)
}

fn put(places: &mut Items<PType>, place: PType) -> Result<(), NoMemory>
    ensures { OnOk result (places.new ≡ places.old ++ place ∷ []) }
{
    places.push(place).map_err(|_| NoMemory)
}

fn takes_object(shape: Shape) -> bool
    ensures { result ≡ takes_object shape }
{
    match shape {
        Shape::Fixed => false,
        Shape::Instance | Shape::Virtual | Shape::NewSlot | Shape::Abstract => true,
    }
}

// The object of a method: a struct's takes a pointer to it.
fn object_place(alloc: Global, program: &Program, class: &Tree) -> Result<PType, NoMemory>
    ensures { IfOk result (λ place. place ≡ object_place program.now class.now) }
{
    let own = class.copy(alloc)?;
    if is_value(program, class) {
        Ok(PType::Pointer(own))
    } else {
        Ok(PType::Value(own))
    }
}

// A type with the arguments of an instantiated method put.
fn put_type(alloc: Global, method: &MethodTree, kind: &Tree) -> Result<Tree, NoMemory>
    ensures { IfOk result (λ t. t ≡ put_type method.now kind.now) }
{
    subst_whole(
        alloc,
        kind,
        arguments_of(&method.class),
        method.args.as_slice(),
    )
}

fn put_place(alloc: Global, method: &MethodTree, place: &PType) -> Result<PType, NoMemory>
    ensures { IfOk result (λ p. p ≡ put_place method.now place.now) }
{
    match place {
        PType::Value(kind) => Ok(PType::Value(put_type(alloc, method, kind)?)),
        PType::Pointer(kind) => Ok(PType::Pointer(put_type(alloc, method, kind)?)),
        PType::Native => Ok(PType::Native),
    }
}

fn argument_width(alloc: Global, program: &Program, place: &PType) -> Result<u32, NoMemory>
    ensures { IfOk result (λ width. width ≡ argument_width program.now place.now) }
{
    match place {
        PType::Value(kind) => words_of(alloc, program, kind),
        PType::Pointer(_) | PType::Native => Ok(1),
    }
}

// The words of each argument.
fn argument_widths(alloc: Global, program: &Program, places: &[PType]) -> Result<Vec<u32>, NoMemory>
    ensures { IfOk result (λ widths. widths.items ≡ map (argument_width program.now) places.now) }
{
    let mut widths = Vec::new(alloc);
    for place in places {
        let width = argument_width(alloc, program, place)?;
        put_width(&mut widths, width)?;
    }
    Ok(widths)
}

fn put_width(widths: &mut Vec<u32>, width: u32) -> Result<(), NoMemory>
    ensures { OnOk result (widths.new.items ≡ widths.old.items ++ width ∷ []) }
{
    widths.push(width).map_err(|_| NoMemory)
}

fn is_bool(kind: &Tree) -> bool
    ensures { result ≡ is_bool kind.now }
{
    match kind.top() {
        TNode::Node(Head::Bool, _) => true,
        TNode::Node(Head::Int32 | Head::Int64 | Head::Vector | Head::Class(_), _) => false,
        TNode::ClassVar(_) | TNode::MethodVar(_) => false,
    }
}

// What an interpreted frame's place keeps of an argument's first word: of a bool the low eight bits.
fn argument_kept(place: &PType, word: u64) -> u64
    ensures { result ≡ argument_kept place.now word }
{
    match place {
        PType::Value(kind) => { if is_bool(kind) { word % 256 } else { word } }
        PType::Pointer(_) | PType::Native => word,
    }
}

// The arguments as the places of the frame that begins at an index keep them.
fn keep_arguments(stack: &mut Stack, base: u32, places: &[PType])
    requires few { length places.now ≤ 120 }
    requires room { base + (header_count + place_words * length places.now) ≤ length stack.old.words }
    requires within { length stack.old.words ≤ most_words * most_frames }
    ensures { stack.new ≡ with_kept base 0 places.now stack.old }
{
    for number in 0..places.len() {
        let index = base + 8 + 16 * number as u32;
        let word = stack.word(index);
        stack.put(index, argument_kept(&places[number], word));
    }
}

// An object's number, which only a box gives, becomes the pointer to the object's word 0.
fn unboxed(word: u64) -> u64
    ensures { result ≡ unboxed word }
{
    if 0 < word && word < 0x4000_0000 {
        0x4000_0000_0000_0000 + word * 0x100_0000
    } else {
        word
    }
}

fn is_struct_method(program: &Program, method: &MethodTree, definition: &MethodDef) -> bool
    ensures { result ≡ is_struct_method program.now method.now definition.now }
{
    takes_object(definition.shape) && is_value(program, &method.class)
}

// A struct's method has a pointer as its object.
fn point_to_object(stack: &mut Stack, base: u32, is_struct: bool)
    requires room { base + place_offset 0 < length stack.old.words }
    requires within { length stack.old.words ≤ most_words * most_frames }
    ensures { stack.new ≡ with_object_pointer is_struct base stack.old }
{
    if is_struct {
        let word = stack.word(base + 8);
        stack.put(base + 8, unboxed(word));
    }
}

// Whether the words of a result lie in the frames at its address.
fn takes_result(
    alloc: Global,
    program: &Program,
    stack: &Stack,
    address: u64,
    method: &MethodTree,
    gives: Option<&Tree>,
) -> Result<bool, NoMemory>
    ensures { IfOk result (λ takes. takes ≡ takes_result stack.now.words address program.now method.now (option_copied gives.entry)) }
{
    match gives {
        Some(kind) => {
            let own = put_type(alloc, method, kind)?;
            let words = words_of(alloc, program, &own)?;
            Ok(lies(stack, address, words))
        }
        None => Ok(true),
    }
}

// What the call hands over, which comes back to the code word behind the ECALL.
fn call_words(state: &ThreadState, node: u16, target: u64, list: u64) -> CallWords
    ensures { (im : ImageData) → result ≡ call_words im state.now node target list }
{
    CallWords {
        node,
        result: target,
        list,
        back: state.core.pc,
    }
}

// The frame at an address goes on, at a pc.
fn resume(state: &mut ThreadState, address: u64, pc: u64, doing: Doing)
    ensures { state.new ≡ resumed state.old address pc doing }
{
    state.core.x[8] = address;
    state.core.pc = pc;
    state.doing = doing;
}

// At the greatest number of frames the run is to stop.
fn stop_deep(state: &mut ThreadState) -> Want
    ensures said { result ≡ answers.Did noted.Action }
    ensures state { state.new ≡ now_doing state.old (Stops cause.Depth) }
{
    state.doing = Doing::Stops(Cause::Depth);
    Want::Did(What::Action)
}

// A body goes on, which copies its arguments itself; or the run is to stop.
fn call_body(
    state: &mut ThreadState,
    image: &ImageView,
    row: &BodyRow,
    node: u16,
    target: u64,
    list: u64,
) -> Result<Want, NoMemory>
    requires { IsBodyFrame row.now.frame }
    ensures { IfOk result (λ said. (cat : CatData) (h : Span) → h.relisted ≡ h.listed → IsMade cat h state.old (enters (image_of image.now) state.old node target list (calls_body (image_of image.now) state.old node target list row.now)) said state.new) }
{
    let call = call_words(state, node, target, list);
    let base = state.stack.end();
    match enter(&mut state.stack, &call, Some(row), 0, 0, &[])? {
        Entered::Machine(pc) => {
            resume(state, frame_address(base), pc, Doing::Runs);
            Ok(Want::Did(What::Action))
        }
        Entered::Deep => Ok(stop_deep(state)),
        Entered::Interp => unreachable!(),
    }
}

// The interpreter goes on, which finds its arguments in its places; or the run is to stop.
fn call_interpreter(
    alloc: Global,
    state: &mut ThreadState,
    image: &ImageView,
    method: &MethodTree,
    definition: &MethodDef,
    node: u16,
    target: u64,
    list: u64,
) -> Result<Want, NoMemory>
    requires image { IsServable (image_of image.now) }
    requires method { method_at image.now.cat.program.now method.now.method ≡ Some definition.now }
    requires body { is_some definition.now.body ≡ true }
    requires admitted { IsAdmittedMethod image.now.cat.program.now method.now }
    ensures { IfOk result (λ said. (cat : CatData) (h : Span) → h.relisted ≡ h.listed → IsMade cat h state.old (calls_entry (image_of image.now) state.old node target list 0 method.now definition.now) said state.new) }
{
    let program = image.cat.program;
    let places = argument_places(alloc, program, method, definition)?;
    let widths = argument_widths(alloc, program, places.as_slice())?;
    if !are_listed(&state.stack, list, widths.as_slice()) {
        return Ok(refuse(state));
    }
    let gives = definition.result.as_ref();
    let takes = takes_result(alloc, program, &state.stack, target, method, gives)?;
    if !takes {
        return Ok(refuse(state));
    }
    let is_struct = is_struct_method(program, method, definition);
    let count = count_of(image, method.method);
    let call = call_words(state, node, target, list);
    let want = enter_interpreter(
        state,
        &call,
        count,
        places.as_slice(),
        widths.as_slice(),
        is_struct,
    )?;
    Ok(want)
}

// The frame of an interpreted callee, whose arguments are listed.
fn enter_interpreter(
    state: &mut ThreadState,
    call: &CallWords,
    count: FrameCount,
    places: &[PType],
    widths: &[u32],
    is_struct: bool,
) -> Result<Want, NoMemory>
    requires few { length places.now ≤ count.places }
    requires places { count.places ≤ most_places }
    requires list { count.list ≤ most_places }
    requires widths { AreWidths widths.now count.places }
    requires listed { AreListed state.old.stack.words call.now.list widths.now }
    ensures said { IfOk result (λ said. said ≡ answers.Did noted.Action) }
    ensures state { OnOk result (state.new ≡ entered_interpreted state.old call.now count places.now widths.now is_struct) }
{
    let base = state.stack.end();
    match enter(
        &mut state.stack,
        call,
        None,
        count.places,
        count.list,
        widths,
    )? {
        Entered::Interp => {
            keep_arguments(&mut state.stack, base, places);
            point_to_object(&mut state.stack, base, is_struct);
            let pc = state.core.pc;
            resume(state, frame_address(base), pc, Doing::Interprets);
            Ok(Want::Did(What::Action))
        }
        Entered::Deep => Ok(stop_deep(state)),
        Entered::Machine(_) => unreachable!(),
    }
}

// The counts of a method's interpreted frame.
fn count_of(image: &ImageView, method: u16) -> FrameCount
    ensures { result ≡ count_in (slice_get image.now.frames.now method) }
{
    match image.frames.get(usize::from(method)) {
        Some(count) => *count,
        None => FrameCount { places: 0, list: 0 },
    }
}

// A method with a body is entered at a word, or interpreted where the word is 0.
fn call_method(
    alloc: Global,
    state: &mut ThreadState,
    image: &ImageView,
    method: &MethodTree,
    word: u64,
    node: u16,
    target: u64,
    list: u64,
) -> Result<Want, NoMemory>
    requires image { IsServable (image_of image.now) }
    requires admitted { IsAdmittedMethod image.now.cat.program.now method.now }
    ensures { IfOk result (λ said. (cat : CatData) (h : Span) → h.relisted ≡ h.listed → IsMade cat h state.old (calls_method (image_of image.now) state.old node target list word method.now (method_at image.now.cat.program.now method.now.method)) said state.new) }
{
    let methods = image.cat.program.methods.as_slice();
    let Some(definition) = methods.get(usize::from(method.method)) else {
        return Ok(refuse(state));
    };
    if definition.body.is_none() {
        return Ok(refuse(state));
    }
    if word == 0 {
        let want = call_interpreter(alloc, state, image, method, definition, node, target, list)?;
        return Ok(want);
    }
    match row_entered(image.cat.bodies.as_slice(), method.method, word) {
        Some(row) => {
            let want = call_body(state, image, row, node, target, list)?;
            Ok(want)
        }
        None => Ok(refuse(state)),
    }
}

// CALL: the Method value, the result's address, the address of the list.
pub(crate) fn call<W: Words<Fits>>(
    alloc: Global,
    state: &mut ThreadState,
    image: &ImageView,
    words: &mut W,
    value: u64,
    target: u64,
    list: u64,
) -> Result<Want, NoMemory>
    requires met { W.meets image.now.cat words.old }
    requires image { IsServable (image_of image.now) }
    ensures place { W.place words.new ≡ W.place words.old }
    ensures alone { W.alone words.new ≡ W.alone words.old }
    ensures grows { Grows (W.held words.old) (W.held words.new) }
    ensures met { (cat : Catalogue) → W.meets cat words.old → W.meets cat words.new }
    ensures turn { IfOk result (λ said. IsMade (data_of image.now.cat) (span (W.alone words.old) (W.held words.old) (W.held words.new) (W.claims words.old) (W.claims words.new)) state.old (calls (image_of image.now) state.old value target list) said state.new) }
{
    let number = value % 0x1_0000;
    match tree_at(alloc, &image.cat, words, number)? {
        TreeRead::Spells(NodeTree::Method(method)) => {
            let word = value / 0x1_0000;
            let node = number as u16;
            let want = call_method(alloc, state, image, &method, word, node, target, list)?;
            Ok(want)
        }
        TreeRead::Spells(NodeTree::Kind(_) | NodeTree::Other | NodeTree::Zero(_)) => Ok(refuse(
            state,
        )),
        TreeRead::Unread(node) => Ok(unread(node)),
        TreeRead::Refused => Ok(refuse(state)),
    }
}

// RETURN: the caller's frame goes on, or the thread finishes.
pub(crate) fn give_back(state: &mut ThreadState) -> Want
    ensures { (cat : CatData) (h : Span) → h.relisted ≡ h.listed → IsMade cat h state.old (returns state.old (length state.old.stack.bases)) result state.new }
{
    if !has_caller(&state.stack) {
        return refuse(state);
    }
    match leave(&mut state.stack) {
        Left::Machine(pc) => {
            let address = state.stack.current_address();
            resume(state, address, pc, Doing::Runs);
            Want::Did(What::Action)
        }
        Left::Interp => {
            let address = state.stack.current_address();
            let pc = state.core.pc;
            resume(state, address, pc, Doing::Interprets);
            Want::Did(What::Action)
        }
        Left::Last => {
            state.doing = Doing::Finishes;
            Want::Did(What::Action)
        }
    }
}
