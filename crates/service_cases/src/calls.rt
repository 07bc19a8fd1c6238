// The services CALL and RETURN, and the frames that they make and drop.
ghost use Rattle.std.specs.Prelude.{OnOk};
ghost use Rattle.rgctx_fill.specs.Serving.{IsServable};
ghost use Rattle.rgctx_fill.specs.ThreadStates.{image_of};
ghost use Rattle.service_cases.specs.Served.{Meets, IsReadyOn};

use crate::fills::fill_all;
use crate::images::{counts, image, opened, view};
use crate::turns::Turn::{Acts, Asks, Faults};
use crate::turns::{
    BEHIND, FIRST_FRAME, Who, ask, check_frames, check_state, check_turn, check_word, put, thread,
};
use crossings::{
    CallWords, Entered, Left, Stack, are_listed, are_widths, enter, has_caller, leave, lies,
};
use rgctx_fill::{ImageView, ThreadState};
use rgctx_words::PlainWords;
use rt_service::answer;
use std::alloc::Global;
use std::process::Abort;
use std::test::Fail;
use store_object::{Cause, Reply, Request};

// The Method values of `Keep` and `Set`, which are interpreted, and of `Run`, whose body is at code word 2.
const KEEP: u64 = 22;

const SET: u64 = 24;

const RUN: u64 = 0x2_0019;

// What the first frame has: an `S` at 0x40000040, a `bool` with more bits at 0x40000050, an object's number, a pointer;
// then three lists: an `S` and the bool; the object's number and the bool; the pointer and the bool.
#[rattlefmt::skip]
const WRITTEN: [(u32, u64); 12] = [
    (8, 11), (9, 12), (10, 0x1FF), (11, 5), (12, 0x4000_0040),
    (16, 0x4000_0040), (17, 0x4000_0050), (18, 0x4000_0058), (19, 0x4000_0050), (20, 0x4000_0060), (21, 0x4000_0050),
    (31, 99),
];

const RESULT: u64 = 0x4000_0070;

const OF_KEEP: u64 = 0x4000_0080;

const OF_BOX: u64 = 0x4000_0090;

const OF_POINTER: u64 = 0x4000_00A0;

// The second frame begins behind the 32 words of the first.
const SECOND_FRAME: u64 = 0x4000_0100;

// The frame of `Keep`: its header; the two words of the `S`; of the bool eight bits; zeros.
#[rattlefmt::skip]
const KEPT: [(u32, u64); 20] = [
    (31, 99), (32, FIRST_FRAME), (33, BEHIND), (34, 22), (35, RESULT), (36, 0), (37, 92), (38, 0), (39, 0),
    (40, 11), (41, 12), (42, 0), (55, 0), (56, 0xFF), (57, 0), (72, 0), (88, 0), (104, 0), (120, 0), (123, 0),
];

// The frame of `Set` of a box: the object's number is the pointer to its word 0.
#[rattlefmt::skip]
const BOXED: [(u32, u64); 6] = [
    (34, 24), (35, 0), (37, 92), (40, 0x4000_0000_0500_0000), (41, 0), (56, 0xFF),
];

// The frame of `Set` of a pointer, which is kept.
const POINTED: [(u32, u64); 4] = [(34, 24), (40, 0x4000_0040), (41, 0), (56, 0xFF)];

// The frame of the body of `Run`, which copies its arguments itself.
#[rattlefmt::skip]
const RAN: [(u32, u64); 8] = [
    (32, FIRST_FRAME), (33, BEHIND), (34, 25), (35, RESULT), (36, 0), (37, 8), (38, 0), (39, 0),
];

// A Method value, the result's address, the list's; how many words there are then, some of them, who goes on and where.
#[rattlefmt::skip]
const CALLS: [(u64, u64, u64, u32, &[(u32, u64)], Who, u64); 4] = [
    (KEEP, RESULT, OF_KEEP, 124, &KEPT, Who::Interprets, BEHIND),
    (SET, 0, OF_BOX, 124, &BOXED, Who::Interprets, BEHIND),
    (SET, 7, OF_POINTER, 124, &POINTED, Who::Interprets, BEHIND),
    (RUN, RESULT, 0, 40, &RAN, Who::Runs, 0x1_0008),
];

fn write(state: &mut ThreadState) {
    for (index, word) in WRITTEN {
        put(state, index, word);
    }
}

fn check_memory(rt: &impl Abort, state: &ThreadState, expected: &[(u32, u64)]) {
    for (index, word) in expected {
        check_word(rt, state, *index, *word);
    }
}

// Calls, and returns.
fn check_calls(
    rt: &impl Abort,
    alloc: Global,
    state: &mut ThreadState,
    view: &ImageView,
    words: &mut PlainWords,
) -> Result<(), Fail>
    requires image { IsServable (image_of view.now) }
    requires met { Meets view.now.cat words.old }
    ensures { Meets view.now.cat words.new }
{
    for (value, result, list, end, memory, goes, pc) in CALLS {
        ask(state, 1, value, result, list);
        check_turn(rt, alloc, state, view, words, Acts)?;
        check_state(rt, state, goes, pc, SECOND_FRAME, value);
        check_frames(rt, state, 2, end);
        check_memory(rt, state, memory);
        ask(state, 2, 7, 0, 0);
        check_turn(rt, alloc, state, view, words, Acts)?;
        check_state(rt, state, Who::Runs, BEHIND, FIRST_FRAME, 7);
        check_frames(rt, state, 1, 32);
        check_memory(rt, state, &WRITTEN);
    }
    Ok(())
}

// A callee of an interpreted frame returns to the interpreter; words that name no frame are refused.
fn check_returns(
    rt: &impl Abort,
    alloc: Global,
    state: &mut ThreadState,
    view: &ImageView,
    words: &mut PlainWords,
) -> Result<(), Fail>
    requires image { IsServable (image_of view.now) }
    requires met { Meets view.now.cat words.old }
    ensures { Meets view.now.cat words.new }
{
    ask(state, 1, RUN, 0, 0);
    check_turn(rt, alloc, state, view, words, Acts)?;
    for caller in [0, SECOND_FRAME, 0x4000_0008, 0x4000_0001] {
        put(state, 32, caller);
        ask(state, 2, 7, 0, 0);
        check_turn(rt, alloc, state, view, words, Faults)?;
        check_frames(rt, state, 2, 40);
    }
    put(state, 32, FIRST_FRAME);
    put(state, 33, 0);
    ask(state, 2, 7, 0, 0);
    check_turn(rt, alloc, state, view, words, Acts)?;
    check_state(rt, state, Who::Interprets, BEHIND, FIRST_FRAME, 7);
    check_frames(rt, state, 1, 32);
    Ok(())
}

// With 1,024 frames a call stops the run, whoever is called, and makes no frame.
fn check_depth(
    rt: &impl Abort,
    alloc: Global,
    state: &mut ThreadState,
    view: &ImageView,
    words: &mut PlainWords,
) -> Result<(), Fail>
    requires image { IsServable (image_of view.now) }
    requires met { Meets view.now.cat words.old }
{
    for _ in 1..1_024 {
        ask(state, 1, RUN, 0, 0);
        check_turn(rt, alloc, state, view, words, Acts)?;
    }
    // 32 + 1,023 * 8 words
    check_frames(rt, state, 1_024, 8_216);
    for value in [RUN, SET] {
        ask(state, 1, value, 0, OF_BOX);
        check_turn(rt, alloc, state, view, words, Acts)?;
        check_state(rt, state, Who::Stops, BEHIND, 0x4001_0080, value);
        let stop = Request::Stop {
            cause: Cause::Depth,
        };
        check_turn(rt, alloc, state, view, words, Asks(stop))?;
        check_frames(rt, state, 1_024, 8_216);
        answer(state, Reply::Stopped(Cause::Depth));
        check_state(rt, state, Who::Ended, BEHIND, 0x4001_0080, value);
    }
    Ok(())
}

fn check_frames_of_calls(rt: &impl Abort, alloc: Global, view: &ImageView) -> Result<(), Fail>
    requires { IsServable (image_of view.now) }
{
    let mut words = opened(alloc, view)?;
    let mut state = thread(alloc)?;
    fill_all(rt, alloc, &mut state, view, &mut words)?;
    write(&mut state);
    check_calls(rt, alloc, &mut state, view, &mut words)?;
    check_returns(rt, alloc, &mut state, view, &mut words)?;
    check_depth(rt, alloc, &mut state, view, &mut words)
}

#[test]
fn calls_make_frames_and_returns_drop_them(rt: HostRuntime) -> Result<(), Fail> {
    let alloc = rt.alloc();
    let image = image(alloc, 2)?;
    let counts = counts(alloc, &image)?;
    let view = view(&image, counts.as_slice())?;
    check_frames_of_calls(&rt, alloc, &view)
}

// A thread without frames has nobody to return to.
fn check_no_frame(rt: &impl Abort, alloc: Global, view: &ImageView) -> Result<(), Fail>
    requires { IsServable (image_of view.now) }
{
    let mut words = opened(alloc, view)?;
    let mut state = thread(alloc)?;
    state.stack = Stack::new(alloc)?;
    ask(&mut state, 2, 7, 0, 0);
    check_turn(rt, alloc, &mut state, view, &mut words, Faults)
}

#[test]
fn without_a_frame_nobody_returns(rt: HostRuntime) -> Result<(), Fail> {
    let alloc = rt.alloc();
    let image = image(alloc, 2)?;
    let counts = counts(alloc, &image)?;
    let view = view(&image, counts.as_slice())?;
    check_no_frame(&rt, alloc, &view)
}

// The first frame of a run, interpreted, with one place and a list of two.
const FIRST: CallWords = CallWords {
    node: 20,
    result: 0,
    list: 0,
    back: 0,
};

// Its words: 8 to 23 are the place, 40 and 41 the list.
#[test]
fn crossings_move_words(rt: HostRuntime) -> Result<(), Fail> {
    let mut stack = Stack::new(rt.alloc())?;
    assert_eq!(rt; has_caller(&stack), false);
    let entered = enter(&mut stack, &FIRST, None, 1, 2, &[])?;
    assert_eq!(rt; entered, Entered::Interp);
    assert_eq!(rt; [stack.depth(), stack.end()], [1, 42]);
    assert!(rt; stack.end() > 41);
    stack.put(8, 11);
    stack.put(40, 0x4000_0040);
    assert!(rt; lies(&stack, 0x4000_0040, 34));
    assert!(rt; !lies(&stack, 0x4000_0040, 35));
    assert!(rt; are_widths(&[16], 1));
    assert!(rt; !are_widths(&[17], 1));
    assert!(rt; !are_widths(&[1, 1], 1));
    assert!(rt; are_listed(&stack, 0x4000_0140, &[2]));
    assert!(rt; !are_listed(&stack, 0x4000_0140, &[2, 1]));
    assert!(rt; has_caller(&stack));
    assert_eq!(rt; leave(&mut stack), Left::Last);
    assert_eq!(rt; stack.depth(), 1);
    Ok(())
}
