// What a thread becomes by the reply to its request.
ghost use Rattle.rgctx_fill.specs.Serving.{IsServable};
ghost use Rattle.rgctx_fill.specs.ThreadStates.{image_of};
ghost use Rattle.service_cases.specs.Served.{Meets};

use crate::images::{counts, image, opened, view};
use crate::turns::Turn::{Acts, Asks, Faults};
use crate::turns::{BEHIND, FIRST_FRAME, Turn, Who, ask, check_state, check_turn, thread};
use rgctx_fill::{ImageView, ThreadState};
use rgctx_words::PlainWords;
use rt_service::answer;
use std::alloc::Global;
use std::process::Abort;
use std::test::Fail;
use store_object::Place::{Fixed, Object};
use store_object::Request::{
    Add, Alloc, CompareExchange, Ended, Exchange, Finish, Length, Load, Print, Save, Start, TypeOf,
};
use store_object::{Cause, Form, Reply, Request};

const PLACE: u64 = 0x4000_0000_0500_0003;

const STATIC: u64 = 0x8000_0000_1200_0001;

// x17, x10, x11 and x12; the request; the reply; x10 behind it, and who goes on.
#[rattlefmt::skip]
const REPLIES: [(u64, u64, u64, u64, Request, Reply, u64, Who); 28] = [
    (3, 12, 0, 0, Alloc { kind: 12, length: 0, words: 0 }, Reply::Object(4), 12, Who::Throws(4, 12)),
    (3, 12, 0, 0, Alloc { kind: 12, length: 0, words: 0 }, Reply::Stopped(Cause::Heap), 12, Who::Ended),
    (3, 12, 0, 0, Alloc { kind: 12, length: 0, words: 0 }, Reply::Halted, 12, Who::Serves),
    (4, 0, 0, 0, Alloc { kind: 12, length: 0, words: 0 }, Reply::Object(4), 0, Who::Throws(4, 12)),
    (4, 5, 0, 0, TypeOf { object: 5 }, Reply::Kind(9), 5, Who::Throws(5, 9)),
    (4, 5, 0, 0, TypeOf { object: 5 }, Reply::Improper, 5, Who::Refuses),
    (16, 18, 2, 1, Alloc { kind: 18, length: 2, words: 1 }, Reply::Object(7), 7, Who::Runs),
    (16, 18, 2, 1, Alloc { kind: 18, length: 2, words: 1 }, Reply::Stopped(Cause::Heap), 18, Who::Ended),
    (17, 5, 0, 0, TypeOf { object: 5 }, Reply::Kind(18), 18, Who::Runs),
    (17, 5, 0, 0, TypeOf { object: 5 }, Reply::Improper, 5, Who::Refuses),
    (18, 5, 0, 0, Length { object: 5 }, Reply::Word(3), 3, Who::Runs),
    (19, PLACE, 0, 0, Load { place: Object { object: 5, index: 3 } }, Reply::Word(0xFFFF_FFFF_FFFF_FFFF), 0xFFFF_FFFF_FFFF_FFFF, Who::Runs),
    (19, PLACE, 0, 0, Load { place: Object { object: 5, index: 3 } }, Reply::Halted, PLACE, Who::Serves),
    (19, STATIC, 0, 0, Load { place: Fixed { kind: 18, index: 1 } }, Reply::Improper, STATIC, Who::Refuses),
    (20, PLACE, 9, 0, Save { place: Object { object: 5, index: 3 }, word: 9 }, Reply::Done, PLACE, Who::Runs),
    (20, STATIC, 9, 0, Save { place: Fixed { kind: 18, index: 1 }, word: 9 }, Reply::Improper, STATIC, Who::Refuses),
    (21, PLACE, 9, 0, Exchange { place: Object { object: 5, index: 3 }, word: 9 }, Reply::Word(8), 8, Who::Runs),
    (22, PLACE, 9, 8, CompareExchange { place: Object { object: 5, index: 3 }, word: 9, comparand: 8 }, Reply::Word(8), 8, Who::Runs),
    (23, PLACE, 9, 64, Add { place: Object { object: 5, index: 3 }, word: 9, narrow: false }, Reply::Word(17), 17, Who::Runs),
    (24, 5, 0, 0, Print { form: Form::Number, word: 5 }, Reply::Done, 5, Who::Runs),
    (24, 0, 1, 0, Print { form: Form::String, word: 0 }, Reply::Halted, 0, Who::Serves),
    (25, 5, 0, 0, Start { object: 5 }, Reply::Thread(2), 2, Who::Runs),
    (25, 5, 0, 0, Start { object: 5 }, Reply::Stopped(Cause::Threads), 5, Who::Ended),
    (25, 5, 0, 0, Start { object: 5 }, Reply::Improper, 5, Who::Refuses),
    (26, 0x7_0000_0003, 0, 0, Ended { thread: 3 }, Reply::Ended(false), 0, Who::Runs),
    (26, 3, 0, 0, Ended { thread: 3 }, Reply::Ended(true), 1, Who::Runs),
    (26, 3, 0, 0, Ended { thread: 3 }, Reply::Unknown, 2, Who::Runs),
    (26, 3, 0, 0, Ended { thread: 3 }, Reply::Halted, 3, Who::Serves),
];

// What comes behind the reply: the search, or the fault at the ECALL.
#[rattlefmt::skip]
const NEXT: [(u64, u64, Reply, Turn, Who); 5] = [
    (3, 7, Reply::Object(4), Acts, Who::Searches(4, 7)),
    (4, 0, Reply::Object(4), Acts, Who::Searches(4, 12)),
    (4, 5, Reply::Kind(9), Acts, Who::Searches(5, 9)),
    (4, 5, Reply::Improper, Faults, Who::Refuses),
    (19, PLACE, Reply::Improper, Faults, Who::Refuses),
];

// Strings are thrown by one action.
const THROWN: [u64; 2] = [0x1_0000_0000, 0x2_0000_0012];

fn check_replies(
    rt: &impl Abort,
    alloc: Global,
    state: &mut ThreadState,
    view: &ImageView,
    words: &mut PlainWords,
) -> Result<(), Fail>
    requires image { IsServable (image_of view.now) }
    requires met { Meets view.now.cat words.old }
    ensures { Meets view.now.cat words.new }
{
    for (service, first, second, third, request, reply, given, goes) in REPLIES {
        ask(state, service, first, second, third);
        check_turn(rt, alloc, state, view, words, Asks(request))?;
        check_state(rt, state, Who::Serves, BEHIND, FIRST_FRAME, first);
        answer(state, reply);
        check_state(rt, state, goes, BEHIND, FIRST_FRAME, given);
    }
    Ok(())
}

fn check_next(
    rt: &impl Abort,
    alloc: Global,
    state: &mut ThreadState,
    view: &ImageView,
    words: &mut PlainWords,
) -> Result<(), Fail>
    requires image { IsServable (image_of view.now) }
    requires met { Meets view.now.cat words.old }
    ensures { Meets view.now.cat words.new }
{
    for (service, first, reply, expected, goes) in NEXT {
        ask(state, service, first, 0, 0);
        answer(state, reply);
        check_turn(rt, alloc, state, view, words, expected)?;
        check_state(rt, state, goes, BEHIND, FIRST_FRAME, first);
    }
    Ok(())
}

fn check_thrown(
    rt: &impl Abort,
    alloc: Global,
    state: &mut ThreadState,
    view: &ImageView,
    words: &mut PlainWords,
) -> Result<(), Fail>
    requires image { IsServable (image_of view.now) }
    requires met { Meets view.now.cat words.old }
    ensures { Meets view.now.cat words.new }
{
    for word in THROWN {
        ask(state, 4, word, 0, 0);
        check_turn(rt, alloc, state, view, words, Acts)?;
        check_state(rt, state, Who::Searches(word, 6), BEHIND, FIRST_FRAME, word);
    }
    Ok(())
}

// The first frame returns: the thread asks to finish, and has ended with the reply.
fn check_finish(
    rt: &impl Abort,
    alloc: Global,
    state: &mut ThreadState,
    view: &ImageView,
    words: &mut PlainWords,
) -> Result<(), Fail>
    requires image { IsServable (image_of view.now) }
    requires met { Meets view.now.cat words.old }
{
    ask(state, 2, 7, 0, 0);
    check_turn(rt, alloc, state, view, words, Acts)?;
    check_state(rt, state, Who::Finishes, BEHIND, FIRST_FRAME, 7);
    check_turn(rt, alloc, state, view, words, Asks(Finish))?;
    check_state(rt, state, Who::Finishes, BEHIND, FIRST_FRAME, 7);
    answer(state, Reply::Done);
    check_state(rt, state, Who::Ended, BEHIND, FIRST_FRAME, 7);
    Ok(())
}

fn check_answers(rt: &impl Abort, alloc: Global, view: &ImageView) -> Result<(), Fail>
    requires { IsServable (image_of view.now) }
{
    let mut words = opened(alloc, view)?;
    let mut state = thread(alloc)?;
    check_replies(rt, alloc, &mut state, view, &mut words)?;
    check_next(rt, alloc, &mut state, view, &mut words)?;
    check_thrown(rt, alloc, &mut state, view, &mut words)?;
    check_finish(rt, alloc, &mut state, view, &mut words)
}

#[test]
fn replies_say_how_a_thread_goes_on(rt: HostRuntime) -> Result<(), Fail> {
    let alloc = rt.alloc();
    let image = image(alloc, 2)?;
    let counts = counts(alloc, &image)?;
    let view = view(&image, counts.as_slice())?;
    check_answers(&rt, alloc, &view)
}
