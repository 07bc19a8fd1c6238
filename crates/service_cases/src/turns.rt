// A thread that asks for services, and its turns.
ghost use Rattle.std.specs.Prelude.{◌≡◌, OnOk};
ghost use Rattle.rgctx_fill.specs.declared.doing.Doing.TheVariants.{Serves};
ghost use Rattle.rgctx_fill.specs.Serving.{IsServable};
ghost use Rattle.rgctx_fill.specs.ThreadStates.{image_of};
ghost use Rattle.service_cases.specs.Served.{Meets, IsReadyOn, is_serving};

use interaction::What;
use mn_outside::{FaultCause, MachineFault};
use rgctx_fill::{Doing, ImageView, ThreadState, Want};
use rgctx_words::{NewFrame, PlainWords, Stack};
use rt_service::serve;
use rv_machine::Core;
use std::alloc::Global;
use std::process::Abort;
use std::test::Fail;
use store_object::Request;

// The address of the ECALL.
const ECALL: u64 = 0x1_0020;

/// The address of the code word behind the ECALL.
pub(crate) const BEHIND: u64 = 0x1_0024;

/// The address of the first frame.
pub(crate) const FIRST_FRAME: u64 = 0x4000_0000;

/// What the next turn is: an action, the load of a word, a request, or the fault Service with the number in x17.
#[derive(Clone, Copy)]
pub(crate) enum Turn {
    Acts,
    Loads(u32),
    Asks(Request),
    Faults,
}

/// Who goes on behind a turn.
#[derive(Clone, Copy, Debug, PartialEq, Eq)]
pub(crate) enum Who {
    Runs,
    Serves,
    Fills,
    Interprets,
    Throws(u64, u32),
    Searches(u64, u32),
    Refuses,
    Stops,
    Finishes,
    Ended,
}

/// A thread at an ECALL of the entry point's body, whose frame has 32 words.
pub(crate) fn thread(alloc: Global) -> Result<ThreadState, Fail> {
    let mut stack = Stack::new(alloc)?;
    stack.enter(&NewFrame {
        back: 0,
        node: 20,
        target: 0,
        words: 32,
    })?;
    let mut x = [0; 32];
    x[8] = FIRST_FRAME;
    Ok(ThreadState {
        core: Core { pc: BEHIND, x },
        stack,
        doing: Doing::Runs,
    })
}

/// The thread has come to an ECALL, with these words in x17 and x10 to x12.
pub(crate) fn ask(state: &mut ThreadState, service: u64, first: u64, second: u64, third: u64)
    ensures { state.new.doing ≡ Serves }
{
    state.core.pc = BEHIND;
    state.core.x[17] = service;
    state.core.x[10] = first;
    state.core.x[11] = second;
    state.core.x[12] = third;
    state.doing = Doing::Serves;
}

// Whether a service goes on.
fn is_serving(doing: &Doing) -> bool
    ensures { result ≡ is_serving doing.now }
{
    match doing {
        Doing::Serves | Doing::Fills(_) | Doing::Throws(_) | Doing::Refuses => true,
        Doing::Stops(_) | Doing::Finishes => true,
        Doing::Runs | Doing::Interprets | Doing::Searches(_) | Doing::Ended => false,
    }
}

/// The next turn of the service that goes on.
pub(crate) fn make_turn(
    alloc: Global,
    state: &mut ThreadState,
    view: &ImageView,
    words: &mut PlainWords,
) -> Result<Want, Fail>
    requires image { IsServable (image_of view.now) }
    requires met { Meets view.now.cat words.old }
    requires ready { IsReadyOn view.now.cat words.old state.old.doing }
    ensures met { Meets view.now.cat words.new }
    ensures ready { OnOk result (IsReadyOn view.now.cat words.new state.new.doing) }
{
    if !is_serving(&state.doing) {
        return Err(Fail::new("no service goes on"));
    }
    let want = serve(alloc, state, view, words)?;
    Ok(want)
}

// What a turn is answered as, in the service with a number.
fn wanted(turn: Turn, service: u64) -> Want {
    match turn {
        Turn::Acts => Want::Did(What::Action),
        Turn::Loads(index) => Want::Did(What::Load(index)),
        Turn::Asks(request) => Want::Ask(request),
        Turn::Faults => Want::Fault(MachineFault {
            pc: ECALL,
            cause: FaultCause::Service(service),
        }),
    }
}

/// Tries that the next turn is this one.
pub(crate) fn check_turn(
    rt: &impl Abort,
    alloc: Global,
    state: &mut ThreadState,
    view: &ImageView,
    words: &mut PlainWords,
    expected: Turn,
) -> Result<(), Fail>
    requires image { IsServable (image_of view.now) }
    requires met { Meets view.now.cat words.old }
    requires ready { IsReadyOn view.now.cat words.old state.old.doing }
    ensures met { Meets view.now.cat words.new }
    ensures ready { OnOk result (IsReadyOn view.now.cat words.new state.new.doing) }
{
    let expected = wanted(expected, state.core.x[17]);
    let want = make_turn(alloc, state, view, words)?;
    assert_eq!(rt; want, expected);
    Ok(())
}

fn who_goes(doing: &Doing) -> Who {
    match doing {
        Doing::Runs => Who::Runs,
        Doing::Serves => Who::Serves,
        Doing::Fills(_) => Who::Fills,
        Doing::Interprets => Who::Interprets,
        Doing::Throws(thrown) => Who::Throws(thrown.word, thrown.kind),
        Doing::Searches(thrown) => Who::Searches(thrown.word, thrown.kind),
        Doing::Refuses => Who::Refuses,
        Doing::Stops(_) => Who::Stops,
        Doing::Finishes => Who::Finishes,
        Doing::Ended => Who::Ended,
    }
}

/// Tries who goes on, at which pc, and the words in x8 and x10.
pub(crate) fn check_state(
    rt: &impl Abort,
    state: &ThreadState,
    goes: Who,
    pc: u64,
    x8: u64,
    x10: u64,
) {
    assert_eq!(rt; who_goes(&state.doing), goes);
    assert_eq!(rt;
        [state.core.pc, state.core.x[8], state.core.x[10]],
        [pc, x8, x10]
    );
}

/// Writes a word of the frames.
pub(crate) fn put(state: &mut ThreadState, index: u32, word: u64)
    ensures { state.new.doing ≡ state.old.doing }
{
    if index < state.stack.end() {
        state.stack.put(index, word);
    }
}

/// Tries a word of the frames.
pub(crate) fn check_word(rt: &impl Abort, state: &ThreadState, index: u32, word: u64) {
    assert!(rt; index < state.stack.end());
    assert_eq!(rt; state.stack.word(index), word);
}

/// Tries how many frames there are, and how many words they have together.
pub(crate) fn check_frames(rt: &impl Abort, state: &ThreadState, depth: u32, end: u32) {
    assert_eq!(rt; [state.stack.depth(), state.stack.end()], [depth, end]);
}
