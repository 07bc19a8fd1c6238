// The service FILL, turn by turn.
ghost use Rattle.std.specs.Prelude.{OnOk};
ghost use Rattle.rgctx_fill.specs.Serving.{IsServable};
ghost use Rattle.rgctx_fill.specs.ThreadStates.{image_of};
ghost use Rattle.service_cases.specs.Served.{Meets, IsReadyOn};

use crate::images::{counts, image, opened, view};
use crate::turns::Turn::{Acts, Asks};
use crate::turns::{BEHIND, FIRST_FRAME, Who, ask, check_state, check_turn, make_turn, thread};
use interaction::What;
use rgctx_fill::{Doing, ImageView, ThreadState, Want};
use rgctx_words::PlainWords;
use rt_service::answer;
use std::alloc::Global;
use std::process::Abort;
use std::test::Fail;
use store_object::{Cause, Reply, Request};

// Node and entry, one after the other; the value; the loads and the claims behind the action. Each node that the value
// needs is looked for from word 1 on, and each row that lacks from the directory's first word on; the root and each
// link is one load, and the entry one claim, also where it is there.
#[rattlefmt::skip]
const FILLS: [(u64, u64, u64, u32, u32); 9] = [
    // `int32[]`: node 2, node 21 and its claim, the root, the directory and its claim, the root's, the entry's
    (1, 0, 21, 25, 4),
    (1, 0, 21, 24, 1),
    // `Keep`, which is interpreted: node 18, node 22 and its claim, the root, the entry's claim
    (1, 1, 22, 41, 2),
    // `Set`: node 23 and its claim, node 24 and its claim, the root, the entry's claim
    (1, 2, 24, 48, 3),
    // a size and an extent need no node
    (1, 3, 4, 1, 1),
    (1, 6, 1, 1, 1),
    // an offset in the row of depth 1: the root, the link, two words of the directory; the row's claim, the link's, the entry's
    (1, 7, 2, 4, 3),
    // slots 0 and 1 of `P`, both with `Run`, whose body is at code word 2: node 18, node 25, the root; a row at first
    (18, 0, 0x2_0019, 47, 4),
    (18, 1, 0x2_0019, 44, 1),
];

// Context words afterwards.
#[rattlefmt::skip]
const WORDS: [(usize, u64); 31] = [
    (20, 0x800D_0012_0000_0000),
    (21, 0x0004_0002_0000_0000),
    (22, 0x800E_0012_0000_0000),
    (23, 0x001E_0000_0000_0000),
    (24, 0x800F_0017_0000_0000),
    (25, 0x800C_0012_0000_0000),
    (26, 0),
    // the directory
    (4_096, 256), (4_097, 257), (4_098, 4_608), (4_099, 0),
    // the roots of nodes 1 and 18
    (12_289, 0x2002_0000), (12_306, 0x2002_0080),
    // the rows
    (16_384, 0x2002_0040), (16_385, 21), (16_386, 22), (16_387, 24), (16_388, 4), (16_389, 0), (16_390, 0), (16_391, 1),
    (16_392, 0), (16_393, 2), (16_394, 0),
    (16_400, 0), (16_401, 0x2_0019), (16_402, 0x2_0019), (16_403, 0), (16_407, 0), (16_408, 0), (81_919, 0),
];

// The loads and the claims that a fill makes before code goes on.
fn noted(
    alloc: Global,
    state: &mut ThreadState,
    view: &ImageView,
    words: &mut PlainWords,
) -> Result<[u32; 2], Fail>
    requires image { IsServable (image_of view.now) }
    requires met { Meets view.now.cat words.old }
    requires ready { IsReadyOn view.now.cat words.old state.old.doing }
    ensures met { Meets view.now.cat words.new }
    ensures ready { OnOk result (IsReadyOn view.now.cat words.new state.new.doing) }
{
    let mut noted = [0, 0];
    for _ in 0..1_000 {
        if !matches!(state.doing, Doing::Fills(_)) {
            return Ok(noted);
        }
        let want = make_turn(alloc, state, view, words)?;
        note(&mut noted, want)?;
    }
    Err(Fail::new("too many turns"))
}

// Counts a turn of a fill.
fn note(noted: &mut [u32; 2], want: Want) -> Result<(), Fail> {
    let place = match want {
        Want::Did(What::Load(_)) => 0,
        Want::Did(What::Claim(_)) => 1,
        _ => return Err(Fail::new("no turn of a fill")),
    };
    noted[place] = noted[place].checked_add(1).ok_or("few turns")?;
    Ok(())
}

// Fills an entry of a node, and tries its turns.
fn check_fill(
    rt: &impl Abort,
    alloc: Global,
    state: &mut ThreadState,
    view: &ImageView,
    words: &mut PlainWords,
    fill: (u64, u64, u64, u32, u32),
) -> Result<(), Fail>
    requires image { IsServable (image_of view.now) }
    requires met { Meets view.now.cat words.old }
    ensures { Meets view.now.cat words.new }
{
    let (node, entry, value, loads, claims) = fill;
    ask(state, 5, node, entry, 7);
    check_turn(rt, alloc, state, view, words, Acts)?;
    check_state(rt, state, Who::Fills, BEHIND, FIRST_FRAME, node);
    let noted = noted(alloc, state, view, words)?;
    assert_eq!(rt; noted, [loads, claims]);
    check_state(rt, state, Who::Runs, BEHIND, FIRST_FRAME, value);
    Ok(())
}

/// Fills all entries of the table.
pub(crate) fn fill_all(
    rt: &impl Abort,
    alloc: Global,
    state: &mut ThreadState,
    view: &ImageView,
    words: &mut PlainWords,
) -> Result<(), Fail>
    requires image { IsServable (image_of view.now) }
    requires met { Meets view.now.cat words.old }
    ensures { Meets view.now.cat words.new }
{
    for fill in FILLS {
        check_fill(rt, alloc, state, view, words, fill)?;
    }
    Ok(())
}

// A fill of an entry that is not admitted stops the run at the limit, and claims nothing.
fn check_refused(
    rt: &impl Abort,
    alloc: Global,
    state: &mut ThreadState,
    view: &ImageView,
    words: &mut PlainWords,
    entry: u64,
    cause: Cause,
) -> Result<(), Fail>
    requires image { IsServable (image_of view.now) }
    requires met { Meets view.now.cat words.old }
    ensures { Meets view.now.cat words.new }
{
    ask(state, 5, 1, entry, 0);
    check_turn(rt, alloc, state, view, words, Acts)?;
    check_state(rt, state, Who::Stops, BEHIND, FIRST_FRAME, 1);
    check_turn(rt, alloc, state, view, words, Asks(Request::Stop { cause }))?;
    check_state(rt, state, Who::Stops, BEHIND, FIRST_FRAME, 1);
    answer(state, Reply::Stopped(cause));
    check_state(rt, state, Who::Ended, BEHIND, FIRST_FRAME, 1);
    Ok(())
}

fn check_words(rt: &impl Abort, words: &PlainWords) {
    let words = words.words();
    for (index, word) in WORDS {
        assert_eq!(rt; words.get(index), Some(&word));
    }
}

fn check_fills(rt: &impl Abort, alloc: Global, view: &ImageView) -> Result<(), Fail>
    requires { IsServable (image_of view.now) }
{
    let mut words = opened(alloc, view)?;
    let mut state = thread(alloc)?;
    fill_all(rt, alloc, &mut state, view, &mut words)?;
    check_words(rt, &words);
    Ok(())
}

#[test]
fn a_fill_takes_a_turn_for_each_load_and_claim(rt: HostRuntime) -> Result<(), Fail> {
    let alloc = rt.alloc();
    let image = image(alloc, 2)?;
    let counts = counts(alloc, &image)?;
    let view = view(&image, counts.as_slice())?;
    check_fills(&rt, alloc, &view)
}

fn check_limits(rt: &impl Abort, alloc: Global, view: &ImageView) -> Result<(), Fail>
    requires { IsServable (image_of view.now) }
{
    let mut words = opened(alloc, view)?;
    let mut state = thread(alloc)?;
    check_refused(
        rt,
        alloc,
        &mut state,
        view,
        &mut words,
        4,
        Cause::ValueWords,
    )?;
    check_refused(rt, alloc, &mut state, view, &mut words, 5, Cause::Positions)?;
    assert_eq!(rt; words.words().get(21), Some(&0));
    Ok(())
}

// A value of 17 words, and a type of 257 positions: one more than there may be.
#[test]
fn a_refused_fill_stops_at_its_limit(rt: HostRuntime) -> Result<(), Fail> {
    let alloc = rt.alloc();
    let image = image(alloc, 256)?;
    let counts = counts(alloc, &image)?;
    let view = view(&image, counts.as_slice())?;
    check_limits(&rt, alloc, &view)
}
