// The first turn of each service, by the words in its registers.
ghost use Rattle.rgctx_fill.specs.Serving.{IsServable};
ghost use Rattle.rgctx_fill.specs.ThreadStates.{image_of};
ghost use Rattle.service_cases.specs.Served.{Meets};

use crate::fills::fill_all;
use crate::images::{counts, image, opened, view};
use crate::turns::Turn::{Acts, Asks, Faults, Loads};
use crate::turns::{
    BEHIND, FIRST_FRAME, Turn, Who, ask, check_state, check_turn, check_word, put, thread,
};
use rgctx_fill::{ImageView, ThreadState};
use rgctx_words::PlainWords;
use std::alloc::Global;
use std::process::Abort;
use std::test::Fail;
use store_object::Form;
use store_object::Place::{Fixed, Object};
use store_object::Request::{
    Add, Alloc, CompareExchange, Ended, Exchange, Length, Load, Print, Save, Start, TypeOf,
};

// x17, x10, x11 and x12; the turn; x10 behind it. Nodes 1 to 20 are the leaves, 18 is `P`, 20 `Main`. 21 is `int32[]`,
// 22 `P::Keep`, 23 `S`, 24 `S::Set`, 25 `P::Run`, and 26 is not in use. There is one literal. The frame has 32 words, and
// from 0x40000060 on it lists two arguments of `Keep`.
#[rattlefmt::skip]
const ROWS: [(u64, u64, u64, u64, Turn, u64); 171] = [
    // numbers that no service has
    (0, 7, 7, 7, Faults, 7),
    (9, 7, 7, 7, Faults, 7),
    (15, 7, 7, 7, Faults, 7),
    (27, 7, 7, 7, Faults, 7),
    (99, 7, 7, 7, Faults, 7),
    (0x1_0000_0010, 7, 7, 7, Faults, 7),
    (0x8000_0000_0000_0000, 7, 7, 7, Faults, 7),
    // CALL: what is no Method value; at 20 and 25 another body's entry word
    (1, 0, 0, 0, Faults, 0),
    (1, 0x1_0000, 0, 0, Faults, 0x1_0000),
    (1, 0x1_1000, 0, 0, Faults, 0x1_1000),
    (1, 1, 0, 0, Faults, 1),
    (1, 18, 0, 0, Faults, 18),
    (1, 0x1_0012, 0, 0, Faults, 0x1_0012),
    (1, 0x2_0014, 0, 0, Faults, 0x2_0014),
    (1, 0x3_0014, 0, 0, Faults, 0x3_0014),
    (1, 0x1_0019, 0, 0, Faults, 0x1_0019),
    (1, 0x1_0000_0001_0014, 0, 0, Faults, 0x1_0000_0001_0014),
    (1, 0xFFFF_FFFF_FFFF_0014, 0, 0, Faults, 0xFFFF_FFFF_FFFF_0014),
    (1, 26, 0, 0, Loads(26), 26),
    (1, 4_095, 0, 0, Loads(4_095), 4_095),
    // CALL of the interpreter: the list, an argument or the result is not in the frames
    (1, 22, 0x4000_0070, 0, Faults, 22),
    (1, 22, 0, 0x4000_0060, Faults, 22),
    (1, 22, 0x4000_00F8, 0x4000_0060, Faults, 22),
    (1, 22, 0x4000_0070, 0x4000_00F8, Faults, 22),
    (1, 22, 0x4000_0070, 0x4000_0064, Faults, 22),
    (1, 22, 0x4000_0070, 0x4000_0080, Faults, 22),
    // RAISE
    (3, 7, 0, 0, Asks(Alloc { kind: 7, length: 0, words: 0 }), 7),
    (3, 15, 9, 9, Asks(Alloc { kind: 15, length: 0, words: 0 }), 15),
    (3, 6, 0, 0, Faults, 6),
    (3, 16, 0, 0, Faults, 16),
    (3, 0, 0, 0, Faults, 0),
    (3, 4_096, 0, 0, Faults, 4_096),
    (3, 26, 0, 0, Loads(26), 26),
    // THROW
    (4, 0, 0, 0, Asks(Alloc { kind: 12, length: 0, words: 0 }), 0),
    (4, 5, 0, 0, Asks(TypeOf { object: 5 }), 5),
    (4, 0xFFFF_FFFF, 0, 0, Asks(TypeOf { object: 0xFFFF_FFFF }), 0xFFFF_FFFF),
    (4, 0x1_0000_0001, 0, 0, Faults, 0x1_0000_0001),
    (4, 0x2_0000_0000, 0, 0, Faults, 0x2_0000_0000),
    (4, 0x2_0000_0014, 0, 0, Faults, 0x2_0000_0014),
    (4, 0x2_0000_001A, 0, 0, Loads(26), 0x2_0000_001A),
    // FILL: no node, no entry of it
    (5, 0, 0, 0, Faults, 0),
    (5, 4_096, 0, 0, Faults, 4_096),
    (5, 1, 8, 0, Faults, 1),
    (5, 1, 0x1_0000, 0, Faults, 1),
    (5, 1, 0x8000_0000_0000_0000, 0, Faults, 1),
    (5, 2, 0, 0, Faults, 2),
    (5, 18, 2, 0, Faults, 18),
    (5, 20, 2, 0, Faults, 20),
    (5, 21, 0, 0, Faults, 21),
    (5, 26, 0, 0, Loads(26), 26),
    // FINDSLOT: `Run` stands in slot 0, and the place of the interface's method in slot 1
    (6, 18, 16, 0, Acts, 1),
    (6, 18, 16, 1, Faults, 18),
    (6, 18, 16, 0x1_0000, Faults, 18),
    (6, 18, 16, 0x8000_0000_0000_0000, Faults, 18),
    (6, 17, 16, 0, Faults, 17),
    (6, 18, 18, 0, Faults, 18),
    (6, 18, 5, 0, Faults, 18),
    (6, 0, 16, 0, Faults, 0),
    (6, 18, 0, 0, Faults, 18),
    (6, 4_096, 16, 0, Faults, 4_096),
    (6, 18, 4_096, 0, Faults, 18),
    (6, 1, 16, 0, Faults, 1),
    (6, 20, 16, 0, Faults, 20),
    (6, 18, 20, 0, Faults, 18),
    (6, 26, 16, 0, Loads(26), 26),
    (6, 18, 26, 0, Loads(26), 18),
    (6, 26, 27, 0, Loads(26), 26),
    (6, 26, 0, 0, Faults, 26),
    // ASSIGNABLE
    (7, 18, 16, 0, Acts, 1),
    (7, 16, 18, 0, Acts, 0),
    (7, 18, 18, 0, Acts, 1),
    (7, 18, 5, 0, Acts, 1),
    (7, 5, 18, 0, Acts, 0),
    (7, 10, 9, 0, Acts, 1),
    (7, 10, 7, 0, Acts, 1),
    (7, 9, 10, 0, Acts, 0),
    (7, 10, 11, 0, Acts, 0),
    (7, 2, 5, 0, Acts, 1),
    (7, 23, 5, 0, Acts, 1),
    (7, 23, 16, 0, Acts, 0),
    (7, 2, 2, 0, Acts, 1),
    (7, 2, 3, 0, Acts, 0),
    (7, 21, 5, 0, Acts, 1),
    (7, 21, 21, 0, Acts, 1),
    (7, 21, 2, 0, Acts, 0),
    (7, 0, 5, 0, Faults, 0),
    (7, 5, 0, 0, Faults, 5),
    (7, 5, 4_096, 0, Faults, 5),
    (7, 20, 5, 0, Faults, 20),
    (7, 5, 1, 0, Faults, 5),
    (7, 26, 5, 0, Loads(26), 26),
    (7, 5, 26, 0, Loads(26), 5),
    (7, 26, 4_096, 0, Faults, 26),
    // ELEMENT
    (8, 21, 0, 0, Acts, 2),
    (8, 2, 0, 0, Faults, 2),
    (8, 18, 0, 0, Faults, 18),
    (8, 20, 0, 0, Faults, 20),
    (8, 0, 0, 0, Faults, 0),
    (8, 4_096, 0, 0, Faults, 4_096),
    (8, 26, 0, 0, Loads(26), 26),
    // ALLOC
    (16, 18, 0, 1, Asks(Alloc { kind: 18, length: 0, words: 1 }), 18),
    (16, 21, 4_294_967_295, 0xFFFF_FFFF_FFFF_FFFF, Asks(Alloc { kind: 21, length: 4_294_967_295, words: 0xFFFF_FFFF_FFFF_FFFF }), 21),
    (16, 18, 4_294_967_296, 1, Faults, 18),
    (16, 26, 4_294_967_296, 1, Faults, 26),
    (16, 0, 0, 1, Faults, 0),
    (16, 4_096, 0, 1, Faults, 4_096),
    (16, 1, 0, 1, Faults, 1),
    (16, 20, 0, 1, Faults, 20),
    (16, 26, 0, 1, Loads(26), 26),
    // TYPEOF
    (17, 1, 0, 0, Asks(TypeOf { object: 1 }), 1),
    (17, 0xFFFF_FFFF, 0, 0, Asks(TypeOf { object: 0xFFFF_FFFF }), 0xFFFF_FFFF),
    (17, 0x1_0000_0000, 0, 0, Acts, 6),
    (17, 0x2_0000_0012, 0, 0, Acts, 6),
    (17, 0x2_0000_0006, 0, 0, Acts, 6),
    (17, 0, 0, 0, Faults, 0),
    (17, 0x1_0000_0001, 0, 0, Faults, 0x1_0000_0001),
    (17, 0x1_FFFF_FFFF, 0, 0, Faults, 0x1_FFFF_FFFF),
    (17, 0x2_0000_0000, 0, 0, Faults, 0x2_0000_0000),
    (17, 0x2_0000_0014, 0, 0, Faults, 0x2_0000_0014),
    (17, 0x2_0000_1000, 0, 0, Faults, 0x2_0000_1000),
    (17, 0xFFFF_FFFF_FFFF_FFFF, 0, 0, Faults, 0xFFFF_FFFF_FFFF_FFFF),
    (17, 0x2_0000_001A, 0, 0, Loads(26), 0x2_0000_001A),
    // LENGTH
    (18, 1, 0, 0, Asks(Length { object: 1 }), 1),
    (18, 0, 0, 0, Faults, 0),
    (18, 0x1_0000_0000, 0, 0, Faults, 0x1_0000_0000),
    // LOAD: objects, static words, and what is no place
    (19, 0x4000_0000_0500_0003, 0, 0, Asks(Load { place: Object { object: 5, index: 3 } }), 0x4000_0000_0500_0003),
    (19, 0x40FF_FFFF_FFFF_FFFF, 0, 0, Asks(Load { place: Object { object: 0xFFFF_FFFF, index: 0xFF_FFFF } }), 0x40FF_FFFF_FFFF_FFFF),
    (19, 0x8000_0000_1200_0001, 0, 0, Asks(Load { place: Fixed { kind: 18, index: 1 } }), 0x8000_0000_1200_0001),
    (19, 0, 0, 0, Faults, 0),
    (19, 0x3FFF_FFF8, 0, 0, Faults, 0x3FFF_FFF8),
    (19, 0x4000_0041, 0, 0, Faults, 0x4000_0041),
    (19, 0x4000_0100, 0, 0, Faults, 0x4000_0100),
    (19, 0x4000_0000_0000_0000, 0, 0, Faults, 0x4000_0000_0000_0000),
    (19, 0x4100_0000_0000_0000, 0, 0, Faults, 0x4100_0000_0000_0000),
    (19, 0x8000_0000_0000_0000, 0, 0, Faults, 0x8000_0000_0000_0000),
    (19, 0x8000_0000_1400_0000, 0, 0, Faults, 0x8000_0000_1400_0000),
    (19, 0x8000_0010_0000_0000, 0, 0, Faults, 0x8000_0010_0000_0000),
    (19, 0xFFFF_FFFF_FFFF_FFFF, 0, 0, Faults, 0xFFFF_FFFF_FFFF_FFFF),
    (19, 0x8000_0000_1A00_0000, 0, 0, Loads(26), 0x8000_0000_1A00_0000),
    // SAVE, EXCHANGE, COMPAREEXCHANGE
    (20, 0x4000_0000_0500_0003, 9, 0, Asks(Save { place: Object { object: 5, index: 3 }, word: 9 }), 0x4000_0000_0500_0003),
    (20, 0x4000_0100, 9, 0, Faults, 0x4000_0100),
    (20, 0x8000_0000_1A00_0000, 9, 0, Loads(26), 0x8000_0000_1A00_0000),
    (21, 0x8000_0000_1200_0001, 9, 0, Asks(Exchange { place: Fixed { kind: 18, index: 1 }, word: 9 }), 0x8000_0000_1200_0001),
    (21, 0, 9, 0, Faults, 0),
    (21, 0x8000_0000_1A00_0000, 9, 0, Loads(26), 0x8000_0000_1A00_0000),
    (22, 0x4000_0000_0500_0003, 9, 8, Asks(CompareExchange { place: Object { object: 5, index: 3 }, word: 9, comparand: 8 }), 0x4000_0000_0500_0003),
    (22, 0x4000_0000_0000_0000, 9, 8, Faults, 0x4000_0000_0000_0000),
    (22, 0x8000_0000_1A00_0000, 9, 8, Loads(26), 0x8000_0000_1A00_0000),
    // ADD
    (23, 0x4000_0000_0500_0003, 9, 32, Asks(Add { place: Object { object: 5, index: 3 }, word: 9, narrow: true }), 0x4000_0000_0500_0003),
    (23, 0x4000_0000_0500_0003, 9, 64, Asks(Add { place: Object { object: 5, index: 3 }, word: 9, narrow: false }), 0x4000_0000_0500_0003),
    (23, 0x4000_0000_0500_0003, 9, 0, Faults, 0x4000_0000_0500_0003),
    (23, 0x4000_0000_0500_0003, 9, 33, Faults, 0x4000_0000_0500_0003),
    (23, 0x4000_0000_0500_0003, 9, 0x1_0000_0020, Faults, 0x4000_0000_0500_0003),
    (23, 0x4000_0100, 9, 64, Faults, 0x4000_0100),
    (23, 0x8000_0000_1A00_0000, 9, 33, Faults, 0x8000_0000_1A00_0000),
    (23, 0x8000_0000_1A00_0000, 9, 64, Loads(26), 0x8000_0000_1A00_0000),
    // PRINT
    (24, 0xFFFF_FFFF_FFFF_FFFF, 0, 0, Asks(Print { form: Form::Number, word: 0xFFFF_FFFF_FFFF_FFFF }), 0xFFFF_FFFF_FFFF_FFFF),
    (24, 0, 1, 0, Asks(Print { form: Form::String, word: 0 }), 0),
    (24, 0x1_0000_0000, 1, 0, Asks(Print { form: Form::String, word: 0x1_0000_0000 }), 0x1_0000_0000),
    (24, 0x2_0000_0015, 1, 0, Asks(Print { form: Form::String, word: 0x2_0000_0015 }), 0x2_0000_0015),
    (24, 0x1_0000_0001, 1, 0, Faults, 0x1_0000_0001),
    (24, 5, 1, 0, Faults, 5),
    (24, 0x2_0000_0016, 1, 0, Faults, 0x2_0000_0016),
    (24, 5, 2, 0, Faults, 5),
    (24, 0x2_0000_001A, 1, 0, Loads(26), 0x2_0000_001A),
    (24, 0x2_0000_001A, 0x1_0000_0001, 0, Faults, 0x2_0000_001A),
    // START and ENDED
    (25, 3, 0, 0, Asks(Start { object: 3 }), 3),
    (25, 0, 0, 0, Faults, 0),
    (25, 0x1_0000_0000, 0, 0, Faults, 0x1_0000_0000),
    (26, 0x7_0000_0003, 0, 0, Asks(Ended { thread: 3 }), 0x7_0000_0003),
    (26, 0, 0, 0, Asks(Ended { thread: 0 }), 0),
];

// The same of the frame's word 8, at 0x40000040: x17, x11 and x12; the word before; x10 and the word behind the action.
#[rattlefmt::skip]
const FRAME_ROWS: [(u64, u64, u64, u64, u64, u64); 12] = [
    (19, 0, 0, 5, 5, 5),
    (20, 9, 0, 5, 0x4000_0040, 9),
    (21, 9, 0, 5, 5, 9),
    (22, 9, 5, 5, 5, 9),
    (22, 9, 6, 5, 5, 5),
    (23, 3, 64, 5, 8, 8),
    (23, 1, 64, 0xFFFF_FFFF, 0x1_0000_0000, 0x1_0000_0000),
    (23, 1, 64, 0xFFFF_FFFF_FFFF_FFFF, 0, 0),
    (23, 1, 32, 0xFFFF_FFFF, 0, 0),
    (23, 1, 32, 0x7FFF_FFFF, 0xFFFF_FFFF_8000_0000, 0xFFFF_FFFF_8000_0000),
    (23, 0x7_0000_0002, 32, 3, 5, 5),
    (23, 0xFFFF_FFFF_FFFF_FFFF, 32, 3, 2, 2),
];

// Who goes on behind the first turn.
fn goes(turn: Turn) -> Who {
    match turn {
        Acts => Who::Runs,
        Loads(_) | Asks(_) | Faults => Who::Serves,
    }
}

fn check_rows(
    rt: &impl Abort,
    alloc: Global,
    state: &mut ThreadState,
    view: &ImageView,
    words: &mut PlainWords,
) -> Result<(), Fail>
    requires image { IsServable (image_of view.now) }
    requires met { Meets view.now.cat words.old }
    ensures { Meets view.now.cat words.new }
{
    put(state, 12, 0x4000_0040);
    put(state, 13, 0x4000_0050);
    for (service, first, second, third, turn, given) in ROWS {
        ask(state, service, first, second, third);
        check_turn(rt, alloc, state, view, words, turn)?;
        check_state(rt, state, goes(turn), BEHIND, FIRST_FRAME, given);
        assert_eq!(rt; [state.core.x[11], state.core.x[12]], [second, third]);
    }
    Ok(())
}

fn check_frame_rows(
    rt: &impl Abort,
    alloc: Global,
    state: &mut ThreadState,
    view: &ImageView,
    words: &mut PlainWords,
) -> Result<(), Fail>
    requires image { IsServable (image_of view.now) }
    requires met { Meets view.now.cat words.old }
{
    for (service, second, third, before, given, after) in FRAME_ROWS {
        put(state, 8, before);
        ask(state, service, 0x4000_0040, second, third);
        check_turn(rt, alloc, state, view, words, Acts)?;
        check_state(rt, state, Who::Runs, BEHIND, FIRST_FRAME, given);
        check_word(rt, state, 8, after);
    }
    Ok(())
}

fn check_services(rt: &impl Abort, alloc: Global, view: &ImageView) -> Result<(), Fail>
    requires { IsServable (image_of view.now) }
{
    let mut words = opened(alloc, view)?;
    let mut state = thread(alloc)?;
    fill_all(rt, alloc, &mut state, view, &mut words)?;
    check_rows(rt, alloc, &mut state, view, &mut words)?;
    check_frame_rows(rt, alloc, &mut state, view, &mut words)
}

#[test]
fn services_make_the_turns_of_their_registers(rt: HostRuntime) -> Result<(), Fail> {
    let alloc = rt.alloc();
    let image = image(alloc, 2)?;
    let counts = counts(alloc, &image)?;
    let view = view(&image, counts.as_slice())?;
    check_services(&rt, alloc, &view)
}
