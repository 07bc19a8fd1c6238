// The turns of the sum of 2 and 3, written out from the code words by hand.
use crate::first::{FirstOp, is_well_formed};
use crate::record::Turn;
use crate::run::run_program;
use cil_verify::Verified;
use il_model::Program;
use interaction::What;
use sqlite_items::Items;
use std::alloc::Global;
use std::process::Abort;
use std::test::Fail;
use store_object::{Ending, Form, Request};

// The code words of `ldc.i4 2 ldc.i4 3 add`, the print and `ret`, as the RISC-V manual encodes them.
#[rattlefmt::skip]
const IMAGE: [u32; 17] = [
    0x00100073, // ebreak
    0x000002b7, // lui x5, 0
    0x0022829b, // addiw x5, x5, 2
    0x04543023, // sd x5, 64(x8)
    0x000002b7, // lui x5, 0
    0x0032829b, // addiw x5, x5, 3
    0x04543423, // sd x5, 72(x8)
    0x04043283, // ld x5, 64(x8)
    0x04843303, // ld x6, 72(x8)
    0x006282bb, // addw x5, x5, x6
    0x04543023, // sd x5, 64(x8)
    0x04043503, // ld x10, 64(x8)
    0x00000593, // addi x11, x0, 0
    0x01800893, // addi x17, x0, 24
    0x00000073, // ecall
    0x00200893, // addi x17, x0, 2
    0x00000073, // ecall
];

// The noted turns: code words 1 to 14, the request of the print, words 15 and 16, the action that
// leaves the method, and the request that ends the thread.
#[rattlefmt::skip]
const TURNS: [What; 19] = [
    What::Instr { pc: 65540, word: 0x000002b7 },
    What::Instr { pc: 65544, word: 0x0022829b },
    What::Instr { pc: 65548, word: 0x04543023 },
    What::Instr { pc: 65552, word: 0x000002b7 },
    What::Instr { pc: 65556, word: 0x0032829b },
    What::Instr { pc: 65560, word: 0x04543423 },
    What::Instr { pc: 65564, word: 0x04043283 },
    What::Instr { pc: 65568, word: 0x04843303 },
    What::Instr { pc: 65572, word: 0x006282bb },
    What::Instr { pc: 65576, word: 0x04543023 },
    What::Instr { pc: 65580, word: 0x04043503 },
    What::Instr { pc: 65584, word: 0x00000593 },
    What::Instr { pc: 65588, word: 0x01800893 },
    What::Instr { pc: 65592, word: 0x00000073 },
    What::Action,
    What::Instr { pc: 65596, word: 0x00200893 },
    What::Instr { pc: 65600, word: 0x00000073 },
    What::Action,
    What::Action,
];

const SUM: [FirstOp; 5] = [
    FirstOp::Push(2),
    FirstOp::Push(3),
    FirstOp::Add,
    FirstOp::Print,
    FirstOp::Ret,
];

// What a run keeps as its program, which it doesn't look at.
fn empty(alloc: Global) -> Verified {
    Verified {
        program: Program {
            classes: Items::new(alloc),
            methods: Items::new(alloc),
            literals: Items::new(alloc),
            main: 0,
        },
        states: Items::new(alloc),
    }
}

fn expect_turns(rt: &impl Abort, turns: &[Turn]) {
    for (i, turn) in turns.iter().enumerate() {
        assert!(rt; i < TURNS.len());
        assert_eq!(rt; turn.thread, 0);
        assert!(rt; turn.what == TURNS[i], "at turn {i}");
    }
}

// The run of the sum with at most so many turns: how it ends, and how many events it has.
fn expect_run(
    rt: &impl Abort,
    alloc: Global,
    limit: u32,
    ending: Ending,
    events: usize,
) -> Result<(), Fail> {
    assert!(rt; is_well_formed(SUM.as_slice()));
    let run = run_program(alloc, empty(alloc), SUM.as_slice(), limit).expect(rt, "memory");
    assert!(rt; run.image.as_slice() == IMAGE.as_slice());
    assert_eq!(rt; run.turns.len(), limit.min(19) as usize);
    expect_turns(rt, run.turns.as_slice());
    assert!(rt; run.ending == ending);
    assert_eq!(rt; run.history.len(), events);
    for event in run.history.iter().take(1) {
        assert_eq!(rt; event.thread, 0);
        assert!(rt;
            event.request
                == Request::Print {
                    form: Form::Number,
                    word: 5
                }
        );
    }
    Ok(())
}

#[test]
fn the_sum_takes_nineteen_turns(rt: HostRuntime) -> Result<(), Fail> {
    expect_run(&rt, rt.alloc(), 4000000, Ending::Done, 2)?;
    expect_run(&rt, rt.alloc(), 19, Ending::Done, 2)
}

#[test]
fn a_run_stops_before_its_last_turn(rt: HostRuntime) -> Result<(), Fail> {
    expect_run(&rt, rt.alloc(), 18, Ending::Turns, 1)?;
    expect_run(&rt, rt.alloc(), 15, Ending::Turns, 1)?;
    expect_run(&rt, rt.alloc(), 14, Ending::Turns, 0)
}
