// One small function a case.
use crate::memory::Memory;
use il_text::tokens;
use rv_machine::{Core, Step, step};
use std::alloc::{AllocError, Global};

const LINE: &[u8; 64] = b"  L12: ldc.i4 -2147483648 add call void A.B::f<!0>(int32) // a\n\n";

// A text of this many bytes, of lines alike.
fn text_of(alloc: Global, size: usize) -> Result<Vec<u8>, AllocError> {
    let mut text = Vec::new(alloc);
    for at in 0..size {
        text.push(LINE[at % 64])?;
    }
    Ok(text)
}

/// How many tokens a text of `size` bytes has, counted in each of so many rounds anew.
pub fn tokens_of(alloc: Global, size: usize, rounds: u32) -> Result<usize, AllocError> {
    let text = text_of(alloc, size)?;
    let mut found = 0;
    for _ in 0..rounds {
        found = match tokens(alloc, text.as_slice()) {
            Ok(tokens) => tokens.len(),
            Err(_) => 0,
        };
    }
    Ok(found)
}

// `addi x5,x5,1`, `add x6,x6,x5`, `xor x7,x5,x6`, `sd x6,0(x8)`, `ld x9,0(x8)`, `jal x0,-20`.
const LOOP: [u32; 6] = [
    0x00128293, 0x00530333, 0x0062C3B3, 0x00643023, 0x00043483, 0xFEDFF06F,
];

/// What x5 holds after so many steps of a loop of six instructions, and how many steps were no instruction.
pub fn steps_of(alloc: Global, steps: u64) -> Result<(u64, u64), AllocError> {
    let mut words = Vec::new(alloc);
    for _ in 0..64u32 {
        words.push(0u64)?;
    }
    let mut bus = Memory { words };
    let mut core = Core {
        pc: 65536,
        x: [0; 32],
    };
    core.x[8] = 64;
    let mut refused = 0u64;
    for _ in 0..steps {
        match step(&mut core, &LOOP, &mut bus) {
            Step::Went => {}
            Step::Call | Step::Fault(_) => refused = refused.wrapping_add(1),
        }
    }
    Ok((core.x[5], refused))
}
