// One line.
use crate::nowhere::Nowhere;
use rv_isa::{decode, encode};
use rv_machine::{Core, Step, step};
use std::alloc::{AllocError, Global};

// A number in hexadecimal, or 0 for what is none.
fn number(text: &str) -> u64 {
    u64::from_str_radix(text, 16).unwrap_or(0)
}

// The instruction of a word, and that instruction's word.
fn read(alloc: Global, word: u32) -> Result<String, AllocError> {
    match decode(word) {
        Some(instr) => format!(in alloc; "{instr:?} {:08x}", encode(&instr)),
        None => String::from_str(alloc, "none"),
    }
}

// What a word does with two registers.
fn run(alloc: Global, word: u32, a: u64, b: u64) -> Result<String, AllocError> {
    let rd = (word / 128 % 32) as usize;
    let rs1 = (word / 32768 % 32) as usize;
    let rs2 = (word / 1048576 % 32) as usize;
    let mut core = Core {
        pc: 65536,
        x: [0; 32],
    };
    core.x[rs2] = b;
    core.x[rs1] = a;
    let mut bus = Nowhere;
    match step(&mut core, &[word], &mut bus) {
        Step::Went => format!(in alloc; "{:016x} {:016x}", core.x[rd], core.pc),
        Step::Call => String::from_str(alloc, "call"),
        Step::Fault(fault) => format!(in alloc; "{:?}", fault.cause),
    }
}

/// The answer to a line.
pub fn answer(alloc: Global, line: &str) -> Result<String, AllocError> {
    let mut numbers = [0; 3];
    let mut count = 0;
    for part in line.split_whitespace() {
        if count < 3 {
            numbers[count] = number(part);
            count += 1;
        }
    }
    let word = (numbers[0] % 4294967296) as u32;
    if count < 2 {
        return read(alloc, word);
    }
    run(alloc, word, numbers[1], numbers[2])
}
