// A body of a text, compiled alone and run on the machine, with the words of a caller's frame before its own. The
// services PRINT and RETURN are done here as their definition says.
use crate::compiling::{Compiled, compile_body};
use rv_machine::{Bus, Core, Step, step};
use std::alloc::Global;
use std::test::Fail;

// The first word of the frames. The caller's frame begins there: the list of argument addresses, the words of the
// result, and those of each argument.
const FRAMES: u64 = 0x4000_0000;

const RESULT: usize = 120;

const ARGUMENTS: usize = 136;

// The most words of a value.
const WIDEST: usize = 16;

/// What a body did: each word that it printed, with its form, the words of its result, and those of its frame behind
/// the eight words of the header. The frame begins at this address.
#[derive(Drop)]
pub(crate) struct Ran {
    pub(crate) printed: Vec<(u64, u64)>,
    pub(crate) result: Vec<u64>,
    pub(crate) frame: Vec<u64>,
    pub(crate) address: u64,
}

#[derive(Drop)]
struct Frames {
    words: Vec<u64>,
}

impl Frames {
    fn place(&self, address: u64, size: u8) -> Option<usize> {
        if size != 8 || address < FRAMES {
            return None;
        }
        Some(((address - FRAMES) / 8) as usize)
    }
}

impl Bus for Frames {
    ghost reads = { λ before address size answer after. Unit {0} };

    ghost writes = { λ before address size value answer after. Unit {0} };

    fn read(&mut self, address: u64, size: u8) -> Option<u64> {
        let place = self.place(address, size)?;
        self.words.get(place).copied()
    }

    fn write(&mut self, address: u64, size: u8, value: u64) -> bool {
        let Some(place) = self.place(address, size) else {
            return false;
        };
        let Some(word) = self.words.get_mut(place) else {
            return false;
        };
        *word = value;
        true
    }
}

fn address_of(word: usize) -> Result<u64, Fail> {
    let address = (word as u64)
        .checked_mul(8)
        .and_then(|bytes| bytes.checked_add(FRAMES));
    Ok(address.ok_or("an address")?)
}

fn put(words: &mut Vec<u64>, place: usize, word: u64) -> Result<(), Fail> {
    let found = words.get_mut(place).ok_or("a place of the frames")?;
    *found = word;
    Ok(())
}

// The words before the body runs, and where its frame begins.
fn opening(alloc: Global, body: &Compiled, arguments: &[&[u64]]) -> Result<(Frames, usize), Fail> {
    if arguments.len() > RESULT {
        return Err(Fail::new("too many arguments"));
    }
    let base = ARGUMENTS + WIDEST * arguments.len();
    let mut words: Vec<u64> = Vec::new(alloc);
    for _ in 0..base {
        words.push(0)?;
    }
    for _ in 0..body.frame {
        words.push(0)?;
    }
    for number in 0..arguments.len() {
        let at = ARGUMENTS + WIDEST * number;
        put(&mut words, number, address_of(at)?)?;
        let argument = arguments[number];
        for word in 0..argument.len().min(WIDEST) {
            put(&mut words, at + word, argument[word])?;
        }
    }
    for word in 0..WIDEST {
        put(&mut words, RESULT + word, UNTOUCHED)?;
    }
    put(&mut words, base + 3, address_of(RESULT)?)?;
    Ok((Frames { words }, base))
}

/// A word of the result that the body hasn't written.
pub(crate) const UNTOUCHED: u64 = 7_777;

/// Compiles the method with this number of the text, and runs it.
pub(crate) fn run(
    alloc: Global,
    text: &[u8],
    method: u16,
    arguments: &[&[u64]],
) -> Result<Ran, Fail> {
    let body = compile_body(alloc, text, method)?;
    let (mut frames, base) = opening(alloc, &body, arguments)?;
    let mut core = Core {
        pc: 65_536,
        x: [0; 32],
    };
    core.x[8] = address_of(base)?;
    core.x[12] = FRAMES;
    let mut printed: Vec<(u64, u64)> = Vec::new(alloc);
    for _ in 0..1_000_000 {
        match step(&mut core, body.code.as_slice(), &mut frames) {
            Step::Went => {}
            Step::Call => match core.x[17] {
                2 => return ended(alloc, &frames, base, printed),
                24 => printed.push((core.x[10], core.x[11]))?,
                _ => return Err(Fail::new("no such service")),
            },
            Step::Fault(_) => return Err(Fail::new("a fault of the machine")),
        }
    }
    Err(Fail::new("too many turns"))
}

// Words of the frames, so many from one on.
fn words_from(alloc: Global, frames: &Frames, from: usize, count: usize) -> Result<Vec<u64>, Fail> {
    let mut words: Vec<u64> = Vec::new(alloc);
    for word in frames.words.as_slice().iter().skip(from).take(count) {
        words.push(*word)?;
    }
    Ok(words)
}

fn ended(
    alloc: Global,
    frames: &Frames,
    base: usize,
    printed: Vec<(u64, u64)>,
) -> Result<Ran, Fail> {
    Ok(Ran {
        printed,
        result: words_from(alloc, frames, RESULT, WIDEST)?,
        frame: words_from(alloc, frames, base.saturating_add(8), frames.words.len())?,
        address: address_of(base)?,
    })
}
