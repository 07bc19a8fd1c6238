//! Cases for benchmarks. The first word picks the case; what it prints says that the work was done.
#![tactic(auto)]

mod cases;
mod fills;
mod memory;
mod requests;
mod texts;
mod types;

use mn_outside::NoMemory;
use std::alloc::{AllocError, Global};
use std::rt::Runtime;
use std::{env, io};

// The words after the program's name.
fn words<R: Runtime + AllocGlobal>(rt: &R) -> Result<Vec<String>, AllocError> {
    let mut words = Vec::new(rt.alloc());
    if let Ok(args) = env::args(rt) {
        for word in args.skip(1) {
            words.push(word)?;
        }
    }
    Ok(words)
}

// The number that a word spells, or 0.
fn number(words: &[String], place: usize) -> u32 {
    match words.get(place) {
        None => 0,
        Some(word) => word.as_str().parse::<u32>().unwrap_or(0),
    }
}

fn tokens_line(alloc: Global, size: u32, rounds: u32) -> Result<String, AllocError> {
    let found = cases::tokens_of(alloc, size as usize, rounds)?;
    format!(in alloc; "{found} tokens")
}

fn steps_line(alloc: Global, steps: u32) -> Result<String, AllocError> {
    let (counter, refused) = cases::steps_of(alloc, u64::from(steps))?;
    format!(in alloc; "x5 {counter}, {refused} refused")
}

fn store_line(alloc: Global, count: u32) -> Result<String, AllocError> {
    match requests::store_of(alloc, count) {
        Ok(asked) => format!(in alloc;
            "{} objects, counter {}, {} refused",
            asked.objects, asked.counter, asked.refused
        ),
        Err(NoMemory) => String::from_str(alloc, "no memory"),
    }
}

fn types_line(alloc: Global, levels: u32, rounds: u32) -> Result<String, AllocError> {
    match types::wide_of(alloc, levels, rounds) {
        Ok(wide) => format!(in alloc; "{wide} too wide"),
        Err(NoMemory) => String::from_str(alloc, "no memory"),
    }
}

fn fills_line(alloc: Global, nodes: u32, fills: u32) -> Result<String, AllocError> {
    let Ok(nodes) = u16::try_from(nodes) else {
        return String::from_str(alloc, "too many nodes");
    };
    match fills::fills_of(alloc, nodes, fills) {
        Ok(filled) => format!(in alloc; "{} values in {} turns", filled.values, filled.turns),
        Err(NoMemory) => String::from_str(alloc, "no memory"),
    }
}

fn main(rt: HostRuntime) -> io::Result<()> {
    let alloc = rt.alloc();
    let words = words(&rt)?;
    let case = match words.first() {
        None => "",
        Some(word) => word.as_str(),
    };
    let first = number(words.as_slice(), 1);
    if case == "tokens" {
        let line = tokens_line(alloc, first, number(words.as_slice(), 2))?;
        println!(rt; "{line}")?;
    } else if case == "parse" {
        let line = texts::parse_line(alloc, first, number(words.as_slice(), 2))?;
        println!(rt; "{line}")?;
    } else if case == "steps" {
        let line = steps_line(alloc, first)?;
        println!(rt; "{line}")?;
    } else if case == "store" {
        let line = store_line(alloc, first)?;
        println!(rt; "{line}")?;
    } else if case == "types" {
        let line = types_line(alloc, first, number(words.as_slice(), 2))?;
        println!(rt; "{line}")?;
    } else if case == "fills" {
        let line = fills_line(alloc, first, number(words.as_slice(), 2))?;
        println!(rt; "{line}")?;
    } else {
        // Each case once, tiny.
        println!(rt; "{}", tokens_line(alloc, 640, 1)?)?;
        println!(rt; "{}", steps_line(alloc, 600)?)?;
        println!(rt; "{}", store_line(alloc, 800)?)?;
        println!(rt; "{}", types_line(alloc, 5, 1)?)?;
        println!(rt; "{}", texts::parse_line(alloc, 2, 1)?)?;
        println!(rt; "{}", fills_line(alloc, 40, 2)?)?;
    }
    Ok(())
}
