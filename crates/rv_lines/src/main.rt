//! Reads, writes and runs single instructions, a line of standard input each.
//!
//! A line is a code word in hexadecimal, and gives its instruction and the instruction's word, or
//! `none`. With two more numbers, the word is run with these in the registers rs1 and rs2, and the
//! line gives the word in rd and the pc, or the fault.
#![tactic(auto)]

mod line;
mod nowhere;

use std::io;

fn main(rt: HostRuntime) -> io::Result<()> {
    for line in rt.lines(rt.alloc()) {
        let answer = line::answer(rt.alloc(), line?.as_str())?;
        println!(rt; "{answer}")?;
    }
    Ok(())
}
