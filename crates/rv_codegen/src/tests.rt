// The code words of a few pieces, against words that were written by hand.
use crate::constants::set_word;
use crate::printing::emit_print;
use crate::words::{load_word, store_word};
use mn_outside::Refused;
use rv_isa::{Asm, Reg};
use std::alloc::Global;
use std::test::Fail;
use store_object::Form;

fn words_of(alloc: Global, asm: Asm) -> Result<Vec<u32>, Fail> {
    if asm.word_count() > 268_435_456 {
        return Err(Fail::new("too many words"));
    }
    match asm.finish(alloc) {
        Ok(words) => Ok(words),
        Err(Refused::Fault(_)) => Err(Fail::new("an item has a fault")),
        Err(Refused::NoMemory) => Err(Fail::new("no memory")),
    }
}

#[test]
fn words_near_and_far_are_reached(rt: HostRuntime) -> Result<(), Fail> {
    let alloc = rt.alloc();
    let mut asm = Asm::new(alloc)?;
    load_word(&mut asm, Reg::of(5), 1)?;
    store_word(&mut asm, Reg::of(5), 1)?;
    load_word(&mut asm, Reg::of(6), 300)?;
    // ld x5,8(x8); sd x5,8(x8); lui x7,1; add x7,x7,x8; ld x6,-1696(x7)
    assert_eq!(rt;
        words_of(alloc, asm)?.as_slice(),
        [0x00843283, 0x00543423, 0x000013B7, 0x008383B3, 0x9603B303].as_slice()
    );
    Ok(())
}

#[test]
fn constants_are_set(rt: HostRuntime) -> Result<(), Fail> {
    let alloc = rt.alloc();
    let mut asm = Asm::new(alloc)?;
    set_word(&mut asm, Reg::of(5), 5)?;
    set_word(&mut asm, Reg::of(5), 18_446_744_073_709_551_615)?;
    // lui x5,0; addiw x5,x5,5; lui x5,0; addiw x5,x5,-1
    assert_eq!(rt;
        words_of(alloc, asm)?.as_slice(),
        [0x000002B7, 0x0052829B, 0x000002B7, 0xFFF2829B].as_slice()
    );
    Ok(())
}

#[test]
fn a_number_is_printed(rt: HostRuntime) -> Result<(), Fail> {
    let alloc = rt.alloc();
    let mut asm = Asm::new(alloc)?;
    emit_print(&mut asm, 1, Form::Number)?;
    // ld x10,8(x8); addi x11,x0,0; addi x17,x0,24; ecall
    assert_eq!(rt;
        words_of(alloc, asm)?.as_slice(),
        [0x00843503, 0x00000593, 0x01800893, 0x00000073].as_slice()
    );
    Ok(())
}
