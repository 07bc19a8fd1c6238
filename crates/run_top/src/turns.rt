// One turn of a thread.
ghost use Rattle.std.specs.Prelude.{◌≡◌, ◌<◌, ◌%◌, IfSome, length};
ghost use Rattle.run_top.specs.Values.{sign_extended};
ghost use Rattle.run_top.specs.Machine.{address_of, code_place, effect_of, extended_12, fetch, frame_place, performed, register, served, want, with_register};
ghost use Rattle.run_top.specs.Gives.{Gives, thread_of};

use crate::machine::{Core, Effect, Gave, Mode};
use interaction::What;
use rv_isa::{Imm12, Instr, Reg, decode};
use store_object::{Form, Request};

// x0 reads as zero.
fn register(x: &[u64; 32], r: Reg) -> u64
    ensures { result ≡ register x.now r }
{
    let number = r.number();
    if number == 0 { 0 } else { x[number as usize] }
}

// x0 isn't written.
fn set_register(x: &mut [u64; 32], r: Reg, value: u64)
    ensures { x.new ≡ with_register x.old r value }
{
    let number = r.number();
    if number != 0 {
        x[number as usize] = value;
    }
}

// An immediate of twelve bits as a word.
fn extended_12(imm: Imm12) -> u64
    ensures { result ≡ extended_12 imm }
{
    let bits = u64::from(imm.bits());
    if bits < 2048 {
        bits
    } else {
        bits + 18446744073709547520
    }
}

// The low 32 bits as a word, their sign extended.
fn extended(n: u64) -> u64
    ensures { result ≡ sign_extended (n % 4294967296) }
{
    let bits = n % 4294967296;
    if bits < 2147483648 {
        bits
    } else {
        bits + 18446744069414584320
    }
}

fn address(x: &[u64; 32], rs1: Reg, imm: Imm12) -> u64
    ensures { result ≡ address_of x.now rs1 imm }
{
    register(x, rs1).wrapping_add(extended_12(imm))
}

// What an instruction asks for.
fn effect(x: &[u64; 32], instr: Instr) -> Effect
    ensures { result ≡ effect_of instr x.now }
{
    match instr {
        Instr::Addi(rd, rs1, imm) => Effect::Sets {
            rd,
            value: register(x, rs1).wrapping_add(extended_12(imm)),
        },
        Instr::Addiw(rd, rs1, imm) => Effect::Sets {
            rd,
            value: extended(register(x, rs1).wrapping_add(extended_12(imm))),
        },
        Instr::Lui(rd, imm) => Effect::Sets {
            rd,
            value: extended(u64::from(imm.bits()) * 4096),
        },
        Instr::Ld(rd, rs1, imm) => Effect::Loads {
            rd,
            address: address(x, rs1, imm),
        },
        Instr::Sd(rs2, rs1, imm) => Effect::Stores {
            address: address(x, rs1, imm),
            value: register(x, rs2),
        },
        Instr::Addw(rd, rs1, rs2) => Effect::Sets {
            rd,
            value: extended(register(x, rs1).wrapping_add(register(x, rs2))),
        },
        Instr::Ecall => Effect::Calls,
        _ => Effect::Breaks,
    }
}

// The place of an address among the words of a frame.
fn frame_place(words: usize, address: u64) -> Option<usize>
    ensures value { result ≡ frame_place words address }
    ensures bound { IfSome result (λ place. place < words) }
{
    if address < 1073741824 || address % 8 != 0 {
        return None;
    }
    let place = ((address - 1073741824) / 8) as usize;
    if place < words { Some(place) } else { None }
}

// The place of an address among the code words.
fn code_place(pc: u64) -> Option<usize>
    ensures { result ≡ code_place pc }
{
    if pc >= 65536 && pc % 4 == 0 {
        Some(((pc - 65536) / 4) as usize)
    } else {
        None
    }
}

fn fetch(image: &[u32], pc: u64) -> Option<u32>
    ensures { result ≡ fetch image.now (code_place pc) }
{
    match code_place(pc) {
        None => None,
        Some(place) => image.get(place).copied(),
    }
}

// Does what an instruction asks for.
fn perform(core: &mut Core, frame: &mut [u64], what: What, effect: Effect) -> Gave
    ensures { Gives (performed what (thread_of core.old frame.old) effect) result (thread_of core.new frame.new) }
{
    match effect {
        Effect::Sets { rd, value } => set_register(&mut core.x, rd, value),
        Effect::Loads { rd, address } => {
            let Some(place) = frame_place(frame.len(), address) else {
                return Gave::Nothing;
            };
            set_register(&mut core.x, rd, frame[place]);
        }
        Effect::Stores { address, value } => {
            let Some(place) = frame_place(frame.len(), address) else {
                return Gave::Nothing;
            };
            frame[place] = value;
        }
        Effect::Calls => core.mode = Mode::Service,
        Effect::Breaks => return Gave::Nothing,
    }
    core.pc = core.pc.wrapping_add(4);
    Gave::Did(what)
}

// A service, by its number in x17.
fn serve(core: &mut Core, frame: &[u64]) -> Gave
    ensures { Gives (served (thread_of core.old frame.now)) result (thread_of core.new frame.now) }
{
    let service = core.x[17];
    if service == 24 {
        if core.x[11] != 0 {
            return Gave::Nothing;
        }
        core.mode = Mode::Code;
        return Gave::Asked(Request::Print {
            form: Form::Number,
            word: core.x[10],
        });
    }
    if service != 2 {
        return Gave::Nothing;
    }
    core.mode = Mode::Leaving;
    Gave::Did(What::Action)
}

/// One turn of a thread, whose core and frame are these. A request counts as answered, whatever the reply.
pub(crate) fn turn(image: &[u32], core: &mut Core, frame: &mut [u64]) -> Gave
    ensures { Gives (want image.now (thread_of core.old frame.old)) result (thread_of core.new frame.new) }
{
    match core.mode {
        Mode::Code => {
            let pc = core.pc;
            let Some(word) = fetch(image, pc) else {
                return Gave::Nothing;
            };
            let Some(instr) = decode(word) else {
                return Gave::Nothing;
            };
            let effect = effect(&core.x, instr);
            perform(core, frame, What::Instr { pc, word }, effect)
        }
        Mode::Service => serve(core, frame),
        Mode::Leaving => {
            core.mode = Mode::Gone;
            Gave::Asked(Request::Finish)
        }
        Mode::Gone => Gave::Nothing,
    }
}
