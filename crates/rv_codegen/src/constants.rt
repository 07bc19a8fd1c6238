// Constants in registers.
ghost use Rattle.std.specs.Prelude.{◌≡◌, ◌<◌, ◌+◌, ◌/◌, ◌%◌, ◌∷◌, [], OnOk};
ghost use Rattle.rv_isa.specs.declared.instr.Instr.TheVariants.{Slli, Addi};
ghost use Rattle.cil_meaning.specs.Words.{narrow};
ghost use Rattle.rv_codegen.specs.Constants.{sets_narrow, sets_wide, sets_word};
ghost use Rattle.rv_codegen.specs.Emitted.{with_instrs};

use crate::words::emit;
use mn_outside::NoMemory;
use rv_isa::{Asm, Imm12, Imm20, Instr, Reg, Shift6};

// The low bits of a word, up to twelve.
fn low_bits(bits: u64) -> Imm12
    requires { bits < 4096 }
    ensures { result ≡ bits }
{
    match u16::try_from(bits) {
        Ok(bits) => Imm12::of(bits),
        Err(_) => unreachable!(),
    }
}

// The upper twenty of 32 bits, for lower twelve that count as a signed number.
fn upper_bits(bits: u64) -> Imm20
    requires { bits < 4294967296 }
    ensures { result ≡ (bits + 2048) / 4096 % 1048576 }
{
    match u32::try_from((bits + 2_048) / 4_096 % 1_048_576) {
        Ok(bits) => Imm20::of(bits),
        Err(_) => unreachable!(),
    }
}

// 32 bits with their sign extended.
fn set_narrow(asm: &mut Asm, to: Reg, bits: u64) -> Result<(), NoMemory>
    requires { bits < 4294967296 }
    ensures { OnOk result (asm.new ≡ with_instrs asm.old (sets_narrow to bits)) }
{
    emit(asm, Instr::Lui(to, upper_bits(bits)))?;
    emit(asm, Instr::Addiw(to, to, low_bits(bits % 4_096)))?;
    Ok(())
}

// More bits from below, with those that are there moved up.
fn add_bits(asm: &mut Asm, to: Reg, count: u8, bits: u64) -> Result<(), NoMemory>
    requires count { count < 64 }
    requires bits { bits < 2048 }
    ensures { OnOk result (asm.new ≡ with_instrs asm.old (Slli to to count ∷ Addi to to bits ∷ [])) }
{
    emit(asm, Instr::Slli(to, to, Shift6::of(count)))?;
    emit(asm, Instr::Addi(to, to, low_bits(bits)))?;
    Ok(())
}

// 64 bits.
fn set_wide(asm: &mut Asm, to: Reg, word: u64) -> Result<(), NoMemory>
    ensures { OnOk result (asm.new ≡ with_instrs asm.old (sets_wide to word)) }
{
    set_narrow(asm, to, word / 4_294_967_296)?;
    add_bits(asm, to, 11, word / 2_097_152 % 2_048)?;
    add_bits(asm, to, 11, word / 1_024 % 2_048)?;
    add_bits(asm, to, 10, word % 1_024)?;
    Ok(())
}

// The word of the int32 that the low 32 bits are.
fn narrow(word: u64) -> u64
    ensures { result ≡ narrow word }
{
    let low = word % 4_294_967_296;
    if low < 2_147_483_648 {
        low
    } else {
        low + 18_446_744_069_414_584_320
    }
}

/// A register takes a word: in two instructions where it is that of an int32, and else in eight.
pub(crate) fn set_word(asm: &mut Asm, to: Reg, word: u64) -> Result<(), NoMemory>
    ensures { OnOk result (asm.new ≡ with_instrs asm.old (sets_word to word)) }
{
    if narrow(word) == word {
        return set_narrow(asm, to, word % 4_294_967_296);
    }
    set_wide(asm, to, word)
}
