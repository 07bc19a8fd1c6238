// Words of the current frame, whose address x8 holds.
ghost use Rattle.std.specs.Prelude.{◌≡◌, ◌<◌, ◌+◌, ◌*◌, ◌/◌, ◌%◌, ◌∷◌, [], OnOk};
ghost use Rattle.rv_codegen.specs.FrameWords.{far_base, loads_word, stores_word, addresses_word, moves_words};
ghost use Rattle.rv_codegen.specs.Emitted.{with_instrs};

use mn_outside::NoMemory;
use rv_isa::{Asm, Imm12, Imm20, Instr, Item, Reg};

/// Puts an instruction at the end.
pub(crate) fn emit(asm: &mut Asm, instr: Instr) -> Result<(), NoMemory>
    ensures { OnOk result (asm.new ≡ with_instrs asm.old (instr ∷ [])) }
{
    asm.emit(Item::Plain(instr))
}

/// The upper bits of an offset's bytes, for lower twelve that count as a signed number.
pub(crate) fn upper(offset: u16) -> Imm20
    requires { offset < 4096 }
    ensures { result ≡ (8 * offset + 2048) / 4096 }
{
    Imm20::of(u32::from((8 * offset + 2_048) / 4_096))
}

/// The lower twelve bits of an offset's bytes.
pub(crate) fn lower(offset: u16) -> Imm12
    requires { offset < 4096 }
    ensures { result ≡ 8 * offset % 4096 }
{
    Imm12::of(8 * offset % 4_096)
}

// x7 is the address of a word of the frame, but for the lower twelve bits.
fn emit_base(asm: &mut Asm, offset: u16) -> Result<(), NoMemory>
    requires { offset < 4096 }
    ensures { OnOk result (asm.new ≡ with_instrs asm.old (far_base offset)) }
{
    emit(asm, Instr::Lui(Reg::of(7), upper(offset)))?;
    emit(asm, Instr::Add(Reg::of(7), Reg::of(7), Reg::of(8)))?;
    Ok(())
}

/// A register takes the word at an offset.
pub(crate) fn load_word(asm: &mut Asm, to: Reg, offset: u16) -> Result<(), NoMemory>
    requires { offset < 4096 }
    ensures { OnOk result (asm.new ≡ with_instrs asm.old (loads_word to offset)) }
{
    if offset < 256 {
        emit(asm, Instr::Ld(to, Reg::of(8), Imm12::of(8 * offset)))?;
        return Ok(());
    }
    emit_base(asm, offset)?;
    emit(asm, Instr::Ld(to, Reg::of(7), lower(offset)))?;
    Ok(())
}

/// The word at an offset takes a register's.
pub(crate) fn store_word(asm: &mut Asm, from: Reg, offset: u16) -> Result<(), NoMemory>
    requires { offset < 4096 }
    ensures { OnOk result (asm.new ≡ with_instrs asm.old (stores_word from offset)) }
{
    if offset < 256 {
        emit(asm, Instr::Sd(from, Reg::of(8), Imm12::of(8 * offset)))?;
        return Ok(());
    }
    emit_base(asm, offset)?;
    emit(asm, Instr::Sd(from, Reg::of(7), lower(offset)))?;
    Ok(())
}

/// A register takes the address of the word at an offset.
pub(crate) fn address_word(asm: &mut Asm, to: Reg, offset: u16) -> Result<(), NoMemory>
    requires { offset < 4096 }
    ensures { OnOk result (asm.new ≡ with_instrs asm.old (addresses_word to offset)) }
{
    if offset < 256 {
        emit(asm, Instr::Addi(to, Reg::of(8), Imm12::of(8 * offset)))?;
        return Ok(());
    }
    emit_base(asm, offset)?;
    emit(asm, Instr::Addi(to, Reg::of(7), lower(offset)))?;
    Ok(())
}
