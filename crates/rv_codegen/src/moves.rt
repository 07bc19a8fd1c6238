// Words of the frame that go from place to place.
ghost use Rattle.std.specs.Prelude.{◌≡◌, ◌≤◌, ◌+◌, ◌==◌, if◌then◌else◌, min, OnOk};
ghost use Rattle.rv_codegen.specs.FrameWords.{moves_words};
ghost use Rattle.rv_codegen.specs.PlainItems.{rest};
ghost use Rattle.rv_codegen.specs.Emitted.{with_instrs};

use crate::operations::emit_rest;
use crate::places::Spot;
use crate::words::{load_word, store_word};
use mn_outside::NoMemory;
use rv_isa::{Asm, Reg};

/// Moves so many words, in ascending order, over x6.
#[tactic(auto, using(crate::proofs::EmitLemmas::moves_grown))]
pub(crate) fn move_words(asm: &mut Asm, count: u16, from: u16, to: u16) -> Result<(), NoMemory>
    requires from { from + count ≤ 4096 }
    requires to { to + count ≤ 4096 }
    ensures { OnOk result (asm.new ≡ with_instrs asm.old (moves_words count from to)) }
{
    for i in 0..count {
        load_word(asm, Reg::of(6), from + i)?;
        store_word(asm, Reg::of(6), to + i)?;
    }
    Ok(())
}

/// A value goes from place to place: the words that both have, or else one code word that does nothing.
pub(crate) fn emit_move(asm: &mut Asm, from: Spot, to: Spot) -> Result<(), NoMemory>
    requires from { from.offset + from.width ≤ 4096 }
    requires to { to.offset + to.width ≤ 4096 }
    ensures { OnOk result (asm.new ≡ with_instrs asm.old (
        if min from.width to.width == 0 then rest else moves_words (min from.width to.width) from.offset to.offset)) }
{
    let count = from.width.min(to.width);
    if count == 0 {
        return emit_rest(asm);
    }
    move_words(asm, count, from.offset, to.offset)
}
