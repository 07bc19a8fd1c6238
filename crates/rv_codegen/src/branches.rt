// Jumps.
ghost use Rattle.std.specs.Prelude.{◌≡◌, ◌∷◌, [], OnOk};
ghost use Rattle.rv_isa.specs.declared.item.Item.TheVariants.{Far};
ghost use Rattle.rv_codegen.specs.Emitted.{with_items, with_instrs};

use crate::words::emit;
use mn_outside::{Label, NoMemory};
use rv_isa::{Asm, Instr, Item};

/// A jump to a label, however far.
pub(crate) fn emit_jump(asm: &mut Asm, to: Label) -> Result<(), NoMemory>
    ensures { OnOk result (asm.new ≡ with_items asm.old (Far to ∷ [])) }
{
    asm.emit(Item::Far(to))
}

/// The same, but past it where this instruction branches over three code words.
pub(crate) fn emit_jump_unless(asm: &mut Asm, over: Instr, to: Label) -> Result<(), NoMemory>
    ensures { OnOk result (asm.new ≡ with_items (with_instrs asm.old (over ∷ [])) (Far to ∷ [])) }
{
    emit(asm, over)?;
    emit_jump(asm, to)
}
