// The jump through a table of targets.
ghost use Rattle.std.specs.Prelude.{◌≡◌, ◌<◌, ◌≤◌, ◌++◌, ◌∷◌, [], flat_map, OnOk};
ghost use Rattle.rv_isa.specs.declared.instr.Instr.TheVariants.{Bltu};
ghost use Rattle.cil_flow.specs.FramePlans.{IsPlan};
ghost use Rattle.rv_codegen.specs.Constants.{sets_word};
ghost use Rattle.rv_codegen.specs.FrameWords.{loads_word};
ghost use Rattle.rv_codegen.specs.PlainItems.{plain, held_count, jump_items, switch_items};
ghost use Rattle.rv_codegen.specs.Forms.{table_instrs};
ghost use Rattle.rv_codegen.specs.Emitted.{data_of, with_instrs, with_items};

use crate::branches::emit_jump_unless;
use crate::constants::set_word;
use crate::operations::emit_jump_to;
use crate::places::{label_of, spot_from_top};
use crate::view::BodyParts;
use crate::words::{emit, load_word};
use cil_flow::StackType;
use mn_outside::NoMemory;
use rv_isa::{Asm, BranchOffset, Imm12, Imm20, Instr, Reg, Shift6};

// The jump to the entry of the table whose number is in x5. Each entry is a far jump.
#[tactic(auto, using(crate::proofs::EmitLemmas::four_grown))]
fn emit_choice(asm: &mut Asm) -> Result<(), NoMemory>
    ensures { OnOk result (asm.new ≡ with_instrs asm.old table_instrs) }
{
    let (entry, number) = (Reg::of(7), Reg::of(5));
    emit(asm, Instr::Auipc(entry, Imm20::of(0)))?;
    emit(asm, Instr::Slli(number, number, Shift6::of(3)))?;
    emit(asm, Instr::Add(entry, entry, number))?;
    emit(asm, Instr::Jalr(Reg::of(0), entry, Imm12::of(16)))?;
    Ok(())
}

// A far jump for each target.
fn emit_table(asm: &mut Asm, body: &BodyParts, targets: &[u32]) -> Result<(), NoMemory>
    ensures { OnOk result (asm.new ≡ with_items asm.old (flat_map (jump_items (data_of body.now) 0 []) targets.now)) }
{
    for target in targets {
        emit_jump_to(asm, body, *target as usize)?;
    }
    Ok(())
}

// The number on top to x5, how many targets there are to x6, and the jump past the switch where it is no smaller.
#[tactic(auto, using(crate::proofs::EmitLemmas::compared_jump_grown))]
fn emit_limit(
    asm: &mut Asm,
    body: &BodyParts,
    place: u16,
    count: usize,
    next: usize,
) -> Result<(), NoMemory>
    requires { place < 4096 }
    ensures { OnOk result (asm.new ≡ with_items asm.old (plain (loads_word 5 place ++ sets_word 6 count ++ Bltu 5 6 12 ∷ []) ++ jump_items (data_of body.now) 0 [] next)) }
{
    load_word(asm, Reg::of(5), place)?;
    set_word(asm, Reg::of(6), count as u64)?;
    let below = Instr::Bltu(Reg::of(5), Reg::of(6), BranchOffset::of(12));
    emit_jump_unless(asm, below, label_of(body, next))?;
    Ok(())
}

/// The jump to the target whose number, from 0, is the value on top, and else to the next instruction.
#[tactic(auto, using(crate::proofs::EmitLemmas::switch_grown))]
pub(crate) fn emit_switch(
    asm: &mut Asm,
    body: &BodyParts,
    at: u32,
    types: &[StackType],
    targets: &[u32],
) -> Result<(), NoMemory>
    requires legal { IsPlan body.now.plan.now }
    requires small { held_count (data_of body.now) ≤ 120 }
    ensures { OnOk result (asm.new ≡ with_items asm.old (switch_items (data_of body.now) at types.now targets.now)) }
{
    let place = spot_from_top(body, types, 1).offset;
    emit_limit(asm, body, place, targets.len(), at as usize + 1)?;
    emit_choice(asm)?;
    emit_table(asm, body, targets)?;
    Ok(())
}
