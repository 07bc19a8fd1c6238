// The return from a method.
ghost use Rattle.std.specs.Prelude.{◌≡◌, ◌<◌, ◌≤◌, ◌∷◌, [], if◌then◌else◌, min, Some, IfOk, OnOk};
ghost use Rattle.rv_isa.specs.declared.instr.Instr.TheVariants.{Addi, Andi, Ecall};
ghost use Rattle.il_model.specs.Admission.{most_words};
ghost use Rattle.il_model.specs.Layouts.{words_of};
ghost use Rattle.cil_meaning.specs.Types.{is_bool};
ghost use Rattle.cil_flow.specs.FramePlans.{IsPlan};
ghost use Rattle.rv_codegen.specs.FrameWords.{loads_word};
ghost use Rattle.rv_codegen.specs.PlainItems.{held_count, return_instrs};
ghost use Rattle.rv_codegen.specs.Forms.{given_word, gives};
ghost use Rattle.rv_codegen.specs.Emitted.{data_of, with_instrs};

use crate::places::{is_bool, spot_from_top};
use crate::view::BodyParts;
use crate::words::{emit, load_word};
use cil_flow::StackType;
use il_model::Program;
use mn_outside::NoMemory;
use rv_isa::{Asm, Imm12, Instr, Reg};
use sqlite_items::Items;
use std::alloc::Global;
use type_inst::capped_words;
use type_tree::TExpr;

// The service RETURN.
fn emit_leave(asm: &mut Asm) -> Result<(), NoMemory>
    ensures { OnOk result (asm.new ≡ with_instrs asm.old (Addi 17 0 2 ∷ Ecall ∷ [])) }
{
    emit(asm, Instr::Addi(Reg::of(17), Reg::of(0), Imm12::of(2)))?;
    emit(asm, Instr::Ecall)?;
    Ok(())
}

// The words of a result, 16 at most.
fn result_words(alloc: Global, program: &Program, kind: &TExpr) -> Result<u16, NoMemory>
    ensures value { IfOk result (λ count. count ≡ min (words_of program.now kind.now) most_words) }
    ensures low { IfOk result (λ count. count ≤ 16) }
{
    let mut kinds: Items<TExpr> = Items::new(alloc);
    kinds.push(kind.copy(alloc)?).map_err(|_| NoMemory)?;
    let words = capped_words(alloc, program, kinds.as_slice(), 16)?;
    match words.as_slice() {
        [count] => match u16::try_from(*count) {
            Ok(count) => Ok(count),
            Err(_) => unreachable!(),
        },
        _ => Err(NoMemory),
    }
}

// A word in x6, for a place of bool.
fn emit_narrowing(asm: &mut Asm, is_bool: bool) -> Result<(), NoMemory>
    ensures { OnOk result (asm.new ≡ with_instrs asm.old (if is_bool then Andi 6 6 255 ∷ [] else [])) }
{
    if is_bool {
        return emit(asm, Instr::Andi(Reg::of(6), Reg::of(6), Imm12::of(255)));
    }
    Ok(())
}

// One word of the frame goes to a word of what x5 leads to.
#[tactic(auto, using(crate::proofs::EmitLemmas::stored_after))]
fn give_word(asm: &mut Asm, offset: u16, word: u16, is_bool: bool) -> Result<(), NoMemory>
    requires offset { offset < 4096 }
    requires word { word < 256 }
    ensures { OnOk result (asm.new ≡ with_instrs asm.old (given_word offset word is_bool)) }
{
    load_word(asm, Reg::of(6), offset)?;
    emit_narrowing(asm, is_bool)?;
    emit(asm, Instr::Sd(Reg::of(6), Reg::of(5), Imm12::of(8 * word)))?;
    Ok(())
}

// So many words of the frame go to what x5 leads to.
#[tactic(auto, using(crate::proofs::EmitLemmas::given_grown))]
fn give_words(asm: &mut Asm, count: u16, offset: u16, is_bool: bool) -> Result<(), NoMemory>
    requires count { count ≤ 16 }
    requires offset { offset ≤ 4080 }
    ensures { OnOk result (asm.new ≡ with_instrs asm.old (gives count offset 0 is_bool)) }
{
    for i in 0..count {
        give_word(asm, offset + i, i, is_bool)?;
    }
    Ok(())
}

// The return with a result.
#[tactic(auto, using(crate::proofs::EmitLemmas::returned_grown))]
fn emit_result(
    alloc: Global,
    asm: &mut Asm,
    body: &BodyParts,
    types: &[StackType],
    kind: &TExpr,
) -> Result<(), NoMemory>
    requires legal { IsPlan body.now.plan.now }
    requires small { held_count (data_of body.now) ≤ 120 }
    ensures { OnOk result (asm.new ≡ with_instrs asm.old (return_instrs (data_of body.now) 0 types.now (Some kind.now))) }
{
    let count = result_words(alloc, body.program, kind)?;
    let place = spot_from_top(body, types, 1).offset;
    load_word(asm, Reg::of(5), 3)?;
    give_words(asm, count, place, is_bool(kind))?;
    emit_leave(asm)?;
    Ok(())
}

/// The return, with the value on top as the result where the method has one.
pub(crate) fn emit_return(
    alloc: Global,
    asm: &mut Asm,
    body: &BodyParts,
    types: &[StackType],
) -> Result<(), NoMemory>
    requires legal { IsPlan body.now.plan.now }
    requires small { held_count (data_of body.now) ≤ 120 }
    ensures { OnOk result (asm.new ≡ with_instrs asm.old (return_instrs (data_of body.now) 0 types.now body.now.method.now.result)) }
{
    match &body.method.result {
        Some(kind) => emit_result(alloc, asm, body, types, kind),
        None => emit_leave(asm),
    }
}
