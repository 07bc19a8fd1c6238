// Code on the places of the stack.
ghost use Rattle.std.specs.Prelude.{◌≡◌, ◌<◌, ◌≤◌, ◌∷◌, ◌++◌, [], OnOk};
ghost use Rattle.cil_flow.specs.FramePlans.{IsPlan};
ghost use Rattle.cil_meaning.specs.Groups as group;
ghost use Rattle.rv_isa.specs.declared.instr.Instr.TheVariants.{Andi, Slli, Srli};
ghost use Rattle.rv_codegen.specs.FrameWords.{loads_word, stores_word};
ghost use Rattle.rv_codegen.specs.Constants.{sets_word};
ghost use Rattle.rv_codegen.specs.PlainItems as spec;
ghost use Rattle.rv_codegen.specs.PlainItems.{held_count, rest, move_instrs, place_instrs, store_instrs, binary_instrs, unary_instrs, conversion_instrs, comparison_instrs, branch_items, print_instrs};
ghost use Rattle.rv_codegen.specs.Forms.{slot_of, conversion_of, comparison_of};
ghost use Rattle.rv_codegen.specs.Emitted.{data_of, with_instrs, with_items};

use crate::branches::{emit_jump, emit_jump_unless};
use crate::constants::set_word;
use crate::forms::{Comparison, Conversion, Slot};
use crate::moves::emit_move;
use crate::numbers::{
    emit_binary, emit_compared, emit_unary, emit_unary_pair, load_two, unless_instr, unless_true,
};
use crate::places::{
    is_bool_slot, is_int32_from_top, label_of, next_spot, spot_from_top, spot_of_slot,
};
use crate::printing;
use crate::view::BodyParts;
use crate::words::{address_word, emit, load_word, store_word};
use cil_flow::StackType;
use mn_outside::NoMemory;
use rv_isa::{Asm, Imm12, Instr, Reg, Shift6};
use store_object::Form;

/// One code word that does nothing.
pub(crate) fn emit_rest(asm: &mut Asm) -> Result<(), NoMemory>
    ensures { OnOk result (asm.new ≡ with_instrs asm.old rest) }
{
    emit(asm, Instr::Addi(Reg::of(0), Reg::of(0), Imm12::of(0)))
}

/// An instruction on x5 and x6, for the two values on top, whose result takes their place.
pub(crate) fn emit_on_two(
    asm: &mut Asm,
    body: &BodyParts,
    types: &[StackType],
    instr: Instr,
) -> Result<(), NoMemory>
    requires legal { IsPlan body.now.plan.now }
    requires small { held_count (data_of body.now) ≤ 120 }
    ensures { OnOk result (asm.new ≡ with_instrs asm.old (binary_instrs (data_of body.now) 0 types.now (instr ∷ []))) }
{
    let first = spot_from_top(body, types, 2).offset;
    let second = spot_from_top(body, types, 1).offset;
    emit_binary(asm, instr, first, second)
}

/// An instruction on x5, for the value on top, whose result takes its place.
pub(crate) fn emit_on_one(
    asm: &mut Asm,
    body: &BodyParts,
    types: &[StackType],
    instr: Instr,
) -> Result<(), NoMemory>
    requires legal { IsPlan body.now.plan.now }
    requires small { held_count (data_of body.now) ≤ 120 }
    ensures { OnOk result (asm.new ≡ with_instrs asm.old (unary_instrs (data_of body.now) 0 types.now (instr ∷ []))) }
{
    let place = spot_from_top(body, types, 1).offset;
    emit_unary(asm, instr, place)
}

/// The value on top is printed.
pub(crate) fn emit_print(
    asm: &mut Asm,
    body: &BodyParts,
    types: &[StackType],
    form: Form,
) -> Result<(), NoMemory>
    requires legal { IsPlan body.now.plan.now }
    requires small { held_count (data_of body.now) ≤ 120 }
    ensures { OnOk result (asm.new ≡ with_instrs asm.old (print_instrs (data_of body.now) 0 types.now form)) }
{
    let place = spot_from_top(body, types, 1).offset;
    printing::emit_print(asm, place, form)
}

/// The value on top once more.
pub(crate) fn emit_copy(
    asm: &mut Asm,
    body: &BodyParts,
    types: &[StackType],
) -> Result<(), NoMemory>
    requires legal { IsPlan body.now.plan.now }
    requires small { held_count (data_of body.now) ≤ 120 }
    ensures { OnOk result (asm.new ≡ with_instrs asm.old (move_instrs (data_of body.now) (spec.from_top (data_of body.now) 0 types.now 1) (spec.next_place (data_of body.now) 0 types.now))) }
{
    emit_move(asm, spot_from_top(body, types, 1), next_spot(body, types))
}

/// A constant onto the stack.
#[tactic(auto, using(crate::proofs::EmitLemmas::grown_twice))]
pub(crate) fn emit_push(
    asm: &mut Asm,
    body: &BodyParts,
    types: &[StackType],
    word: u64,
) -> Result<(), NoMemory>
    requires legal { IsPlan body.now.plan.now }
    requires small { held_count (data_of body.now) ≤ 120 }
    ensures { OnOk result (asm.new ≡ with_instrs asm.old (sets_word 5 word ++ stores_word 5 (spec.offset_of (data_of body.now) (spec.next_place (data_of body.now) 0 types.now)))) }
{
    let place = next_spot(body, types).offset;
    set_word(asm, Reg::of(5), word)?;
    store_word(asm, Reg::of(5), place)?;
    Ok(())
}

/// The value of an argument or a local onto the stack.
pub(crate) fn emit_read(
    asm: &mut Asm,
    body: &BodyParts,
    types: &[StackType],
    slot: Slot,
) -> Result<(), NoMemory>
    requires legal { IsPlan body.now.plan.now }
    requires small { held_count (data_of body.now) ≤ 120 }
    ensures { OnOk result (asm.new ≡ with_instrs asm.old (place_instrs (data_of body.now) 0 types.now (group.Reads (slot_of slot)))) }
{
    emit_move(asm, spot_of_slot(body, slot), next_spot(body, types))
}

/// A pointer to the place of an argument or a local onto the stack.
#[tactic(auto, using(crate::proofs::EmitLemmas::grown_twice))]
pub(crate) fn emit_point(
    asm: &mut Asm,
    body: &BodyParts,
    types: &[StackType],
    slot: Slot,
) -> Result<(), NoMemory>
    requires legal { IsPlan body.now.plan.now }
    requires small { held_count (data_of body.now) ≤ 120 }
    ensures { OnOk result (asm.new ≡ with_instrs asm.old (place_instrs (data_of body.now) 0 types.now (group.Points (slot_of slot)))) }
{
    let from = spot_of_slot(body, slot).offset;
    let to = next_spot(body, types).offset;
    address_word(asm, Reg::of(5), from)?;
    store_word(asm, Reg::of(5), to)?;
    Ok(())
}

// The low eight bits of a word go to another place.
#[tactic(auto, using(crate::proofs::EmitLemmas::stored_grown))]
fn store_bool(asm: &mut Asm, from: u16, to: u16) -> Result<(), NoMemory>
    requires from { from < 4096 }
    requires to { to < 4096 }
    ensures { OnOk result (asm.new ≡ with_instrs asm.old (loads_word 5 from ++ Andi 5 5 255 ∷ stores_word 5 to)) }
{
    load_word(asm, Reg::of(5), from)?;
    emit(asm, Instr::Andi(Reg::of(5), Reg::of(5), Imm12::of(255)))?;
    store_word(asm, Reg::of(5), to)?;
    Ok(())
}

/// The value on top goes to the place of an argument or a local.
pub(crate) fn emit_write(
    asm: &mut Asm,
    body: &BodyParts,
    types: &[StackType],
    slot: Slot,
) -> Result<(), NoMemory>
    requires legal { IsPlan body.now.plan.now }
    requires small { held_count (data_of body.now) ≤ 120 }
    ensures { OnOk result (asm.new ≡ with_instrs asm.old (place_instrs (data_of body.now) 0 types.now (group.Writes (slot_of slot)))) }
{
    let from = spot_from_top(body, types, 1);
    let to = spot_of_slot(body, slot);
    if is_bool_slot(body, slot) {
        return store_bool(asm, from.offset, to.offset);
    }
    emit_move(asm, from, to)
}

// A number without sign of 32 bits in a word.
fn emit_unsigned(asm: &mut Asm, place: u16) -> Result<(), NoMemory>
    requires { place < 4096 }
    ensures { OnOk result (asm.new ≡ with_instrs asm.old (loads_word 5 place ++ (Slli 5 5 32 ∷ Srli 5 5 32 ∷ []) ++ stores_word 5 place)) }
{
    let word = Reg::of(5);
    let (up, down) = (
        Instr::Slli(word, word, Shift6::of(32)),
        Instr::Srli(word, word, Shift6::of(32)),
    );
    emit_unary_pair(asm, up, down, place)
}

/// A conversion of the value on top.
pub(crate) fn emit_conversion(
    asm: &mut Asm,
    body: &BodyParts,
    types: &[StackType],
    form: Conversion,
) -> Result<(), NoMemory>
    requires legal { IsPlan body.now.plan.now }
    requires small { held_count (data_of body.now) ≤ 120 }
    ensures { OnOk result (asm.new ≡ with_instrs asm.old (conversion_instrs (data_of body.now) 0 types.now (conversion_of form))) }
{
    let word = Reg::of(5);
    match form {
        Conversion::Int32 => emit_on_one(asm, body, types, Instr::Addiw(word, word, Imm12::of(0))),
        Conversion::Int64 => emit_rest(asm),
        Conversion::Unsigned64 => emit_to_unsigned(asm, body, types),
    }
}

fn emit_to_unsigned(asm: &mut Asm, body: &BodyParts, types: &[StackType]) -> Result<(), NoMemory>
    requires legal { IsPlan body.now.plan.now }
    requires small { held_count (data_of body.now) ≤ 120 }
    ensures { OnOk result (asm.new ≡ with_instrs asm.old (conversion_instrs (data_of body.now) 0 types.now group.ToUnsigned64)) }
{
    if is_int32_from_top(types, 1) {
        return emit_unsigned(asm, spot_from_top(body, types, 1).offset);
    }
    emit_rest(asm)
}

/// A comparison of the two values on top, whose result takes their place.
pub(crate) fn emit_comparing(
    asm: &mut Asm,
    body: &BodyParts,
    types: &[StackType],
    form: Comparison,
) -> Result<(), NoMemory>
    requires legal { IsPlan body.now.plan.now }
    requires small { held_count (data_of body.now) ≤ 120 }
    ensures { OnOk result (asm.new ≡ with_instrs asm.old (binary_instrs (data_of body.now) 0 types.now (comparison_instrs (comparison_of form)))) }
{
    let first = spot_from_top(body, types, 2).offset;
    let second = spot_from_top(body, types, 1).offset;
    emit_compared(asm, form, first, second)
}

/// A jump to an instruction.
pub(crate) fn emit_jump_to(asm: &mut Asm, body: &BodyParts, to: usize) -> Result<(), NoMemory>
    ensures { OnOk result (asm.new ≡ with_items asm.old (spec.jump_items (data_of body.now) 0 [] to)) }
{
    emit_jump(asm, label_of(body, to))
}

/// A jump to an instruction where the value on top is as wanted.
#[tactic(auto, using(crate::proofs::EmitLemmas::jump_grown))]
pub(crate) fn emit_jump_where(
    asm: &mut Asm,
    body: &BodyParts,
    types: &[StackType],
    wanted: bool,
    to: u32,
) -> Result<(), NoMemory>
    requires legal { IsPlan body.now.plan.now }
    requires small { held_count (data_of body.now) ≤ 120 }
    ensures { OnOk result (asm.new ≡ with_items asm.old (branch_items (data_of body.now) 0 types.now (group.JumpsWhere wanted to))) }
{
    let place = spot_from_top(body, types, 1).offset;
    load_word(asm, Reg::of(5), place)?;
    emit_jump_unless(asm, unless_true(wanted), label_of(body, to as usize))?;
    Ok(())
}

/// A jump to an instruction where a comparison of the two values on top holds.
#[tactic(auto, using(crate::proofs::EmitLemmas::compared_jump_grown))]
pub(crate) fn emit_jump_by(
    asm: &mut Asm,
    body: &BodyParts,
    types: &[StackType],
    form: Comparison,
    to: u32,
) -> Result<(), NoMemory>
    requires legal { IsPlan body.now.plan.now }
    requires small { held_count (data_of body.now) ≤ 120 }
    ensures { OnOk result (asm.new ≡ with_items asm.old (branch_items (data_of body.now) 0 types.now (group.JumpsBy (comparison_of form) to))) }
{
    let first = spot_from_top(body, types, 2).offset;
    let second = spot_from_top(body, types, 1).offset;
    load_two(asm, first, second)?;
    emit_jump_unless(asm, unless_instr(form), label_of(body, to as usize))?;
    Ok(())
}
