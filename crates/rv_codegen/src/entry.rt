// The copy of arguments at a body's entry.
ghost use Rattle.std.specs.Prelude.{◌≡◌, ◌<◌, ◌≤◌, ◌∷◌, ◌++◌, [], OnOk, length, nat_lt, if◌then◌else◌};
ghost use Rattle.std.specs.Option.{option_copied};
ghost use Rattle.il_model.specs.Find.{takes_object};
ghost use Rattle.il_model.specs.Kinds.{is_struct_kind, is_struct_class};
ghost use Rattle.cil_flow.specs.FramePlans.{IsPlan};
ghost use Rattle.cil_flow.specs.declared.state.States.{States};
ghost use Rattle.il_model.specs.declared.method.MethodDef.{MethodDef};
ghost use Rattle.cil_meaning.specs.Groups.{Argument};
ghost use Rattle.rv_isa.specs.declared.instr.Instr.TheVariants as rv;
ghost use Rattle.rv_codegen.specs.PlainItems as spec;
ghost use Rattle.rv_codegen.specs.PlainItems.{argument_count, held_count, adapts, points_into_box, take_words, loop_words, taken_argument, copies_arguments, entry_items};
ghost use Rattle.rv_codegen.specs.Forms.{taken_word, copied_argument};
ghost use Rattle.rv_codegen.specs.Emitted.{data_of, data_in, IsViewOf, IsSmallView, with_instrs, with_items};

use crate::emitting::parts_of;
use crate::forms::Slot;
use crate::places::{Spot, argument_count, is_bool_slot, spot_of_slot};
use crate::view::BodyParts;
use crate::words::{emit, lower, store_word, upper};
use cil_verify::BodyView;
use il_model::{ClassDef, ClassKind, Shape};
use mn_outside::NoMemory;
use rv_isa::{Asm, BranchOffset, Imm12, Instr, Reg, Shift6};

fn has_object(shape: Shape) -> bool
    ensures { result ≡ takes_object shape }
{
    match shape {
        Shape::Fixed => false,
        Shape::Instance | Shape::Virtual | Shape::NewSlot | Shape::Abstract => true,
    }
}

fn is_struct_kind(kind: ClassKind) -> bool
    ensures { result ≡ is_struct_kind kind }
{
    match kind {
        ClassKind::Struct => true,
        ClassKind::Plain | ClassKind::Abstract | ClassKind::Interface | ClassKind::Delegate =>
            false,
    }
}

fn is_struct(class: Option<&ClassDef>) -> bool
    ensures { result ≡ is_struct_class (option_copied class.entry) }
{
    match class {
        Some(class) => is_struct_kind(class.kind),
        None => false,
    }
}

// Whether an argument is the object of a struct's method.
fn is_unboxed(body: &BodyParts, number: u16) -> bool
    ensures { result ≡ spec.is_unboxed (data_of body.now) number }
{
    if !has_object(body.method.shape) {
        return false;
    }
    if number != 0 {
        return false;
    }
    is_struct(
        body.program
            .classes
            .as_slice()
            .get(body.method.owner as usize),
    )
}

// Instructions one after the other.
fn emit_all(asm: &mut Asm, instrs: &[Instr]) -> Result<(), NoMemory>
    ensures { OnOk result (asm.new ≡ with_instrs asm.old instrs.now) }
{
    for instr in instrs {
        emit(asm, *instr)?;
    }
    Ok(())
}

// The number of an object in x6 becomes the pointer to its word 0; other words are kept.
fn emit_pointing(asm: &mut Asm) -> Result<(), NoMemory>
    ensures { OnOk result (asm.new ≡ with_instrs asm.old points_into_box) }
{
    let (word, other, none) = (Reg::of(6), Reg::of(7), Reg::of(0));
    let instrs = [
        Instr::Srli(other, word, Shift6::of(30)),
        Instr::Bne(other, none, BranchOffset::of(24)),
        Instr::Beq(word, none, BranchOffset::of(20)),
        Instr::Slli(word, word, Shift6::of(24)),
        Instr::Addi(other, none, Imm12::of(1)),
        Instr::Slli(other, other, Shift6::of(62)),
        Instr::Add(word, word, other),
    ];
    emit_all(asm, instrs.as_slice())
}

// What is done to a word of an argument in x6.
fn emit_adapting(asm: &mut Asm, body: &BodyParts, number: u16) -> Result<(), NoMemory>
    ensures { OnOk result (asm.new ≡ with_instrs asm.old (adapts (data_of body.now) number)) }
{
    if is_bool_slot(body, Slot::Argument(u64::from(number))) {
        return emit(asm, Instr::Andi(Reg::of(6), Reg::of(6), Imm12::of(255)));
    }
    if is_unboxed(body, number) {
        return emit_pointing(asm);
    }
    Ok(())
}

// A word of an argument, from the address in x5 on, goes to a word of the frame.
#[tactic(auto, using(crate::proofs::EmitLemmas::taken_grown))]
fn take_word(
    asm: &mut Asm,
    body: &BodyParts,
    number: u16,
    word: u16,
    offset: u16,
) -> Result<(), NoMemory>
    requires word { word < 256 }
    requires offset { offset < 4096 }
    ensures { OnOk result (asm.new ≡ with_instrs asm.old (taken_word (adapts (data_of body.now) number) word offset)) }
{
    emit(asm, Instr::Ld(Reg::of(6), Reg::of(5), Imm12::of(8 * word)))?;
    emit_adapting(asm, body, number)?;
    store_word(asm, Reg::of(6), offset)?;
    Ok(())
}

// So many words of an argument.
fn take_words(
    asm: &mut Asm,
    body: &BodyParts,
    number: u16,
    count: u16,
    offset: u16,
) -> Result<(), NoMemory>
    requires count { count ≤ 16 }
    requires offset { offset ≤ 4080 }
    ensures { OnOk result (asm.new ≡ with_instrs asm.old (take_words (data_of body.now) (adapts (data_of body.now) number) count 0 offset)) }
{
    for i in 0..count {
        take_word(asm, body, number, i, offset + i)?;
    }
    Ok(())
}

// How many code words adapt a word of an argument.
fn adapting_len(body: &BodyParts, number: u16) -> u16
    ensures value { result ≡ length (adapts (data_of body.now) number) }
    ensures small { result ≤ 7 }
{
    if is_bool_slot(body, Slot::Argument(u64::from(number))) {
        return 1;
    }
    if is_unboxed(body, number) {
        return 7;
    }
    0
}

// So many words of an argument, in a loop: from the address in x5, up to the one in x29, to the address in x28, which
// is short of the offset's lower bits.
#[tactic(auto, using(crate::proofs::EmitLemmas::unary_grown))]
fn loop_words(
    asm: &mut Asm,
    body: &BodyParts,
    number: u16,
    count: u16,
    offset: u16,
) -> Result<(), NoMemory>
    requires count { count ≤ 16 }
    requires offset { offset ≤ 4080 }
    ensures { OnOk result (asm.new ≡ with_instrs asm.old (loop_words (adapts (data_of body.now) number) count offset)) }
{
    let (from, word, to, end) = (Reg::of(5), Reg::of(6), Reg::of(28), Reg::of(29));
    let back = BranchOffset::of(8_176 - 4 * adapting_len(body, number));
    let before = [
        Instr::Lui(to, upper(offset)),
        Instr::Add(to, to, Reg::of(8)),
        Instr::Addi(end, from, Imm12::of(8 * count)),
        Instr::Ld(word, from, Imm12::of(0)),
    ];
    let behind = [
        Instr::Sd(word, to, lower(offset)),
        Instr::Addi(from, from, Imm12::of(8)),
        Instr::Addi(to, to, Imm12::of(8)),
        Instr::Bne(from, end, back),
    ];
    emit_all(asm, before.as_slice())?;
    emit_adapting(asm, body, number)?;
    emit_all(asm, behind.as_slice())?;
    Ok(())
}

// Whether a loop copies an argument of so many words: one after the other they'd have more than 16 code words.
fn is_looped(body: &BodyParts, number: u16, width: u16) -> bool
    ensures { result ≡ nat_lt (if spec.is_unboxed (data_of body.now) number then 1 else 3) width }
{
    if is_unboxed(body, number) {
        return 1 < width;
    }
    3 < width
}

// The words of an argument whose place lies there.
fn take_argument(asm: &mut Asm, body: &BodyParts, number: u16, spot: Spot) -> Result<(), NoMemory>
    requires width { spot.width ≡ spec.width_of (data_of body.now) number }
    requires offset { spot.offset ≡ spec.offset_of (data_of body.now) number }
    requires narrow { spot.width ≤ 16 }
    requires roomy { spot.offset ≤ 4080 }
    ensures { OnOk result (asm.new ≡ with_instrs asm.old (taken_argument (data_of body.now) number)) }
{
    if is_looped(body, number, spot.width) {
        return loop_words(asm, body, number, spot.width, spot.offset);
    }
    take_words(asm, body, number, spot.width, spot.offset)
}

// One argument.
#[tactic(auto, using(crate::proofs::EmitLemmas::grown_twice, crate::proofs::PlanLemmas::all_narrow))]
fn copy_argument(asm: &mut Asm, body: &BodyParts, number: u16) -> Result<(), NoMemory>
    requires legal { IsPlan body.now.plan.now }
    requires small { held_count (data_of body.now) ≤ 120 }
    requires number { number < 256 }
    ensures { OnOk result (asm.new ≡ with_instrs asm.old (copied_argument (data_of body.now) number)) }
{
    let spot = spot_of_slot(body, Slot::Argument(u64::from(number)));
    emit(
        asm,
        Instr::Ld(Reg::of(5), Reg::of(12), Imm12::of(8 * number)),
    )?;
    take_argument(asm, body, number, spot)?;
    Ok(())
}

// So many arguments.
fn copy_arguments(asm: &mut Asm, body: &BodyParts, count: u16) -> Result<(), NoMemory>
    requires legal { IsPlan body.now.plan.now }
    requires small { held_count (data_of body.now) ≤ 120 }
    requires count { count ≤ 120 }
    ensures { OnOk result (asm.new ≡ with_instrs asm.old (copies_arguments (data_of body.now) count 0)) }
{
    for i in 0..count {
        copy_argument(asm, body, i)?;
    }
    Ok(())
}

fn copy_all(asm: &mut Asm, body: &BodyParts) -> Result<(), NoMemory>
    requires legal { IsPlan body.now.plan.now }
    requires small { held_count (data_of body.now) ≤ 120 }
    ensures { OnOk result (asm.new ≡ with_items asm.old (entry_items (data_of body.now))) }
{
    copy_arguments(asm, body, argument_count(body) as u16)
}

/// Puts the copy of a method's arguments at the end, from the addresses in the list at x12 to their places. It stands
/// before the label of instruction 0. The plan is a legal one for the method, whose arguments and locals are
/// at most 120. After a refusal the assembler is not to be used again.
pub fn emit_entry(asm: &mut Asm, body: &BodyView) -> Result<(), NoMemory>
    requires method { body.now.method < length body.now.program.now.program.methods }
    requires states { body.now.method < length body.now.program.now.states }
    requires plan { IsPlan body.now.plan.now }
    requires small { IsSmallView body.now }
    ensures items { OnOk result ((m : MethodDef) (s : States) → IsViewOf body.now m s →
        asm.new ≡ with_items asm.old (entry_items (data_in body.now m s))) }
    // The labels are those that it had, each with its place.
    ensures places { OnOk result (asm.new.places ≡ asm.old.places) }
{
    let parts = parts_of(body);
    copy_all(asm, &parts)
}
