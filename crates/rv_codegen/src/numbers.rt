// Arithmetic and comparisons on x5 and x6, with the result in x5.
ghost use Rattle.std.specs.Prelude.{◌≡◌, ◌<◌, ◌++◌, ◌∷◌, [], List, OnOk, true, false};
ghost use Rattle.rv_isa.specs.declared.instr.Instr.{Instr};
ghost use Rattle.cil_meaning.specs.Groups.{Wrapping, Comparison};
ghost use Rattle.rv_codegen.specs.FrameWords.{loads_word, stores_word};
ghost use Rattle.rv_codegen.specs.PlainItems.{unary_instr, comparison_instrs, unless_instr, unless_true, turned_over};
ghost use Rattle.rv_codegen.specs.Forms.{binary_instr, unary_of, comparison_of};
ghost use Rattle.rv_codegen.specs.Emitted.{with_instrs};

use crate::forms::{Binary, Comparison, Unary};
use crate::words::{emit, load_word, store_word};
use mn_outside::NoMemory;
use rv_isa::{Asm, BranchOffset, Imm12, Instr, Reg};

/// Two operands to x5 and x6.
pub(crate) fn load_two(asm: &mut Asm, first: u16, second: u16) -> Result<(), NoMemory>
    requires first { first < 4096 }
    requires second { second < 4096 }
    ensures { OnOk result (asm.new ≡ with_instrs (with_instrs asm.old (loads_word 5 first)) (loads_word 6 second)) }
{
    load_word(asm, Reg::of(5), first)?;
    load_word(asm, Reg::of(6), second)?;
    Ok(())
}

/// One instruction on two operands, whose result goes to the place of the first.
#[tactic(auto, using(crate::proofs::EmitLemmas::binary_grown))]
pub(crate) fn emit_binary(
    asm: &mut Asm,
    instr: Instr,
    first: u16,
    second: u16,
) -> Result<(), NoMemory>
    requires first { first < 4096 }
    requires second { second < 4096 }
    ensures { OnOk result (asm.new ≡ with_instrs asm.old (loads_word 5 first ++ loads_word 6 second ++ (instr ∷ []) ++ stores_word 5 first)) }
{
    load_two(asm, first, second)?;
    emit(asm, instr)?;
    store_word(asm, Reg::of(5), first)?;
    Ok(())
}

/// One instruction on one operand, whose result goes to its place.
#[tactic(auto, using(crate::proofs::EmitLemmas::unary_grown))]
pub(crate) fn emit_unary(asm: &mut Asm, instr: Instr, place: u16) -> Result<(), NoMemory>
    requires { place < 4096 }
    ensures { OnOk result (asm.new ≡ with_instrs asm.old (loads_word 5 place ++ (instr ∷ []) ++ stores_word 5 place)) }
{
    load_word(asm, Reg::of(5), place)?;
    emit(asm, instr)?;
    store_word(asm, Reg::of(5), place)?;
    Ok(())
}

// On the low 32 bits, with the sign of the result extended.
fn narrow_instr(form: Binary) -> Instr
    ensures { result ≡ binary_instr form true }
{
    let (to, other) = (Reg::of(5), Reg::of(6));
    match form {
        Binary::Add => Instr::Addw(to, to, other),
        Binary::Sub => Instr::Subw(to, to, other),
        Binary::Mul => Instr::Mulw(to, to, other),
        Binary::And => Instr::And(to, to, other),
        Binary::Or => Instr::Or(to, to, other),
        Binary::Xor => Instr::Xor(to, to, other),
        Binary::Shl => Instr::Sllw(to, to, other),
        Binary::Shr => Instr::Sraw(to, to, other),
        Binary::ShrUn => Instr::Srlw(to, to, other),
    }
}

// On 64 bits.
fn wide_instr(form: Binary) -> Instr
    ensures { result ≡ binary_instr form false }
{
    let (to, other) = (Reg::of(5), Reg::of(6));
    match form {
        Binary::Add => Instr::Add(to, to, other),
        Binary::Sub => Instr::Sub(to, to, other),
        Binary::Mul => Instr::Mul(to, to, other),
        Binary::And => Instr::And(to, to, other),
        Binary::Or => Instr::Or(to, to, other),
        Binary::Xor => Instr::Xor(to, to, other),
        Binary::Shl => Instr::Sll(to, to, other),
        Binary::Shr => Instr::Sra(to, to, other),
        Binary::ShrUn => Instr::Srl(to, to, other),
    }
}

/// A calculation on x5 and x6.
pub(crate) fn binary_instr(form: Binary, is_narrow: bool) -> Instr
    ensures { result ≡ binary_instr form is_narrow }
{
    if is_narrow {
        narrow_instr(form)
    } else {
        wide_instr(form)
    }
}

fn negation(is_narrow: bool) -> Instr
    ensures { result ≡ unary_instr (unary_of Unary.Neg) is_narrow }
{
    let (to, none) = (Reg::of(5), Reg::of(0));
    if is_narrow {
        Instr::Subw(to, none, to)
    } else {
        Instr::Sub(to, none, to)
    }
}

/// A calculation on x5.
pub(crate) fn unary_instr(form: Unary, is_narrow: bool) -> Instr
    ensures { result ≡ unary_instr (unary_of form) is_narrow }
{
    match form {
        Unary::Neg => negation(is_narrow),
        Unary::Not => Instr::Xori(Reg::of(5), Reg::of(5), Imm12::of(4095)),
    }
}

// One instruction and another.
fn emit_pair(asm: &mut Asm, first: Instr, second: Instr) -> Result<(), NoMemory>
    ensures { OnOk result (asm.new ≡ with_instrs asm.old (first ∷ second ∷ [])) }
{
    emit(asm, first)?;
    emit(asm, second)?;
    Ok(())
}

// A test in x5, turned over.
fn emit_turned(asm: &mut Asm, test: Instr) -> Result<(), NoMemory>
    ensures { OnOk result (asm.new ≡ with_instrs asm.old (test ∷ turned_over)) }
{
    emit_pair(asm, test, Instr::Xori(Reg::of(5), Reg::of(5), Imm12::of(1)))
}

/// Whether the comparison of x5 with x6 holds, as 0 or 1 in x5.
pub(crate) fn emit_comparison(asm: &mut Asm, form: Comparison) -> Result<(), NoMemory>
    ensures { OnOk result (asm.new ≡ with_instrs asm.old (comparison_instrs (comparison_of form))) }
{
    let (to, other) = (Reg::of(5), Reg::of(6));
    let difference = Instr::Sub(to, to, other);
    match form {
        Comparison::Equal => emit_pair(asm, difference, Instr::Sltiu(to, to, Imm12::of(1))),
        Comparison::Unequal => emit_pair(asm, difference, Instr::Sltu(to, Reg::of(0), to)),
        Comparison::Less => emit(asm, Instr::Slt(to, to, other)),
        Comparison::LessUn => emit(asm, Instr::Sltu(to, to, other)),
        Comparison::LessOrEqual => emit_turned(asm, Instr::Slt(to, other, to)),
        Comparison::LessOrEqualUn => emit_turned(asm, Instr::Sltu(to, other, to)),
        Comparison::Greater => emit(asm, Instr::Slt(to, other, to)),
        Comparison::GreaterUn => emit(asm, Instr::Sltu(to, other, to)),
        Comparison::GreaterOrEqual => emit_turned(asm, Instr::Slt(to, to, other)),
        Comparison::GreaterOrEqualUn => emit_turned(asm, Instr::Sltu(to, to, other)),
    }
}

/// The branch past the next three code words where the comparison of x5 with x6 doesn't hold.
pub(crate) fn unless_instr(form: Comparison) -> Instr
    ensures { result ≡ unless_instr (comparison_of form) }
{
    let (first, second) = (Reg::of(5), Reg::of(6));
    let past = BranchOffset::of(12);
    match form {
        Comparison::Equal => Instr::Bne(first, second, past),
        Comparison::Unequal => Instr::Beq(first, second, past),
        Comparison::Less => Instr::Bge(first, second, past),
        Comparison::LessUn => Instr::Bgeu(first, second, past),
        Comparison::LessOrEqual => Instr::Blt(second, first, past),
        Comparison::LessOrEqualUn => Instr::Bltu(second, first, past),
        Comparison::Greater => Instr::Bge(second, first, past),
        Comparison::GreaterUn => Instr::Bgeu(second, first, past),
        Comparison::GreaterOrEqual => Instr::Blt(first, second, past),
        Comparison::GreaterOrEqualUn => Instr::Bltu(first, second, past),
    }
}

/// The branch past the next three code words where x5 isn't as wanted.
pub(crate) fn unless_true(is_true: bool) -> Instr
    ensures { result ≡ unless_true is_true }
{
    let past = BranchOffset::of(12);
    if is_true {
        Instr::Beq(Reg::of(5), Reg::of(0), past)
    } else {
        Instr::Bne(Reg::of(5), Reg::of(0), past)
    }
}

/// A comparison of two words, whose result goes to the place of the first.
#[tactic(auto, using(crate::proofs::EmitLemmas::binary_grown))]
pub(crate) fn emit_compared(
    asm: &mut Asm,
    form: Comparison,
    first: u16,
    second: u16,
) -> Result<(), NoMemory>
    requires first { first < 4096 }
    requires second { second < 4096 }
    ensures { OnOk result (asm.new ≡ with_instrs asm.old (loads_word 5 first ++ loads_word 6 second ++ comparison_instrs (comparison_of form) ++ stores_word 5 first)) }
{
    load_two(asm, first, second)?;
    emit_comparison(asm, form)?;
    store_word(asm, Reg::of(5), first)?;
    Ok(())
}

/// Two instructions on one operand, whose result goes to its place.
#[tactic(auto, using(crate::proofs::EmitLemmas::unary_grown))]
pub(crate) fn emit_unary_pair(
    asm: &mut Asm,
    first: Instr,
    second: Instr,
    place: u16,
) -> Result<(), NoMemory>
    requires { place < 4096 }
    ensures { OnOk result (asm.new ≡ with_instrs asm.old (loads_word 5 place ++ (first ∷ second ∷ []) ++ stores_word 5 place)) }
{
    load_word(asm, Reg::of(5), place)?;
    emit_pair(asm, first, second)?;
    store_word(asm, Reg::of(5), place)?;
    Ok(())
}
