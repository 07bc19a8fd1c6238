// The kind of each instruction.
ghost use Rattle.std.specs.Prelude.{◌≡◌};
ghost use Rattle.rv_machine.specs.declared.registers.Core.{Core};
ghost use Rattle.rv_machine.specs.Effect.{effect_of};
ghost use Rattle.rv_machine.specs.Kind.{kind_effect};

use crate::condition::Condition;
use crate::kind::Kind;
use crate::operation::Operation;
use crate::size::Size;
use rv_isa::Instr;

// The table: each instruction's kind.
#[inline]
#[rattlefmt::skip]
pub(crate) fn classify(instr: &Instr) -> Kind
    ensures { (core : Core) → effect_of instr.now core ≡ kind_effect result core }
{
    match *instr {
        Instr::Lb(rd, rs1, imm) => Kind::Load(Size::One, true, rd, rs1, imm),
        Instr::Lh(rd, rs1, imm) => Kind::Load(Size::Two, true, rd, rs1, imm),
        Instr::Lw(rd, rs1, imm) => Kind::Load(Size::Four, true, rd, rs1, imm),
        Instr::Ld(rd, rs1, imm) => Kind::Load(Size::Eight, true, rd, rs1, imm),
        Instr::Lbu(rd, rs1, imm) => Kind::Load(Size::One, false, rd, rs1, imm),
        Instr::Lhu(rd, rs1, imm) => Kind::Load(Size::Two, false, rd, rs1, imm),
        Instr::Lwu(rd, rs1, imm) => Kind::Load(Size::Four, false, rd, rs1, imm),
        Instr::Sb(rs2, rs1, imm) => Kind::Store(Size::One, rs2, rs1, imm),
        Instr::Sh(rs2, rs1, imm) => Kind::Store(Size::Two, rs2, rs1, imm),
        Instr::Sw(rs2, rs1, imm) => Kind::Store(Size::Four, rs2, rs1, imm),
        Instr::Sd(rs2, rs1, imm) => Kind::Store(Size::Eight, rs2, rs1, imm),
        Instr::Addi(rd, rs1, imm) => Kind::Immediate(Operation::Add, rd, rs1, imm),
        Instr::Slli(rd, rs1, count) => Kind::LongShift(Operation::Sll, rd, rs1, count),
        Instr::Slti(rd, rs1, imm) => Kind::Immediate(Operation::Slt, rd, rs1, imm),
        Instr::Sltiu(rd, rs1, imm) => Kind::Immediate(Operation::Sltu, rd, rs1, imm),
        Instr::Xori(rd, rs1, imm) => Kind::Immediate(Operation::Xor, rd, rs1, imm),
        Instr::Srli(rd, rs1, count) => Kind::LongShift(Operation::Srl, rd, rs1, count),
        Instr::Srai(rd, rs1, count) => Kind::LongShift(Operation::Sra, rd, rs1, count),
        Instr::Ori(rd, rs1, imm) => Kind::Immediate(Operation::Or, rd, rs1, imm),
        Instr::Andi(rd, rs1, imm) => Kind::Immediate(Operation::And, rd, rs1, imm),
        Instr::Addiw(rd, rs1, imm) => Kind::Immediate(Operation::Addw, rd, rs1, imm),
        Instr::Slliw(rd, rs1, count) => Kind::ShortShift(Operation::Sllw, rd, rs1, count),
        Instr::Srliw(rd, rs1, count) => Kind::ShortShift(Operation::Srlw, rd, rs1, count),
        Instr::Sraiw(rd, rs1, count) => Kind::ShortShift(Operation::Sraw, rd, rs1, count),
        Instr::Add(rd, rs1, rs2) => Kind::Register(Operation::Add, rd, rs1, rs2),
        Instr::Sll(rd, rs1, rs2) => Kind::Register(Operation::Sll, rd, rs1, rs2),
        Instr::Slt(rd, rs1, rs2) => Kind::Register(Operation::Slt, rd, rs1, rs2),
        Instr::Sltu(rd, rs1, rs2) => Kind::Register(Operation::Sltu, rd, rs1, rs2),
        Instr::Xor(rd, rs1, rs2) => Kind::Register(Operation::Xor, rd, rs1, rs2),
        Instr::Srl(rd, rs1, rs2) => Kind::Register(Operation::Srl, rd, rs1, rs2),
        Instr::Or(rd, rs1, rs2) => Kind::Register(Operation::Or, rd, rs1, rs2),
        Instr::And(rd, rs1, rs2) => Kind::Register(Operation::And, rd, rs1, rs2),
        Instr::Sub(rd, rs1, rs2) => Kind::Register(Operation::Sub, rd, rs1, rs2),
        Instr::Sra(rd, rs1, rs2) => Kind::Register(Operation::Sra, rd, rs1, rs2),
        Instr::Mul(rd, rs1, rs2) => Kind::Register(Operation::Mul, rd, rs1, rs2),
        Instr::Mulh(rd, rs1, rs2) => Kind::Register(Operation::Mulh, rd, rs1, rs2),
        Instr::Mulhsu(rd, rs1, rs2) => Kind::Register(Operation::Mulhsu, rd, rs1, rs2),
        Instr::Mulhu(rd, rs1, rs2) => Kind::Register(Operation::Mulhu, rd, rs1, rs2),
        Instr::Div(rd, rs1, rs2) => Kind::Register(Operation::Div, rd, rs1, rs2),
        Instr::Divu(rd, rs1, rs2) => Kind::Register(Operation::Divu, rd, rs1, rs2),
        Instr::Rem(rd, rs1, rs2) => Kind::Register(Operation::Rem, rd, rs1, rs2),
        Instr::Remu(rd, rs1, rs2) => Kind::Register(Operation::Remu, rd, rs1, rs2),
        Instr::Addw(rd, rs1, rs2) => Kind::Register(Operation::Addw, rd, rs1, rs2),
        Instr::Sllw(rd, rs1, rs2) => Kind::Register(Operation::Sllw, rd, rs1, rs2),
        Instr::Srlw(rd, rs1, rs2) => Kind::Register(Operation::Srlw, rd, rs1, rs2),
        Instr::Subw(rd, rs1, rs2) => Kind::Register(Operation::Subw, rd, rs1, rs2),
        Instr::Sraw(rd, rs1, rs2) => Kind::Register(Operation::Sraw, rd, rs1, rs2),
        Instr::Mulw(rd, rs1, rs2) => Kind::Register(Operation::Mulw, rd, rs1, rs2),
        Instr::Divw(rd, rs1, rs2) => Kind::Register(Operation::Divw, rd, rs1, rs2),
        Instr::Divuw(rd, rs1, rs2) => Kind::Register(Operation::Divuw, rd, rs1, rs2),
        Instr::Remw(rd, rs1, rs2) => Kind::Register(Operation::Remw, rd, rs1, rs2),
        Instr::Remuw(rd, rs1, rs2) => Kind::Register(Operation::Remuw, rd, rs1, rs2),
        Instr::Beq(rs1, rs2, offset) => Kind::Branch(Condition::Equal, rs1, rs2, offset),
        Instr::Bne(rs1, rs2, offset) => Kind::Branch(Condition::Unequal, rs1, rs2, offset),
        Instr::Blt(rs1, rs2, offset) => Kind::Branch(Condition::SignedLess, rs1, rs2, offset),
        Instr::Bge(rs1, rs2, offset) => Kind::Branch(Condition::SignedNotLess, rs1, rs2, offset),
        Instr::Bltu(rs1, rs2, offset) => Kind::Branch(Condition::Less, rs1, rs2, offset),
        Instr::Bgeu(rs1, rs2, offset) => Kind::Branch(Condition::NotLess, rs1, rs2, offset),
        Instr::Jalr(rd, rs1, imm) => Kind::JumpTo(rd, rs1, imm),
        Instr::Jal(rd, offset) => Kind::Jump(rd, offset),
        Instr::Lui(rd, imm) => Kind::Upper(rd, imm),
        Instr::Auipc(rd, imm) => Kind::UpperPc(rd, imm),
        Instr::Ecall => Kind::Service,
        Instr::Ebreak => Kind::Stop,
    }
}
