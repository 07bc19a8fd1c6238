// The table: the format and the fixed bits of each instruction.
ghost use Rattle.std.specs.Prelude.{◌≡◌};
ghost use Rattle.rv_isa.specs.Row.{row_of, HasFixedBits};

use crate::Instr;
use crate::row::Row;

/// The table: each instruction's row.
#[rattlefmt::skip]
pub(crate) fn parts(instr: &Instr) -> Row
    ensures row { result ≡ row_of instr.now }
    ensures fixed { HasFixedBits result }
{
    match *instr {
        Instr::Lb(rd, rs1, imm) => Row::I(imm, rs1, 0, rd, 3),
        Instr::Lh(rd, rs1, imm) => Row::I(imm, rs1, 1, rd, 3),
        Instr::Lw(rd, rs1, imm) => Row::I(imm, rs1, 2, rd, 3),
        Instr::Ld(rd, rs1, imm) => Row::I(imm, rs1, 3, rd, 3),
        Instr::Lbu(rd, rs1, imm) => Row::I(imm, rs1, 4, rd, 3),
        Instr::Lhu(rd, rs1, imm) => Row::I(imm, rs1, 5, rd, 3),
        Instr::Lwu(rd, rs1, imm) => Row::I(imm, rs1, 6, rd, 3),
        Instr::Sb(rs2, rs1, imm) => Row::S(imm, rs2, rs1, 0, 35),
        Instr::Sh(rs2, rs1, imm) => Row::S(imm, rs2, rs1, 1, 35),
        Instr::Sw(rs2, rs1, imm) => Row::S(imm, rs2, rs1, 2, 35),
        Instr::Sd(rs2, rs1, imm) => Row::S(imm, rs2, rs1, 3, 35),
        Instr::Addi(rd, rs1, imm) => Row::I(imm, rs1, 0, rd, 19),
        Instr::Slli(rd, rs1, count) => Row::LongShift(0, count, rs1, 1, rd, 19),
        Instr::Slti(rd, rs1, imm) => Row::I(imm, rs1, 2, rd, 19),
        Instr::Sltiu(rd, rs1, imm) => Row::I(imm, rs1, 3, rd, 19),
        Instr::Xori(rd, rs1, imm) => Row::I(imm, rs1, 4, rd, 19),
        Instr::Srli(rd, rs1, count) => Row::LongShift(0, count, rs1, 5, rd, 19),
        Instr::Srai(rd, rs1, count) => Row::LongShift(16, count, rs1, 5, rd, 19),
        Instr::Ori(rd, rs1, imm) => Row::I(imm, rs1, 6, rd, 19),
        Instr::Andi(rd, rs1, imm) => Row::I(imm, rs1, 7, rd, 19),
        Instr::Addiw(rd, rs1, imm) => Row::I(imm, rs1, 0, rd, 27),
        Instr::Slliw(rd, rs1, count) => Row::ShortShift(0, count, rs1, 1, rd, 27),
        Instr::Srliw(rd, rs1, count) => Row::ShortShift(0, count, rs1, 5, rd, 27),
        Instr::Sraiw(rd, rs1, count) => Row::ShortShift(32, count, rs1, 5, rd, 27),
        Instr::Add(rd, rs1, rs2) => Row::R(0, rs2, rs1, 0, rd, 51),
        Instr::Sll(rd, rs1, rs2) => Row::R(0, rs2, rs1, 1, rd, 51),
        Instr::Slt(rd, rs1, rs2) => Row::R(0, rs2, rs1, 2, rd, 51),
        Instr::Sltu(rd, rs1, rs2) => Row::R(0, rs2, rs1, 3, rd, 51),
        Instr::Xor(rd, rs1, rs2) => Row::R(0, rs2, rs1, 4, rd, 51),
        Instr::Srl(rd, rs1, rs2) => Row::R(0, rs2, rs1, 5, rd, 51),
        Instr::Or(rd, rs1, rs2) => Row::R(0, rs2, rs1, 6, rd, 51),
        Instr::And(rd, rs1, rs2) => Row::R(0, rs2, rs1, 7, rd, 51),
        Instr::Sub(rd, rs1, rs2) => Row::R(32, rs2, rs1, 0, rd, 51),
        Instr::Sra(rd, rs1, rs2) => Row::R(32, rs2, rs1, 5, rd, 51),
        Instr::Mul(rd, rs1, rs2) => Row::R(1, rs2, rs1, 0, rd, 51),
        Instr::Mulh(rd, rs1, rs2) => Row::R(1, rs2, rs1, 1, rd, 51),
        Instr::Mulhsu(rd, rs1, rs2) => Row::R(1, rs2, rs1, 2, rd, 51),
        Instr::Mulhu(rd, rs1, rs2) => Row::R(1, rs2, rs1, 3, rd, 51),
        Instr::Div(rd, rs1, rs2) => Row::R(1, rs2, rs1, 4, rd, 51),
        Instr::Divu(rd, rs1, rs2) => Row::R(1, rs2, rs1, 5, rd, 51),
        Instr::Rem(rd, rs1, rs2) => Row::R(1, rs2, rs1, 6, rd, 51),
        Instr::Remu(rd, rs1, rs2) => Row::R(1, rs2, rs1, 7, rd, 51),
        Instr::Addw(rd, rs1, rs2) => Row::R(0, rs2, rs1, 0, rd, 59),
        Instr::Sllw(rd, rs1, rs2) => Row::R(0, rs2, rs1, 1, rd, 59),
        Instr::Srlw(rd, rs1, rs2) => Row::R(0, rs2, rs1, 5, rd, 59),
        Instr::Subw(rd, rs1, rs2) => Row::R(32, rs2, rs1, 0, rd, 59),
        Instr::Sraw(rd, rs1, rs2) => Row::R(32, rs2, rs1, 5, rd, 59),
        Instr::Mulw(rd, rs1, rs2) => Row::R(1, rs2, rs1, 0, rd, 59),
        Instr::Divw(rd, rs1, rs2) => Row::R(1, rs2, rs1, 4, rd, 59),
        Instr::Divuw(rd, rs1, rs2) => Row::R(1, rs2, rs1, 5, rd, 59),
        Instr::Remw(rd, rs1, rs2) => Row::R(1, rs2, rs1, 6, rd, 59),
        Instr::Remuw(rd, rs1, rs2) => Row::R(1, rs2, rs1, 7, rd, 59),
        Instr::Beq(rs1, rs2, offset) => Row::B(offset, rs2, rs1, 0, 99),
        Instr::Bne(rs1, rs2, offset) => Row::B(offset, rs2, rs1, 1, 99),
        Instr::Blt(rs1, rs2, offset) => Row::B(offset, rs2, rs1, 4, 99),
        Instr::Bge(rs1, rs2, offset) => Row::B(offset, rs2, rs1, 5, 99),
        Instr::Bltu(rs1, rs2, offset) => Row::B(offset, rs2, rs1, 6, 99),
        Instr::Bgeu(rs1, rs2, offset) => Row::B(offset, rs2, rs1, 7, 99),
        Instr::Jalr(rd, rs1, imm) => Row::I(imm, rs1, 0, rd, 103),
        Instr::Jal(rd, offset) => Row::J(offset, rd, 111),
        Instr::Lui(rd, imm) => Row::U(imm, rd, 55),
        Instr::Auipc(rd, imm) => Row::U(imm, rd, 23),
        Instr::Ecall => Row::Whole(115),
        Instr::Ebreak => Row::Whole(1048691),
    }
}
