// Words from instructions.
ghost use Rattle.std.specs.Prelude.{◌≡◌, ◌<◌, ◌+◌, ◌*◌, ◌%◌};
ghost use Rattle.rv_isa.specs.Row.{IsRow};
ghost use Rattle.rv_isa.specs.Word.{r_word, i_word, s_word, b_word, u_word, j_word, word_of};

use crate::row::Row;
use crate::table::parts;
use crate::{BranchOffset, Imm12, Imm20, Instr, JumpOffset, Reg, Shift5, Shift6};

// A word of the format R.
fn r_format(funct7: u32, rs2: Reg, rs1: Reg, funct3: u32, rd: Reg, opcode: u32) -> u32
    requires funct7_fits { funct7 < 128 }
    requires funct3_fits { funct3 < 8 }
    requires opcode_fits { opcode < 128 }
    ensures word { result ≡ r_word funct7 rs2 rs1 funct3 rd opcode }
    ensures fits { (rs2 < 32) × (rs1 < 32) × (rd < 32) }
{
    funct7 * 33554432
        + u32::from(rs2.number()) * 1048576
        + u32::from(rs1.number()) * 32768
        + funct3 * 4096
        + u32::from(rd.number()) * 128
        + opcode
}

// A word of the format I, whose twelve bits are a number.
fn i_format(imm: u32, rs1: Reg, funct3: u32, rd: Reg, opcode: u32) -> u32
    requires imm_fits { imm < 4096 }
    requires funct3_fits { funct3 < 8 }
    requires opcode_fits { opcode < 128 }
    ensures word { result ≡ i_word imm rs1 funct3 rd opcode }
    ensures fits { (rs1 < 32) × (rd < 32) }
{
    imm * 1048576
        + u32::from(rs1.number()) * 32768
        + funct3 * 4096
        + u32::from(rd.number()) * 128
        + opcode
}

// A word of the format S.
fn s_format(imm: Imm12, rs2: Reg, rs1: Reg, funct3: u32, opcode: u32) -> u32
    requires funct3_fits { funct3 < 8 }
    requires opcode_fits { opcode < 128 }
    ensures word { result ≡ s_word imm rs2 rs1 funct3 opcode }
    ensures fits { (imm < 4096) × (rs2 < 32) × (rs1 < 32) }
{
    let bits = u32::from(imm.bits());
    bits / 32 * 33554432
        + u32::from(rs2.number()) * 1048576
        + u32::from(rs1.number()) * 32768
        + funct3 * 4096
        + bits % 32 * 128
        + opcode
}

// A word of the format B.
pub(crate) fn b_format(offset: BranchOffset, rs2: Reg, rs1: Reg, funct3: u32, opcode: u32) -> u32
    requires funct3_fits { funct3 < 8 }
    requires opcode_fits { opcode < 128 }
    ensures word { result ≡ b_word offset rs2 rs1 funct3 opcode }
    ensures fits { (offset < 8192) × (offset % 2 ≡ 0) × (rs2 < 32) × (rs1 < 32) }
{
    let bits = u32::from(offset.bits());
    bits / 4096 * 2147483648
        + bits / 32 % 64 * 33554432
        + u32::from(rs2.number()) * 1048576
        + u32::from(rs1.number()) * 32768
        + funct3 * 4096
        + bits / 2 % 16 * 256
        + bits / 2048 % 2 * 128
        + opcode
}

// A word of the format U.
fn u_format(imm: Imm20, rd: Reg, opcode: u32) -> u32
    requires { opcode < 128 }
    ensures word { result ≡ u_word imm rd opcode }
    ensures fits { (imm < 1048576) × (rd < 32) }
{
    imm.bits() * 4096 + u32::from(rd.number()) * 128 + opcode
}

// A word of the format J.
pub(crate) fn j_format(offset: JumpOffset, rd: Reg, opcode: u32) -> u32
    requires { opcode < 128 }
    ensures word { result ≡ j_word offset rd opcode }
    ensures fits { (offset < 2097152) × (offset % 2 ≡ 0) × (rd < 32) }
{
    let bits = offset.bits();
    bits / 1048576 * 2147483648
        + bits / 2 % 1024 * 2097152
        + bits / 2048 % 2 * 1048576
        + bits / 4096 % 256 * 4096
        + u32::from(rd.number()) * 128
        + opcode
}

// The twelve bits of a long shift's immediate.
fn long_count(top: u32, count: Shift6) -> u32
    requires { top < 64 }
    ensures bits { result ≡ 64 * top + count }
    ensures fits { count < 64 }
{
    top * 64 + u32::from(count.count())
}

// The twelve bits of a short shift's immediate.
fn short_count(top: u32, count: Shift5) -> u32
    requires { top < 128 }
    ensures bits { result ≡ 32 * top + count }
    ensures fits { count < 32 }
{
    top * 32 + u32::from(count.count())
}

/// The word of an instruction. No memory is taken.
pub fn encode(instr: &Instr) -> u32
    ensures word { result ≡ word_of instr.now }
    ensures row { IsRow instr.now }
{
    match parts(instr) {
        Row::R(funct7, rs2, rs1, funct3, rd, opcode) => {
            r_format(funct7, rs2, rs1, funct3, rd, opcode)
        }
        Row::I(imm, rs1, funct3, rd, opcode) => {
            i_format(u32::from(imm.bits()), rs1, funct3, rd, opcode)
        }
        Row::LongShift(top, count, rs1, funct3, rd, opcode) => {
            i_format(long_count(top, count), rs1, funct3, rd, opcode)
        }
        Row::ShortShift(top, count, rs1, funct3, rd, opcode) => {
            i_format(short_count(top, count), rs1, funct3, rd, opcode)
        }
        Row::S(imm, rs2, rs1, funct3, opcode) => s_format(imm, rs2, rs1, funct3, opcode),
        Row::B(offset, rs2, rs1, funct3, opcode) => b_format(offset, rs2, rs1, funct3, opcode),
        Row::U(imm, rd, opcode) => u_format(imm, rd, opcode),
        Row::J(offset, rd, opcode) => j_format(offset, rd, opcode),
        Row::Whole(word) => word,
    }
}
