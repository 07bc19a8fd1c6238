// An instruction's parts by format.
use crate::{BranchOffset, Imm12, Imm20, JumpOffset, Reg, Shift5, Shift6};

/// An instruction's parts in the order of its bits, from bit 31 down, by format.
/// The numbers are funct7 (or the bits above a shift's count), funct3 and the opcode.
#[derive(Clone, Copy, Debug, PartialEq, Eq)]
pub(crate) enum Row {
    /// funct7, rs2, rs1, funct3, rd, opcode
    R(u32, Reg, Reg, u32, Reg, u32),
    /// imm[11:0], rs1, funct3, rd, opcode
    I(Imm12, Reg, u32, Reg, u32),
    /// The format I with six bits of count below six fixed ones.
    LongShift(u32, Shift6, Reg, u32, Reg, u32),
    /// The format I with five bits of count below seven fixed ones.
    ShortShift(u32, Shift5, Reg, u32, Reg, u32),
    /// imm[11:5], rs2, rs1, funct3, imm[4:0], opcode
    S(Imm12, Reg, Reg, u32, u32),
    /// imm[12], imm[10:5], rs2, rs1, funct3, imm[4:1], imm[11], opcode
    B(BranchOffset, Reg, Reg, u32, u32),
    /// imm[31:12], rd, opcode
    U(Imm20, Reg, u32),
    /// imm[20], imm[10:1], imm[11], imm[19:12], rd, opcode
    J(JumpOffset, Reg, u32),
    /// A word without operands.
    Whole(u32),
}
