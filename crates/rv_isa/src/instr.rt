// The instructions.
use crate::{BranchOffset, Imm12, Imm20, JumpOffset, Reg, Shift5, Shift6};

/// One instruction of RV64IM, in the order of the table of opcodes (RISC-V unprivileged ISA).
/// Operands stand as in assembly text: `rd, rs1, imm` for loads and immediates, `rs2, rs1, imm`
/// for stores, `rd, rs1, rs2` for two registers, `rs1, rs2, offset` for branches.
/// A row whose rd is x0 is an ordinary row. FENCE, the CSR instructions and the extensions
/// A, F, D and C have none.
#[derive(Clone, Copy, Debug, PartialEq, Eq, Drop)]
pub enum Instr {
    // LOAD
    Lb(Reg, Reg, Imm12),
    Lh(Reg, Reg, Imm12),
    Lw(Reg, Reg, Imm12),
    Ld(Reg, Reg, Imm12),
    Lbu(Reg, Reg, Imm12),
    Lhu(Reg, Reg, Imm12),
    Lwu(Reg, Reg, Imm12),
    // STORE
    Sb(Reg, Reg, Imm12),
    Sh(Reg, Reg, Imm12),
    Sw(Reg, Reg, Imm12),
    Sd(Reg, Reg, Imm12),
    // OP-IMM
    Addi(Reg, Reg, Imm12),
    Slli(Reg, Reg, Shift6),
    Slti(Reg, Reg, Imm12),
    Sltiu(Reg, Reg, Imm12),
    Xori(Reg, Reg, Imm12),
    Srli(Reg, Reg, Shift6),
    Srai(Reg, Reg, Shift6),
    Ori(Reg, Reg, Imm12),
    Andi(Reg, Reg, Imm12),
    // OP-IMM-32
    Addiw(Reg, Reg, Imm12),
    Slliw(Reg, Reg, Shift5),
    Srliw(Reg, Reg, Shift5),
    Sraiw(Reg, Reg, Shift5),
    // OP
    Add(Reg, Reg, Reg),
    Sll(Reg, Reg, Reg),
    Slt(Reg, Reg, Reg),
    Sltu(Reg, Reg, Reg),
    Xor(Reg, Reg, Reg),
    Srl(Reg, Reg, Reg),
    Or(Reg, Reg, Reg),
    And(Reg, Reg, Reg),
    Sub(Reg, Reg, Reg),
    Sra(Reg, Reg, Reg),
    // OP, multiplication and division
    Mul(Reg, Reg, Reg),
    Mulh(Reg, Reg, Reg),
    Mulhsu(Reg, Reg, Reg),
    Mulhu(Reg, Reg, Reg),
    Div(Reg, Reg, Reg),
    Divu(Reg, Reg, Reg),
    Rem(Reg, Reg, Reg),
    Remu(Reg, Reg, Reg),
    // OP-32
    Addw(Reg, Reg, Reg),
    Sllw(Reg, Reg, Reg),
    Srlw(Reg, Reg, Reg),
    Subw(Reg, Reg, Reg),
    Sraw(Reg, Reg, Reg),
    // OP-32, multiplication and division
    Mulw(Reg, Reg, Reg),
    Divw(Reg, Reg, Reg),
    Divuw(Reg, Reg, Reg),
    Remw(Reg, Reg, Reg),
    Remuw(Reg, Reg, Reg),
    // BRANCH
    Beq(Reg, Reg, BranchOffset),
    Bne(Reg, Reg, BranchOffset),
    Blt(Reg, Reg, BranchOffset),
    Bge(Reg, Reg, BranchOffset),
    Bltu(Reg, Reg, BranchOffset),
    Bgeu(Reg, Reg, BranchOffset),
    // JALR, JAL, LUI, AUIPC
    Jalr(Reg, Reg, Imm12),
    Jal(Reg, JumpOffset),
    Lui(Reg, Imm20),
    Auipc(Reg, Imm20),
    // SYSTEM
    Ecall,
    Ebreak,
}
