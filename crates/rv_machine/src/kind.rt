// The table of kinds.
use crate::condition::Condition;
use crate::operation::Operation;
use crate::size::Size;
use rv_isa::{BranchOffset, Imm12, Imm20, JumpOffset, Reg, Shift5, Shift6};

/// An instruction by what it does. Operands stand as in `Instr`.
#[derive(Clone, Copy, Debug, PartialEq, Eq)]
pub(crate) enum Kind {
    /// How many bytes, and whether their sign is extended.
    Load(Size, bool, Reg, Reg, Imm12),
    /// How many bytes.
    Store(Size, Reg, Reg, Imm12),
    Immediate(Operation, Reg, Reg, Imm12),
    LongShift(Operation, Reg, Reg, Shift6),
    ShortShift(Operation, Reg, Reg, Shift5),
    Register(Operation, Reg, Reg, Reg),
    Branch(Condition, Reg, Reg, BranchOffset),
    /// JALR
    JumpTo(Reg, Reg, Imm12),
    /// JAL
    Jump(Reg, JumpOffset),
    /// LUI
    Upper(Reg, Imm20),
    /// AUIPC
    UpperPc(Reg, Imm20),
    /// ECALL
    Service,
    /// EBREAK
    Stop,
}
