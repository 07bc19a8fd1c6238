//! The instructions of RV64IM, their words, and an assembler.
#![tactic(auto)]

mod assembler;
mod fault;
mod field;
mod instr;
mod item;
mod laws;
mod operand;
mod placing;
mod reading;
mod row;
mod table;
mod writing;

pub use assembler::Asm;
pub use fault::{AsmFault, Placed};
pub use instr::Instr;
pub use item::Item;
pub use laws::reads_what_was_written;
pub use operand::{BranchOffset, Imm12, Imm20, JumpOffset, Reg, Shift5, Shift6};
pub use reading::decode;
pub use writing::encode;

#[cfg(test)]
mod tests;
