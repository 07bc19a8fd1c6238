// The operations on two words.
ghost use Rattle.std.specs.Prelude.{◌≡◌};
ghost use Rattle.rv_machine.specs.Kind.{result_of};

use crate::arithmetic as by;

/// An operation on two words, named as the instruction that does it on two registers.
#[derive(Clone, Copy, Debug, PartialEq, Eq)]
pub(crate) enum Operation {
    Add,
    Sll,
    Slt,
    Sltu,
    Xor,
    Srl,
    Or,
    And,
    Sub,
    Sra,
    Mul,
    Mulh,
    Mulhsu,
    Mulhu,
    Div,
    Divu,
    Rem,
    Remu,
    Addw,
    Sllw,
    Srlw,
    Subw,
    Sraw,
    Mulw,
    Divw,
    Divuw,
    Remw,
    Remuw,
}

// The result of an operation.
#[inline]
pub(crate) fn apply(operation: Operation, a: u64, b: u64) -> u64
    ensures { result ≡ result_of operation a b }
{
    match operation {
        Operation::Add => by::add(a, b),
        Operation::Sll => by::sll(a, b),
        Operation::Slt => by::slt(a, b),
        Operation::Sltu => by::sltu(a, b),
        Operation::Xor => a ^ b,
        Operation::Srl => by::srl(a, b),
        Operation::Or => a | b,
        Operation::And => a & b,
        Operation::Sub => by::sub(a, b),
        Operation::Sra => by::sra(a, b),
        Operation::Mul => by::mul(a, b),
        Operation::Mulh => by::mulh(a, b),
        Operation::Mulhsu => by::mulhsu(a, b),
        Operation::Mulhu => by::mulhu(a, b),
        Operation::Div => by::div(a, b),
        Operation::Divu => by::divu(a, b),
        Operation::Rem => by::rem(a, b),
        Operation::Remu => by::remu(a, b),
        Operation::Addw => by::addw(a, b),
        Operation::Sllw => by::sllw(a, b),
        Operation::Srlw => by::srlw(a, b),
        Operation::Subw => by::subw(a, b),
        Operation::Sraw => by::sraw(a, b),
        Operation::Mulw => by::mulw(a, b),
        Operation::Divw => by::divw(a, b),
        Operation::Divuw => by::divuw(a, b),
        Operation::Remw => by::remw(a, b),
        Operation::Remuw => by::remuw(a, b),
    }
}
