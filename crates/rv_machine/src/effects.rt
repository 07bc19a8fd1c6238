// Effects of instructions.
ghost use Rattle.std.specs.Prelude.{◌≡◌, ◌*◌, if◌then◌else◌};
ghost use Rattle.rv_machine.specs.Effect.{effect_of, address_of, even};
ghost use Rattle.rv_machine.specs.Kind.{kind_effect, holds_of};
ghost use Rattle.rv_machine.specs.Arithmetic.{extended, sum_of};
ghost use Rattle.rv_machine.specs.Registers.{next_pc, register_of};

use crate::arithmetic::{add, extended_12, extended_13, extended_21, extended_32};
use crate::condition::{Condition, holds};
use crate::effect::Effect;
use crate::kind::Kind;
use crate::operation::apply;
use crate::registers::{Core, next, register};
use crate::table::classify;
use rv_isa::{BranchOffset, Imm12, Imm20, Instr, Reg};

// An immediate of twelve bits as a word.
#[inline]
fn immediate(imm: Imm12) -> u64
    ensures { result ≡ extended 12 imm }
{
    extended_12(u64::from(imm.bits()))
}

// An immediate of twenty bits as the upper part of a word.
#[inline]
fn upper(imm: Imm20) -> u64
    ensures { result ≡ extended 32 (4096 * imm) }
{
    extended_32(u64::from(imm.bits()) * 4096)
}

// The address of a load, a store or JALR.
#[inline]
fn address(core: &Core, rs1: Reg, imm: Imm12) -> u64
    ensures { result ≡ address_of core.now rs1 imm }
{
    add(register(core, rs1), immediate(imm))
}

// Where a branch goes.
#[inline]
fn target(core: &Core, condition: Condition, rs1: Reg, rs2: Reg, offset: BranchOffset) -> u64
    ensures { result ≡ (if holds_of condition (register_of core.now rs1) (register_of core.now rs2) then sum_of core.now.pc (extended 13 offset) else next_pc core.now) }
{
    if holds(condition, register(core, rs1), register(core, rs2)) {
        return add(core.pc, extended_13(u64::from(offset.bits())));
    }
    next(core)
}

// The effect of a kind of instruction.
#[inline]
fn kind_to_effect(kind: Kind, core: &Core) -> Effect
    ensures { result ≡ kind_effect kind core.now }
{
    match kind {
        Kind::Load(size, signed, rd, rs1, imm) => {
            Effect::Loads(rd, size, signed, address(core, rs1, imm))
        }
        Kind::Store(size, rs2, rs1, imm) => {
            Effect::Stores(size, address(core, rs1, imm), register(core, rs2))
        }
        Kind::Immediate(operation, rd, rs1, imm) => {
            Effect::Sets(rd, apply(operation, register(core, rs1), immediate(imm)))
        }
        Kind::LongShift(operation, rd, rs1, count) => {
            Effect::Sets(
                rd,
                apply(operation, register(core, rs1), u64::from(count.count())),
            )
        }
        Kind::ShortShift(operation, rd, rs1, count) => {
            Effect::Sets(
                rd,
                apply(operation, register(core, rs1), u64::from(count.count())),
            )
        }
        Kind::Register(operation, rd, rs1, rs2) => {
            Effect::Sets(
                rd,
                apply(operation, register(core, rs1), register(core, rs2)),
            )
        }
        Kind::Branch(condition, rs1, rs2, offset) => {
            Effect::Goes(Reg::of(0), target(core, condition, rs1, rs2, offset))
        }
        Kind::JumpTo(rd, rs1, imm) => Effect::Goes(rd, even_address(address(core, rs1, imm))),
        Kind::Jump(rd, offset) => {
            Effect::Goes(rd, add(core.pc, extended_21(u64::from(offset.bits()))))
        }
        Kind::Upper(rd, imm) => Effect::Sets(rd, upper(imm)),
        Kind::UpperPc(rd, imm) => Effect::Sets(rd, add(core.pc, upper(imm))),
        Kind::Service => Effect::Calls,
        Kind::Stop => Effect::Breaks,
    }
}

// An address with bit 0 cleared.
#[inline]
fn even_address(address: u64) -> u64
    ensures { result ≡ even address }
{
    address - address % 2
}

// The effect of an instruction.
#[inline]
pub(crate) fn effect(instr: &Instr, core: &Core) -> Effect
    ensures { result ≡ effect_of instr.now core.now }
{
    kind_to_effect(classify(instr), core)
}
