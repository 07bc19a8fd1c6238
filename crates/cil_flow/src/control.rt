// Where control goes from an instruction.
ghost use Rattle.std.specs.Prelude.{◌≡◌};
ghost use Rattle.cil_flow.specs.Control as spec;

use il_model::Op;
use std::slice;

/// How control goes on from an instruction: to the next one; to its target; to a target or the next one;
/// to its target with an empty stack, by `leave`; to the caller, by `ret`; nowhere, by `throw`. `Refused` are
/// the forms that no body may have here.
#[derive(Clone, Copy, Debug, PartialEq, Eq)]
pub enum Control {
    Falls,
    Jumps,
    Branches,
    Leaves,
    Returns,
    Stops,
    Refused,
}

/// How control goes on from an instruction, after ECMA-335, Partition III. No memory is taken.
pub fn control_of(op: &Op) -> Control
    ensures { result ≡ spec.control_at op.now }
{
    match op {
        Op::Nop
        | Op::Dup
        | Op::Pop
        | Op::LdcI4(_)
        | Op::LdcI8(_)
        | Op::Ldnull
        | Op::Ldstr(_)
        | Op::Ldarg(_)
        | Op::Ldloc(_)
        | Op::Ldarga(_)
        | Op::Ldloca(_)
        | Op::Starg(_)
        | Op::Stloc(_)
        | Op::Add
        | Op::Sub
        | Op::Mul
        | Op::And
        | Op::Or
        | Op::Xor
        | Op::AddOvf
        | Op::SubOvf
        | Op::MulOvf
        | Op::AddOvfUn
        | Op::SubOvfUn
        | Op::MulOvfUn
        | Op::Div
        | Op::Rem
        | Op::DivUn
        | Op::RemUn
        | Op::Shl
        | Op::Shr
        | Op::ShrUn
        | Op::Neg
        | Op::Not
        | Op::ConvI4
        | Op::ConvI8
        | Op::ConvU8
        | Op::ConvOvfI4
        | Op::Ceq
        | Op::Cgt
        | Op::CgtUn
        | Op::Clt
        | Op::CltUn => Control::Falls,
        Op::Br(_) => Control::Jumps,
        Op::Brtrue(_)
        | Op::Brfalse(_)
        | Op::Beq(_)
        | Op::BneUn(_)
        | Op::Bge(_)
        | Op::Bgt(_)
        | Op::Ble(_)
        | Op::Blt(_)
        | Op::BgeUn(_)
        | Op::BgtUn(_)
        | Op::BleUn(_)
        | Op::BltUn(_)
        | Op::Switch(_) => Control::Branches,
        Op::Leave(_) => Control::Leaves,
        Op::Call(_) | Op::Callvirt(_) | Op::Constrained(_, _) | Op::Newobj(_) => Control::Falls,
        Op::Ret => Control::Returns,
        Op::Ldfld(_)
        | Op::Stfld(_)
        | Op::Ldflda(_)
        | Op::Ldsfld(_)
        | Op::Stsfld(_)
        | Op::Ldsflda(_)
        | Op::Ldobj(_)
        | Op::Stobj(_)
        | Op::Initobj(_)
        | Op::Newarr(_)
        | Op::Ldlen
        | Op::Ldelem(_)
        | Op::Stelem(_)
        | Op::Box(_)
        | Op::UnboxAny(_)
        | Op::Castclass(_)
        | Op::Isinst(_) => Control::Falls,
        Op::Throw => Control::Stops,
        Op::WriteLineInt32
        | Op::WriteLineInt64
        | Op::WriteLineString
        | Op::CompareExchangeInt32
        | Op::CompareExchangeInt64
        | Op::CompareExchangeObject
        | Op::ExchangeInt32
        | Op::ExchangeInt64
        | Op::ExchangeObject
        | Op::AddInt32
        | Op::AddInt64
        | Op::NameOf(_)
        | Op::Start
        | Op::Join => Control::Falls,
        Op::Endfinally | Op::Rethrow | Op::Ldftn(_) | Op::Ldvirtftn(_) => Control::Refused,
    }
}

/// The targets that an instruction names, each the number of an instruction from 0. No memory is taken.
pub fn targets_of(op: &Op) -> &[u32]
    ensures { result.now ≡ spec.targets_of op.now }
{
    match op {
        Op::Nop
        | Op::Dup
        | Op::Pop
        | Op::LdcI4(_)
        | Op::LdcI8(_)
        | Op::Ldnull
        | Op::Ldstr(_)
        | Op::Ldarg(_)
        | Op::Ldloc(_)
        | Op::Ldarga(_)
        | Op::Ldloca(_)
        | Op::Starg(_)
        | Op::Stloc(_)
        | Op::Add
        | Op::Sub
        | Op::Mul
        | Op::And
        | Op::Or
        | Op::Xor
        | Op::AddOvf
        | Op::SubOvf
        | Op::MulOvf
        | Op::AddOvfUn
        | Op::SubOvfUn
        | Op::MulOvfUn
        | Op::Div
        | Op::Rem
        | Op::DivUn
        | Op::RemUn
        | Op::Shl
        | Op::Shr
        | Op::ShrUn
        | Op::Neg
        | Op::Not
        | Op::ConvI4
        | Op::ConvI8
        | Op::ConvU8
        | Op::ConvOvfI4
        | Op::Ceq
        | Op::Cgt
        | Op::CgtUn
        | Op::Clt
        | Op::CltUn => &[],
        Op::Br(to)
        | Op::Brtrue(to)
        | Op::Brfalse(to)
        | Op::Beq(to)
        | Op::BneUn(to)
        | Op::Bge(to)
        | Op::Bgt(to)
        | Op::Ble(to)
        | Op::Blt(to)
        | Op::BgeUn(to)
        | Op::BgtUn(to)
        | Op::BleUn(to)
        | Op::BltUn(to) => slice::from_ref(to),
        Op::Switch(to) => to.as_slice(),
        Op::Leave(to) => slice::from_ref(to),
        Op::Call(_)
        | Op::Callvirt(_)
        | Op::Constrained(_, _)
        | Op::Newobj(_)
        | Op::Ret
        | Op::Ldfld(_)
        | Op::Stfld(_)
        | Op::Ldflda(_)
        | Op::Ldsfld(_)
        | Op::Stsfld(_)
        | Op::Ldsflda(_)
        | Op::Ldobj(_)
        | Op::Stobj(_)
        | Op::Initobj(_)
        | Op::Newarr(_)
        | Op::Ldlen
        | Op::Ldelem(_)
        | Op::Stelem(_)
        | Op::Box(_)
        | Op::UnboxAny(_)
        | Op::Castclass(_)
        | Op::Isinst(_)
        | Op::Throw
        | Op::WriteLineInt32
        | Op::WriteLineInt64
        | Op::WriteLineString
        | Op::CompareExchangeInt32
        | Op::CompareExchangeInt64
        | Op::CompareExchangeObject
        | Op::ExchangeInt32
        | Op::ExchangeInt64
        | Op::ExchangeObject
        | Op::AddInt32
        | Op::AddInt64
        | Op::NameOf(_)
        | Op::Start
        | Op::Join
        | Op::Endfinally
        | Op::Rethrow
        | Op::Ldftn(_)
        | Op::Ldvirtftn(_) => &[],
    }
}

/// Whether control goes on to the next instruction, at least in one case. No memory is taken.
pub fn falls(control: Control) -> bool
    ensures { result ≡ spec.falls control }
{
    match control {
        Control::Falls | Control::Branches => true,
        Control::Jumps | Control::Leaves | Control::Returns | Control::Stops | Control::Refused =>
            false,
    }
}
