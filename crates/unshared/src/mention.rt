// What an instruction mentions.
ghost use Rattle.std.specs.Prelude.{◌≡◌};
ghost use Rattle.il_model.specs.Entries.{mention_of};
ghost use Rattle.unshared.specs.Mentioned.{mentioned};

use il_model::{FRef, MRef, Op};
use type_tree::TExpr;

/// What an instruction mentions: a type with its size, a type's number alone, the vector type of a type, a
/// field, or a method in one of four ways.
#[derive(Clone, Copy)]
pub(crate) enum Mention<'a> {
    Nothing,
    Type(&'a TExpr),
    Kind(&'a TExpr),
    Vector(&'a TExpr),
    Field(&'a FRef),
    Call(&'a MRef),
    VirtualCall(&'a MRef),
    Constrained(&'a TExpr, &'a MRef),
    New(&'a MRef),
}

/// What the instruction mentions. No memory is taken.
pub(crate) fn mention_of(op: &Op) -> Mention<'_>
    ensures { mentioned result ≡ mention_of op.now }
{
    match op {
        Op::Nop
        | Op::Dup
        | Op::Pop
        | Op::LdcI4(_)
        | Op::LdcI8(_)
        | Op::Ldnull
        | Op::Ldstr(_)
        | Op::Ldarg(_)
        | Op::Ldloc(_)
        | Op::Ldarga(_)
        | Op::Ldloca(_)
        | Op::Starg(_)
        | Op::Stloc(_)
        | Op::Add
        | Op::Sub
        | Op::Mul
        | Op::And
        | Op::Or
        | Op::Xor
        | Op::AddOvf
        | Op::SubOvf
        | Op::MulOvf
        | Op::AddOvfUn
        | Op::SubOvfUn
        | Op::MulOvfUn
        | Op::Div
        | Op::Rem
        | Op::DivUn
        | Op::RemUn
        | Op::Shl
        | Op::Shr
        | Op::ShrUn
        | Op::Neg
        | Op::Not
        | Op::ConvI4
        | Op::ConvI8
        | Op::ConvU8
        | Op::ConvOvfI4
        | Op::Ceq
        | Op::Cgt
        | Op::CgtUn
        | Op::Clt
        | Op::CltUn
        | Op::Br(_)
        | Op::Brtrue(_)
        | Op::Brfalse(_)
        | Op::Beq(_)
        | Op::BneUn(_)
        | Op::Bge(_)
        | Op::Bgt(_)
        | Op::Ble(_)
        | Op::Blt(_)
        | Op::BgeUn(_)
        | Op::BgtUn(_)
        | Op::BleUn(_)
        | Op::BltUn(_)
        | Op::Switch(_)
        | Op::Leave(_) => Mention::Nothing,
        Op::Call(m) => Mention::Call(m),
        Op::Callvirt(m) => Mention::VirtualCall(m),
        Op::Constrained(t, m) => Mention::Constrained(t, m),
        Op::Newobj(m) => Mention::New(m),
        Op::Ret => Mention::Nothing,
        Op::Ldfld(f)
        | Op::Stfld(f)
        | Op::Ldflda(f)
        | Op::Ldsfld(f)
        | Op::Stsfld(f)
        | Op::Ldsflda(f) => Mention::Field(f),
        Op::Ldobj(t) | Op::Stobj(t) | Op::Initobj(t) => Mention::Type(t),
        Op::Newarr(t) => Mention::Vector(t),
        Op::Ldlen => Mention::Nothing,
        Op::Ldelem(t)
        | Op::Stelem(t)
        | Op::Box(t)
        | Op::UnboxAny(t)
        | Op::Castclass(t)
        | Op::Isinst(t) => Mention::Type(t),
        Op::Throw
        | Op::WriteLineInt32
        | Op::WriteLineInt64
        | Op::WriteLineString
        | Op::CompareExchangeInt32
        | Op::CompareExchangeInt64
        | Op::CompareExchangeObject
        | Op::ExchangeInt32
        | Op::ExchangeInt64
        | Op::ExchangeObject
        | Op::AddInt32
        | Op::AddInt64 => Mention::Nothing,
        Op::NameOf(t) => Mention::Kind(t),
        Op::Start | Op::Join | Op::Endfinally | Op::Rethrow | Op::Ldftn(_) | Op::Ldvirtftn(_) =>
            Mention::Nothing,
    }
}
