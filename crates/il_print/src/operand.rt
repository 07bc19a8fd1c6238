// An instruction's form, and what it names besides.
ghost use Rattle.std.specs.Prelude.{◌≡◌};
ghost use Rattle.il_model.specs.Ops.{form_of, operand_of};
ghost use Rattle.il_print.specs.Operands.{seen};

use il_model::{FRef, Form, MRef, Op};
use type_tree::TExpr;

/// What an instruction holds: a number, the number of a literal, of a place or of an instruction, types
/// and members.
pub(crate) enum Operand<'a> {
    Nothing,
    Int32(i32),
    Int64(i64),
    Literal(u32),
    Place(u64),
    Target(u32),
    Targets(&'a [u32]),
    Type(&'a TExpr),
    Method(&'a MRef),
    Field(&'a FRef),
    Constrained(&'a TExpr, &'a MRef),
}

/// The form of an instruction.
pub(crate) fn form_of(op: &Op) -> Form
    ensures { result ≡ form_of op.now }
{
    match op {
        Op::Nop => Form::Nop,
        Op::Dup => Form::Dup,
        Op::Pop => Form::Pop,
        Op::LdcI4(_) => Form::LdcI4,
        Op::LdcI8(_) => Form::LdcI8,
        Op::Ldnull => Form::Ldnull,
        Op::Ldstr(_) => Form::Ldstr,
        Op::Ldarg(_) => Form::Ldarg,
        Op::Ldloc(_) => Form::Ldloc,
        Op::Ldarga(_) => Form::Ldarga,
        Op::Ldloca(_) => Form::Ldloca,
        Op::Starg(_) => Form::Starg,
        Op::Stloc(_) => Form::Stloc,
        Op::Add => Form::Add,
        Op::Sub => Form::Sub,
        Op::Mul => Form::Mul,
        Op::And => Form::And,
        Op::Or => Form::Or,
        Op::Xor => Form::Xor,
        Op::AddOvf => Form::AddOvf,
        Op::SubOvf => Form::SubOvf,
        Op::MulOvf => Form::MulOvf,
        Op::AddOvfUn => Form::AddOvfUn,
        Op::SubOvfUn => Form::SubOvfUn,
        Op::MulOvfUn => Form::MulOvfUn,
        Op::Div => Form::Div,
        Op::Rem => Form::Rem,
        Op::DivUn => Form::DivUn,
        Op::RemUn => Form::RemUn,
        Op::Shl => Form::Shl,
        Op::Shr => Form::Shr,
        Op::ShrUn => Form::ShrUn,
        Op::Neg => Form::Neg,
        Op::Not => Form::Not,
        Op::ConvI4 => Form::ConvI4,
        Op::ConvI8 => Form::ConvI8,
        Op::ConvU8 => Form::ConvU8,
        Op::ConvOvfI4 => Form::ConvOvfI4,
        Op::Ceq => Form::Ceq,
        Op::Cgt => Form::Cgt,
        Op::CgtUn => Form::CgtUn,
        Op::Clt => Form::Clt,
        Op::CltUn => Form::CltUn,
        Op::Br(_) => Form::Br,
        Op::Brtrue(_) => Form::Brtrue,
        Op::Brfalse(_) => Form::Brfalse,
        Op::Beq(_) => Form::Beq,
        Op::BneUn(_) => Form::BneUn,
        Op::Bge(_) => Form::Bge,
        Op::Bgt(_) => Form::Bgt,
        Op::Ble(_) => Form::Ble,
        Op::Blt(_) => Form::Blt,
        Op::BgeUn(_) => Form::BgeUn,
        Op::BgtUn(_) => Form::BgtUn,
        Op::BleUn(_) => Form::BleUn,
        Op::BltUn(_) => Form::BltUn,
        Op::Switch(_) => Form::Switch,
        Op::Leave(_) => Form::Leave,
        Op::Call(_) => Form::Call,
        Op::Callvirt(_) => Form::Callvirt,
        Op::Constrained(_, _) => Form::Constrained,
        Op::Newobj(_) => Form::Newobj,
        Op::Ret => Form::Ret,
        Op::Ldfld(_) => Form::Ldfld,
        Op::Stfld(_) => Form::Stfld,
        Op::Ldflda(_) => Form::Ldflda,
        Op::Ldsfld(_) => Form::Ldsfld,
        Op::Stsfld(_) => Form::Stsfld,
        Op::Ldsflda(_) => Form::Ldsflda,
        Op::Ldobj(_) => Form::Ldobj,
        Op::Stobj(_) => Form::Stobj,
        Op::Initobj(_) => Form::Initobj,
        Op::Newarr(_) => Form::Newarr,
        Op::Ldlen => Form::Ldlen,
        Op::Ldelem(_) => Form::Ldelem,
        Op::Stelem(_) => Form::Stelem,
        Op::Box(_) => Form::Box,
        Op::UnboxAny(_) => Form::UnboxAny,
        Op::Castclass(_) => Form::Castclass,
        Op::Isinst(_) => Form::Isinst,
        Op::Throw => Form::Throw,
        Op::WriteLineInt32 => Form::WriteLineInt32,
        Op::WriteLineInt64 => Form::WriteLineInt64,
        Op::WriteLineString => Form::WriteLineString,
        Op::CompareExchangeInt32 => Form::CompareExchangeInt32,
        Op::CompareExchangeInt64 => Form::CompareExchangeInt64,
        Op::CompareExchangeObject => Form::CompareExchangeObject,
        Op::ExchangeInt32 => Form::ExchangeInt32,
        Op::ExchangeInt64 => Form::ExchangeInt64,
        Op::ExchangeObject => Form::ExchangeObject,
        Op::AddInt32 => Form::AddInt32,
        Op::AddInt64 => Form::AddInt64,
        Op::NameOf(_) => Form::NameOf,
        Op::Start => Form::Start,
        Op::Join => Form::Join,
        Op::Endfinally => Form::Endfinally,
        Op::Rethrow => Form::Rethrow,
        Op::Ldftn(_) => Form::Ldftn,
        Op::Ldvirtftn(_) => Form::Ldvirtftn,
    }
}

/// The operand of an instruction.
pub(crate) fn operand_of(op: &Op) -> Operand<'_>
    ensures { seen result ≡ operand_of op.now }
{
    match op {
        Op::Nop
        | Op::Dup
        | Op::Pop
        | Op::Ldnull
        | Op::Add
        | Op::Sub
        | Op::Mul
        | Op::And
        | Op::Or
        | Op::Xor
        | Op::AddOvf
        | Op::SubOvf
        | Op::MulOvf
        | Op::AddOvfUn
        | Op::SubOvfUn
        | Op::MulOvfUn
        | Op::Div
        | Op::Rem
        | Op::DivUn
        | Op::RemUn
        | Op::Shl
        | Op::Shr
        | Op::ShrUn
        | Op::Neg
        | Op::Not
        | Op::ConvI4
        | Op::ConvI8
        | Op::ConvU8
        | Op::ConvOvfI4
        | Op::Ceq
        | Op::Cgt
        | Op::CgtUn
        | Op::Clt
        | Op::CltUn
        | Op::Ret
        | Op::Ldlen
        | Op::Throw
        | Op::WriteLineInt32
        | Op::WriteLineInt64
        | Op::WriteLineString
        | Op::CompareExchangeInt32
        | Op::CompareExchangeInt64
        | Op::CompareExchangeObject
        | Op::ExchangeInt32
        | Op::ExchangeInt64
        | Op::ExchangeObject
        | Op::AddInt32
        | Op::AddInt64
        | Op::Start
        | Op::Join
        | Op::Endfinally
        | Op::Rethrow => Operand::Nothing,
        Op::LdcI4(number) => Operand::Int32(*number),
        Op::LdcI8(number) => Operand::Int64(*number),
        Op::Ldstr(number) => Operand::Literal(*number),
        Op::Ldarg(number)
        | Op::Ldloc(number)
        | Op::Ldarga(number)
        | Op::Ldloca(number)
        | Op::Starg(number)
        | Op::Stloc(number) => Operand::Place(*number),
        Op::Br(to)
        | Op::Brtrue(to)
        | Op::Brfalse(to)
        | Op::Beq(to)
        | Op::BneUn(to)
        | Op::Bge(to)
        | Op::Bgt(to)
        | Op::Ble(to)
        | Op::Blt(to)
        | Op::BgeUn(to)
        | Op::BgtUn(to)
        | Op::BleUn(to)
        | Op::BltUn(to)
        | Op::Leave(to) => Operand::Target(*to),
        Op::Switch(to) => Operand::Targets(to.as_slice()),
        Op::Call(method)
        | Op::Callvirt(method)
        | Op::Newobj(method)
        | Op::Ldftn(method)
        | Op::Ldvirtftn(method) => Operand::Method(method),
        Op::Constrained(kind, method) => Operand::Constrained(kind, method),
        Op::Ldfld(field)
        | Op::Stfld(field)
        | Op::Ldflda(field)
        | Op::Ldsfld(field)
        | Op::Stsfld(field)
        | Op::Ldsflda(field) => Operand::Field(field),
        Op::Ldobj(kind)
        | Op::Stobj(kind)
        | Op::Initobj(kind)
        | Op::Newarr(kind)
        | Op::Ldelem(kind)
        | Op::Stelem(kind)
        | Op::Box(kind)
        | Op::UnboxAny(kind)
        | Op::Castclass(kind)
        | Op::Isinst(kind)
        | Op::NameOf(kind) => Operand::Type(kind),
    }
}
