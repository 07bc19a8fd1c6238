// What an instruction does to the stack, as a row of the table of instructions: which operands it takes, and
// what it leaves.
ghost use Rattle.std.specs.Prelude.{◌≡◌};
ghost use Rattle.cil_verify.specs.Rows.{row_of};
ghost use Rattle.cil_verify.specs.Steps.{row_of_step};

use il_model::{FRef, MRef, Op};
use type_tree::TExpr;

/// What needs no more than the stack and the method.
#[derive(Clone, Copy)]
pub(crate) enum Plain {
    Keep,
    Copy,
    Discard,
    Empty,
    Refuse,
    Test,
    Choose,
    Return,
    Throw,
    Length,
    Start,
    Join,
}

/// A constant.
#[derive(Clone, Copy)]
pub(crate) enum Constant {
    Int32,
    Int64,
    Null,
    Text,
}

/// Arithmetic on what is on top.
#[derive(Clone, Copy)]
pub(crate) enum Arithmetic {
    Combine,
    Shift,
    Change,
    ToInt32,
    ToInt64,
}

/// Which two operands are compared: such as have an order, may be equal, or may exceed one another.
#[derive(Clone, Copy)]
pub(crate) enum Compared {
    Ordered,
    Equal,
    Exceeding,
}

/// What is done with a place.
#[derive(Clone, Copy)]
pub(crate) enum Access {
    Load,
    Address,
    Store,
}

/// How a method is called.
#[derive(Clone, Copy)]
pub(crate) enum Calling {
    Direct,
    Virtual,
    Make,
}

/// What is done with a field.
#[derive(Clone, Copy)]
pub(crate) enum FieldAccess {
    Load,
    Store,
    Address,
    LoadStatic,
    StoreStatic,
    AddressStatic,
}

/// What is done with a value of a type.
#[derive(Clone, Copy)]
pub(crate) enum TypeAccess {
    LoadThrough,
    StoreThrough,
    Clear,
    MakeVector,
    LoadElement,
    StoreElement,
    Box,
    Unbox,
    Cast,
}

/// What a call of the library prints.
#[derive(Clone, Copy)]
pub(crate) enum Printed {
    Int32,
    Int64,
    Text,
}

/// The word that a call of the library exchanges.
#[derive(Clone, Copy)]
pub(crate) enum Word {
    Int32,
    Int64,
    Object,
}

/// A row of the table of instructions.
#[derive(Clone, Copy)]
pub(crate) enum Step<'a> {
    Plain(Plain),
    Constant(Constant),
    Arithmetic(Arithmetic),
    Comparison(Compared),
    Branch(Compared),
    Argument(Access, u64),
    Local(Access, u64),
    Call(Calling, &'a MRef),
    CallThrough(&'a TExpr, &'a MRef),
    Field(FieldAccess, &'a FRef),
    OfType(TypeAccess, &'a TExpr),
    Print(Printed),
    Exchange(Word),
    CompareExchange(Word),
}

/// The row of an instruction.
pub(crate) fn step_of(op: &Op) -> Step<'_>
    ensures { row_of_step result ≡ row_of op.now }
{
    match op {
        Op::Nop | Op::Br(_) => Step::Plain(Plain::Keep),
        Op::Dup => Step::Plain(Plain::Copy),
        Op::Pop => Step::Plain(Plain::Discard),
        Op::LdcI4(_) => Step::Constant(Constant::Int32),
        Op::LdcI8(_) => Step::Constant(Constant::Int64),
        Op::Ldnull => Step::Constant(Constant::Null),
        Op::Ldstr(_) | Op::NameOf(_) => Step::Constant(Constant::Text),
        Op::Ldarg(n) => Step::Argument(Access::Load, *n),
        Op::Ldloc(n) => Step::Local(Access::Load, *n),
        Op::Ldarga(n) => Step::Argument(Access::Address, *n),
        Op::Ldloca(n) => Step::Local(Access::Address, *n),
        Op::Starg(n) => Step::Argument(Access::Store, *n),
        Op::Stloc(n) => Step::Local(Access::Store, *n),
        Op::Add
        | Op::Sub
        | Op::Mul
        | Op::And
        | Op::Or
        | Op::Xor
        | Op::AddOvf
        | Op::SubOvf
        | Op::MulOvf
        | Op::AddOvfUn
        | Op::SubOvfUn
        | Op::MulOvfUn
        | Op::Div
        | Op::Rem
        | Op::DivUn
        | Op::RemUn => Step::Arithmetic(Arithmetic::Combine),
        Op::Shl | Op::Shr | Op::ShrUn => Step::Arithmetic(Arithmetic::Shift),
        Op::Neg | Op::Not => Step::Arithmetic(Arithmetic::Change),
        Op::ConvI4 | Op::ConvOvfI4 => Step::Arithmetic(Arithmetic::ToInt32),
        Op::ConvI8 | Op::ConvU8 => Step::Arithmetic(Arithmetic::ToInt64),
        Op::Ceq => Step::Comparison(Compared::Equal),
        Op::CgtUn => Step::Comparison(Compared::Exceeding),
        Op::Cgt | Op::Clt | Op::CltUn => Step::Comparison(Compared::Ordered),
        Op::Brtrue(_) | Op::Brfalse(_) => Step::Plain(Plain::Test),
        Op::Beq(_) | Op::BneUn(_) => Step::Branch(Compared::Equal),
        Op::Bge(_)
        | Op::Bgt(_)
        | Op::Ble(_)
        | Op::Blt(_)
        | Op::BgeUn(_)
        | Op::BgtUn(_)
        | Op::BleUn(_)
        | Op::BltUn(_) => Step::Branch(Compared::Ordered),
        Op::Switch(_) => Step::Plain(Plain::Choose),
        Op::Leave(_) => Step::Plain(Plain::Empty),
        Op::Call(m) => Step::Call(Calling::Direct, m),
        Op::Callvirt(m) => Step::Call(Calling::Virtual, m),
        Op::Constrained(t, m) => Step::CallThrough(t, m),
        Op::Newobj(m) => Step::Call(Calling::Make, m),
        Op::Ret => Step::Plain(Plain::Return),
        Op::Ldfld(f) => Step::Field(FieldAccess::Load, f),
        Op::Stfld(f) => Step::Field(FieldAccess::Store, f),
        Op::Ldflda(f) => Step::Field(FieldAccess::Address, f),
        Op::Ldsfld(f) => Step::Field(FieldAccess::LoadStatic, f),
        Op::Stsfld(f) => Step::Field(FieldAccess::StoreStatic, f),
        Op::Ldsflda(f) => Step::Field(FieldAccess::AddressStatic, f),
        Op::Ldobj(t) => Step::OfType(TypeAccess::LoadThrough, t),
        Op::Stobj(t) => Step::OfType(TypeAccess::StoreThrough, t),
        Op::Initobj(t) => Step::OfType(TypeAccess::Clear, t),
        Op::Newarr(t) => Step::OfType(TypeAccess::MakeVector, t),
        Op::Ldlen => Step::Plain(Plain::Length),
        Op::Ldelem(t) => Step::OfType(TypeAccess::LoadElement, t),
        Op::Stelem(t) => Step::OfType(TypeAccess::StoreElement, t),
        Op::Box(t) => Step::OfType(TypeAccess::Box, t),
        Op::UnboxAny(t) => Step::OfType(TypeAccess::Unbox, t),
        Op::Castclass(t) | Op::Isinst(t) => Step::OfType(TypeAccess::Cast, t),
        Op::Throw => Step::Plain(Plain::Throw),
        Op::WriteLineInt32 => Step::Print(Printed::Int32),
        Op::WriteLineInt64 => Step::Print(Printed::Int64),
        Op::WriteLineString => Step::Print(Printed::Text),
        Op::CompareExchangeInt32 => Step::CompareExchange(Word::Int32),
        Op::CompareExchangeInt64 => Step::CompareExchange(Word::Int64),
        Op::CompareExchangeObject => Step::CompareExchange(Word::Object),
        Op::ExchangeInt32 | Op::AddInt32 => Step::Exchange(Word::Int32),
        Op::ExchangeInt64 | Op::AddInt64 => Step::Exchange(Word::Int64),
        Op::ExchangeObject => Step::Exchange(Word::Object),
        Op::Start => Step::Plain(Plain::Start),
        Op::Join => Step::Plain(Plain::Join),
        Op::Endfinally | Op::Rethrow | Op::Ldftn(_) | Op::Ldvirtftn(_) => {
            Step::Plain(Plain::Refuse)
        }
    }
}
