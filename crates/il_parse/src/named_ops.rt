// Instructions from their form and what they hold.
ghost use Rattle.std.specs.Prelude.{◌≡◌};
ghost use Rattle.il_model.specs.Ops.{nothing, int32, int64, literal, place, target, targets, type, method, field, constrained};
ghost use Rattle.il_parse.specs.NamedOps.{op_of};
ghost use Rattle.il_parse.specs.Held.{held_view};

use il_model::{FRef, Form, MRef, Op};
use sqlite_items::Items;
use type_tree::TExpr;

/// What an instruction holds: a number, the number of a literal, of a place or of an instruction, types and
/// members.
#[derive(Drop)]
pub(crate) enum Held {
    Nothing,
    Int32(i32),
    Int64(i64),
    Literal(u32),
    Place(u64),
    Target(u32),
    Targets(Items<u32>),
    Type(TExpr),
    Method(MRef),
    Field(FRef),
    Constrained(TExpr, MRef),
}

/// The instruction of this form that holds this, if the form holds such.
pub(crate) fn op_of(form: Form, held: Held) -> Option<Op>
    ensures { result ≡ op_of form (held_view held) }
{
    match held {
        Held::Nothing => plain_op(form),
        Held::Int32(number) => int32_op(form, number),
        Held::Int64(number) => int64_op(form, number),
        Held::Literal(number) => literal_op(form, number),
        Held::Place(number) => place_op(form, number),
        Held::Target(to) => target_op(form, to),
        Held::Targets(to) => targets_op(form, to),
        Held::Type(kind) => type_op(form, kind),
        Held::Method(named) => method_op(form, named),
        Held::Field(named) => field_op(form, named),
        Held::Constrained(kind, named) => constrained_op(form, kind, named),
    }
}

// The instruction of this form that holds nothing.
#[tactic(auto, unfolding(crate::specs::NamedOps::op_of))]
fn plain_op(form: Form) -> Option<Op>
    ensures { result ≡ op_of form nothing }
{
    match form {
        Form::Nop => Some(Op::Nop),
        Form::Dup => Some(Op::Dup),
        Form::Pop => Some(Op::Pop),
        Form::Ldnull => Some(Op::Ldnull),
        Form::Add => Some(Op::Add),
        Form::Sub => Some(Op::Sub),
        Form::Mul => Some(Op::Mul),
        Form::And => Some(Op::And),
        Form::Or => Some(Op::Or),
        Form::Xor => Some(Op::Xor),
        Form::AddOvf => Some(Op::AddOvf),
        Form::SubOvf => Some(Op::SubOvf),
        Form::MulOvf => Some(Op::MulOvf),
        Form::AddOvfUn => Some(Op::AddOvfUn),
        Form::SubOvfUn => Some(Op::SubOvfUn),
        Form::MulOvfUn => Some(Op::MulOvfUn),
        Form::Div => Some(Op::Div),
        Form::Rem => Some(Op::Rem),
        Form::DivUn => Some(Op::DivUn),
        Form::RemUn => Some(Op::RemUn),
        Form::Shl => Some(Op::Shl),
        Form::Shr => Some(Op::Shr),
        Form::ShrUn => Some(Op::ShrUn),
        Form::Neg => Some(Op::Neg),
        Form::Not => Some(Op::Not),
        Form::ConvI4 => Some(Op::ConvI4),
        Form::ConvI8 => Some(Op::ConvI8),
        Form::ConvU8 => Some(Op::ConvU8),
        Form::ConvOvfI4 => Some(Op::ConvOvfI4),
        Form::Ceq => Some(Op::Ceq),
        Form::Cgt => Some(Op::Cgt),
        Form::CgtUn => Some(Op::CgtUn),
        Form::Clt => Some(Op::Clt),
        Form::CltUn => Some(Op::CltUn),
        Form::Ret => Some(Op::Ret),
        Form::Ldlen => Some(Op::Ldlen),
        Form::Throw => Some(Op::Throw),
        Form::WriteLineInt32 => Some(Op::WriteLineInt32),
        Form::WriteLineInt64 => Some(Op::WriteLineInt64),
        Form::WriteLineString => Some(Op::WriteLineString),
        Form::CompareExchangeInt32 => Some(Op::CompareExchangeInt32),
        Form::CompareExchangeInt64 => Some(Op::CompareExchangeInt64),
        Form::CompareExchangeObject => Some(Op::CompareExchangeObject),
        Form::ExchangeInt32 => Some(Op::ExchangeInt32),
        Form::ExchangeInt64 => Some(Op::ExchangeInt64),
        Form::ExchangeObject => Some(Op::ExchangeObject),
        Form::AddInt32 => Some(Op::AddInt32),
        Form::AddInt64 => Some(Op::AddInt64),
        Form::Start => Some(Op::Start),
        Form::Join => Some(Op::Join),
        Form::Endfinally => Some(Op::Endfinally),
        Form::Rethrow => Some(Op::Rethrow),
        _ => None,
    }
}

// The instruction of this form that holds an int32.
#[tactic(auto, unfolding(crate::specs::NamedOps::op_of))]
fn int32_op(form: Form, number: i32) -> Option<Op>
    ensures { result ≡ op_of form (int32 number) }
{
    match form {
        Form::LdcI4 => Some(Op::LdcI4(number)),
        _ => None,
    }
}

// The instruction of this form that holds an int64.
#[tactic(auto, unfolding(crate::specs::NamedOps::op_of))]
fn int64_op(form: Form, number: i64) -> Option<Op>
    ensures { result ≡ op_of form (int64 number) }
{
    match form {
        Form::LdcI8 => Some(Op::LdcI8(number)),
        _ => None,
    }
}

// The instruction of this form that holds the number of a literal.
#[tactic(auto, unfolding(crate::specs::NamedOps::op_of))]
fn literal_op(form: Form, number: u32) -> Option<Op>
    ensures { result ≡ op_of form (literal number) }
{
    match form {
        Form::Ldstr => Some(Op::Ldstr(number)),
        _ => None,
    }
}

// The instruction of this form that holds the number of an argument or a local.
#[tactic(auto, unfolding(crate::specs::NamedOps::op_of))]
fn place_op(form: Form, number: u64) -> Option<Op>
    ensures { result ≡ op_of form (place number) }
{
    match form {
        Form::Ldarg => Some(Op::Ldarg(number)),
        Form::Ldloc => Some(Op::Ldloc(number)),
        Form::Ldarga => Some(Op::Ldarga(number)),
        Form::Ldloca => Some(Op::Ldloca(number)),
        Form::Starg => Some(Op::Starg(number)),
        Form::Stloc => Some(Op::Stloc(number)),
        _ => None,
    }
}

// The instruction of this form that holds the number of an instruction.
#[tactic(auto, unfolding(crate::specs::NamedOps::op_of))]
fn target_op(form: Form, to: u32) -> Option<Op>
    ensures { result ≡ op_of form (target to) }
{
    match form {
        Form::Br => Some(Op::Br(to)),
        Form::Brtrue => Some(Op::Brtrue(to)),
        Form::Brfalse => Some(Op::Brfalse(to)),
        Form::Beq => Some(Op::Beq(to)),
        Form::BneUn => Some(Op::BneUn(to)),
        Form::Bge => Some(Op::Bge(to)),
        Form::Bgt => Some(Op::Bgt(to)),
        Form::Ble => Some(Op::Ble(to)),
        Form::Blt => Some(Op::Blt(to)),
        Form::BgeUn => Some(Op::BgeUn(to)),
        Form::BgtUn => Some(Op::BgtUn(to)),
        Form::BleUn => Some(Op::BleUn(to)),
        Form::BltUn => Some(Op::BltUn(to)),
        Form::Leave => Some(Op::Leave(to)),
        _ => None,
    }
}

// The instruction of this form that holds numbers of instructions.
#[tactic(auto, unfolding(crate::specs::NamedOps::op_of))]
fn targets_op(form: Form, to: Items<u32>) -> Option<Op>
    ensures { result ≡ op_of form (targets to) }
{
    match form {
        Form::Switch => Some(Op::Switch(to)),
        _ => None,
    }
}

// The instruction of this form that holds a type.
#[tactic(auto, unfolding(crate::specs::NamedOps::op_of))]
fn type_op(form: Form, kind: TExpr) -> Option<Op>
    ensures { result ≡ op_of form (type kind) }
{
    match form {
        Form::Ldobj => Some(Op::Ldobj(kind)),
        Form::Stobj => Some(Op::Stobj(kind)),
        Form::Initobj => Some(Op::Initobj(kind)),
        Form::Newarr => Some(Op::Newarr(kind)),
        Form::Ldelem => Some(Op::Ldelem(kind)),
        Form::Stelem => Some(Op::Stelem(kind)),
        Form::Box => Some(Op::Box(kind)),
        Form::UnboxAny => Some(Op::UnboxAny(kind)),
        Form::Castclass => Some(Op::Castclass(kind)),
        Form::Isinst => Some(Op::Isinst(kind)),
        Form::NameOf => Some(Op::NameOf(kind)),
        _ => None,
    }
}

// The instruction of this form that holds a method.
#[tactic(auto, unfolding(crate::specs::NamedOps::op_of))]
fn method_op(form: Form, named: MRef) -> Option<Op>
    ensures { result ≡ op_of form (method named) }
{
    match form {
        Form::Call => Some(Op::Call(named)),
        Form::Callvirt => Some(Op::Callvirt(named)),
        Form::Newobj => Some(Op::Newobj(named)),
        Form::Ldftn => Some(Op::Ldftn(named)),
        Form::Ldvirtftn => Some(Op::Ldvirtftn(named)),
        _ => None,
    }
}

// The instruction of this form that holds a field.
#[tactic(auto, unfolding(crate::specs::NamedOps::op_of))]
fn field_op(form: Form, named: FRef) -> Option<Op>
    ensures { result ≡ op_of form (field named) }
{
    match form {
        Form::Ldfld => Some(Op::Ldfld(named)),
        Form::Stfld => Some(Op::Stfld(named)),
        Form::Ldflda => Some(Op::Ldflda(named)),
        Form::Ldsfld => Some(Op::Ldsfld(named)),
        Form::Stsfld => Some(Op::Stsfld(named)),
        Form::Ldsflda => Some(Op::Ldsflda(named)),
        _ => None,
    }
}

// The instruction of this form that holds a type and a method.
#[tactic(auto, unfolding(crate::specs::NamedOps::op_of))]
fn constrained_op(form: Form, kind: TExpr, named: MRef) -> Option<Op>
    ensures { result ≡ op_of form (constrained kind named) }
{
    match form {
        Form::Constrained => Some(Op::Constrained(kind, named)),
        _ => None,
    }
}
