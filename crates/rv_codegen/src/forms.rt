// What a plain instruction does, in a form for each kind of code.
ghost use Rattle.std.specs.Prelude.{◌≡◌, ◌<◌, ℕ, List};
ghost use Rattle.std.specs.Int.{w32, w64, cast_unsigned};
ghost use Rattle.store_object.specs.Store.{sign_extended};
ghost use Rattle.cil_flow.specs.declared.state.StackType.{StackType};
ghost use Rattle.cil_meaning.specs.Groups.{group_of};
ghost use Rattle.cil_meaning.specs.Naming.{literal_word};
ghost use Rattle.cil_meaning.specs.Words.{int32_word, int64_word};
ghost use Rattle.rv_codegen.specs.PlainItems.{BodyData, group_items};
ghost use Rattle.rv_codegen.specs.Forms.{form_items};

use il_model::Op;
use store_object::Form;

/// Arithmetic on two operands, which wraps.
#[derive(Clone, Copy)]
pub(crate) enum Binary {
    Add,
    Sub,
    Mul,
    And,
    Or,
    Xor,
    Shl,
    Shr,
    ShrUn,
}

#[derive(Clone, Copy)]
pub(crate) enum Unary {
    Neg,
    Not,
}

#[derive(Clone, Copy)]
pub(crate) enum Conversion {
    Int32,
    Int64,
    Unsigned64,
}

/// Comparisons of two operands; those with `Un` take them as numbers without sign.
#[derive(Clone, Copy)]
pub(crate) enum Comparison {
    Equal,
    Unequal,
    Less,
    LessUn,
    LessOrEqual,
    LessOrEqualUn,
    Greater,
    GreaterUn,
    GreaterOrEqual,
    GreaterOrEqualUn,
}

/// An argument or a local, by its number.
#[derive(Clone, Copy)]
pub(crate) enum Slot {
    Argument(u64),
    Local(u64),
}

/// What a plain instruction does. Targets are numbers of instructions; of `Other` no code is made here.
#[derive(Clone, Copy)]
pub(crate) enum PlainForm<'a> {
    Rest,
    Copy,
    Push(u64),
    Read(Slot),
    Point(Slot),
    Write(Slot),
    Calculate(Binary),
    Turn(Unary),
    Convert(Conversion),
    Compare(Comparison),
    Jump(u32),
    JumpWhere(bool, u32),
    JumpBy(Comparison, u32),
    Choose(&'a [u32]),
    Return,
    Print(Form),
    Other,
}

// The word of an int32.
fn int32_word(number: i32) -> u64
    ensures { result ≡ int32_word number }
{
    extended(number.cast_unsigned())
}

fn extended(low: u32) -> u64
    ensures { result ≡ sign_extended low }
{
    if low < 2_147_483_648 {
        u64::from(low)
    } else {
        u64::from(low) + 18_446_744_069_414_584_320
    }
}

// The word of an int64.
fn int64_word(number: i64) -> u64
    ensures { result ≡ int64_word number }
{
    number.cast_unsigned()
}

// The word of a literal of the program.
fn literal_word(number: u32) -> u64
    ensures { result ≡ literal_word number }
{
    4_294_967_296 + u64::from(number)
}

/// What an instruction does, in the order of the table of instructions.
pub(crate) fn form_of(op: &Op) -> PlainForm
    ensures { (b : BodyData) (at : ℕ) (types : List StackType) →
        form_items b at types result ≡ group_items b at types (group_of op.now) }
{
    match op {
        Op::Nop | Op::Pop => PlainForm::Rest,
        Op::Dup => PlainForm::Copy,
        Op::LdcI4(number) => PlainForm::Push(int32_word(*number)),
        Op::LdcI8(number) => PlainForm::Push(int64_word(*number)),
        Op::Ldnull => PlainForm::Push(0),
        Op::Ldstr(number) => PlainForm::Push(literal_word(*number)),
        Op::Ldarg(number) => PlainForm::Read(Slot::Argument(*number)),
        Op::Ldloc(number) => PlainForm::Read(Slot::Local(*number)),
        Op::Ldarga(number) => PlainForm::Point(Slot::Argument(*number)),
        Op::Ldloca(number) => PlainForm::Point(Slot::Local(*number)),
        Op::Starg(number) => PlainForm::Write(Slot::Argument(*number)),
        Op::Stloc(number) => PlainForm::Write(Slot::Local(*number)),
        Op::Add => PlainForm::Calculate(Binary::Add),
        Op::Sub => PlainForm::Calculate(Binary::Sub),
        Op::Mul => PlainForm::Calculate(Binary::Mul),
        Op::And => PlainForm::Calculate(Binary::And),
        Op::Or => PlainForm::Calculate(Binary::Or),
        Op::Xor => PlainForm::Calculate(Binary::Xor),
        Op::Shl => PlainForm::Calculate(Binary::Shl),
        Op::Shr => PlainForm::Calculate(Binary::Shr),
        Op::ShrUn => PlainForm::Calculate(Binary::ShrUn),
        Op::Neg => PlainForm::Turn(Unary::Neg),
        Op::Not => PlainForm::Turn(Unary::Not),
        Op::ConvI4 => PlainForm::Convert(Conversion::Int32),
        Op::ConvI8 => PlainForm::Convert(Conversion::Int64),
        Op::ConvU8 => PlainForm::Convert(Conversion::Unsigned64),
        Op::Ceq => PlainForm::Compare(Comparison::Equal),
        Op::Cgt => PlainForm::Compare(Comparison::Greater),
        Op::CgtUn => PlainForm::Compare(Comparison::GreaterUn),
        Op::Clt => PlainForm::Compare(Comparison::Less),
        Op::CltUn => PlainForm::Compare(Comparison::LessUn),
        Op::Br(to) => PlainForm::Jump(*to),
        Op::Brtrue(to) => PlainForm::JumpWhere(true, *to),
        Op::Brfalse(to) => PlainForm::JumpWhere(false, *to),
        Op::Beq(to) => PlainForm::JumpBy(Comparison::Equal, *to),
        Op::BneUn(to) => PlainForm::JumpBy(Comparison::Unequal, *to),
        Op::Bge(to) => PlainForm::JumpBy(Comparison::GreaterOrEqual, *to),
        Op::Bgt(to) => PlainForm::JumpBy(Comparison::Greater, *to),
        Op::Ble(to) => PlainForm::JumpBy(Comparison::LessOrEqual, *to),
        Op::Blt(to) => PlainForm::JumpBy(Comparison::Less, *to),
        Op::BgeUn(to) => PlainForm::JumpBy(Comparison::GreaterOrEqualUn, *to),
        Op::BgtUn(to) => PlainForm::JumpBy(Comparison::GreaterUn, *to),
        Op::BleUn(to) => PlainForm::JumpBy(Comparison::LessOrEqualUn, *to),
        Op::BltUn(to) => PlainForm::JumpBy(Comparison::LessUn, *to),
        Op::Switch(targets) => PlainForm::Choose(targets.as_slice()),
        Op::Leave(to) => PlainForm::Jump(*to),
        Op::Ret => PlainForm::Return,
        Op::WriteLineInt32 | Op::WriteLineInt64 => PlainForm::Print(Form::Number),
        Op::WriteLineString => PlainForm::Print(Form::String),
        Op::AddOvf
        | Op::SubOvf
        | Op::MulOvf
        | Op::AddOvfUn
        | Op::SubOvfUn
        | Op::MulOvfUn
        | Op::Div
        | Op::Rem
        | Op::DivUn
        | Op::RemUn
        | Op::ConvOvfI4
        | Op::Call(_)
        | Op::Callvirt(_)
        | Op::Constrained(_, _)
        | Op::Newobj(_)
        | Op::Ldfld(_)
        | Op::Stfld(_)
        | Op::Ldflda(_)
        | Op::Ldsfld(_)
        | Op::Stsfld(_)
        | Op::Ldsflda(_)
        | Op::Ldobj(_)
        | Op::Stobj(_)
        | Op::Initobj(_)
        | Op::Newarr(_)
        | Op::Ldlen
        | Op::Ldelem(_)
        | Op::Stelem(_)
        | Op::Box(_)
        | Op::UnboxAny(_)
        | Op::Castclass(_)
        | Op::Isinst(_)
        | Op::Throw
        | Op::CompareExchangeInt32
        | Op::CompareExchangeInt64
        | Op::CompareExchangeObject
        | Op::ExchangeInt32
        | Op::ExchangeInt64
        | Op::ExchangeObject
        | Op::AddInt32
        | Op::AddInt64
        | Op::NameOf(_)
        | Op::Start
        | Op::Join
        | Op::Endfinally
        | Op::Rethrow
        | Op::Ldftn(_)
        | Op::Ldvirtftn(_) => PlainForm::Other,
    }
}
