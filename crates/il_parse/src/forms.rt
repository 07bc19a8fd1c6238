// What follows the word of an instruction.
ghost use Rattle.std.specs.Prelude.{◌≡◌};
ghost use Rattle.il_model.specs.Forms.{operand_kind};
ghost use Rattle.il_parse.specs.Tables.{kind_view};

use il_model::Form;

/// What a form takes.
#[derive(Clone, Copy, Debug, PartialEq, Eq)]
pub(crate) enum Takes {
    Nothing,
    Int32,
    Int64,
    Text,
    Place,
    Label,
    Labels,
    Type,
    Called,
    Method,
    Field,
    Constrained,
}

/// What this form takes.
pub(crate) fn operand_kind(form: Form) -> Takes
    ensures { kind_view result ≡ operand_kind form }
{
    match form {
        Form::Nop
        | Form::Dup
        | Form::Pop
        | Form::Ldnull
        | Form::Add
        | Form::Sub
        | Form::Mul
        | Form::And
        | Form::Or
        | Form::Xor
        | Form::AddOvf
        | Form::SubOvf
        | Form::MulOvf
        | Form::AddOvfUn
        | Form::SubOvfUn
        | Form::MulOvfUn
        | Form::Div
        | Form::Rem
        | Form::DivUn
        | Form::RemUn
        | Form::Shl
        | Form::Shr
        | Form::ShrUn
        | Form::Neg
        | Form::Not
        | Form::ConvI4
        | Form::ConvI8
        | Form::ConvU8
        | Form::ConvOvfI4
        | Form::Ceq
        | Form::Cgt
        | Form::CgtUn
        | Form::Clt
        | Form::CltUn
        | Form::Ret
        | Form::Ldlen
        | Form::Throw
        | Form::WriteLineInt32
        | Form::WriteLineInt64
        | Form::WriteLineString
        | Form::CompareExchangeInt32
        | Form::CompareExchangeInt64
        | Form::CompareExchangeObject
        | Form::ExchangeInt32
        | Form::ExchangeInt64
        | Form::ExchangeObject
        | Form::AddInt32
        | Form::AddInt64
        | Form::Start
        | Form::Join
        | Form::Endfinally
        | Form::Rethrow => Takes::Nothing,
        Form::LdcI4 => Takes::Int32,
        Form::LdcI8 => Takes::Int64,
        Form::Ldstr => Takes::Text,
        Form::Ldarg | Form::Ldloc | Form::Ldarga | Form::Ldloca | Form::Starg | Form::Stloc =>
            Takes::Place,
        Form::Br
        | Form::Brtrue
        | Form::Brfalse
        | Form::Beq
        | Form::BneUn
        | Form::Bge
        | Form::Bgt
        | Form::Ble
        | Form::Blt
        | Form::BgeUn
        | Form::BgtUn
        | Form::BleUn
        | Form::BltUn
        | Form::Leave => Takes::Label,
        Form::Switch => Takes::Labels,
        Form::Call => Takes::Called,
        Form::Callvirt | Form::Newobj | Form::Ldftn | Form::Ldvirtftn => Takes::Method,
        Form::Constrained => Takes::Constrained,
        Form::Ldfld | Form::Stfld | Form::Ldflda | Form::Ldsfld | Form::Stsfld | Form::Ldsflda =>
            Takes::Field,
        Form::Ldobj
        | Form::Stobj
        | Form::Initobj
        | Form::Newarr
        | Form::Ldelem
        | Form::Stelem
        | Form::Box
        | Form::UnboxAny
        | Form::Castclass
        | Form::Isinst
        | Form::NameOf => Takes::Type,
    }
}
