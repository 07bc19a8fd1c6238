// How each form of instruction is spelled.
ghost use Rattle.std.specs.Prelude.{◌≡◌};
ghost use Rattle.il_model.specs.Forms.{word_of};
ghost use Rattle.il_print.specs.Forms.{is_spelled, text_before, text_behind};

use il_model::Form;

/// Whether some text gives this form.
pub(crate) fn is_spelled(form: Form) -> bool
    ensures { result ≡ is_spelled (word_of form) }
{
    !matches!(
        form,
        Form::Endfinally | Form::Rethrow | Form::Ldftn | Form::Ldvirtftn
    )
}

/// What stands before the operand.
pub(crate) fn text_before(form: Form) -> &'static [u8]
    ensures { result.now ≡ text_before (word_of form) }
{
    match form {
        Form::Nop => b"nop",
        Form::Dup => b"dup",
        Form::Pop => b"pop",
        Form::LdcI4 => b"ldc.i4",
        Form::LdcI8 => b"ldc.i8",
        Form::Ldnull => b"ldnull",
        Form::Ldstr => b"ldstr",
        Form::Ldarg => b"ldarg",
        Form::Ldloc => b"ldloc",
        Form::Ldarga => b"ldarga",
        Form::Ldloca => b"ldloca",
        Form::Starg => b"starg",
        Form::Stloc => b"stloc",
        Form::Add => b"add",
        Form::Sub => b"sub",
        Form::Mul => b"mul",
        Form::And => b"and",
        Form::Or => b"or",
        Form::Xor => b"xor",
        Form::AddOvf => b"add.ovf",
        Form::SubOvf => b"sub.ovf",
        Form::MulOvf => b"mul.ovf",
        Form::AddOvfUn => b"add.ovf.un",
        Form::SubOvfUn => b"sub.ovf.un",
        Form::MulOvfUn => b"mul.ovf.un",
        Form::Div => b"div",
        Form::Rem => b"rem",
        Form::DivUn => b"div.un",
        Form::RemUn => b"rem.un",
        Form::Shl => b"shl",
        Form::Shr => b"shr",
        Form::ShrUn => b"shr.un",
        Form::Neg => b"neg",
        Form::Not => b"not",
        Form::ConvI4 => b"conv.i4",
        Form::ConvI8 => b"conv.i8",
        Form::ConvU8 => b"conv.u8",
        Form::ConvOvfI4 => b"conv.ovf.i4",
        Form::Ceq => b"ceq",
        Form::Cgt => b"cgt",
        Form::CgtUn => b"cgt.un",
        Form::Clt => b"clt",
        Form::CltUn => b"clt.un",
        Form::Br => b"br",
        Form::Brtrue => b"brtrue",
        Form::Brfalse => b"brfalse",
        Form::Beq => b"beq",
        Form::BneUn => b"bne.un",
        Form::Bge => b"bge",
        Form::Bgt => b"bgt",
        Form::Ble => b"ble",
        Form::Blt => b"blt",
        Form::BgeUn => b"bge.un",
        Form::BgtUn => b"bgt.un",
        Form::BleUn => b"ble.un",
        Form::BltUn => b"blt.un",
        Form::Switch => b"switch",
        Form::Leave => b"leave",
        Form::Call => b"call",
        Form::Callvirt => b"callvirt",
        Form::Constrained => b"constrained.",
        Form::Newobj => b"newobj",
        Form::Ret => b"ret",
        Form::Ldfld => b"ldfld",
        Form::Stfld => b"stfld",
        Form::Ldflda => b"ldflda",
        Form::Ldsfld => b"ldsfld",
        Form::Stsfld => b"stsfld",
        Form::Ldsflda => b"ldsflda",
        Form::Ldobj => b"ldobj",
        Form::Stobj => b"stobj",
        Form::Initobj => b"initobj",
        Form::Newarr => b"newarr",
        Form::Ldlen => b"ldlen",
        Form::Ldelem => b"ldelem",
        Form::Stelem => b"stelem",
        Form::Box => b"box",
        Form::UnboxAny => b"unbox.any",
        Form::Castclass => b"castclass",
        Form::Isinst => b"isinst",
        Form::Throw => b"throw",
        Form::WriteLineInt32 => b"call void System.Console :: WriteLine ( int32 )",
        Form::WriteLineInt64 => b"call void System.Console :: WriteLine ( int64 )",
        Form::WriteLineString => b"call void System.Console :: WriteLine ( string )",
        Form::CompareExchangeInt32 =>
            b"call int32 System.Threading.Interlocked :: CompareExchange ( int32 &, int32, int32 )",
        Form::CompareExchangeInt64 =>
            b"call int64 System.Threading.Interlocked :: CompareExchange ( int64 &, int64, int64 )",
        Form::CompareExchangeObject =>
            b"call object System.Threading.Interlocked :: CompareExchange ( object &, object, object )",
        Form::ExchangeInt32 =>
            b"call int32 System.Threading.Interlocked :: Exchange ( int32 &, int32 )",
        Form::ExchangeInt64 =>
            b"call int64 System.Threading.Interlocked :: Exchange ( int64 &, int64 )",
        Form::ExchangeObject =>
            b"call object System.Threading.Interlocked :: Exchange ( object &, object )",
        Form::AddInt32 => b"call int32 System.Threading.Interlocked :: Add ( int32 &, int32 )",
        Form::AddInt64 => b"call int64 System.Threading.Interlocked :: Add ( int64 &, int64 )",
        Form::NameOf => b"call string Rt.Types :: NameOf <",
        Form::Start => b"call int32 Rt.Threads :: Start ( Rt.IRun )",
        Form::Join => b"call void Rt.Threads :: Join ( int32 )",
        Form::Endfinally | Form::Rethrow | Form::Ldftn | Form::Ldvirtftn => b"",
    }
}

/// What stands behind the operand.
pub(crate) fn text_behind(form: Form) -> &'static [u8]
    ensures { result.now ≡ text_behind (word_of form) }
{
    match form {
        Form::NameOf => b" > ( )",
        Form::Nop
        | Form::Dup
        | Form::Pop
        | Form::LdcI4
        | Form::LdcI8
        | Form::Ldnull
        | Form::Ldstr
        | Form::Ldarg
        | Form::Ldloc
        | Form::Ldarga
        | Form::Ldloca
        | Form::Starg
        | Form::Stloc
        | Form::Add
        | Form::Sub
        | Form::Mul
        | Form::And
        | Form::Or
        | Form::Xor
        | Form::AddOvf
        | Form::SubOvf
        | Form::MulOvf
        | Form::AddOvfUn
        | Form::SubOvfUn
        | Form::MulOvfUn
        | Form::Div
        | Form::Rem
        | Form::DivUn
        | Form::RemUn
        | Form::Shl
        | Form::Shr
        | Form::ShrUn
        | Form::Neg
        | Form::Not
        | Form::ConvI4
        | Form::ConvI8
        | Form::ConvU8
        | Form::ConvOvfI4
        | Form::Ceq
        | Form::Cgt
        | Form::CgtUn
        | Form::Clt
        | Form::CltUn
        | Form::Br
        | Form::Brtrue
        | Form::Brfalse
        | Form::Beq
        | Form::BneUn
        | Form::Bge
        | Form::Bgt
        | Form::Ble
        | Form::Blt
        | Form::BgeUn
        | Form::BgtUn
        | Form::BleUn
        | Form::BltUn
        | Form::Switch
        | Form::Leave
        | Form::Call
        | Form::Callvirt
        | Form::Constrained
        | Form::Newobj
        | Form::Ret
        | Form::Ldfld
        | Form::Stfld
        | Form::Ldflda
        | Form::Ldsfld
        | Form::Stsfld
        | Form::Ldsflda
        | Form::Ldobj
        | Form::Stobj
        | Form::Initobj
        | Form::Newarr
        | Form::Ldlen
        | Form::Ldelem
        | Form::Stelem
        | Form::Box
        | Form::UnboxAny
        | Form::Castclass
        | Form::Isinst
        | Form::Throw
        | Form::WriteLineInt32
        | Form::WriteLineInt64
        | Form::WriteLineString
        | Form::CompareExchangeInt32
        | Form::CompareExchangeInt64
        | Form::CompareExchangeObject
        | Form::ExchangeInt32
        | Form::ExchangeInt64
        | Form::ExchangeObject
        | Form::AddInt32
        | Form::AddInt64
        | Form::Start
        | Form::Join
        | Form::Endfinally
        | Form::Rethrow
        | Form::Ldftn
        | Form::Ldvirtftn => b"",
    }
}
