// The words of instructions.
ghost use Rattle.std.specs.Prelude.{◌≡◌, map, option_map};
ghost use Rattle.il_parse.specs.Mnemonics.{form_of_word, mnemonic_of, takes, holds};
ghost use Rattle.il_parse.specs.Tables.{form_in, whole_in, mnemonic_view, short_form, whole_form, held_operand};

use il_model::{Form, WrittenOperand, WrittenType};

/// What a short word holds besides its form.
#[derive(Clone, Copy)]
pub(crate) enum Held {
    Int32(i32),
    Place(u64),
    Int32Type,
    Int64Type,
    ObjectType,
}

/// What a word of an instruction says: `call`; a form whose operand follows; or a form and its operand.
#[derive(Clone, Copy)]
pub(crate) enum Says {
    Calls,
    Takes(Form),
    Holds(Form, Held),
}

// Each word of a long form.
#[rattlefmt::skip]
const LONG_WORDS: [(&[u8], Form); 81] = [
    (b"nop", Form::Nop),
    (b"dup", Form::Dup),
    (b"pop", Form::Pop),
    (b"ldc.i4", Form::LdcI4),
    (b"ldc.i8", Form::LdcI8),
    (b"ldnull", Form::Ldnull),
    (b"ldstr", Form::Ldstr),
    (b"ldarg", Form::Ldarg),
    (b"ldloc", Form::Ldloc),
    (b"ldarga", Form::Ldarga),
    (b"ldloca", Form::Ldloca),
    (b"starg", Form::Starg),
    (b"stloc", Form::Stloc),
    (b"add", Form::Add),
    (b"sub", Form::Sub),
    (b"mul", Form::Mul),
    (b"and", Form::And),
    (b"or", Form::Or),
    (b"xor", Form::Xor),
    (b"add.ovf", Form::AddOvf),
    (b"sub.ovf", Form::SubOvf),
    (b"mul.ovf", Form::MulOvf),
    (b"add.ovf.un", Form::AddOvfUn),
    (b"sub.ovf.un", Form::SubOvfUn),
    (b"mul.ovf.un", Form::MulOvfUn),
    (b"div", Form::Div),
    (b"rem", Form::Rem),
    (b"div.un", Form::DivUn),
    (b"rem.un", Form::RemUn),
    (b"shl", Form::Shl),
    (b"shr", Form::Shr),
    (b"shr.un", Form::ShrUn),
    (b"neg", Form::Neg),
    (b"not", Form::Not),
    (b"conv.i4", Form::ConvI4),
    (b"conv.i8", Form::ConvI8),
    (b"conv.u8", Form::ConvU8),
    (b"conv.ovf.i4", Form::ConvOvfI4),
    (b"ceq", Form::Ceq),
    (b"cgt", Form::Cgt),
    (b"cgt.un", Form::CgtUn),
    (b"clt", Form::Clt),
    (b"clt.un", Form::CltUn),
    (b"br", Form::Br),
    (b"brtrue", Form::Brtrue),
    (b"brfalse", Form::Brfalse),
    (b"beq", Form::Beq),
    (b"bne.un", Form::BneUn),
    (b"bge", Form::Bge),
    (b"bgt", Form::Bgt),
    (b"ble", Form::Ble),
    (b"blt", Form::Blt),
    (b"bge.un", Form::BgeUn),
    (b"bgt.un", Form::BgtUn),
    (b"ble.un", Form::BleUn),
    (b"blt.un", Form::BltUn),
    (b"switch", Form::Switch),
    (b"leave", Form::Leave),
    (b"call", Form::Call),
    (b"callvirt", Form::Callvirt),
    (b"constrained.", Form::Constrained),
    (b"newobj", Form::Newobj),
    (b"ret", Form::Ret),
    (b"ldfld", Form::Ldfld),
    (b"stfld", Form::Stfld),
    (b"ldflda", Form::Ldflda),
    (b"ldsfld", Form::Ldsfld),
    (b"stsfld", Form::Stsfld),
    (b"ldsflda", Form::Ldsflda),
    (b"ldobj", Form::Ldobj),
    (b"stobj", Form::Stobj),
    (b"initobj", Form::Initobj),
    (b"newarr", Form::Newarr),
    (b"ldlen", Form::Ldlen),
    (b"ldelem", Form::Ldelem),
    (b"stelem", Form::Stelem),
    (b"box", Form::Box),
    (b"unbox.any", Form::UnboxAny),
    (b"castclass", Form::Castclass),
    (b"isinst", Form::Isinst),
    (b"throw", Form::Throw),
];

// The short words that the operand of the long form follows.
#[rattlefmt::skip]
const SHORT_WORDS: [(&[u8], Form); 21] = [
    (b"ldc.i4.s", Form::LdcI4),
    (b"ldarg.s", Form::Ldarg),
    (b"ldloc.s", Form::Ldloc),
    (b"ldarga.s", Form::Ldarga),
    (b"ldloca.s", Form::Ldloca),
    (b"starg.s", Form::Starg),
    (b"stloc.s", Form::Stloc),
    (b"br.s", Form::Br),
    (b"brtrue.s", Form::Brtrue),
    (b"brfalse.s", Form::Brfalse),
    (b"beq.s", Form::Beq),
    (b"bne.un.s", Form::BneUn),
    (b"bge.s", Form::Bge),
    (b"bgt.s", Form::Bgt),
    (b"ble.s", Form::Ble),
    (b"blt.s", Form::Blt),
    (b"bge.un.s", Form::BgeUn),
    (b"bgt.un.s", Form::BgtUn),
    (b"ble.un.s", Form::BleUn),
    (b"blt.un.s", Form::BltUn),
    (b"leave.s", Form::Leave),
];

// The short words that hold their operand.
#[rattlefmt::skip]
const WHOLE_WORDS: [(&[u8], Form, Held); 32] = [
    (b"ldc.i4.m1", Form::LdcI4, Held::Int32(-1)),
    (b"ldc.i4.0", Form::LdcI4, Held::Int32(0)),
    (b"ldc.i4.1", Form::LdcI4, Held::Int32(1)),
    (b"ldc.i4.2", Form::LdcI4, Held::Int32(2)),
    (b"ldc.i4.3", Form::LdcI4, Held::Int32(3)),
    (b"ldc.i4.4", Form::LdcI4, Held::Int32(4)),
    (b"ldc.i4.5", Form::LdcI4, Held::Int32(5)),
    (b"ldc.i4.6", Form::LdcI4, Held::Int32(6)),
    (b"ldc.i4.7", Form::LdcI4, Held::Int32(7)),
    (b"ldc.i4.8", Form::LdcI4, Held::Int32(8)),
    (b"ldarg.0", Form::Ldarg, Held::Place(0)),
    (b"ldarg.1", Form::Ldarg, Held::Place(1)),
    (b"ldarg.2", Form::Ldarg, Held::Place(2)),
    (b"ldarg.3", Form::Ldarg, Held::Place(3)),
    (b"ldloc.0", Form::Ldloc, Held::Place(0)),
    (b"ldloc.1", Form::Ldloc, Held::Place(1)),
    (b"ldloc.2", Form::Ldloc, Held::Place(2)),
    (b"ldloc.3", Form::Ldloc, Held::Place(3)),
    (b"stloc.0", Form::Stloc, Held::Place(0)),
    (b"stloc.1", Form::Stloc, Held::Place(1)),
    (b"stloc.2", Form::Stloc, Held::Place(2)),
    (b"stloc.3", Form::Stloc, Held::Place(3)),
    (b"ldind.i4", Form::Ldobj, Held::Int32Type),
    (b"ldind.i8", Form::Ldobj, Held::Int64Type),
    (b"ldind.ref", Form::Ldobj, Held::ObjectType),
    (b"stind.i4", Form::Stobj, Held::Int32Type),
    (b"stind.i8", Form::Stobj, Held::Int64Type),
    (b"stind.ref", Form::Stobj, Held::ObjectType),
    (b"ldelem.i4", Form::Ldelem, Held::Int32Type),
    (b"ldelem.i8", Form::Ldelem, Held::Int64Type),
    (b"stelem.i4", Form::Stelem, Held::Int32Type),
    (b"stelem.i8", Form::Stelem, Held::Int64Type),
];

// The form that a word stands for in a table.
fn form_in(mut rows: &[(&[u8], Form)], word: &[u8]) -> Option<Form>
    ensures { result ≡ form_in (map (λ row. (row.0.now, row.1)) rows.entry.now) word.now }
{
    while let [row, rest @ ..] = rows {
        if row.0 == word {
            return Some(row.1);
        }
        rows = rest;
    }
    None
}

// The form and the operand that a word stands for in a table.
fn whole_in(mut rows: &[(&[u8], Form, Held)], word: &[u8]) -> Option<(Form, Held)>
    ensures { result ≡ whole_in (map (λ row. (row.0.now, (row.1, row.2))) rows.entry.now) word.now }
{
    while let [row, rest @ ..] = rows {
        if row.0 == word {
            return Some((row.1, row.2));
        }
        rows = rest;
    }
    None
}

// The long form with this word.
#[tactic(auto, using(crate::proofs::TableLemmas::long_is))]
fn long_form(word: &[u8]) -> Option<Form>
    ensures { result ≡ form_of_word word.now }
{
    form_in(&LONG_WORDS, word)
}

// The long form of a short word that its operand follows.
#[tactic(auto, using(crate::proofs::TableLemmas::short_is))]
fn short_form(word: &[u8]) -> Option<Form>
    ensures { option_map takes result ≡ short_form word.now }
{
    form_in(&SHORT_WORDS, word)
}

// The long form of a short word that holds its operand.
fn whole_form(word: &[u8]) -> Option<(Form, Held)>
    ensures { option_map (λ found. holds found.0 (held_operand found.1)) result ≡ whole_form word.now }
{
    whole_in(&WHOLE_WORDS, word)
}

/// What this word says, if it is the word of an instruction.
#[tactic(auto, unfolding(crate::specs::Mnemonics::mnemonic_of, crate::specs::Tables::short_form, crate::specs::Tables::whole_form))]
pub(crate) fn mnemonic_of(word: &[u8]) -> Option<Says>
    ensures { option_map mnemonic_view result ≡ mnemonic_of word.now }
{
    if b"call".as_slice() == word {
        return Some(Says::Calls);
    }
    if let Some(form) = long_form(word) {
        return Some(Says::Takes(form));
    }
    if let Some(form) = short_form(word) {
        return Some(Says::Takes(form));
    }
    match whole_form(word) {
        Some((form, held)) => Some(Says::Holds(form, held)),
        None => None,
    }
}

/// What a short word holds, as an operand.
pub(crate) fn held_operand(held: Held) -> WrittenOperand
    ensures { result ≡ held_operand held }
{
    match held {
        Held::Int32(value) => WrittenOperand::Int32(value),
        Held::Place(number) => WrittenOperand::Place(number),
        Held::Int32Type => WrittenOperand::Type(WrittenType::Int32),
        Held::Int64Type => WrittenOperand::Type(WrittenType::Int64),
        Held::ObjectType => WrittenOperand::Type(WrittenType::Object),
    }
}
