// Calls, and those of the library that are instructions of their own.
ghost use Rattle.std.specs.Prelude.{◌≡◌, map, option_map, is_some};
ghost use Rattle.std.specs.List.{find};
ghost use Rattle.il_model.specs.declared.form.Form.TheVariants as form;
ghost use Rattle.il_model.specs.declared.written.WrittenOperand.TheVariants as operand;
ghost use Rattle.il_model.specs.Forms.{word_of};
ghost use Rattle.il_model.specs.Spellings.{plain_name};
ghost use Rattle.il_model.specs.Instructions.{plain_words};
ghost use Rattle.il_parse.specs.Reading.{Reads};
ghost use Rattle.il_parse.specs.Mnemonics.{all_forms, is_whole_call, same_words, begin_with, words_before, only_argument};
ghost use Rattle.il_parse.specs.Operands as spec;
ghost use Rattle.il_parse.specs.Calls.{sees_plain, call_in};

use crate::cursor::Cursor;
use crate::fault::ReadError;
use crate::members::read_method_ref;
use il_model::{Form, WrittenMethodRef, WrittenOperand, WrittenParam, WrittenType};
use sqlite_items::Items;
use std::alloc::Global;

// The calls of the library that have nothing of their own in them, word by word.
#[rattlefmt::skip]
const WHOLE_CALLS: [(&[&[u8]], Form); 13] = [
    (&[b"void", b"System.Console", b"::", b"WriteLine", b"(", b"int32", b")"], Form::WriteLineInt32),
    (&[b"void", b"System.Console", b"::", b"WriteLine", b"(", b"int64", b")"], Form::WriteLineInt64),
    (&[b"void", b"System.Console", b"::", b"WriteLine", b"(", b"string", b")"], Form::WriteLineString),
    (&[b"int32", b"System.Threading.Interlocked", b"::", b"CompareExchange", b"(", b"int32", b"&", b",", b"int32", b",", b"int32", b")"], Form::CompareExchangeInt32),
    (&[b"int64", b"System.Threading.Interlocked", b"::", b"CompareExchange", b"(", b"int64", b"&", b",", b"int64", b",", b"int64", b")"], Form::CompareExchangeInt64),
    (&[b"object", b"System.Threading.Interlocked", b"::", b"CompareExchange", b"(", b"object", b"&", b",", b"object", b",", b"object", b")"], Form::CompareExchangeObject),
    (&[b"int32", b"System.Threading.Interlocked", b"::", b"Exchange", b"(", b"int32", b"&", b",", b"int32", b")"], Form::ExchangeInt32),
    (&[b"int64", b"System.Threading.Interlocked", b"::", b"Exchange", b"(", b"int64", b"&", b",", b"int64", b")"], Form::ExchangeInt64),
    (&[b"object", b"System.Threading.Interlocked", b"::", b"Exchange", b"(", b"object", b"&", b",", b"object", b")"], Form::ExchangeObject),
    (&[b"int32", b"System.Threading.Interlocked", b"::", b"Add", b"(", b"int32", b"&", b",", b"int32", b")"], Form::AddInt32),
    (&[b"int64", b"System.Threading.Interlocked", b"::", b"Add", b"(", b"int64", b"&", b",", b"int64", b")"], Form::AddInt64),
    (&[b"int32", b"Rt.Threads", b"::", b"Start", b"(", b"Rt.IRun", b")"], Form::Start),
    (&[b"void", b"Rt.Threads", b"::", b"Join", b"(", b"int32", b")"], Form::Join),
];

// What stands in front of the type argument of `NameOf`.
const NAME_OF: [&[u8]; 5] = [b"string", b"Rt.Types", b"::", b"NameOf", b"<"];

/// The name, or the short spelling of `object` or `string`.
pub(crate) fn plain_name(name: &[u8]) -> &[u8]
    ensures { result.now ≡ plain_name name.now }
{
    if name == b"System.Object".as_slice() {
        return b"object";
    }
    if name == b"System.String".as_slice() {
        return b"string";
    }
    name
}

// Whether the first token is this word.
#[tactic(auto, using(crate::proofs::CallLemmas::plain_none, crate::proofs::CallLemmas::plain_some))]
fn sees_plain(cursor: &Cursor<'_>, word: &[u8]) -> bool
    ensures { result ≡ sees_plain word.now cursor.now }
{
    match cursor.at() {
        Some(_) => word == plain_name(cursor.bytes()),
        None => false,
    }
}

// Whether the tokens are just these words.
#[tactic(auto, using(crate::proofs::CallLemmas::same_stop, crate::proofs::CallLemmas::same_next, crate::proofs::CallLemmas::same_over, crate::proofs::CallLemmas::same_under))]
fn spells(cursor: &Cursor<'_>, words: &[&[u8]]) -> bool
    ensures { result ≡ same_words (map (λ w. w.now) words.now) (plain_words cursor.now) }
{
    let mut rest = cursor.here();
    for word in words {
        if !sees_plain(&rest, *word) {
            return false;
        }
        rest.advance();
    }
    match rest.at() {
        Some(_) => false,
        None => true,
    }
}

// Whether the tokens begin with these words.
#[tactic(auto, using(crate::proofs::CallLemmas::begin_stop, crate::proofs::CallLemmas::begin_next, crate::proofs::CallLemmas::begin_over))]
fn begins_with(cursor: &Cursor<'_>, words: &[&[u8]]) -> bool
    ensures { result ≡ begin_with (map (λ w. w.now) words.now) (plain_words cursor.now) }
{
    let mut rest = cursor.here();
    for word in words {
        if !sees_plain(&rest, *word) {
            return false;
        }
        rest.advance();
    }
    true
}

// The form of the row that the tokens spell.
fn call_in(mut rows: &[(&[&[u8]], Form)], cursor: &Cursor<'_>) -> Option<Form>
    ensures { result ≡ call_in (map (λ row. (map (λ w. w.now) row.0.now, row.1)) rows.entry.now) (plain_words cursor.now) }
{
    while let [row, rest @ ..] = rows {
        if spells(cursor, row.0) {
            return Some(row.1);
        }
        rows = rest;
    }
    None
}

// The form of the call that the tokens spell, where it has nothing of its own in it.
#[tactic(auto, using(crate::proofs::CallLemmas::calls_are))]
fn whole_call(cursor: &Cursor<'_>) -> Option<Form>
    ensures { result ≡ find (λ f. is_whole_call (plain_words cursor.now) (word_of f)) all_forms }
{
    call_in(&WHOLE_CALLS, cursor)
}

// Whether the tokens begin as a call of `NameOf`.
fn is_name_of(cursor: &Cursor<'_>) -> bool
    ensures { result ≡ begin_with (words_before (word_of form.NameOf)) (plain_words cursor.now) }
{
    begins_with(cursor, &NAME_OF)
}

// Whether a method has one type argument and no parameter.
fn has_only_argument(args: &Items<WrittenType>, params: &Items<WrittenParam>) -> bool
    ensures { result ≡ is_some (only_argument args.now params.now) }
{
    match args.as_slice() {
        [] | [_, _, ..] => false,
        [_] => match params.as_slice() {
            [] => true,
            [_, ..] => false,
        },
    }
}

// `NameOf` of a type, or a call like any other.
#[tactic(auto, using(crate::proofs::CallLemmas::only_popped, crate::proofs::CallLemmas::no_argument, crate::proofs::CallLemmas::none_only))]
fn name_of_call(named: WrittenMethodRef) -> (Form, WrittenOperand)
    ensures { result ≡ spec.called (option_map (λ t. (form.NameOf, operand.Type t)) (only_argument named.args named.params)) named }
{
    if !has_only_argument(&named.args, &named.params) {
        return (Form::Call, WrittenOperand::Method(named));
    }
    let mut named = named;
    match named.args.pop() {
        Some(kind) => (Form::NameOf, WrittenOperand::Type(kind)),
        None => (Form::Call, WrittenOperand::Method(named)),
    }
}

/// What follows `call`: a call of the library, which has a form of its own, or a method.
#[tactic(auto, unfolding(crate::specs::Operands::read_call, crate::specs::Mnemonics::library_call_of))]
pub(crate) fn read_call(
    alloc: Global,
    cursor: &mut Cursor<'_>,
) -> Result<(Form, WrittenOperand), ReadError>
    ensures { Reads (spec.read_call cursor.old) result cursor.new }
{
    let before = cursor.here();
    let named = read_method_ref(alloc, cursor)?;
    let taken = before.until(cursor.left());
    if let Some(form) = whole_call(&taken) {
        return Ok((form, WrittenOperand::Nothing));
    }
    if is_name_of(&taken) {
        return Ok(name_of_call(named));
    }
    Ok((Form::Call, WrittenOperand::Method(named)))
}
