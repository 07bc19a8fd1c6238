// What a line of a choice does.
ghost use Rattle.std.specs.Prelude.{◌≡◌, List, IfOk, Some};
ghost use Rattle.il_model.specs.declared.key.KeyPart.{KeyPart};
ghost use Rattle.il_model.specs.ClassRules.{HasTypes};
ghost use Rattle.aot_image.specs.ChoosingLines as spec;
ghost use Rattle.aot_image.specs.ChoosingLines.{IsJudged};
ghost use Rattle.aot_image.specs.ChoosingMethods.{full_of};
ghost use Rattle.aot_image.specs.ChoosingPicks.{may_have_body};
ghost use Rattle.aot_image.specs.ChoosingParts.{words_of, parts_behind};
ghost use Rattle.aot_image.specs.ChoosingKeys.{keys_of};
ghost use Rattle.aot_image.specs.ChoosingNames.{AreTablesOf};
ghost use Rattle.aot_image.specs.ChoosingRounds.{IsWithin};
ghost use Rattle.aot_image.specs.ChoosingSizes.{IsCounted, StandFor, AreKeys};

use crate::choice_bounds::cause_of;
use crate::choice_cursor::after_byte;
use crate::choice_fault::ChoiceCause;
use crate::choice_keys::{Keys, keys_of, no_keys};
use crate::choice_methods::full_of;
use crate::choice_names::{Tables, method_with};
use crate::choice_parts::part_len;
use il_model::{KeyPart, MethodDef, Program};
use mn_outside::{NoMemory, Refused};
use sqlite_items::Items;
use std::alloc::Global;

/// What a line does to the picks of the lines before it.
#[derive(Drop)]
pub(crate) enum Act {
    Nothing,
    /// Adds the general key of each method that may have a body.
    AddsAll,
    /// Takes away all picks of this method.
    TakesAway(u16),
    /// Adds a key of this method.
    Adds(u16, Items<KeyPart>),
}

/// Whether a method may have a compiled body: it has one, and is not the method in which started threads
/// begin, whose number is 0.
pub(crate) fn may_have_body(number: usize, method: &MethodDef) -> bool
    ensures { result ≡ may_have_body number method.now }
{
    method.body.is_some() && number != 0
}

// Takes away the picks of the method with this text.
fn taken_away(program: &Program, tables: &Tables, text: &[u8]) -> Result<Act, ChoiceCause>
    requires { AreTablesOf program.now tables.now }
    ensures is { result ≡ spec.taken_away program.now (Some text.now) }
    ensures within { IfOk result (λ act. IsWithin program.now act) }
{
    let Some(number) = method_with(program, tables, text) else {
        return Err(ChoiceCause::UnknownMethod);
    };
    let Some(method) = program.methods.as_slice().get(number as usize) else {
        return Err(ChoiceCause::UnknownMethod);
    };
    if method.body.is_none() {
        return Err(ChoiceCause::NoBody);
    }
    Ok(Act::TakesAway(number))
}

// `!METHOD`, where these bytes are METHOD.
fn judged_removal(
    alloc: Global,
    program: &Program,
    tables: &Tables,
    bytes: &[u8],
) -> Result<Act, Refused<ChoiceCause>>
    requires { AreTablesOf program.now tables.now }
    ensures is { IsJudged (spec.taken_away program.now (full_of bytes.now)) result }
    ensures within { IfOk result (λ act. IsWithin program.now act) }
{
    match full_of(alloc, bytes) {
        Ok(Some(text)) => match taken_away(program, tables, text.as_slice()) {
            Ok(act) => Ok(act),
            Err(cause) => Err(Refused::Fault(cause)),
        },
        Ok(None) => Err(Refused::Fault(ChoiceCause::Syntax)),
        Err(NoMemory) => Err(Refused::NoMemory),
    }
}

// Adds keys of the method with this text.
#[tactic(auto, using(crate::proofs::ChoosingJudgingLemmas::added_unknown, crate::proofs::ChoosingJudgingLemmas::added_without, crate::proofs::ChoosingJudgingLemmas::added_is, crate::proofs::ChoosingJudgingLemmas::added_why))]
fn added(
    alloc: Global,
    program: &Program,
    tables: &Tables,
    text: &[u8],
    keys: Keys,
) -> Result<Act, Refused<ChoiceCause>>
    requires types { HasTypes program.now }
    requires tables { AreTablesOf program.now tables.now }
    requires counted { IsCounted keys }
    ensures is { (parts : List KeyPart) → StandFor keys parts → IsJudged (spec.added program.now text.now (Some parts)) result }
    ensures within { IfOk result (λ act. IsWithin program.now act) }
{
    let Some(number) = method_with(program, tables, text) else {
        return Err(Refused::Fault(ChoiceCause::UnknownMethod));
    };
    let Some(method) = program.methods.as_slice().get(number as usize) else {
        return Err(Refused::Fault(ChoiceCause::UnknownMethod));
    };
    if !may_have_body(number as usize, method) {
        return Err(Refused::Fault(ChoiceCause::NoBody));
    }
    match cause_of(alloc, program, method, &keys) {
        Ok(None) => Ok(Act::Adds(number, keys.parts)),
        Ok(Some(cause)) => Err(Refused::Fault(cause)),
        Err(NoMemory) => Err(Refused::NoMemory),
    }
}

// The keys behind a method, where there are any.
#[tactic(auto, using(crate::proofs::ChoosingJudgingLemmas::no_words, crate::proofs::ChoosingJudgingLemmas::some_words))]
fn keys_behind(
    alloc: Global,
    program: &Program,
    tables: &Tables,
    behind: &[u8],
) -> Result<Option<Keys>, NoMemory>
    requires { AreTablesOf program.now tables.now }
    ensures { IfOk result (λ keys. AreKeys (keys_of program.now (parts_behind 32 behind.now)) keys) }
{
    match behind.split_first() {
        Some((_, words)) => keys_of(alloc, program, tables, words),
        None => Ok(Some(no_keys(alloc))),
    }
}

// METHOD and the keys behind it, in a line of these bytes.
#[tactic(auto, using(crate::proofs::ChoosingJudgingLemmas::no_method, crate::proofs::ChoosingJudgingLemmas::no_keys, crate::proofs::ChoosingJudgingLemmas::keys_added))]
fn judged_addition(
    alloc: Global,
    program: &Program,
    tables: &Tables,
    line: &[u8],
) -> Result<Act, Refused<ChoiceCause>>
    requires types { HasTypes program.now }
    requires tables { AreTablesOf program.now tables.now }
    ensures is { IsJudged (spec.addition program.now (words_of line.now)) result }
    ensures within { IfOk result (λ act. IsWithin program.now act) }
{
    let (method, behind) = line.split_at(part_len(line, b' '));
    match full_of(alloc, method) {
        Ok(Some(text)) => match keys_behind(alloc, program, tables, behind) {
            Ok(Some(keys)) => added(alloc, program, tables, text.as_slice(), keys),
            Ok(None) => Err(Refused::Fault(ChoiceCause::Syntax)),
            Err(NoMemory) => Err(Refused::NoMemory),
        },
        Ok(None) => Err(Refused::Fault(ChoiceCause::Syntax)),
        Err(NoMemory) => Err(Refused::NoMemory),
    }
}

// An empty line, or one that begins with `//`.
fn is_remark(line: &[u8]) -> bool
    ensures { result ≡ spec.is_remark line.now }
{
    let Some((first, rest)) = line.split_first() else {
        return true;
    };
    *first == b'/' && after_byte(b'/', rest).is_some()
}

/// What a line does, or the first cause for which it is refused.
#[tactic(auto, unfolding(crate::specs::ChoosingLines::judged))]
pub(crate) fn judged(
    alloc: Global,
    program: &Program,
    tables: &Tables,
    line: &[u8],
) -> Result<Act, Refused<ChoiceCause>>
    requires types { HasTypes program.now }
    requires tables { AreTablesOf program.now tables.now }
    ensures is { IsJudged (spec.judged program.now line.now) result }
    ensures within { IfOk result (λ act. IsWithin program.now act) }
{
    if is_remark(line) {
        return Ok(Act::Nothing);
    }
    if b"*".as_slice() == line {
        return Ok(Act::AddsAll);
    }
    match after_byte(b'!', line) {
        Some(method) => judged_removal(alloc, program, tables, method),
        None => judged_addition(alloc, program, tables, line),
    }
}
