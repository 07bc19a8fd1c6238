// From a text to its program.
ghost use Rattle.std.specs.Prelude.{◌≡◌, ◌≤◌, Some, Ok, Err, IfOk, length};
ghost use Rattle.mn_outside.specs.declared.outside.Refused.TheVariants as refused;
ghost use Rattle.il_text.specs.Tokens.{AreTokens};
ghost use Rattle.il_text.specs.Faults.{fault_of};
ghost use Rattle.il_model.specs.Lexemes.{lexemes_of};
ghost use Rattle.il_parse.specs.declared.fault.ReadError.TheVariants as error;
ghost use Rattle.il_parse.specs.Cursor.{AreReadable};
ghost use Rattle.il_parse.specs.Looking.{Looks};
ghost use Rattle.il_parse.specs.Classes.{read_program};
ghost use Rattle.il_parse.specs.Accepted.{IsAccepted, IsOfNone};
ghost use Rattle.il_parse.specs.Answer as spec;
ghost use Rattle.il_parse.specs.Parsing.{Answers, refusal};

use crate::answer::Parsed;
use crate::classes::read_classes;
use crate::cursor::Cursor;
use crate::fault::{Fault, ParseCause, ParseFault, ReadError};
use crate::named_program::program_named;
use crate::places::Places;
use crate::placing::spots;
use il_model::{Program, WrittenClass};
use il_print::canonical_length;
use il_text::{TextCause, TextFault, Token, spot, tokens};
use mn_outside::Refused;
use sqlite_items::Items;
use std::alloc::Global;

// The canonical text of a program has at most so many bytes.
const MOST_BYTES: u64 = 4_194_304;

/// The program that an assembly text spells, with the places of its definitions; or the first place at
/// which the text is refused, with its cause.
pub fn parse(alloc: Global, text: &[u8]) -> Result<Parsed, Refused<ParseFault>>
    ensures ok { IfOk result (λ parsed. spec.IsAnswer text.now (Ok parsed)) }
    ensures accepted { IfOk result (IsAccepted text.now) }

    ensures fault { (f : ParseFault) → result ≡ Err (refused.Fault f) → spec.IsAnswer text.now (Err f) }
    ensures no_program { (f : ParseFault) → result ≡ Err (refused.Fault f) → IsOfNone text.now }
{
    match tokens(alloc, text) {
        Ok(tokens) => parsed(alloc, text, tokens.as_slice()),
        Err(Refused::Fault(fault)) => Err(Refused::Fault(unreadable(text, fault))),
        Err(Refused::NoMemory) => Err(Refused::NoMemory),
    }
}

// The fault of a text that has no tokens.
fn unreadable(text: &[u8], fault: TextFault) -> ParseFault
    requires { fault_of text.now ≡ Some fault }
    ensures { result ≡ spec.unreadable_at text.now fault }
{
    ParseFault {
        spot: spot(text, fault.offset),
        cause: ParseCause::Text(fault.cause),
    }
}

// What a text with these tokens is.
#[tactic(auto, unfolding(crate::specs::Answer::parsed))]
fn parsed(alloc: Global, text: &[u8], tokens: &[Token]) -> Result<Parsed, Refused<ParseFault>>
    requires { AreTokens text.now tokens.now }
    ensures { Answers (spec.parsed text.now tokens.now) result }
{
    match classes_of(alloc, text, tokens) {
        Ok(classes) => answered(alloc, text, classes.as_slice()),
        Err(error) => Err(refused(text, error)),
    }
}

// The classes that these tokens spell.
fn classes_of(
    alloc: Global,
    text: &[u8],
    tokens: &[Token],
) -> Result<Items<WrittenClass>, ReadError>
    requires { AreReadable text.now tokens.now }
    ensures { Looks (read_program (lexemes_of text.now tokens.now)) result }
{
    let mut cursor = Cursor::new(text, tokens);
    read_classes(alloc, &mut cursor)
}

// The program that these classes stand for, with its places.
fn answered(
    alloc: Global,
    text: &[u8],
    classes: &[WrittenClass],
) -> Result<Parsed, Refused<ParseFault>>
    requires { length text.now ≤ 4194304 }
    ensures { Answers (spec.answer_with text.now classes.now (spec.short_program classes.now)) result }
{
    let program = match program_of(alloc, classes) {
        Ok(program) => program,
        Err(error) => return Err(refused(text, error)),
    };
    match spots(alloc, text, classes) {
        Ok(spots) => Ok(Parsed { program, spots }),
        Err(_) => Err(Refused::NoMemory),
    }
}

// The program that these classes stand for, if its canonical text is short enough.
fn program_of(alloc: Global, classes: &[WrittenClass]) -> Result<Program, ReadError>
    ensures { Looks (spec.short_program classes.now) result }
{
    let program = program_named(alloc, classes)?;
    short_enough(alloc, program)
}

// The program, if its canonical text is short enough.
fn short_enough(alloc: Global, program: Program) -> Result<Program, ReadError>
    ensures { Looks (spec.short_enough program) result }
{
    let Ok(bytes) = canonical_length(alloc, &program) else {
        return Err(ReadError::Memory);
    };
    if bytes <= MOST_BYTES {
        Ok(program)
    } else {
        Err(too_long())
    }
}

// That the canonical text is too long, at the end of the text.
fn too_long() -> ReadError
    ensures { result ≡ error.Fault spec.too_long }
{
    ReadError::Fault(Fault {
        at: None,
        cause: ParseCause::Text(TextCause::TooLong),
    })
}

// The refusal with its line and column.
fn refused(text: &[u8], error: ReadError) -> Refused<ParseFault>
    requires { length text.now ≤ 4194304 }
    ensures { result ≡ refusal text.now error }
{
    match error {
        ReadError::Fault(fault) => Refused::Fault(located(text, fault)),
        ReadError::Memory => Refused::NoMemory,
    }
}

// The fault with its line and column.
fn located(text: &[u8], fault: Fault) -> ParseFault
    requires { length text.now ≤ 4194304 }
    ensures { result ≡ spec.located text.now fault }
{
    let offset = match fault.at {
        Some(at) => at,
        None => text.len() as u32,
    };
    let mut places = Places::new(text);
    ParseFault {
        spot: places.spot(offset),
        cause: fault.cause,
    }
}
