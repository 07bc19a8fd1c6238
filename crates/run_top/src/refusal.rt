// Why a text is refused, and the line that says so.
ghost use Rattle.std.specs.Prelude.{◌≡◌, ◌++◌, IfOk, codes, string_bytes};
ghost use Rattle.run_top.specs.Written.{line, name_of_cause, name_of_text_cause, name_of_verify_cause};
ghost use Rattle.run_top.specs.Written.{place_of as the_place_of, refusal_line as the_refusal_line};

use cil_verify::VerifyCause;
use il_parse::{ParseCause, ParseFault};
use il_text::{Spot, TextCause};
use mn_outside::NoMemory;
use std::alloc::{AllocError, Global};

/// Why a text is refused: by the parser, at its first fault; by the verifier, at the place of its first refusal; or
/// as a program that isn't of the first form.
#[derive(Clone, Copy, Debug, PartialEq, Eq)]
pub enum TextRefusal {
    Parser(ParseFault),
    Verifier(Spot, VerifyCause),
    Form,
}

fn name_of_text_cause(cause: TextCause) -> &'static str
    ensures { result.now ≡ name_of_text_cause cause }
{
    match cause {
        TextCause::BadByte => "BadByte",
        TextCause::BadLiteral => "BadLiteral",
        TextCause::LongName => "LongName",
        TextCause::TooLong => "TooLong",
    }
}

fn name_of_cause(cause: ParseCause) -> &'static str
    ensures { result.now ≡ name_of_cause cause }
{
    match cause {
        ParseCause::Text(cause) => name_of_text_cause(cause),
        ParseCause::Syntax => "Syntax",
        ParseCause::Unsupported => "Unsupported",
        ParseCause::Repeated => "Repeated",
        ParseCause::UnknownName => "UnknownName",
        ParseCause::TooMany => "TooMany",
        ParseCause::NoEntry => "NoEntry",
    }
}

// A place as line and column.
fn place_of(alloc: Global, spot: Spot) -> Result<String, AllocError>
    ensures { IfOk result (λ place. string_bytes place ≡ the_place_of spot) }
{
    let mut place = spot.line.to_string(alloc)?;
    place.push_str(":")?;
    let column = spot.column.to_string(alloc)?;
    place.push_str(column.as_str())?;
    Ok(place)
}

fn name_of_verify_cause(cause: VerifyCause) -> &'static str
    ensures { result.now ≡ name_of_verify_cause cause }
{
    match cause {
        VerifyCause::NotBuilt => "NotBuilt",
        VerifyCause::BadHierarchy => "BadHierarchy",
        VerifyCause::BadLayout => "BadLayout",
        VerifyCause::BadConstraint => "BadConstraint",
        VerifyCause::MissingImplementation => "MissingImplementation",
        VerifyCause::TooManySlots => "TooManySlots",
        VerifyCause::BadMember => "BadMember",
        VerifyCause::TooManyClauses => "TooManyClauses",
        VerifyCause::BadFlow => "BadFlow",
        VerifyCause::Underflow => "Underflow",
        VerifyCause::BadMerge => "BadMerge",
        VerifyCause::BadType => "BadType",
        VerifyCause::TooManyPlaces => "TooManyPlaces",
        VerifyCause::TooManyEntries => "TooManyEntries",
    }
}

// The line of a refusal at this place.
fn placed_line(alloc: Global, spot: Spot, cause: &str) -> Result<String, AllocError>
    ensures { IfOk result (λ words. string_bytes words ≡ line (codes "Text " ++ the_place_of spot ++ codes " " ++ cause.now)) }
{
    let mut words = String::from_str(alloc, "Text ")?;
    let place = place_of(alloc, spot)?;
    words.push_str(place.as_str())?;
    words.push_str(" ")?;
    words.push_str(cause)?;
    words.push_str("\n")?;
    Ok(words)
}

fn line_of(alloc: Global, why: TextRefusal) -> Result<String, AllocError>
    ensures { IfOk result (λ line. string_bytes line ≡ the_refusal_line why) }
{
    match why {
        TextRefusal::Parser(fault) => placed_line(alloc, fault.spot, name_of_cause(fault.cause)),
        TextRefusal::Verifier(spot, cause) => {
            placed_line(alloc, spot, name_of_verify_cause(cause))
        }
        TextRefusal::Form => String::from_str(alloc, "Text 1:1 FirstForm\n"),
    }
}

/// The line of a text that is refused.
pub(crate) fn refusal_line(alloc: Global, why: TextRefusal) -> Result<String, NoMemory>
    ensures { IfOk result (λ line. string_bytes line ≡ the_refusal_line why) }
{
    match line_of(alloc, why) {
        Ok(line) => Ok(line),
        Err(_) => Err(NoMemory),
    }
}
