// Instructions on numbers, from the stack. ECMA-335, Partition III.
ghost use Rattle.std.specs.Prelude.{◌≡◌, IfOk};
ghost use Rattle.cil_meaning.specs.Arithmetic.{Narrow, Wide, divides_past, to_unsigned64, bit_of};
ghost use Rattle.unshared.specs.Forms.{the_kind, the_width, the_wrapping, the_checked, the_division, the_shift, the_unary, the_conversion, the_comparison, IsExtended};
ghost use Rattle.unshared.specs.Calculated.{width_of, is_width, one_word, two_words, two_numbers, number_at, wraps, checks, divides, shifts, turns, is_number, converted, converts, compares, compared};
ghost use Rattle.unshared.specs.Going.{did, goes_on, Keeps};
ghost use Rattle.unshared.specs.Silent.{Gives};

use crate::fault::Fault;
use crate::frames::{Done, Frames};
use crate::numbers::{
    Checked, Comparison, Conversion, Division, Shift, Unary, Width, Wrapping, are_compared,
    checked_of, divided, fits_int32, holds, kind_at, passes_least, shifted_by, turned, wrapping_of,
};
use crate::operands::as_word;
use crate::pause::{Halt, Pause};
use crate::value::{Kind, Value};
use crate::words::{low_32, narrow};

// The width of a number. An int32 stands sign-extended.
#[tactic(auto, unfolding(crate::specs::Calculated::width_of))]
fn at_width(kind: Kind, word: u64) -> Result<Width, Pause>
    ensures width { Gives the_width (width_of (the_kind kind) word) result }
    ensures extended { IfOk result (λ width. IsExtended width word) }
{
    match kind {
        Kind::Int32 => {
            if narrow(word) == word {
                Ok(Width::Narrow)
            } else {
                Err(Pause::Halts(Halt::Stuck))
            }
        }
        Kind::Int64 => Ok(Width::Wide),
        Kind::Native | Kind::Reference | Kind::Struct => Err(Pause::Halts(Halt::Stuck)),
    }
}

fn is_narrow(width: Width) -> bool
    ensures { result ≡ is_width (the_width width) Narrow }
{
    match width {
        Width::Narrow => true,
        Width::Wide => false,
    }
}

fn is_wide(width: Width) -> bool
    ensures { result ≡ is_width (the_width width) Wide }
{
    match width {
        Width::Narrow => false,
        Width::Wide => true,
    }
}

fn is_width(width: Width, other: Width) -> bool
    ensures { result ≡ is_width (the_width width) (the_width other) }
{
    match other {
        Width::Narrow => is_narrow(width),
        Width::Wide => is_wide(width),
    }
}

// The word on top.
#[tactic(auto, unfolding(crate::specs::Calculated::one_word))]
pub(crate) fn one_word(frames: &Frames) -> Result<(Kind, u64), Pause>
    ensures { Gives (λ r. (the_kind r.0, r.1)) (one_word frames.now) result }
{
    let value = frames.value(0)?;
    Ok(as_word(value)?)
}

// Two words with their kinds, the second of them on top.
#[tactic(auto, unfolding(crate::specs::Calculated::two_words))]
fn two_words(frames: &Frames) -> Result<(Kind, u64, Kind, u64), Pause>
    ensures { Gives (λ r. (the_kind r.0, r.1, the_kind r.2, r.3)) (two_words frames.now) result }
{
    let second = frames.value(0)?;
    let (second_kind, b) = as_word(second)?;
    let first = frames.value(1)?;
    let (first_kind, a) = as_word(first)?;
    Ok((first_kind, a, second_kind, b))
}

// Two numbers of one width, the second of them on top.
#[tactic(auto, unfolding(crate::specs::Calculated::two_numbers))]
fn two_numbers(frames: &Frames) -> Result<(Width, u64, u64), Pause>
    ensures numbers { Gives (λ r. (the_width r.0, r.1, r.2)) (two_numbers frames.now) result }
    ensures first { IfOk result (λ r. IsExtended r.0 r.1) }
    ensures second { IfOk result (λ r. IsExtended r.0 r.2) }
{
    let (first_kind, a, second_kind, b) = two_words(frames)?;
    let width = at_width(first_kind, a)?;
    let other = at_width(second_kind, b)?;
    if is_width(width, other) {
        Ok((width, a, b))
    } else {
        Err(Pause::Halts(Halt::Stuck))
    }
}

// A number in place of so many values.
fn number(frames: &mut Frames, taken: usize, width: Width, word: u64) -> Result<Done, Pause>
    ensures acts { Gives (did frames.new) (Ok (goes_on frames.old taken (number_at (the_width width) word))) result }
    ensures kept { Keeps result frames.old frames.new }
{
    Ok(frames.pushes(taken, Value::Word(kind_at(width), word))?)
}

/// Arithmetic that wraps.
#[tactic(auto, unfolding(crate::specs::Calculated::wraps))]
pub(crate) fn wraps(frames: &mut Frames, form: Wrapping) -> Result<Done, Pause>
    ensures acts { Gives (did frames.new) (wraps (the_wrapping form) frames.old) result }
    ensures kept { Keeps result frames.old frames.new }
{
    let (width, a, b) = two_numbers(frames)?;
    Ok(number(frames, 2, width, wrapping_of(form, width, a, b))?)
}

/// Arithmetic whose result has to fit.
#[tactic(auto, unfolding(crate::specs::Calculated::checks))]
pub(crate) fn checks(frames: &mut Frames, form: Checked, is_signed: bool) -> Result<Done, Pause>
    ensures acts { Gives (did frames.new) (checks (the_checked form is_signed) frames.old) result }
    ensures kept { Keeps result frames.old frames.new }
{
    let (width, a, b) = two_numbers(frames)?;
    match checked_of(form, is_signed, width, a, b) {
        Some(word) => Ok(number(frames, 2, width, word)?),
        None => Ok(Done::Throws(Fault::Overflow)),
    }
}

/// Division.
#[tactic(auto, unfolding(crate::specs::Calculated::divides))]
pub(crate) fn divides(frames: &mut Frames, form: Division, is_signed: bool) -> Result<Done, Pause>
    ensures acts { Gives (did frames.new) (divides (the_division form is_signed) frames.old) result }
    ensures kept { Keeps result frames.old frames.new }
{
    let (width, a, b) = two_numbers(frames)?;
    if b == 0 {
        return Ok(Done::Throws(Fault::DivideByZero));
    }
    if passes(form, is_signed, width, a, b) {
        return Ok(Done::Throws(Fault::Overflow));
    }
    Ok(number(frames, 2, width, divided(form, is_signed, width, a, b))?)
}

// Whether a division has no result of its width.
fn passes(form: Division, is_signed: bool, width: Width, a: u64, b: u64) -> bool
    ensures { result ≡ divides_past (the_division form is_signed) (the_width width) a b }
{
    match form {
        Division::Quotient => {
            if is_signed {
                passes_least(width, a, b)
            } else {
                false
            }
        }
        Division::Remainder => {
            if is_signed {
                passes_least(width, a, b)
            } else {
                false
            }
        }
    }
}

/// Shifts, whose count is an int32.
#[tactic(auto, unfolding(crate::specs::Calculated::shifts))]
pub(crate) fn shifts(frames: &mut Frames, form: Shift) -> Result<Done, Pause>
    ensures acts { Gives (did frames.new) (shifts (the_shift form) frames.old) result }
    ensures kept { Keeps result frames.old frames.new }
{
    let (first_kind, a, second_kind, b) = two_words(frames)?;
    let width = at_width(first_kind, a)?;
    let other = at_width(second_kind, b)?;
    if is_narrow(other) {
        Ok(number(frames, 2, width, shifted_by(form, width, a, b))?)
    } else {
        Err(Pause::Halts(Halt::Stuck))
    }
}

/// The negative or the complement of a number.
#[tactic(auto, unfolding(crate::specs::Calculated::turns))]
pub(crate) fn turns(frames: &mut Frames, form: Unary) -> Result<Done, Pause>
    ensures acts { Gives (did frames.new) (turns (the_unary form) frames.old) result }
    ensures kept { Keeps result frames.old frames.new }
{
    let (kind, word) = one_word(frames)?;
    let width = at_width(kind, word)?;
    Ok(number(frames, 1, width, turned(form, width, word))?)
}

// The word that `conv.u8` gives.
fn to_unsigned64(kind: Kind, word: u64) -> u64
    ensures { result ≡ to_unsigned64 (the_kind kind) word }
{
    match kind {
        Kind::Int32 => low_32(word),
        Kind::Int64 | Kind::Native | Kind::Reference | Kind::Struct => word,
    }
}

fn is_number(kind: Kind) -> bool
    ensures { result ≡ is_number (the_kind kind) }
{
    match kind {
        Kind::Int32 | Kind::Int64 | Kind::Native => true,
        Kind::Reference | Kind::Struct => false,
    }
}

// A number converted.
fn converted(frames: &mut Frames, form: Conversion, kind: Kind, word: u64) -> Result<Done, Pause>
    ensures acts { Gives (did frames.new) (Ok (converted (the_conversion form) frames.old (the_kind kind) word)) result }
    ensures kept { Keeps result frames.old frames.new }
{
    match form {
        Conversion::ToInt32 => Ok(frames.pushes(1, Value::int32(narrow(word)))?),
        Conversion::ToInt64 => Ok(frames.pushes(1, Value::Word(Kind::Int64, word))?),
        Conversion::ToUnsigned64 => {
            let word = to_unsigned64(kind, word);
            Ok(frames.pushes(1, Value::Word(Kind::Int64, word))?)
        }
        Conversion::ToInt32Checked => {
            if fits_int32(word) {
                Ok(frames.pushes(1, Value::int32(word))?)
            } else {
                Ok(Done::Throws(Fault::Overflow))
            }
        }
    }
}

/// Conversions.
#[tactic(auto, unfolding(crate::specs::Calculated::converts))]
pub(crate) fn converts(frames: &mut Frames, form: Conversion) -> Result<Done, Pause>
    ensures acts { Gives (did frames.new) (converts (the_conversion form) frames.old) result }
    ensures kept { Keeps result frames.old frames.new }
{
    let (kind, word) = one_word(frames)?;
    if is_number(kind) {
        Ok(converted(frames, form, kind, word)?)
    } else {
        Err(Pause::Halts(Halt::Stuck))
    }
}

/// What a comparison of the two values on top says.
#[tactic(auto, unfolding(crate::specs::Calculated::compares))]
pub(crate) fn compares(frames: &Frames, form: Comparison) -> Result<bool, Pause>
    ensures { Gives (λ is_so. is_so) (compares (the_comparison form) frames.now) result }
{
    let (first_kind, a, second_kind, b) = two_words(frames)?;
    if are_compared(form, first_kind, second_kind) {
        Ok(holds(form, a, b))
    } else {
        Err(Pause::Halts(Halt::Stuck))
    }
}

fn bit_of(is_so: bool) -> u64
    ensures { result ≡ bit_of is_so }
{
    if is_so { 1 } else { 0 }
}

/// A comparison that leaves an int32.
#[tactic(auto, unfolding(crate::specs::Calculated::compared))]
pub(crate) fn compared(frames: &mut Frames, form: Comparison) -> Result<Done, Pause>
    ensures acts { Gives (did frames.new) (compared (the_comparison form) frames.old) result }
    ensures kept { Keeps result frames.old frames.new }
{
    let is_so = compares(frames, form)?;
    Ok(frames.pushes(2, Value::int32(bit_of(is_so)))?)
}
