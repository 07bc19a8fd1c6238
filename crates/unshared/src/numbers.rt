// Results of arithmetic, shifts and comparisons on words. ECMA-335, Partition III.
ghost use Rattle.std.specs.Prelude.{◌≡◌, ◌≢◌, ◌%◌, ◌^◌, ℕ, ℤ, pos, true, false, FitsSigned, IfSome, IfNone, int_div, int_rem};
ghost use Rattle.std.specs.Option.{SomeIff};
ghost use Rattle.std.specs.Int.{w64};
ghost use Rattle.cil_meaning.specs.Words.{signed};
ghost use Rattle.cil_meaning.specs.Arithmetic.{kind_at, unsigned_at, wrapped, wrapping_of, fits_signed, fits_unsigned, wrapped_int, passes_least, divides_past, divided, bits_of, shifted_by, turned, is_below, holds, admits_references, are_compared};
ghost use Rattle.cil_meaning.specs.Arithmetic.{Narrow, Wide};
ghost use Rattle.unshared.specs.Checked.{checked_word};
ghost use Rattle.unshared.specs.Forms.{the_kind, the_width, the_wrapping, the_checked, the_division, the_shift, the_unary, the_comparison, exact_int, IsExtended};

use crate::value::Kind;
use crate::words::{low_32, narrow};

/// The width of an instruction's operands: 32 bits or 64.
#[derive(Clone, Copy, PartialEq, Eq)]
pub(crate) enum Width {
    Narrow,
    Wide,
}

/// Arithmetic that wraps.
#[derive(Clone, Copy)]
pub(crate) enum Wrapping {
    Sum,
    Difference,
    Product,
    Conjunction,
    Disjunction,
    Exclusive,
}

/// Arithmetic whose result has to fit.
#[derive(Clone, Copy)]
pub(crate) enum Checked {
    Sum,
    Difference,
    Product,
}

#[derive(Clone, Copy)]
pub(crate) enum Division {
    Quotient,
    Remainder,
}

#[derive(Clone, Copy)]
pub(crate) enum Shift {
    Leftwards,
    Rightwards { is_signed: bool },
}

#[derive(Clone, Copy)]
pub(crate) enum Unary {
    Negative,
    Complement,
}

#[derive(Clone, Copy)]
pub(crate) enum Conversion {
    ToInt32,
    ToInt64,
    ToUnsigned64,
    ToInt32Checked,
}

#[derive(Clone, Copy)]
pub(crate) enum Comparison {
    Equal,
    Unequal,
    Less { is_signed: bool },
    LessOrEqual { is_signed: bool },
    Greater { is_signed: bool },
    GreaterOrEqual { is_signed: bool },
}

pub(crate) fn kind_at(width: Width) -> Kind
    ensures { the_kind result ≡ kind_at (the_width width) }
{
    match width {
        Width::Narrow => Kind::Int32,
        Width::Wide => Kind::Int64,
    }
}

// The number that a word is at a width, without sign.
fn unsigned_at(width: Width, word: u64) -> u64
    ensures { result ≡ unsigned_at (the_width width) word }
{
    match width {
        Width::Narrow => low_32(word),
        Width::Wide => word,
    }
}

// A word modulo 2^32 or 2^64, as a word.
fn wrapped(width: Width, word: u64) -> u64
    ensures { (n : ℕ) → word ≡ n % 2 ^ 64 → result ≡ wrapped (the_width width) n }
{
    match width {
        Width::Narrow => narrow(word),
        Width::Wide => word,
    }
}

/// Modulo 2^32 or 2^64, or bit by bit.
pub(crate) fn wrapping_of(form: Wrapping, width: Width, a: u64, b: u64) -> u64
    ensures { result ≡ wrapping_of (the_wrapping form) (the_width width) a b }
{
    match form {
        Wrapping::Sum => wrapped(width, a.wrapping_add(b)),
        Wrapping::Difference => wrapped(width, a.wrapping_sub(b)),
        Wrapping::Product => wrapped(width, a.wrapping_mul(b)),
        Wrapping::Conjunction => a & b,
        Wrapping::Disjunction => a | b,
        Wrapping::Exclusive => a ^ b,
    }
}

// The word of a signed number that fits the width.
fn signed_word(width: Width, number: i64) -> u64
    requires { fits_signed (the_width width) number ≡ true }
    ensures { result ≡ wrapped_int (the_width width) number }
{
    number.cast_unsigned()
}

// The exact result as signed numbers of 64 bits, where it fits them.
fn exact_signed(form: Checked, a: i64, b: i64) -> Option<i64>
    ensures { SomeIff result (FitsSigned w64 (exact_int form a b)) (exact_int form a b) }
{
    match form {
        Checked::Sum => a.checked_add(b),
        Checked::Difference => a.checked_sub(b),
        Checked::Product => a.checked_mul(b),
    }
}

// The same without sign.
fn exact_unsigned(form: Checked, a: u64, b: u64) -> Option<u64>
    ensures some { IfSome result (λ number. pos number ≡ exact_int form (pos a) (pos b)) }
    ensures none { IfNone result (fits_unsigned Wide (exact_int form (pos a) (pos b)) ≡ false) }
{
    match form {
        Checked::Sum => a.checked_add(b),
        Checked::Difference => a.checked_sub(b),
        Checked::Product => a.checked_mul(b),
    }
}

// Whether a signed number is one of the width.
fn fits_signed(width: Width, number: i64) -> bool
    ensures { result ≡ fits_signed (the_width width) number }
{
    match width {
        Width::Narrow => number >= -2147483648 && number < 2147483648,
        Width::Wide => true,
    }
}

/// Whether a word is the number of an int32, with sign.
pub(crate) fn fits_int32(word: u64) -> bool
    ensures { result ≡ fits_signed Narrow (signed word) }
{
    fits_signed(Width::Narrow, word.cast_signed())
}

fn fits_unsigned(width: Width, number: u64) -> bool
    ensures { result ≡ fits_unsigned (the_width width) (pos number) }
{
    match width {
        Width::Narrow => number < 4294967296,
        Width::Wide => true,
    }
}

// The word of the exact result, where it fits the width with sign.
fn checked_signed(form: Checked, width: Width, a: u64, b: u64) -> Option<u64>
    ensures { result ≡ checked_word (the_checked form true) (the_width width) a b }
{
    let number = exact_signed(form, a.cast_signed(), b.cast_signed())?;
    if fits_signed(width, number) {
        Some(signed_word(width, number))
    } else {
        None
    }
}

// The same without sign.
#[tactic(auto, using(crate::proofs::CheckedLemmas::unsigned_some, crate::proofs::CheckedLemmas::unsigned_none))]
fn checked_unsigned(form: Checked, width: Width, a: u64, b: u64) -> Option<u64>
    ensures { result ≡ checked_word (the_checked form false) (the_width width) a b }
{
    let number = exact_unsigned(form, unsigned_at(width, a), unsigned_at(width, b))?;
    if fits_unsigned(width, number) {
        Some(wrapped(width, number))
    } else {
        None
    }
}

/// The word of the exact result, where it fits the width with sign or without.
pub(crate) fn checked_of(
    form: Checked,
    is_signed: bool,
    width: Width,
    a: u64,
    b: u64,
) -> Option<u64>
    ensures { result ≡ checked_word (the_checked form is_signed) (the_width width) a b }
{
    if is_signed {
        checked_signed(form, width, a, b)
    } else {
        checked_unsigned(form, width, a, b)
    }
}

/// Whether it is the least number by -1.
pub(crate) fn passes_least(width: Width, a: u64, b: u64) -> bool
    ensures { result ≡ passes_least (the_width width) a b }
{
    let least = match width {
        Width::Narrow => 18446744071562067968,
        Width::Wide => 9223372036854775808,
    };
    a == least && b == 18446744073709551615
}

// The word of a signed quotient that is rounded toward zero.
fn quotient(width: Width, a: u64, b: u64) -> u64
    requires divisor { b ≢ 0 }
    requires dividend { IsExtended width a }
    ensures { result ≡ wrapped_int (the_width width) (int_div (signed a) (signed b)) }
{
    let number = a.cast_signed().wrapping_div(b.cast_signed());
    wrapped(width, number.cast_unsigned())
}

// The word of the remainder, which has the sign of the dividend.
fn remainder(width: Width, a: u64, b: u64) -> u64
    requires divisor { b ≢ 0 }
    requires dividend { IsExtended width a }
    ensures { result ≡ wrapped_int (the_width width) (int_rem (signed a) (signed b)) }
{
    let number = a.cast_signed().wrapping_rem(b.cast_signed());
    wrapped(width, number.cast_unsigned())
}

/// The quotient, rounded toward zero, or the remainder, with the sign of the dividend. The divisor isn't 0.
pub(crate) fn divided(form: Division, is_signed: bool, width: Width, a: u64, b: u64) -> u64
    requires divisor { b ≢ 0 }
    requires low { unsigned_at (the_width width) b ≢ 0 }
    requires dividend { IsExtended width a }
    ensures { result ≡ divided (the_division form is_signed) (the_width width) a b }
{
    if is_signed {
        match form {
            Division::Quotient => quotient(width, a, b),
            Division::Remainder => remainder(width, a, b),
        }
    } else {
        let first = unsigned_at(width, a);
        let second = unsigned_at(width, b);
        let number = match form {
            Division::Quotient => first / second,
            Division::Remainder => first % second,
        };
        wrapped(width, number)
    }
}

fn bits_of(width: Width) -> u64
    ensures { result ≡ bits_of (the_width width) }
{
    match width {
        Width::Narrow => 32,
        Width::Wide => 64,
    }
}

/// A word shifted. The count is taken modulo the width.
pub(crate) fn shifted_by(form: Shift, width: Width, a: u64, count: u64) -> u64
    requires { IsExtended width a }
    ensures { result ≡ shifted_by (the_shift form) (the_width width) a count }
{
    let by = (count % bits_of(width)) as u32;
    match form {
        Shift::Leftwards => wrapped(width, a << by),
        Shift::Rightwards { is_signed: true } => { signed_word(width, a.cast_signed() >> by) }
        Shift::Rightwards { is_signed: false } => wrapped(width, unsigned_at(width, a) >> by),
    }
}

/// The negative, or every bit turned.
pub(crate) fn turned(form: Unary, width: Width, a: u64) -> u64
    ensures { result ≡ turned (the_unary form) (the_width width) a }
{
    match form {
        Unary::Negative => wrapped(width, 0u64.wrapping_sub(a)),
        Unary::Complement => !a,
    }
}

fn is_below(is_signed: bool, a: u64, b: u64) -> bool
    ensures { result ≡ is_below is_signed a b }
{
    if is_signed {
        a.cast_signed() < b.cast_signed()
    } else {
        a < b
    }
}

/// What a comparison says of two words. Words that stand sign-extended compare alike at both widths.
pub(crate) fn holds(form: Comparison, a: u64, b: u64) -> bool
    ensures { result ≡ holds (the_comparison form) a b }
{
    match form {
        Comparison::Equal => a == b,
        Comparison::Unequal => a != b,
        Comparison::Less { is_signed } => is_below(is_signed, a, b),
        Comparison::LessOrEqual { is_signed } => !is_below(is_signed, b, a),
        Comparison::Greater { is_signed } => is_below(is_signed, b, a),
        Comparison::GreaterOrEqual { is_signed } => !is_below(is_signed, a, b),
    }
}

// Whether two references may be compared so: as equal or not, or a reference with null as greater without sign.
fn admits_references(form: Comparison) -> bool
    ensures { result ≡ admits_references (the_comparison form) }
{
    match form {
        Comparison::Equal | Comparison::Unequal => true,
        Comparison::Greater { is_signed } => !is_signed,
        Comparison::Less { .. }
        | Comparison::LessOrEqual { .. }
        | Comparison::GreaterOrEqual { .. } => false,
    }
}

/// Whether a comparison admits two words of these kinds.
pub(crate) fn are_compared(form: Comparison, a: Kind, b: Kind) -> bool
    ensures { result ≡ are_compared (the_comparison form) (the_kind a) (the_kind b) }
{
    match (a, b) {
        (Kind::Int32, Kind::Int32) | (Kind::Int64, Kind::Int64) => true,
        (Kind::Reference, Kind::Reference) => admits_references(form),
        _ => false,
    }
}
