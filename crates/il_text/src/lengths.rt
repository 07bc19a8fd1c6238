// How long each kind of token in front of bytes is.
ghost use Rattle.std.specs.Prelude.{◌≡◌, ◌≢◌, ◌≤◌, ◌∷◌, [], ℕ, List, length, IfSome, IfNone, option_map, ◌+◌, ◌-◌, ◌^◌, ◌<◌, nat_lt, nat_le, ◌&&◌, take, if◌then◌else◌};
ghost use Rattle.il_text.specs.Spelling.{is_word, is_hexadecimal, is_unsigned, is_negative, is_number, is_class_variable, is_method_variable, is_variable, is_text_end, is_text, is_mark, after_byte};
ghost use Rattle.il_text.specs.Faults.{longest_front, gap_len};

use crate::bytes::{ByteClass, is_blank, is_escape, is_plain, is_word_start, run_len};

// What follows this first byte.
pub(crate) fn after(bytes: &[u8], first: u8) -> Option<&[u8]>
    ensures some { IfSome result (λ rest. bytes.now ≡ first ∷ rest.now) }
    ensures none { IfNone result ((rest : List ℕ) → bytes.now ≢ first ∷ rest) }
    ensures value { option_map (λ rest. rest.now) result ≡ after_byte first bytes.now }
{
    let (b, rest) = bytes.split_first()?;
    if *b == first { Some(rest) } else { None }
}

// The length with a first byte before it, where there is one.
fn and_first(len: usize) -> usize
    requires { len < 2 ^ 64 - 1 }
    ensures value { result ≡ (if nat_lt 0 len then 1 + len else 0) }
    ensures bound { result ≤ len + 1 }
{
    if len > 0 { 1 + len } else { 0 }
}

// The length of the blank or the comment in front, or 0.
pub(crate) fn gap_len(bytes: &[u8]) -> usize
    ensures value { result ≡ gap_len bytes.now }
    ensures inside { result ≤ length bytes.now }
{
    match bytes {
        [b, ..] if is_blank(*b) => 1,
        [b'/', b'/', rest @ ..] => 2 + run_len(rest, ByteClass::CommentByte),
        _ => 0,
    }
}

// The length of the word in front, or 0.
pub(crate) fn word_len(bytes: &[u8]) -> usize
    ensures value { result ≡ longest_front is_word (length bytes.now) bytes.now }
    ensures inside { result ≤ length bytes.now }
{
    let Some((b, _)) = bytes.split_first() else {
        return 0;
    };
    if is_word_start(*b) {
        run_len(bytes, ByteClass::WordByte)
    } else {
        0
    }
}

// The length of a variable of the class in front, or 0.
fn class_variable_len(bytes: &[u8]) -> usize
    ensures value { result ≡ longest_front is_class_variable (length bytes.now) bytes.now }
    ensures inside { result ≤ length bytes.now }
{
    let Some(digits) = after(bytes, b'!') else {
        return 0;
    };
    and_first(run_len(digits, ByteClass::Digit))
}

// The length of a variable of the method in front, or 0.
fn method_variable_len(bytes: &[u8]) -> usize
    ensures value { result ≡ longest_front is_method_variable (length bytes.now) bytes.now }
    ensures inside { result ≤ length bytes.now }
{
    let Some(rest) = after(bytes, b'!') else {
        return 0;
    };
    and_first(class_variable_len(rest))
}

// The length of the variable in front, or 0.
pub(crate) fn variable_len(bytes: &[u8]) -> usize
    ensures value { result ≡ longest_front is_variable (length bytes.now) bytes.now }
    ensures inside { result ≤ length bytes.now }
{
    class_variable_len(bytes).max(method_variable_len(bytes))
}

// The length of the hexadecimal number without a sign in front, or 0.
fn hexadecimal_len(bytes: &[u8]) -> usize
    ensures value { result ≡ longest_front is_hexadecimal (length bytes.now) bytes.now }
    ensures inside { result ≤ length bytes.now }
{
    let Some(rest) = after(bytes, b'0') else {
        return 0;
    };
    let Some(digits) = after(rest, b'x') else {
        return 0;
    };
    and_first(and_first(run_len(digits, ByteClass::HexDigit)))
}

// The length of the number without a sign in front, or 0.
fn unsigned_len(bytes: &[u8]) -> usize
    ensures value { result ≡ longest_front is_unsigned (length bytes.now) bytes.now }
    ensures inside { result ≤ length bytes.now }
{
    run_len(bytes, ByteClass::Digit).max(hexadecimal_len(bytes))
}

// The length of the number after a sign in front, with the sign, or 0.
fn negative_len(bytes: &[u8]) -> usize
    ensures value { result ≡ longest_front is_negative (length bytes.now) bytes.now }
    ensures inside { result ≤ length bytes.now }
{
    let Some(rest) = after(bytes, b'-') else {
        return 0;
    };
    and_first(unsigned_len(rest))
}

// The length of the number in front, or 0.
pub(crate) fn number_len(bytes: &[u8]) -> usize
    ensures value { result ≡ longest_front is_number (length bytes.now) bytes.now }
    ensures inside { result ≤ length bytes.now }
{
    unsigned_len(bytes).max(negative_len(bytes))
}

// The length of what follows the first quote of a literal, up to the quote that ends it, or 0.
fn text_end_len(bytes: &[u8]) -> usize
    ensures value { result ≡ longest_front is_text_end (length bytes.now) bytes.now }
    ensures inside { result ≤ length bytes.now }
{
    let mut rest = bytes;
    let mut len = 0;
    while let Some((b, tail)) = rest.split_first() {
        if *b == b'"' {
            return len + 1;
        }
        if *b == b'\\' {
            let Some((c, tail)) = tail.split_first() else {
                return 0;
            };
            if !is_escape(*c) {
                return 0;
            }
            rest = tail;
            len += 2;
        } else {
            if !is_plain(*b) {
                return 0;
            }
            rest = tail;
            len += 1;
        }
    }
    0
}

// The length of the literal in front, or 0.
pub(crate) fn text_len(bytes: &[u8]) -> usize
    ensures value { result ≡ longest_front is_text (length bytes.now) bytes.now }
    ensures inside { result ≤ length bytes.now }
{
    let Some(rest) = after(bytes, b'"') else {
        return 0;
    };
    and_first(text_end_len(rest))
}

// Whether the byte is a mark.
fn is_single_mark(b: u8) -> bool
    ensures { result ≡ is_mark (b ∷ []) }
{
    b == b'{'
        || b == b'}'
        || b == b'('
        || b == b')'
        || b == b'<'
        || b == b'>'
        || b == b','
        || b == b':'
        || b == b';'
        || b == b'&'
}

// Whether the two bytes are a mark.
fn is_double_mark(a: u8, b: u8) -> bool
    ensures { result ≡ is_mark (a ∷ b ∷ []) }
{
    (a == b'[' && b == b']') || (a == b':' && b == b':')
}

// Whether two bytes in front are a mark.
fn has_double_mark(bytes: &[u8]) -> bool
    ensures { result ≡ (nat_le 2 (length bytes.now) && is_mark (take 2 bytes.now)) }
{
    let Some((a, rest)) = bytes.split_first() else {
        return false;
    };
    let Some((b, _)) = rest.split_first() else {
        return false;
    };
    is_double_mark(*a, *b)
}

// Whether the byte in front is a mark.
fn has_single_mark(bytes: &[u8]) -> bool
    ensures { result ≡ (nat_le 1 (length bytes.now) && is_mark (take 1 bytes.now)) }
{
    let Some((a, _)) = bytes.split_first() else {
        return false;
    };
    is_single_mark(*a)
}

// The length of the mark in front, or 0.
pub(crate) fn mark_len(bytes: &[u8]) -> usize
    ensures value { result ≡ longest_front is_mark (length bytes.now) bytes.now }
    ensures inside { result ≤ length bytes.now }
{
    if has_double_mark(bytes) {
        2
    } else if has_single_mark(bytes) {
        1
    } else {
        0
    }
}
