// The values of numbers and literals.
ghost use Rattle.std.specs.Prelude.{◌≡◌, ◌<◌, ◌^◌, ◌-◌, nat_le, pos, neg_ℤ, Some, None, if◌then◌else◌, IfOk, IfSome, IfNone, option_map, option_and_then, take, drop, length};
ghost use Rattle.std.specs.List.{list_all};
ghost use Rattle.il_text.specs.declared.token.TokenKind.TheVariants.{Number};
ghost use Rattle.il_text.specs.Bytes.{is_digit, is_hex_digit};
ghost use Rattle.il_text.specs.Spelling.{is_run, is_hexadecimal, is_unsigned, is_negative, after_byte, digit_value, digits_value, unsigned_value, magnitude_of, IsWithinLimit};
ghost use Rattle.il_model.specs.Literals.{int32_value, int64_value, place_value, escaped_byte, text_value};

use std::alloc::{AllocError, Global};

/// What follows this first byte.
pub(crate) fn after(bytes: &[u8], first: u8) -> Option<&[u8]>
    ensures { option_map (λ rest. rest.now) result ≡ after_byte first bytes.now }
{
    let (b, rest) = bytes.split_first()?;
    if *b == first { Some(rest) } else { None }
}

fn is_digit(b: u8) -> bool
    ensures { result ≡ is_digit b }
{
    b'0' <= b && b <= b'9'
}

fn is_hex_digit(b: u8) -> bool
    ensures { result ≡ is_hex_digit b }
{
    is_digit(b) || (b'A' <= b && b <= b'F') || (b'a' <= b && b <= b'f')
}

fn are_digits(bytes: &[u8]) -> bool
    ensures { result ≡ list_all is_digit bytes.now }
{
    bytes.iter().all(|b| is_digit(*b))
}

fn are_hex_digits(bytes: &[u8]) -> bool
    ensures { result ≡ list_all is_hex_digit bytes.now }
{
    bytes.iter().all(|b| is_hex_digit(*b))
}

/// Whether these are digits, at least one.
pub(crate) fn is_digit_run(bytes: &[u8]) -> bool
    ensures { result ≡ is_run is_digit bytes.now }
{
    match bytes {
        [first, rest @ ..] => is_digit(*first) && are_digits(rest),
        [] => false,
    }
}

fn is_hex_run(bytes: &[u8]) -> bool
    ensures { result ≡ is_run is_hex_digit bytes.now }
{
    match bytes {
        [first, rest @ ..] => is_hex_digit(*first) && are_hex_digits(rest),
        [] => false,
    }
}

// The digits behind `0x`, if it stands there.
fn behind_0x(bytes: &[u8]) -> Option<&[u8]>
    ensures { option_map (λ rest. rest.now) result ≡ option_and_then (after_byte 120) (after_byte 48 bytes.now) }
{
    match after(bytes, b'0') {
        Some(rest) => after(rest, b'x'),
        None => None,
    }
}

fn is_hexadecimal(bytes: &[u8]) -> bool
    ensures { result ≡ is_hexadecimal bytes.now }
{
    match behind_0x(bytes) {
        Some(digits) => is_hex_run(digits),
        None => false,
    }
}

fn is_unsigned(bytes: &[u8]) -> bool
    ensures { result ≡ is_unsigned bytes.now }
{
    is_digit_run(bytes) || is_hexadecimal(bytes)
}

fn is_negative(bytes: &[u8]) -> bool
    ensures { result ≡ is_negative bytes.now }
{
    match after(bytes, b'-') {
        Some(rest) => is_unsigned(rest),
        None => false,
    }
}

fn digit_value(d: u8) -> u8
    ensures { result ≡ digit_value d }
{
    if is_digit(d) {
        d - b'0'
    } else if d <= b'F' {
        d.saturating_sub(b'A' - 10)
    } else {
        d.saturating_sub(b'a' - 10)
    }
}

/// The value of digits, if it is below 2^64.
pub(crate) fn digits_value(base: u64, digits: &[u8]) -> Option<u64>
    requires { 0 < base }
    ensures some { IfSome result (λ value. value ≡ digits_value base digits.now) }
    ensures none { IfNone result (2 ^ 64 - 1 < digits_value base digits.now) }
{
    let mut value = 0u64;
    for d in digits {
        value = value
            .checked_mul(base)?
            .checked_add(u64::from(digit_value(*d)))?;
    }
    Some(value)
}

// The value of a number without its sign, if it is below 2^64.
fn unsigned_value(bytes: &[u8]) -> Option<u64>
    ensures some { IfSome result (λ value. value ≡ unsigned_value bytes.now) }
    ensures none { IfNone result (2 ^ 64 - 1 < unsigned_value bytes.now) }
{
    match behind_0x(bytes) {
        Some(digits) => digits_value(16, digits),
        None => digits_value(10, bytes),
    }
}

// What a number's digits give, its sign left aside.
fn magnitude(bytes: &[u8]) -> u64
    requires { IsWithinLimit Number bytes.now }
    ensures { result ≡ magnitude_of bytes.now }
{
    let value = match after(bytes, b'-') {
        Some(rest) => unsigned_value(rest),
        None => unsigned_value(bytes),
    };
    match value {
        Some(value) => value,
        None => unreachable!(),
    }
}

// The int32 with this magnitude and a minus, if it is in range.
fn negative32(value: u64) -> Option<i32>
    ensures { result ≡ (if nat_le value (2 ^ 31) then Some (neg_ℤ (pos value)) else None) }
{
    if value <= 1 << 31 {
        let negative = -(value as i64);
        Some(negative as i32)
    } else {
        None
    }
}

// The int64 with this magnitude and a minus, if it is in range.
fn negative64(value: u64) -> Option<i64>
    ensures { result ≡ (if nat_le value (2 ^ 63) then Some (neg_ℤ (pos value)) else None) }
{
    if value <= 1 << 63 {
        let negative = -(value as i128);
        Some(negative as i64)
    } else {
        None
    }
}

/// The int32 that a number spells, if it is in range. Hexadecimal digits without a sign are its bits.
pub(crate) fn int32_value(bytes: &[u8]) -> Option<i32>
    requires { IsWithinLimit Number bytes.now }
    ensures { result ≡ int32_value bytes.now }
{
    let value = magnitude(bytes);
    if is_negative(bytes) {
        return negative32(value);
    }
    if is_hexadecimal(bytes) {
        if value < 1 << 32 {
            return Some((value as u32).cast_signed());
        }
        return None;
    }
    if value < 1 << 31 {
        Some(value as i32)
    } else {
        None
    }
}

/// The int64 that a number spells, if it is in range. Hexadecimal digits without a sign are its bits.
pub(crate) fn int64_value(bytes: &[u8]) -> Option<i64>
    requires { IsWithinLimit Number bytes.now }
    ensures { result ≡ int64_value bytes.now }
{
    let value = magnitude(bytes);
    if is_negative(bytes) {
        return negative64(value);
    }
    if is_hexadecimal(bytes) {
        return Some(value.cast_signed());
    }
    if value < 1 << 63 {
        Some(value as i64)
    } else {
        None
    }
}

/// The number of an argument or a local, which has no sign.
pub(crate) fn place_value(bytes: &[u8]) -> Option<u64>
    requires { IsWithinLimit Number bytes.now }
    ensures { result ≡ place_value bytes.now }
{
    if is_negative(bytes) {
        return None;
    }
    Some(magnitude(bytes))
}

// The byte that stands for the one behind `\`.
fn escaped_byte(b: u8) -> u8
    ensures { result ≡ escaped_byte b }
{
    if b == b'n' {
        return b'\n';
    }
    if b == b't' {
        return b'\t';
    }
    b
}

/// What a literal holds, without its quotes.
pub(crate) fn text_value(alloc: Global, bytes: &[u8]) -> Result<Vec<u8>, AllocError>
    ensures { IfOk result (λ held. held.items ≡ text_value bytes.now) }
{
    let mut held = Vec::new(alloc);
    let mut behind = false;
    for b in inside(bytes) {
        if behind {
            held.push(escaped_byte(*b))?;
            behind = false;
        } else if *b == b'\\' {
            behind = true;
        } else {
            held.push(*b)?;
        }
    }
    Ok(held)
}

// The bytes between the first and the last.
fn inside(bytes: &[u8]) -> &[u8]
    ensures { result.now ≡ take (length bytes.now - 2) (drop 1 bytes.now) }
{
    if bytes.len() < 2 {
        return &[];
    }
    &bytes[1..bytes.len() - 1]
}
