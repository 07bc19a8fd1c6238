// The limits of tokens.
ghost use Rattle.std.specs.Prelude.{◌≡◌, ◌≤◌, ◌<◌, ◌^◌, ◌-◌, ◌↔◌, IsTrue, IfSome, IfNone};
ghost use Rattle.il_text.specs.Spelling.{digit_value, digits_value, unsigned_value, magnitude_of, IsWithinLimit};

use crate::bytes::is_digit;
use crate::lengths::after;
use crate::token::TokenKind;

// A word has at most so many bytes.
const NAME_LIMIT: usize = 255;

fn digit_value(d: u8) -> u8
    ensures { result ≡ digit_value d }
{
    if is_digit(d) {
        d - b'0'
    } else if d <= b'F' {
        d.saturating_sub(b'A' - 10)
    } else {
        d.saturating_sub(b'a' - 10)
    }
}

// The value of digits, if it is below 2^64.
fn digits_value(base: u64, digits: &[u8]) -> Option<u64>
    requires { 0 < base }
    ensures some { IfSome result (λ value. value ≡ digits_value base digits.now) }
    ensures none { IfNone result (2 ^ 64 - 1 < digits_value base digits.now) }
{
    let mut value = 0u64;
    for d in digits {
        value = value
            .checked_mul(base)?
            .checked_add(u64::from(digit_value(*d)))?;
    }
    Some(value)
}

// Whether a number without a sign is below 2^64.
fn unsigned_fits(bytes: &[u8]) -> bool
    ensures { IsTrue result ↔ (unsigned_value bytes.now ≤ 2 ^ 64 - 1) }
{
    match after(bytes, b'0').and_then(|rest| after(rest, b'x')) {
        Some(digits) => digits_value(16, digits).is_some(),
        None => digits_value(10, bytes).is_some(),
    }
}

// Whether a number, its sign left aside, is below 2^64.
fn number_fits(bytes: &[u8]) -> bool
    ensures { IsTrue result ↔ (magnitude_of bytes.now ≤ 2 ^ 64 - 1) }
{
    match after(bytes, b'-') {
        Some(digits) => unsigned_fits(digits),
        None => unsigned_fits(bytes),
    }
}

// Whether a token keeps its kind's limit.
pub(crate) fn is_within_limit(kind: TokenKind, token: &[u8]) -> bool
    ensures { IsTrue result ↔ IsWithinLimit kind token.now }
{
    match kind {
        TokenKind::Word => token.len() <= NAME_LIMIT,
        TokenKind::Number => number_fits(token),
        TokenKind::Variable | TokenKind::Text | TokenKind::Mark => true,
    }
}
