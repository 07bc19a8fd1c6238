// What stands at the front of bytes.
ghost use Rattle.std.specs.Prelude.{◌≡◌, ◌≤◌, ◌∷◌, [], length, Some, IfOk, IfErr};
ghost use Rattle.il_text.specs.Spelling.{spells};
ghost use Rattle.il_text.specs.Faults.{longest_front, gap_len, cause_of, no_token_cause};
ghost use Rattle.il_text.specs.Fronts.{kind_for, limit_cause_of, HasToken, HasFront};

use crate::bytes::{is_digit, is_word_start};
use crate::fault::TextCause;
use crate::lengths::{gap_len, mark_len, number_len, text_len, variable_len, word_len};
use crate::limits::is_within_limit;
use crate::token::TokenKind;

// A blank or a comment, without a kind, or a token; and its length.
#[derive(Clone, Copy)]
pub(crate) struct Front {
    pub kind: Option<TokenKind>,
    pub len: usize,
}

// The one kind of token that a byte may begin.
fn kind_for(first: u8) -> TokenKind
    ensures { result ≡ kind_for first }
{
    if is_word_start(first) {
        TokenKind::Word
    } else if first == b'!' {
        TokenKind::Variable
    } else if is_digit(first) || first == b'-' {
        TokenKind::Number
    } else if first == b'"' {
        TokenKind::Text
    } else {
        TokenKind::Mark
    }
}

// The length of the token of a kind in front, or 0.
fn len_of(kind: TokenKind, bytes: &[u8]) -> usize
    ensures value { result ≡ longest_front (spells kind) (length bytes.now) bytes.now }
    ensures inside { result ≤ length bytes.now }
{
    match kind {
        TokenKind::Word => word_len(bytes),
        TokenKind::Variable => variable_len(bytes),
        TokenKind::Number => number_len(bytes),
        TokenKind::Text => text_len(bytes),
        TokenKind::Mark => mark_len(bytes),
    }
}

// Why no token begins at a byte.
fn no_token_cause(first: u8) -> TextCause
    ensures { result ≡ no_token_cause (first ∷ []) }
{
    if first == b'"' {
        TextCause::BadLiteral
    } else {
        TextCause::BadByte
    }
}

// Why a token past its kind's limit is refused.
fn limit_cause(kind: TokenKind) -> TextCause
    ensures { result ≡ limit_cause_of kind }
{
    match kind {
        TokenKind::Word => TextCause::LongName,
        TokenKind::Variable | TokenKind::Number | TokenKind::Text | TokenKind::Mark =>
            TextCause::BadLiteral,
    }
}

// The token in front, where no blank and no comment stands there.
fn token_at(bytes: &[u8]) -> Result<(TokenKind, usize), TextCause>
    requires { gap_len bytes.now ≡ 0 }
    ensures ok { IfOk result (λ found. HasToken bytes.now found.0 found.1) }
    ensures err { IfErr result (λ cause. cause_of bytes.now ≡ Some cause) }
{
    let Some((first, _)) = bytes.split_first() else {
        return Err(TextCause::BadByte);
    };
    let kind = kind_for(*first);
    let len = len_of(kind, bytes);
    if len == 0 {
        return Err(no_token_cause(*first));
    }
    let (token, _) = bytes.split_at(len);
    if is_within_limit(kind, token) {
        Ok((kind, len))
    } else {
        Err(limit_cause(kind))
    }
}

// What stands in front.
pub(crate) fn front_of(bytes: &[u8]) -> Result<Front, TextCause>
    ensures ok { IfOk result (λ front. HasFront bytes.now front.kind front.len) }
    ensures err { IfErr result (λ cause. cause_of bytes.now ≡ Some cause) }
{
    let len = gap_len(bytes);
    if len > 0 {
        return Ok(Front { kind: None, len });
    }
    let (kind, len) = token_at(bytes)?;
    Ok(Front {
        kind: Some(kind),
        len,
    })
}
