// From a text to its tokens.
ghost use Rattle.std.specs.Prelude.{◌≡◌, List, None, IfOk, IfErr, OnOk, All};
ghost use Rattle.il_text.specs.declared.token.Token.{Token};
ghost use Rattle.il_text.specs.Tokens.{AreTokens, IsSlice};
ghost use Rattle.il_text.specs.Faults.{fault_of};
ghost use Rattle.il_text.specs.Readings.{IsRefusedFor};

use crate::fault::{TextCause, TextFault};
use crate::front::front_of;
use crate::token::Token;
use mn_outside::Refused;
use std::alloc::Global;

// A text has at most so many bytes.
const TEXT_LIMIT: usize = 4_194_304;

/// The tokens of a text, in rising order; or the first place at which the text has no reading, and why.
/// It takes time in proportion to the text.
pub fn tokens(alloc: Global, text: &[u8]) -> Result<Vec<Token>, Refused<TextFault>>
    ensures tokens { IfOk result (λ found. AreTokens text.now found.items) }
    ensures only { IfOk result (λ found. (others : List Token) → AreTokens text.now others → others ≡ found.items) }
    ensures slices { IfOk result (λ found. All (IsSlice text.now) found.items) }
    ensures no_fault { OnOk result (fault_of text.now ≡ None) }

    ensures refused { IfErr result (IsRefusedFor text.now) }
{
    let mut found = Vec::new(alloc);
    let mut rest = text;
    let mut at = 0usize;
    while !rest.is_empty() {
        let front = match front_of(rest) {
            Ok(front) => front,
            Err(cause) => {
                return Err(Refused::Fault(TextFault {
                    offset: at as u32,
                    cause,
                }));
            }
        };
        let to = at + front.len;
        if to > TEXT_LIMIT {
            return Err(Refused::Fault(TextFault {
                offset: TEXT_LIMIT as u32,
                cause: TextCause::TooLong,
            }));
        }
        if let Some(kind) = front.kind {
            let token = Token {
                kind,
                from: at as u32,
                to: to as u32,
            };
            if found.push(token).is_err() {
                return Err(Refused::NoMemory);
            }
        }
        let (_, after) = rest.split_at(front.len);
        rest = after;
        at = to;
    }
    Ok(found)
}
