// Why a text is no program.
ghost use Rattle.std.specs.Prelude.{◌≡◌};
ghost use Rattle.il_parse.specs.declared.fault.ReadError.TheVariants.{Memory};

use il_text::{Spot, TextCause};
use std::alloc::{AllocError, AllocFailed};

/// Why a text is no program. `Text` is of the tokens and of the length; `Syntax`, `Unsupported` and
/// `TooMany` are of the grammar and the limits; the others are of the look-up of names.
#[derive(Clone, Copy, Debug, PartialEq, Eq)]
pub enum ParseCause {
    /// The text has no tokens, or the canonical text of its program is too long.
    Text(TextCause),
    /// No text begins with the tokens up to this one.
    Syntax,
    /// The token is a word of the standard that this project leaves out.
    Unsupported,
    /// A name stands twice where names differ, or a second `.entrypoint`.
    Repeated,
    /// Nothing has this name, or no type variable has this number.
    UnknownName,
    /// The token makes a count pass its limit.
    TooMany,
    /// No method has `.entrypoint`.
    NoEntry,
}

/// The first place at which a text is refused, and why. All of the text is split into tokens first, then
/// the grammar and its limits are judged, then names are looked up, and last the length of the canonical
/// text: the first place of the first of these that refuses.
#[derive(Clone, Copy, Debug, PartialEq, Eq)]
pub struct ParseFault {
    pub spot: Spot,
    pub cause: ParseCause,
}

/// A refusal at the token that begins at this byte, or at the end of the text.
#[derive(Clone, Copy, Debug, PartialEq, Eq)]
pub(crate) struct Fault {
    pub at: Option<u32>,
    pub cause: ParseCause,
}

/// A refusal, or want of memory.
#[derive(Clone, Copy, Debug, PartialEq, Eq, Drop)]
pub(crate) enum ReadError {
    Memory,
    Fault(Fault),
}

impl From<AllocError> for ReadError {
    ghost from_gives = { λ _ e. e ≡ Memory };

    fn from(_e: AllocError) -> ReadError {
        ReadError::Memory
    }
}

impl<T: Drop> From<AllocFailed<T>> for ReadError {
    ghost from_gives = { λ _ e. e ≡ Memory };

    fn from(_e: AllocFailed<T>) -> ReadError {
        ReadError::Memory
    }
}
