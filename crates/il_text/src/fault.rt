// Why a text has no reading.

/// Why a text has no reading, in the order in which causes at one place are named.
#[derive(Clone, Copy, Debug, PartialEq, Eq)]
pub enum TextCause {
    /// The byte begins no token, blank or comment, or it isn't ASCII and stands in a comment.
    BadByte,
    /// A literal in quotes has no end, or a byte or an escape that isn't allowed; or a number is past 2^64 - 1.
    BadLiteral,
    /// A word has more than 255 bytes.
    LongName,
    /// The text has more than 4,194,304 bytes.
    TooLong,
}

/// The first place at which a text has no reading: the byte that begins nothing, or the start of the token that is
/// refused, in bytes from 0. TooLong is at 4,194,304.
#[derive(Clone, Copy, Debug, PartialEq, Eq)]
pub struct TextFault {
    pub offset: u32,
    pub cause: TextCause,
}
