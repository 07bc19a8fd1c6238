// The bytes of a text, by their use.
ghost use Rattle.std.specs.Prelude.{◌≡◌, ◌≤◌, length};
ghost use Rattle.std.specs.List.{prefix_len};
ghost use Rattle.il_text.specs.Bytes.{is_blank, is_digit, is_hex_digit, is_word_start, is_word_byte, is_comment_byte, is_plain, is_escape};
ghost use Rattle.il_text.specs.Classes.{is_in};

// The bytes that a run may consist of.
#[derive(Clone, Copy)]
pub(crate) enum ByteClass {
    WordByte,
    Digit,
    HexDigit,
    CommentByte,
}

pub(crate) fn is_blank(b: u8) -> bool
    ensures { result ≡ is_blank b }
{
    b == b' ' || b == b'\t' || b == b'\r' || b == b'\n'
}

pub(crate) fn is_digit(b: u8) -> bool
    ensures { result ≡ is_digit b }
{
    b'0' <= b && b <= b'9'
}

pub(crate) fn is_hex_digit(b: u8) -> bool
    ensures { result ≡ is_hex_digit b }
{
    is_digit(b) || (b'A' <= b && b <= b'F') || (b'a' <= b && b <= b'f')
}

pub(crate) fn is_word_start(b: u8) -> bool
    ensures { result ≡ is_word_start b }
{
    (b'A' <= b && b <= b'Z') || (b'a' <= b && b <= b'z') || b == b'_' || b == b'.'
}

pub(crate) fn is_word_byte(b: u8) -> bool
    ensures { result ≡ is_word_byte b }
{
    is_word_start(b) || is_digit(b)
}

pub(crate) fn is_comment_byte(b: u8) -> bool
    ensures { result ≡ is_comment_byte b }
{
    b < 128 && b != b'\n'
}

pub(crate) fn is_plain(b: u8) -> bool
    ensures { result ≡ is_plain b }
{
    b' ' <= b && b <= b'~' && b != b'"' && b != b'\\'
}

pub(crate) fn is_escape(b: u8) -> bool
    ensures { result ≡ is_escape b }
{
    b == b'n' || b == b't' || b == b'"' || b == b'\\'
}

fn is_in(class: ByteClass, b: u8) -> bool
    ensures { result ≡ is_in class b }
{
    match class {
        ByteClass::WordByte => is_word_byte(b),
        ByteClass::Digit => is_digit(b),
        ByteClass::HexDigit => is_hex_digit(b),
        ByteClass::CommentByte => is_comment_byte(b),
    }
}

// How many bytes of a class stand in front.
pub(crate) fn run_len(bytes: &[u8], class: ByteClass) -> usize
    ensures value { result ≡ prefix_len (is_in class) bytes.now }
    ensures bound { result ≤ length bytes.now }
{
    for (i, b) in bytes.iter().enumerate() {
        if !is_in(class, *b) {
            return i;
        }
    }
    bytes.len()
}
