// The bytes of a type, and how far they are read.
ghost use Rattle.std.specs.Prelude.{◌≡◌, ◌==◌, ◌≤◌, length, take, drop, option_map, is_some, unwrap_or};
ghost use Rattle.il_text.specs.Spelling.{after_byte};
ghost use Rattle.aot_image.specs.ChoosingTypes as spec;
ghost use Rattle.aot_image.specs.ChoosingTypes.{Reads};

use crate::choice_read_error::ReadError;
use std::marker::Model;

/// The bytes that are left. Contracts see them as a list.
#[derive(Drop)]
pub(crate) struct Cursor<'a> {
    rest: &'a [u8],
}

impl<'a> Model for Cursor<'a> {
    ghost use Rattle.std.specs.Prelude.{List, ℕ};

    ghost Value = { List ℕ };

    ghost view = { λ c. c.rest.now };
}

impl<'a> Cursor<'a> {
    pub(crate) fn new(bytes: &'a [u8]) -> Cursor<'a>
        ensures { result ≡ bytes.now }
    {
        Cursor { rest: bytes }
    }

    // Whether no bytes are left.
    pub(crate) fn is_at_end(&self) -> bool
        ensures { result ≡ (length self.now == 0) }
    {
        self.rest.len() == 0
    }

    // Takes this byte, which has to come next.
    #[tactic(auto, using(crate::proofs::ChoosingTypeLemmas::expects, crate::proofs::ChoosingTypeLemmas::expects_in_vain))]
    pub(crate) fn expect(&mut self, byte: u8) -> Result<(), ReadError>
        ensures { Reads (spec.expect byte self.old) result self.new }
    {
        match after_byte(byte, self.rest) {
            Some(rest) => {
                self.rest = rest;
                Ok(())
            }
            None => Err(ReadError::Malformed),
        }
    }

    // Takes `[]`, if it comes next.
    pub(crate) fn eat_brackets(&mut self) -> bool
        ensures found { result ≡ is_some (spec.behind_brackets self.old) }
        ensures rest { self.new ≡ unwrap_or (spec.behind_brackets self.old) self.old }
    {
        match behind_brackets(self.rest) {
            Some(rest) => {
                self.rest = rest;
                true
            }
            None => false,
        }
    }

    // Takes all bytes before the first `<`, `>`, `,` or `[`.
    pub(crate) fn take_word(&mut self) -> &'a [u8]
        ensures word { result.now ≡ take (spec.word_len self.old) self.old }
        ensures rest { self.new ≡ drop (spec.word_len self.old) self.old }
    {
        let len = word_len(self.rest);
        let (word, rest) = self.rest.split_at(len);
        self.rest = rest;
        word
    }
}

/// What stands behind this byte.
pub(crate) fn after_byte(first: u8, bytes: &[u8]) -> Option<&[u8]>
    ensures { option_map (λ rest. rest.now) result ≡ after_byte first bytes.now }
{
    let (byte, rest) = bytes.split_first()?;
    if *byte == first { Some(rest) } else { None }
}

fn behind_brackets(bytes: &[u8]) -> Option<&[u8]>
    ensures { option_map (λ rest. rest.now) result ≡ spec.behind_brackets bytes.now }
{
    match after_byte(b'[', bytes) {
        Some(rest) => after_byte(b']', rest),
        None => None,
    }
}

fn word_len(bytes: &[u8]) -> usize
    ensures value { result ≡ spec.word_len bytes.now }
    ensures within { result ≤ length bytes.now }
{
    for (i, byte) in bytes.iter().enumerate() {
        if !is_type_byte(*byte) {
            return i;
        }
    }
    bytes.len()
}

fn is_type_byte(byte: u8) -> bool
    ensures { result ≡ spec.is_type_byte byte }
{
    !(byte == b'<' || (byte == b'>' || (byte == b',' || byte == b'[')))
}
