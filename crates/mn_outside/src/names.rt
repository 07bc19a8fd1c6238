// Small types that contracts see as lists.
ghost use Rattle.std.specs.Prelude.{◌≡◌, ℕ, List};
ghost use Rattle.std.specs.String.{string_bytes};

use std::marker::Model;

/// A name, as of a file or a word of a command line.
#[derive(Drop)]
pub struct Name {
    text: String,
}

impl Model for Name {
    ghost Value = { List ℕ };

    ghost view = { λ n. string_bytes n.text };
}

impl Name {
    /// The name with this text.
    pub fn of(text: String) -> Self
        ensures { result ≡ string_bytes text }
    {
        Name { text }
    }

    /// Its text.
    pub fn text(&self) -> &str
        ensures { result.now ≡ self.now }
    {
        self.text.as_str()
    }
}

/// A list of bytes.
#[derive(Drop)]
pub struct Bytes {
    list: Vec<u8>,
}

impl Model for Bytes {
    ghost Value = { List ℕ };

    ghost view = { λ b. b.list.items };
}

impl Bytes {
    /// These bytes.
    pub fn of(list: Vec<u8>) -> Self
        ensures { result ≡ list.items }
    {
        Bytes { list }
    }

    /// The bytes that it holds.
    pub fn list(&self) -> &[u8]
        ensures { result.now ≡ self.now }
    {
        self.list.as_slice()
    }
}
