// The text that is being written.
ghost use Rattle.std.specs.Prelude.{◌≡◌, ◌++◌, [], IfOk, OnOk, string_bytes};
ghost use Rattle.std.specs.Fmt.{decimal, signed_decimal};
ghost use Rattle.il_print.specs.Spaces.{behind};

use mn_outside::NoMemory;
use std::alloc::Global;
use std::marker::Model;

/// Bytes that grow at their end.
#[derive(Drop)]
pub(crate) struct Text {
    alloc: Global,
    bytes: Vec<u8>,
}

impl Model for Text {
    ghost use Rattle.std.specs.Prelude.{List, ℕ};

    ghost Value = { List ℕ };

    ghost view = { λ t. t.bytes.items };
}

impl Text {
    pub(crate) fn new(alloc: Global) -> Text
        ensures { result ≡ [] }
    {
        Text {
            alloc,
            bytes: Vec::new(alloc),
        }
    }

    pub(crate) fn alloc(&self) -> Global {
        self.alloc
    }

    /// The digits of a number.
    pub(crate) fn decimal(&self, number: u64) -> Result<String, NoMemory>
        ensures { IfOk result (λ digits. string_bytes digits ≡ decimal number) }
    {
        match format!(in self.alloc; "{number}") {
            Ok(digits) => Ok(digits),
            Err(_) => Err(NoMemory),
        }
    }

    /// The digits of a signed number, behind `-` where it is negative.
    pub(crate) fn signed_decimal(&self, number: i64) -> Result<String, NoMemory>
        ensures { IfOk result (λ digits. string_bytes digits ≡ signed_decimal number) }
    {
        match format!(in self.alloc; "{number}") {
            Ok(digits) => Ok(digits),
            Err(_) => Err(NoMemory),
        }
    }

    pub(crate) fn bytes(&self) -> &[u8]
        ensures { result.now ≡ self.now }
    {
        self.bytes.as_slice()
    }

    pub(crate) fn into_bytes(self) -> Vec<u8>
        ensures { result.items ≡ self }
    {
        let Text { bytes, .. } = self;
        bytes
    }

    /// Puts these bytes at the end.
    pub(crate) fn put(&mut self, bytes: &[u8]) -> Result<(), NoMemory>
        ensures { OnOk result (self.new ≡ self.old ++ bytes.now) }
    {
        match self.bytes.extend_from_slice(bytes) {
            Ok(()) => Ok(()),
            Err(_) => Err(NoMemory),
        }
    }

    /// Puts a word behind another one: one space and the word, but no space before a comma.
    pub(crate) fn word(&mut self, word: &[u8]) -> Result<(), NoMemory>
        ensures { OnOk result (self.new ≡ self.old ++ behind word.now) }
    {
        if word != b",".as_slice() {
            self.put(b" ")?;
        }
        self.put(word)
    }
}
