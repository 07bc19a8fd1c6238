// The bytes of an image, and how far they are read.
ghost use Rattle.std.specs.Prelude.{◌≡◌, ◌<◌, ◌+◌, ◌^◌, length};
ghost use Rattle.std.specs.Int.{w16, w32};
ghost use Rattle.aot_image.specs.declared.image.ReadError.TheVariants as error;
ghost use Rattle.aot_image.specs.declared.image.ImageCause.TheVariants as cause;
ghost use Rattle.aot_image.specs.ImageReading.{Reads, ReadsAs, fault_at, read_byte, read_bytes, read_number, read_end, whole};

use crate::image::{ImageCause, ImageFault, ReadError};
use std::marker::Model;

/// The bytes that are left, and how many stand before them.
#[derive(Drop)]
pub(crate) struct Cursor<'a> {
    at: u64,
    bytes: &'a [u8],
}

impl<'a> Model for Cursor<'a> {
    ghost use Rattle.std.specs.Prelude.{◌<◌, ◌+◌, ◌^◌, length};
    ghost use Rattle.aot_image.specs.ImageReading.{Left};

    ghost Value = { Left };

    ghost view = { λ c. record { at = c.at; bytes = c.bytes.now } };

    ghost invariant = { λ c. c.at + length c.bytes.now < 2 ^ 64 };
}

impl<'a> Cursor<'a> {
    /// All of these bytes.
    pub fn new(bytes: &'a [u8]) -> Cursor<'a>
        ensures { result ≡ whole bytes.now }
    {
        Cursor { at: 0, bytes }
    }

    /// How many bytes stand before those that are left.
    pub fn at(&self) -> u64
        ensures { result ≡ self.now.at }
    {
        self.at
    }

    // That the field that begins here is not whole.
    fn short(&self) -> ReadError
        ensures { result ≡ error.Fault (fault_at self.now.at cause.Short) }
    {
        fault(self.at, ImageCause::Short)
    }

    /// Takes so many bytes, which are one field.
    #[tactic(auto, unfolding(crate::specs::ImageReading::read_bytes))]
    pub fn bytes(&mut self, count: usize) -> Result<&'a [u8], ReadError>
        ensures { ReadsAs (λ b. b.now) (read_bytes count self.old) result self.new }
    {
        if self.bytes.len() < count {
            return Err(self.short());
        }
        let (front, rest) = self.bytes.split_at(count);
        self.at += count as u64;
        self.bytes = rest;
        Ok(front)
    }

    /// Takes a number of one byte.
    #[tactic(auto, unfolding(crate::specs::ImageReading::read_byte))]
    pub fn byte(&mut self) -> Result<u8, ReadError>
        ensures { Reads (read_byte self.old) result self.new }
    {
        match self.bytes {
            [first, rest @ ..] => {
                self.at += 1;
                self.bytes = rest;
                Ok(*first)
            }
            [] => Err(self.short()),
        }
    }

    /// Takes a number of two bytes.
    #[tactic(auto, unfolding(crate::specs::ImageReading::read_number, crate::specs::ImageReading::read_bytes))]
    pub fn half(&mut self) -> Result<u16, ReadError>
        ensures { Reads (read_number w16 self.old) result self.new }
    {
        if self.bytes.len() < 2 {
            return Err(self.short());
        }
        let (front, rest) = self.bytes.split_at(2);
        let number = u16::from_le_bytes([front[0], front[1]]);
        self.at += 2;
        self.bytes = rest;
        Ok(number)
    }

    /// Takes a number of four bytes.
    #[tactic(auto, unfolding(crate::specs::ImageReading::read_number, crate::specs::ImageReading::read_bytes))]
    pub fn word(&mut self) -> Result<u32, ReadError>
        ensures { Reads (read_number w32 self.old) result self.new }
    {
        if self.bytes.len() < 4 {
            return Err(self.short());
        }
        let (front, rest) = self.bytes.split_at(4);
        let number = u32::from_le_bytes([front[0], front[1], front[2], front[3]]);
        self.at += 4;
        self.bytes = rest;
        Ok(number)
    }

    /// That nothing is left.
    #[tactic(auto, unfolding(crate::specs::ImageReading::read_end))]
    pub fn end(&self) -> Result<(), ReadError>
        ensures { Reads (read_end self.now) result self.now }
    {
        if self.bytes.is_empty() {
            Ok(())
        } else {
            Err(fault(self.at, ImageCause::Trailing))
        }
    }
}

/// A fault of the field or the row that begins here.
pub(crate) fn fault(offset: u64, cause: ImageCause) -> ReadError
    ensures { result ≡ error.Fault (fault_at offset cause) }
{
    ReadError::Fault(ImageFault { offset, cause })
}

/// That the row that begins here is bad.
pub(crate) fn bad_table(row: u64) -> ReadError
    ensures { result ≡ error.Fault (fault_at row cause.BadTable) }
{
    fault(row, ImageCause::BadTable)
}
