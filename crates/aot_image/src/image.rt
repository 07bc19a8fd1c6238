// Images, and why bytes are none.
ghost use Rattle.std.specs.Prelude.{◌≡◌};
ghost use Rattle.aot_image.specs.declared.image.ReadError.TheVariants.{Memory};

use cil_verify::Verified;
use il_model::{BodyRow, Entry};
use mn_outside::NoMemory;
use sqlite_items::Items;
use std::alloc::{AllocError, AllocFailed};

/// The bytes that an image begins with.
pub(crate) const MAGIC: &[u8] = b"MNAOTIMG";

/// The number of the form.
pub(crate) const VERSION: u32 = 1;

/// Classes have the numbers of definitions from here on.
pub(crate) const FIRST_CLASS: u16 = 16;

/// What a program is compiled to: the program with its states, a row for each compiled body, the closed
/// entries that exact bodies fetch, and the code, a word for each instruction of the machine. Entries of
/// bodies and handlers are places in the code, counted from 0. This project's own.
#[derive(Drop)]
pub struct Image {
    pub program: Verified,
    pub bodies: Items<BodyRow>,
    pub got: Items<Entry>,
    pub code: Items<u32>,
}

/// Why bytes are no image. `Magic` and `Version` are of the first two fields, `Short` of a field that the
/// bytes end in, `BadText` of a text that is not the canonical text of an accepted program, `BadTable` of
/// a row of a body or a closed entry, and `Trailing` of what follows the code.
#[derive(Clone, Copy, Debug, PartialEq, Eq)]
pub enum ImageCause {
    Magic,
    Version,
    Short,
    Trailing,
    BadText,
    BadTable,
}

/// The first fault of bytes that are no image, in bytes from the front: where the field begins, and of
/// `BadTable` where the row begins.
#[derive(Clone, Copy, Debug, PartialEq, Eq)]
pub struct ImageFault {
    pub offset: u64,
    pub cause: ImageCause,
}

/// A fault, or want of memory.
#[derive(Clone, Copy, Debug, PartialEq, Eq, Drop)]
pub(crate) enum ReadError {
    Memory,
    Fault(ImageFault),
}

impl From<AllocError> for ReadError {
    ghost from_gives = { λ _ e. e ≡ Memory };

    fn from(_e: AllocError) -> ReadError {
        ReadError::Memory
    }
}

impl<T: Drop> From<AllocFailed<T>> for ReadError {
    ghost from_gives = { λ _ e. e ≡ Memory };

    fn from(_e: AllocFailed<T>) -> ReadError {
        ReadError::Memory
    }
}

impl From<NoMemory> for ReadError {
    ghost from_gives = { λ _ e. e ≡ Memory };

    fn from(_e: NoMemory) -> ReadError {
        ReadError::Memory
    }
}
