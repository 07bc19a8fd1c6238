// Why a type of a key is not read.
ghost use Rattle.std.specs.Prelude.{◌≡◌};
ghost use Rattle.aot_image.specs.declared.choice_read_error.ReadError.TheVariants.{Memory};

use std::alloc::{AllocError, AllocFailed};

/// A word is not written as a type; or want of memory.
#[derive(Clone, Copy, Debug, PartialEq, Eq, Drop)]
pub(crate) enum ReadError {
    Memory,
    Malformed,
}

impl From<AllocError> for ReadError {
    ghost from_gives = { λ _ e. e ≡ Memory };

    fn from(_e: AllocError) -> ReadError {
        ReadError::Memory
    }
}

impl<T: Drop> From<AllocFailed<T>> for ReadError {
    ghost from_gives = { λ _ e. e ≡ Memory };

    fn from(_e: AllocFailed<T>) -> ReadError {
        ReadError::Memory
    }
}
