// Where a word stands.

/// The place of a word in the store. This project's own.
#[derive(Clone, Copy, Debug, PartialEq, Eq)]
pub enum Place {
    /// A word of an object, by its index from 0. Objects are numbered from 1.
    Object { object: u32, index: u32 },
    /// A static word of a kind, by its index from 0.
    Fixed { kind: u32, index: u32 },
}
