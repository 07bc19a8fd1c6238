// What a thread asks of the store.

use crate::Place;

/// How a word is printed: as a signed number, or as the string that it names.
#[derive(Clone, Copy, Debug, PartialEq, Eq)]
pub enum Form {
    Number,
    String,
}

/// The limit at which a run stops. This project's own.
#[derive(Clone, Copy, Debug, PartialEq, Eq)]
pub enum Cause {
    /// Too many frames of one thread.
    Depth,
    /// A type of too many positions.
    Positions,
    /// A value of too many words.
    ValueWords,
    /// The objects would take more than `HEAP_LIMIT`.
    Heap,
    /// `THREAD_LIMIT` threads were started.
    Threads,
}

/// A request of a thread to the store. A kind is the number of a type, which the store only hands back. This project's own.
#[derive(Clone, Copy, Debug, PartialEq, Eq)]
pub enum Request {
    /// A new object of this kind and length, with this many words, all 0.
    Alloc {
        kind: u32,
        length: u32,
        words: u64,
    },
    /// The kind of an object.
    TypeOf {
        object: u32,
    },
    /// The length of an object.
    Length {
        object: u32,
    },
    /// The word at a place.
    Load {
        place: Place,
    },
    /// Puts a word at a place.
    Save {
        place: Place,
        word: u64,
    },
    /// Puts a word at a place, and gives the one that stood there.
    Exchange {
        place: Place,
        word: u64,
    },
    /// The same, but puts the word only where the comparand stood there.
    CompareExchange {
        place: Place,
        word: u64,
        comparand: u64,
    },
    /// Adds to the word at a place: at 32 bits, with the sign extended, where it is narrow, and else at 64 bits.
    Add {
        place: Place,
        word: u64,
        narrow: bool,
    },
    /// Prints a line.
    Print {
        form: Form,
        word: u64,
    },
    /// Starts a thread, which runs an object.
    Start {
        object: u32,
    },
    /// Whether the thread of this number has finished.
    Ended {
        thread: u32,
    },
    /// Ends the thread that asks.
    Finish,
    /// Ends the run with an exception of this kind.
    Fall {
        kind: u32,
    },
    /// Ends the run at a limit.
    Stop {
        cause: Cause,
    },
}
