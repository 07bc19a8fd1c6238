// What the store replies, and what the history keeps.

use crate::{Cause, Request};

/// The store's reply to a request. This project's own.
#[derive(Clone, Copy, Debug, PartialEq, Eq)]
pub enum Reply {
    /// The number of the new object.
    Object(u32),
    /// A type's number.
    Kind(u32),
    /// A word, or a length.
    Word(u64),
    /// The number of the new thread.
    Thread(u32),
    /// Whether that thread has finished.
    Ended(bool),
    /// No thread of that number was started.
    Unknown,
    Done,
    /// The run has stopped at this limit.
    Stopped(Cause),
    /// The run had ended before. The request changes nothing and isn't kept.
    Halted,
    /// The thread doesn't live, or what the request names isn't there. It changes nothing and isn't kept.
    Improper,
}

/// One request of one thread with its reply. It takes at most 64 bytes, so that a history of four million events takes 256 MB.
pub type Event = interaction::Event<Request, Reply>;

const _: () = prove!(size_of::<Event>() <= 64);
