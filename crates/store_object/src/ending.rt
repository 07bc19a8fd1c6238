// How a run chooses and how it ends.

use crate::Cause;
use mn_outside::{MachineFault, Region};

/// Where the numbers come from by which a run chooses its next thread.
#[derive(Debug, PartialEq, Eq, Drop)]
pub enum Chooser {
    /// The seed of a generator.
    Seed(u64),
    /// The numbers themselves, at least as many as there are turns.
    List(Vec<u32>),
}

/// How a run ended. This project's own.
#[derive(Clone, Copy, Debug, PartialEq, Eq)]
pub enum Ending {
    /// All threads have finished.
    Done,
    /// An exception of this kind was caught by nobody.
    Uncaught { kind: u32 },
    /// The turns are used up.
    Turns,
    /// A limit was passed.
    Stopped { cause: Cause },
    /// A region of the context words has no place left for this key.
    Full { region: Region, key: u64 },
    /// The machine has no next turn.
    Fault { fault: MachineFault },
}
