// Files and a sink, by what they hold and how often they failed.
ghost use Rattle.std.specs.Prelude.{◌≡◌, ◌≤◌, ℕ, List, Option, IfOk, OnOk, OnErr};
ghost use Rattle.std.specs.Io.KnownBytes.{Appends};
ghost use Rattle.mn_outside.specs.Causes.{HasCause, NeverFall, Held, Holds, KeepsOthers, AppendsPrefix};

use std::alloc::{AllocError, AllocFailed, Global};

/// Want of memory, where there is no other error.
#[derive(Clone, Copy, Debug, PartialEq, Eq)]
pub struct NoMemory;

/// A fault of the outside.
#[derive(Clone, Copy, Debug, PartialEq, Eq)]
pub struct Failed;

/// A fault of its own, or want of memory.
#[derive(Clone, Copy, Debug, PartialEq, Eq, Drop)]
pub enum Refused<E> {
    Fault(E),
    NoMemory,
}

/// Files by name. Whether a failed call raises the counts of other names isn't said.
pub trait Files {
    /// What is held under each name, where it is told.
    ghost held: { Self → Option Held };

    /// How often reading a name failed, up to a last value.
    ghost read_faults: { Self → List ℕ → ℕ };

    /// How often writing a name failed, up to a last value.
    ghost write_faults: { Self → List ℕ → ℕ };

    /// The bytes held under a name. A fault comes only where the count of reading this name rose in this call.
    fn read(&mut self, alloc: Global, name: &str) -> Result<Vec<u8>, Refused<Failed>>
        ensures bytes { IfOk result (λ bytes. Holds (held self.old) name.now bytes.items) }
        ensures held { held self.new ≡ held self.old }
        ensures cause { HasCause (read_faults self.old name.now) (read_faults self.new name.now) result }
        ensures reads { NeverFall (read_faults self.old) (read_faults self.new) }
        ensures writes { NeverFall (write_faults self.old) (write_faults self.new) };

    /// Puts bytes under a name. A fault comes only where the count of writing this name rose in this call,
    /// and it may leave any bytes under this name.
    fn write(&mut self, alloc: Global, name: &str, bytes: &[u8]) -> Result<(), Refused<Failed>>
        ensures held { OnOk result (Holds (held self.new) name.now bytes.now) }
        ensures others { KeepsOthers (held self.old) (held self.new) name.now }
        ensures cause { HasCause (write_faults self.old name.now) (write_faults self.new name.now) result }
        ensures reads { NeverFall (read_faults self.old) (read_faults self.new) }
        ensures writes { NeverFall (write_faults self.old) (write_faults self.new) };
}

/// What bytes are written to.
pub trait Sink {
    /// The bytes written, where they are told.
    ghost written: { Self → Option (List ℕ) };

    /// How often a put failed, up to a last value.
    ghost faults: { Self → ℕ };

    /// Appends bytes. A refusal appends a prefix of them. A fault comes only where the count rose in this call.
    fn put(&mut self, bytes: &[u8]) -> Result<(), Refused<Failed>>
        ensures ok { OnOk result (Appends (written self.old) (written self.new) bytes.now) }
        ensures err { OnErr result (AppendsPrefix (written self.old) (written self.new) bytes.now) }
        ensures cause { HasCause (faults self.old) (faults self.new) result };
}
