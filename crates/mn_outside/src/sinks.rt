// Sinks in memory.
ghost use Rattle.std.specs.Prelude.{◌≡◌, ◌++◌, ◌↔◌, List, ℕ, Some, OnOk, OnErr};
ghost use Rattle.mn_outside.specs.Calls.{Fails, next_call as the_next_call, faults_after};
ghost use Rattle.mn_outside.specs.Causes.{HasCause, IsFault};

use crate::calls::{is_failing, next_call, next_fault};
use crate::{Failed, Refused, Sink};

/// A sink that never fails.
#[derive(Drop)]
pub struct SureSink {
    pub written: Vec<u8>,
}

impl Sink for SureSink {
    ghost written = { λ s. Some s.written.items };

    ghost faults = { λ _. 0 };

    fn put(&mut self, bytes: &[u8]) -> Result<(), Refused<Failed>>
        ensures ok { OnOk result (self.new.written.items ≡ self.old.written.items ++ bytes.now) }
        ensures err { OnErr result (self.new.written.items ≡ self.old.written.items) }
        ensures never { ¬ IsFault result }
    {
        match self.written.extend_from_slice(bytes) {
            Ok(()) => Ok(()),
            Err(_) => Err(Refused::NoMemory),
        }
    }
}

/// A sink whose calls with the numbers in `fail` fail, and then append nothing. Calls are numbered from 0;
/// `calls` is the number of the next one, and stops at its last value, from which on no call is one of `fail`.
/// `faults` counts those that failed, and stops at its last value.
#[derive(Drop)]
pub struct MemSink {
    pub written: Vec<u8>,
    pub fail: Vec<u32>,
    pub calls: u32,
    pub faults: u64,
}

impl Sink for MemSink {
    ghost written = { λ s. Some s.written.items };

    ghost faults = { λ s. s.faults };

    fn put(&mut self, bytes: &[u8]) -> Result<(), Refused<Failed>>
        ensures ok { OnOk result (self.new.written.items ≡ self.old.written.items ++ bytes.now) }
        ensures err { OnErr result (self.new.written.items ≡ self.old.written.items) }
        ensures fault { IsFault result ↔ Fails self.old.fail.items self.old.calls }
        ensures fail { self.new.fail ≡ self.old.fail }
        ensures calls { self.new.calls ≡ the_next_call self.old.calls }
        ensures faults { self.new.faults ≡ faults_after result self.old.faults }
        ensures cause { HasCause self.old.faults self.new.faults result }
    {
        let fails = is_failing(self.fail.as_slice(), self.calls);
        self.calls = next_call(self.calls);
        if fails {
            self.faults = next_fault(self.faults);
            return Err(Refused::Fault(Failed));
        }
        match self.written.extend_from_slice(bytes) {
            Ok(()) => Ok(()),
            Err(_) => Err(Refused::NoMemory),
        }
    }
}
