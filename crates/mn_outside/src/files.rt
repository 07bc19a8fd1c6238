// Files in memory.
ghost use Rattle.std.specs.Prelude.{◌≡◌, ◌⊎◌, ◌↔◌, List, ℕ, Some, None, IfOk, OnOk, OnErr};
ghost use Rattle.mn_outside.specs.Calls.{Fails, next_call as the_next_call, faults_after};
ghost use Rattle.mn_outside.specs.Causes.{HasCause, IsFault};
ghost use Rattle.mn_outside.specs.Entries.{entry_of, entry_or_empty, with_entry};

use crate::calls::{is_failing, next_call, next_fault};
use crate::entries::{copy_of, find, write_entry};
use crate::{Bytes, Failed, Files, Name, NoMemory, Refused};
use std::alloc::Global;

/// Files that never fail. A name that isn't held reads as the empty file.
/// Of several entries of one name the first counts. A write replaces its bytes, or adds an entry at the end.
#[derive(Drop)]
pub struct SureFiles {
    pub held: Vec<(Name, Bytes)>,
}

impl Files for SureFiles {
    ghost held = { λ f. Some (entry_or_empty f.held.items) };

    ghost read_faults = { λ _ _. 0 };

    ghost write_faults = { λ _ _. 0 };

    fn read(&mut self, alloc: Global, name: &str) -> Result<Vec<u8>, Refused<Failed>>
        ensures ok { IfOk result (λ bytes. Some bytes.items ≡ entry_or_empty self.old.held.items name.now) }
        ensures never { ¬ IsFault result }
        ensures same { self.new ≡ self.old }
    {
        let bytes = find(self.held.as_slice(), name).unwrap_or(&[]);
        match copy_of(alloc, bytes) {
            Ok(copy) => Ok(copy),
            Err(NoMemory) => Err(Refused::NoMemory),
        }
    }

    fn write(&mut self, alloc: Global, name: &str, bytes: &[u8]) -> Result<(), Refused<Failed>>
        ensures ok { OnOk result (self.new.held.items ≡ with_entry self.old.held.items name.now bytes.now) }
        ensures err { OnErr result (self.new.held.items ≡ self.old.held.items) }
        ensures never { ¬ IsFault result }
    {
        match write_entry(alloc, &mut self.held, name, bytes) {
            Ok(()) => Ok(()),
            Err(NoMemory) => Err(Refused::NoMemory),
        }
    }
}

/// Files whose calls with the numbers in `fail` fail, and then change nothing that is held.
/// Reading a name that isn't held fails too. Calls of reading and writing are numbered together from 0;
/// `calls` is the number of the next one, and stops at its last value, from which on no call is one of `fail`.
/// `faults` counts those that failed, of every name and of both kinds, and stops at its last value.
/// Of several entries of one name the first counts. A write replaces its bytes, or adds an entry at the end.
#[derive(Drop)]
pub struct MemFiles {
    pub held: Vec<(Name, Bytes)>,
    pub fail: Vec<u32>,
    pub calls: u32,
    pub faults: u64,
}

impl Files for MemFiles {
    ghost held = { λ f. Some (entry_of f.held.items) };

    ghost read_faults = { λ f _. f.faults };

    ghost write_faults = { λ f _. f.faults };

    fn read(&mut self, alloc: Global, name: &str) -> Result<Vec<u8>, Refused<Failed>>
        ensures ok { IfOk result (λ bytes. Some bytes.items ≡ entry_of self.old.held.items name.now) }
        ensures fault { IsFault result ↔ (Fails self.old.fail.items self.old.calls ⊎ (entry_of self.old.held.items name.now ≡ None)) }
        ensures held { self.new.held ≡ self.old.held }
        ensures fail { self.new.fail ≡ self.old.fail }
        ensures calls { self.new.calls ≡ the_next_call self.old.calls }
        ensures faults { self.new.faults ≡ faults_after result self.old.faults }
        ensures cause { HasCause self.old.faults self.new.faults result }
    {
        let fails = is_failing(self.fail.as_slice(), self.calls);
        self.calls = next_call(self.calls);
        if !fails {
            if let Some(bytes) = find(self.held.as_slice(), name) {
                return match copy_of(alloc, bytes) {
                    Ok(copy) => Ok(copy),
                    Err(NoMemory) => Err(Refused::NoMemory),
                };
            }
        }
        self.faults = next_fault(self.faults);
        Err(Refused::Fault(Failed))
    }

    fn write(&mut self, alloc: Global, name: &str, bytes: &[u8]) -> Result<(), Refused<Failed>>
        ensures ok { OnOk result (self.new.held.items ≡ with_entry self.old.held.items name.now bytes.now) }
        ensures err { OnErr result (self.new.held.items ≡ self.old.held.items) }
        ensures fault { IsFault result ↔ Fails self.old.fail.items self.old.calls }
        ensures fail { self.new.fail ≡ self.old.fail }
        ensures calls { self.new.calls ≡ the_next_call self.old.calls }
        ensures faults { self.new.faults ≡ faults_after result self.old.faults }
        ensures cause { HasCause self.old.faults self.new.faults result }
    {
        let fails = is_failing(self.fail.as_slice(), self.calls);
        self.calls = next_call(self.calls);
        if fails {
            self.faults = next_fault(self.faults);
            return Err(Refused::Fault(Failed));
        }
        match write_entry(alloc, &mut self.held, name, bytes) {
            Ok(()) => Ok(()),
            Err(NoMemory) => Err(Refused::NoMemory),
        }
    }
}
