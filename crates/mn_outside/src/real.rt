// The real files and the standard output. They tell no content.
ghost use Rattle.std.specs.Prelude.{◌≡◌, ◌≤◌, ◌^◌, None, IfOk, IfSome, IsErr, OnOk, OnErr, length};
ghost use Rattle.std.specs.Io.KnownBytes.{Appends};
ghost use Rattle.mn_outside.specs.Calls.{faults_after};
ghost use Rattle.mn_outside.specs.Causes.{AppendsPrefix, HasCause, IsFault, NeverFall};

use crate::calls::next_fault;
use crate::{Failed, Files, Refused, Sink};
use std::alloc::Global;
use std::fs;
use std::io::{Read, Write};

// The most bytes that are read of a file.
const MOST_BYTES: usize = 1073741824;

/// Files by their paths, as the runtime has them. A read is a fault where the system refuses it, and for a file of
/// more than 2^30 bytes; a write where the system refuses it or takes nothing of bytes that are left.
/// `faults` counts them, of every name and of both kinds, and stops at its last value.
#[derive(Drop)]
pub struct RealFiles<'a, R> {
    rt: &'a R,
    pub faults: u64,
}

impl<'a, R> RealFiles<'a, R> {
    /// Files of which no call has failed yet.
    pub fn new(rt: &'a R) -> Self
        ensures { result.faults ≡ 0 }
    {
        RealFiles { rt, faults: 0 }
    }
}

// All of a reader's bytes, where these are at most 2^30.
fn read_all<S: Read>(alloc: Global, source: &mut S) -> Result<Vec<u8>, Refused<Failed>>
    ensures all { IfOk result (λ bytes. IfSome (S.remaining source.old) (λ all. bytes.items ≡ all)) }
    ensures few { IfOk result (λ bytes. length bytes.items ≤ 2 ^ 30) }
{
    let mut bytes = Vec::new(alloc);
    let mut buffer = [0u8; 4096];
    for _ in 0..=MOST_BYTES {
        let count = match source.read(&mut buffer) {
            Ok(count) => count,
            Err(_) => return Err(Refused::Fault(Failed)),
        };
        if count == 0 {
            return Ok(bytes);
        }
        if bytes.extend_from_slice(&buffer[..count]).is_err() {
            return Err(Refused::NoMemory);
        }
        if bytes.len() > MOST_BYTES {
            return Err(Refused::Fault(Failed));
        }
    }
    Err(Refused::Fault(Failed))
}

// Writes all of the bytes, in as many pieces as it takes. A write that takes nothing of a piece is a fault.
fn write_all<T: Write>(target: &mut T, bytes: &[u8]) -> Result<(), Refused<Failed>>
    ensures ok { OnOk result (Appends (T.contents target.old) (T.contents target.new) bytes.now) }
    ensures err { OnErr result (AppendsPrefix (T.contents target.old) (T.contents target.new) bytes.now) }
    ensures fault { IsErr result → IsFault result }
{
    let mut at = 0;
    for _ in 0..bytes.len() {
        if at == bytes.len() {
            return Ok(());
        }
        let count = match target.write(&bytes[at..]) {
            Ok(count) => count,
            Err(_) => return Err(Refused::Fault(Failed)),
        };
        if count == 0 {
            return Err(Refused::Fault(Failed));
        }
        at += count;
    }
    Ok(())
}

fn read_file<R: std::rt::Files>(
    rt: &R,
    alloc: Global,
    name: &str,
) -> Result<Vec<u8>, Refused<Failed>> {
    match fs::open(rt, name) {
        Ok(mut file) => read_all(alloc, &mut file),
        Err(_) => Err(Refused::Fault(Failed)),
    }
}

fn write_file<R: std::rt::Files>(rt: &R, name: &str, bytes: &[u8]) -> Result<(), Refused<Failed>> {
    match fs::create(rt, name) {
        Ok(mut file) => write_all(&mut file, bytes),
        Err(_) => Err(Refused::Fault(Failed)),
    }
}

impl<R: std::rt::Files> Files for RealFiles<'_, R> {
    ghost held = { λ _. None };

    ghost read_faults = { λ f _. f.faults };

    ghost write_faults = { λ f _. f.faults };

    fn read(&mut self, alloc: Global, name: &str) -> Result<Vec<u8>, Refused<Failed>>
        ensures faults { self.new.faults ≡ faults_after result self.old.faults }
        ensures cause { HasCause self.old.faults self.new.faults result }
    {
        match read_file(self.rt, alloc, name) {
            Ok(bytes) => Ok(bytes),
            Err(Refused::NoMemory) => Err(Refused::NoMemory),
            Err(Refused::Fault(failed)) => {
                self.faults = next_fault(self.faults);
                Err(Refused::Fault(failed))
            }
        }
    }

    fn write(&mut self, alloc: Global, name: &str, bytes: &[u8]) -> Result<(), Refused<Failed>>
        ensures faults { self.new.faults ≡ faults_after result self.old.faults }
        ensures cause { HasCause self.old.faults self.new.faults result }
    {
        match write_file(self.rt, name, bytes) {
            Ok(()) => Ok(()),
            Err(Refused::NoMemory) => Err(Refused::NoMemory),
            Err(Refused::Fault(failed)) => {
                self.faults = next_fault(self.faults);
                Err(Refused::Fault(failed))
            }
        }
    }
}

/// The standard output, as the runtime has it. A put is a fault where the system refuses it or takes nothing of bytes
/// that are left. `faults` counts them, and stops at its last value.
#[derive(Drop)]
pub struct RealSink<'a, R> {
    rt: &'a R,
    pub faults: u64,
}

impl<'a, R> RealSink<'a, R> {
    /// A standard output of which no call has failed yet.
    pub fn new(rt: &'a R) -> Self
        ensures { result.faults ≡ 0 }
    {
        RealSink { rt, faults: 0 }
    }
}

impl<R: Print> Sink for RealSink<'_, R> {
    ghost written = { λ _. None };

    ghost faults = { λ s. s.faults };

    fn put(&mut self, bytes: &[u8]) -> Result<(), Refused<Failed>>
        ensures faults { self.new.faults ≡ faults_after result self.old.faults }
        ensures cause { HasCause self.old.faults self.new.faults result }
    {
        let mut writer = std::io::writer(self.rt);
        match write_all(&mut writer, bytes) {
            Ok(()) => Ok(()),
            Err(Refused::NoMemory) => Err(Refused::NoMemory),
            Err(Refused::Fault(failed)) => {
                self.faults = next_fault(self.faults);
                Err(Refused::Fault(failed))
            }
        }
    }
}
