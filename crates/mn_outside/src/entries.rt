// Names with their bytes, in a list.
ghost use Rattle.std.specs.Prelude.{◌≡◌, ◌<◌, ◌++◌, ◌∷◌, [], ℕ, List, OnOk, OnErr, IfOk, IfSome, IfNone, option_copied, length, string_bytes};
ghost use Rattle.mn_outside.specs.Entries.{entry_of, with_entry, with_bytes_at};

use crate::{Bytes, Name, NoMemory};
use std::alloc::Global;

// The bytes of the first entry of a name.
pub(crate) fn find<'a>(held: &'a [(Name, Bytes)], name: &str) -> Option<&'a [u8]>
    ensures { option_copied result ≡ entry_of held.now name.now }
{
    for entry in held {
        if entry.0.text() == name {
            return Some(entry.1.list());
        }
    }
    None
}

// A copy of bytes.
pub(crate) fn copy_of(alloc: Global, bytes: &[u8]) -> Result<Vec<u8>, NoMemory>
    ensures { IfOk result (λ copy. copy.items ≡ bytes.now) }
{
    match bytes.to_vec(alloc) {
        Ok(copy) => Ok(copy),
        Err(_) => Err(NoMemory),
    }
}

// A copy of a name.
fn name_of(alloc: Global, name: &str) -> Result<Name, NoMemory>
    ensures { IfOk result (λ copy. copy ≡ name.now) }
{
    match String::from_str(alloc, name) {
        Ok(text) => Ok(Name::of(text)),
        Err(_) => Err(NoMemory),
    }
}

// The place of the first entry of a name.
fn place_of(held: &[(Name, Bytes)], name: &str) -> Option<usize>
    ensures inside { IfSome result (λ at. at < length held.now) }
    ensures some { IfSome result (λ at. (bytes : List ℕ) → with_entry held.now name.now bytes ≡ with_bytes_at held.now at bytes) }
    ensures none { IfNone result ((bytes : List ℕ) → with_entry held.now name.now bytes ≡ held.now ++ (name.now, bytes) ∷ []) }
{
    for (at, entry) in held.iter().enumerate() {
        if entry.0.text() == name {
            return Some(at);
        }
    }
    None
}

// Puts bytes in the place of those of an entry.
fn replace(held: &mut [(Name, Bytes)], at: usize, bytes: Bytes)
    requires { at < length held.old }
    ensures { held.new ≡ with_bytes_at held.old at bytes }
{
    held[at].1 = bytes;
}

// Puts an entry after all others.
fn add(held: &mut Vec<(Name, Bytes)>, name: Name, bytes: Bytes) -> Result<(), NoMemory>
    ensures ok { OnOk result (held.new.items ≡ held.old.items ++ (name, bytes) ∷ []) }
    ensures err { OnErr result (held.new.items ≡ held.old.items) }
{
    match held.push((name, bytes)) {
        Ok(()) => Ok(()),
        Err(_) => Err(NoMemory),
    }
}

// Puts bytes under a name: in the place of those of its first entry, or in an entry after all others.
pub(crate) fn write_entry(
    alloc: Global,
    held: &mut Vec<(Name, Bytes)>,
    name: &str,
    bytes: &[u8],
) -> Result<(), NoMemory>
    ensures ok { OnOk result (held.new.items ≡ with_entry held.old.items name.now bytes.now) }
    ensures err { OnErr result (held.new.items ≡ held.old.items) }
{
    let copy = Bytes::of(copy_of(alloc, bytes)?);
    match place_of(held.as_slice(), name) {
        Some(at) => {
            replace(held.as_mut_slice(), at, copy);
            Ok(())
        }
        None => {
            let named = name_of(alloc, name)?;
            add(held, named, copy)
        }
    }
}
