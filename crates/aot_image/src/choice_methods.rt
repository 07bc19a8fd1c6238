// How a line names a method.
ghost use Rattle.std.specs.Prelude.{◌≡◌, ◌≤◌, IfOk, length, option_map};
ghost use Rattle.std.specs.List.{list_all};
ghost use Rattle.il_text.specs.Bytes.{is_word_start, is_word_byte};
ghost use Rattle.il_text.specs.Spelling.{is_word};
ghost use Rattle.aot_image.specs.ChoosingMethods as spec;

use crate::choice_cursor::after_byte;
use crate::choice_names::full_text;
use crate::choice_start::is_digits;
use mn_outside::NoMemory;
use std::alloc::Global;

fn is_word_start(byte: u8) -> bool
    ensures { result ≡ is_word_start byte }
{
    (b'A' <= byte && byte <= b'Z')
        || ((b'a' <= byte && byte <= b'z') || (byte == b'_' || byte == b'.'))
}

fn is_word_byte(byte: u8) -> bool
    ensures { result ≡ is_word_byte byte }
{
    is_word_start(byte) || (b'0' <= byte && byte <= b'9')
}

fn all_word_bytes(bytes: &[u8]) -> bool
    ensures { result ≡ list_all is_word_byte bytes.now }
{
    for byte in bytes {
        if !is_word_byte(*byte) {
            return false;
        }
    }
    true
}

fn is_word(bytes: &[u8]) -> bool
    ensures { result ≡ is_word bytes.now }
{
    let Some((first, rest)) = bytes.split_first() else {
        return false;
    };
    is_word_start(*first) && all_word_bytes(rest)
}

// Whether these are a name of the assembly text.
fn is_name(bytes: &[u8]) -> bool
    ensures { result ≡ spec.is_name bytes.now }
{
    is_word(bytes) && bytes.len() <= 255
}

// Whether these are digits without a leading zero, or `0`.
fn is_place(bytes: &[u8]) -> bool
    ensures { result ≡ spec.is_place bytes.now }
{
    let Some((first, rest)) = bytes.split_first() else {
        return false;
    };
    if *first == b'0' {
        return rest.len() == 0;
    }
    is_digits(bytes)
}

fn name_len(bytes: &[u8]) -> usize
    ensures value { result ≡ spec.name_len bytes.now }
    ensures within { result ≤ length bytes.now }
{
    for (i, byte) in bytes.iter().enumerate() {
        if !is_word_byte(*byte) {
            return i;
        }
    }
    bytes.len()
}

// What stands behind a name: nothing, which is place 0, or `/` and a place.
fn place_in(bytes: &[u8]) -> Option<&[u8]>
    ensures { option_map (λ place. place.now) result ≡ spec.place_in bytes.now }
{
    let Some((first, rest)) = bytes.split_first() else {
        return Some(b"0");
    };
    if *first == b'/' && is_place(rest) {
        return Some(rest);
    }
    None
}

fn behind_colons(bytes: &[u8]) -> Option<&[u8]>
    ensures { option_map (λ rest. rest.now) result ≡ spec.behind_colons bytes.now }
{
    match after_byte(b':', bytes) {
        Some(rest) => after_byte(b':', rest),
        None => None,
    }
}

// The full text of a method, of which class and name are read.
fn full_with(
    alloc: Global,
    class: &[u8],
    name: &[u8],
    rest: &[u8],
) -> Result<Option<Vec<u8>>, NoMemory>
    ensures { IfOk result (λ text. option_map (λ t. t.items) text ≡ spec.full_with class.now name.now rest.now) }
{
    if !is_name(name) {
        return Ok(None);
    }
    match place_in(rest) {
        Some(place) => Ok(Some(full_text(alloc, class, name, place)?)),
        None => Ok(None),
    }
}

fn full_behind(alloc: Global, class: &[u8], rest: &[u8]) -> Result<Option<Vec<u8>>, NoMemory>
    ensures { IfOk result (λ text. option_map (λ t. t.items) text ≡ spec.full_behind class.now rest.now) }
{
    let (name, rest) = rest.split_at(name_len(rest));
    full_with(alloc, class, name, rest)
}

/// The text of the method that these bytes name, in full; None where they have not the form of a name of
/// one: `Class::name`, or `Class::name/k`.
pub(crate) fn full_of(alloc: Global, bytes: &[u8]) -> Result<Option<Vec<u8>>, NoMemory>
    ensures { IfOk result (λ text. option_map (λ t. t.items) text ≡ spec.full_of bytes.now) }
{
    let (class, rest) = bytes.split_at(name_len(bytes));
    if !is_name(class) {
        return Ok(None);
    }
    match behind_colons(rest) {
        Some(rest) => full_behind(alloc, class, rest),
        None => Ok(None),
    }
}
