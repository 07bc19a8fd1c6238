// What a thread's loads and stores reach: its frames in any size, and context words by loads of eight bytes.
ghost use Rattle.std.specs.Prelude.{◌≡◌, ◌*◌, ◌/◌, ◌<◌, ◌≤◌, ◌^◌, length, Option, option_map, IfSome};
ghost use Rattle.rgctx_words.specs.Frames.{frames_at};
ghost use Rattle.rgctx_words.specs.Regions.{unit_at};
ghost use Rattle.rgctx_words.specs.Stacks.{StackWords};
ghost use Rattle.rv_machine.specs.Access.{IsSize};
ghost use Rattle.rgctx_fill.specs.Accesses.{piece_of, with_piece, unit_of, unit_read, unit_written, frame_read, frame_written};
ghost use Rattle.thread_core.specs.Memory.{size_of, IsPart, WritesTo};

use rgctx_fill::Fits;
use rgctx_words::{Stack, Words, context_index};
use rv_machine::Bus;

// The address of the first frame word.
const FRAMES: u64 = 0x4000_0000;

/// What a thread's loads and stores reach.
#[derive(Drop)]
pub(crate) struct Memory<'s, 'w, W: Words<Fits>> {
    pub(crate) stack: &'s mut Stack,
    pub(crate) words: &'w mut W,
}

// The unit of so many bytes that begins at an address of the frames, which have `end` of them.
#[tactic(auto, unfolding(rgctx_words::specs::Frames::frames_at))]
fn unit_at(bytes: u64, end: u64, address: u64) -> Option<u64>
    requires { 0 < bytes }
    ensures unit { result ≡ unit_at frames_at bytes end address }
    ensures within { IfSome result (λ u. u < end) }
{
    if address < FRAMES {
        return None;
    }
    let offset = address - FRAMES;
    if offset / bytes >= end {
        return None;
    }
    if offset % bytes != 0 {
        return None;
    }
    Some(offset / bytes)
}

// Two to the number of bits of so many bytes.
fn limit(bytes: u64) -> u64
    requires { IsPart bytes }
    ensures { result ≡ 2 ^ (8 * bytes) }
{
    match bytes {
        1 => 0x100,
        2 => 0x1_0000,
        _ => 0x1_0000_0000,
    }
}

// Piece k of a word, of so many bytes.
fn piece_of(bytes: u64, k: u64, word: u64) -> u64
    requires part { IsPart bytes }
    requires place { k < 8 / bytes }
    ensures { result ≡ piece_of bytes k word }
{
    word.wrapping_shr((8 * bytes * k) as u32) % limit(bytes)
}

// The word with another piece k.
fn with_piece(bytes: u64, k: u64, new: u64, word: u64) -> u64
    requires part { IsPart bytes }
    requires place { k < 8 / bytes }
    requires fits { new < 2 ^ (8 * bytes) }
    ensures { result ≡ with_piece bytes k new word }
{
    let shift = (8 * bytes * k) as u32;
    let old = piece_of(bytes, k, word);
    word - old.wrapping_shl(shift) + new.wrapping_shl(shift)
}

fn read_part(stack: &Stack, bytes: u64, address: u64) -> Option<u64>
    requires { IsPart bytes }
    ensures { result ≡ option_map (unit_read bytes stack.now) (unit_of bytes stack.now address) }
{
    let pieces = 8 / bytes;
    match unit_at(bytes, u64::from(stack.end()) * pieces, address) {
        Some(unit) => {
            let word = stack.word((unit / pieces) as u32);
            Some(piece_of(bytes, unit % pieces, word))
        }
        None => None,
    }
}

fn write_part(stack: &mut Stack, bytes: u64, address: u64, value: u64) -> bool
    requires part { IsPart bytes }
    requires fits { value < 2 ^ (8 * bytes) }
    ensures { WritesTo stack.old (option_map (unit_written bytes stack.old value) (unit_of bytes stack.old address)) result stack.new }
{
    let pieces = 8 / bytes;
    match unit_at(bytes, u64::from(stack.end()) * pieces, address) {
        Some(unit) => {
            let index = (unit / pieces) as u32;
            let word = stack.word(index);
            stack.put(index, with_piece(bytes, unit % pieces, value, word));
            true
        }
        None => false,
    }
}

fn read_frames(stack: &Stack, address: u64, size: u8) -> Option<u64>
    requires { IsSize size }
    ensures { result ≡ frame_read (size_of size) stack.now address }
{
    if size != 8 {
        return read_part(stack, u64::from(size), address);
    }
    match stack.index_at(address) {
        Some(index) => Some(stack.word(index)),
        None => None,
    }
}

fn write_frames(stack: &mut Stack, address: u64, size: u8, value: u64) -> bool
    requires size { IsSize size }
    requires fits { value < 2 ^ (8 * size) }
    ensures { WritesTo stack.old (frame_written (size_of size) stack.old address value) result stack.new }
{
    if size != 8 {
        return write_part(stack, u64::from(size), address, value);
    }
    match stack.index_at(address) {
        Some(index) => {
            stack.put(index, value);
            true
        }
        None => false,
    }
}

impl<'s, 'w, W: Words<Fits>> Bus for Memory<'s, 'w, W> {
    ghost use Rattle.std.specs.Prelude.{◌≡◌, ℕ, Bool, Option};
    ghost use Rattle.rgctx_words.specs.Held.{Grows};
    ghost use Rattle.rgctx_template.specs.declared.catalogue.Catalogue.{Catalogue};
    ghost use Rattle.rgctx_fill.specs.Moves.{span};
    ghost use Rattle.thread_core.specs.Memory.{Reads, Writes};

    ghost reads = { λ before address size answer after.
        Reads (span (W.alone before.words.now) (W.held before.words.now) (W.held after.words.now) (W.claims before.words.now) (W.claims after.words.now)) size address before.stack.now answer after.stack.now
        × (((after.stack.ghost_name ≡ before.stack.ghost_name) × (after.words.ghost_name ≡ before.words.ghost_name))
        × ((W.place after.words.now ≡ W.place before.words.now) × (W.alone after.words.now ≡ W.alone before.words.now)
        × Grows (W.held before.words.now) (W.held after.words.now) × ((cat : Catalogue) → W.meets cat before.words.now → W.meets cat after.words.now))) };

    ghost writes = { λ before address size value done after.
        Writes (span (W.alone before.words.now) (W.held before.words.now) (W.held after.words.now) (W.claims before.words.now) (W.claims after.words.now)) size address before.stack.now value done after.stack.now
        × (((after.stack.ghost_name ≡ before.stack.ghost_name) × (after.words.ghost_name ≡ before.words.ghost_name))
        × ((W.place after.words.now ≡ W.place before.words.now) × (W.alone after.words.now ≡ W.alone before.words.now)
        × Grows (W.held before.words.now) (W.held after.words.now) × ((cat : Catalogue) → W.meets cat before.words.now → W.meets cat after.words.now))) };

    fn read(&mut self, address: u64, size: u8) -> Option<u64> {
        if size == 8 {
            if let Some(index) = context_index(address) {
                return Some(self.words.load(index));
            }
        }
        read_frames(self.stack, address, size)
    }

    fn write(&mut self, address: u64, size: u8, value: u64) -> bool {
        write_frames(self.stack, address, size, value)
    }
}
