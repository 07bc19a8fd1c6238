// The frames of one thread.
ghost use Rattle.std.specs.Prelude.{◌≡◌, ◌-◌, ◌<◌, ◌≤◌, ◌++◌, length, replicate, OnOk, OnErr, Ok};
ghost use Rattle.rgctx_words.specs.Memory.{put, beyond};
ghost use Rattle.rgctx_words.specs.Frames.{frame_index, header, header_words, header_count, most_words, most_frames};
ghost use Rattle.rgctx_words.specs.Stacks.{no_frames, mem_of, base_of, IsStack, current_address, with_word, entered, end_of, left_to, IsLevelAt};

use crate::frame::{NewFrame, frame_address};
use crate::regions::unit_at;
use mn_outside::NoMemory;
use std::alloc::Global;
use std::marker::Model;

/// The frames of one thread: their words from address 0x4000_0000 on, and where each frame begins, in rising
/// order. A frame goes by its level, from 0 for the first; the last is the current one. Contracts see the
/// words and, by level, the index at which each frame begins.
#[derive(Drop)]
pub struct Stack {
    words: Vec<u64>,
    bases: Vec<u32>,
}

impl Model for Stack {
    ghost use Rattle.rgctx_words.specs.Stacks.{StackWords, IsStack};

    ghost Value = { StackWords };

    ghost view = { λ s. record { words = s.words.items; bases = s.bases.items } };

    ghost invariant = { λ s. IsStack (record { words = s.words.items; bases = s.bases.items }) };
}

impl Stack {
    /// A stack without frames.
    pub fn new(alloc: Global) -> Result<Stack, NoMemory>
        ensures { result ≡ Ok no_frames }
    {
        Ok(Stack {
            words: Vec::new(alloc),
            bases: Vec::new(alloc),
        })
    }

    /// How many frames there are.
    pub fn depth(&self) -> u32
        ensures count { result ≡ length self.now.bases }
        ensures shape { IsStack self.now }
    {
        self.bases.len() as u32
    }

    /// How many words the frames have together: the next frame begins at this index.
    pub fn end(&self) -> u32
        ensures count { result ≡ length self.now.words }
        ensures shape { IsStack self.now }
    {
        self.words.len() as u32
    }

    /// The index of the first word of the frame of a level.
    pub fn base(&self, level: u32) -> u32
        requires { level < length self.now.bases }
        ensures { result ≡ base_of self.now level }
    {
        self.bases[level as usize]
    }

    /// A frame word, by its index from 0.
    pub fn word(&self, index: u32) -> u64
        requires { index < length self.now.words }
        ensures { result ≡ mem_of self.now index }
    {
        self.words[index as usize]
    }

    /// Writes a frame word.
    pub fn put(&mut self, index: u32, word: u64)
        requires { index < length self.old.words }
        ensures words { self.new ≡ with_word self.old index word }
        ensures memory { mem_of self.new ≡ put index word (mem_of self.old) }
    {
        self.words[index as usize] = word;
    }

    /// The address of the current frame, 0 where there is none.
    pub fn current_address(&self) -> u64
        ensures { result ≡ current_address self.now }
    {
        match self.bases.len() {
            0 => 0,
            depth => frame_address(self.bases[depth - 1]),
        }
    }

    /// The index of the frame word that begins at this address; None where none does.
    #[tactic(auto, unfolding(crate::specs::Frames::frames_at))]
    pub fn index_at(&self, address: u64) -> Option<u32>
        ensures { result ≡ frame_index (length self.now.words) address }
    {
        match unit_at(0x4000_0000, 8, self.words.len() as u64, address) {
            Some(index) => Some(index as u32),
            None => None,
        }
    }

    /// The level of the frame that begins at this address; None where no frame does.
    pub fn level_at(&self, address: u64) -> Option<u32>
        ensures { IsLevelAt self.now address result }
    {
        let mut level = self.bases.len();
        while level > 0 {
            level -= 1;
            if frame_address(self.bases[level]) == address {
                return Some(level as u32);
            }
        }
        None
    }

    /// Puts a new frame on top: its header, whose caller is the current frame, then zeros. Want of memory
    /// leaves the stack as it was.
    pub fn enter(&mut self, new: &NewFrame) -> Result<(), NoMemory>
        requires depth { length self.old.bases < most_frames }
        requires low { header_count ≤ new.now.words }
        requires high { new.now.words ≤ most_words }
        ensures ok { OnOk result (self.new ≡ entered self.old new.now) }
        ensures memory { OnOk result (mem_of self.new ≡ beyond (length self.old.words) (header (current_address self.old) new.now) (mem_of self.old)) }
        ensures err { OnErr result (self.new ≡ self.old) }
    {
        let caller = self.current_address();
        let base = self.words.len() as u32;
        if self.bases.reserve(1).is_err() {
            return Err(NoMemory);
        }
        append_frame(&mut self.words, caller, new)?;
        self.bases.push_reserved(base);
        Ok(())
    }

    /// Drops all frames above a level.
    pub fn leave_to(&mut self, level: u32)
        requires { level < length self.old.bases }
        ensures frames { self.new ≡ left_to self.old level }
        ensures memory { mem_of self.new ≡ beyond (end_of self.old level) (λ i. 0) (mem_of self.old) }
    {
        let kept = level as usize + 1;
        if kept < self.bases.len() {
            let end = self.bases[kept] as usize;
            self.words.truncate(end);
            self.bases.truncate(kept);
        }
    }
}

// Appends the words of a new frame, or nothing.
fn append_frame(words: &mut Vec<u64>, caller: u64, new: &NewFrame) -> Result<(), NoMemory>
    requires { header_count ≤ new.now.words }
    ensures ok { OnOk result (words.new.items ≡ words.old.items ++ (header_words caller new.now ++ replicate (new.now.words - header_count) 0)) }
    ensures err { OnErr result (words.new.items ≡ words.old.items) }
{
    let base = words.len();
    let header = [
        caller,
        new.back,
        u64::from(new.node),
        new.target,
        0,
        u64::from(new.words),
        0,
        0,
    ];
    if words.extend_from_slice(&header).is_err() {
        return Err(NoMemory);
    }
    if words.resize(base + new.words as usize, 0).is_err() {
        words.truncate(base);
        return Err(NoMemory);
    }
    Ok(())
}
