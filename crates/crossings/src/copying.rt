// Copies of words within the frames: from lower frames to the top one.
ghost use Rattle.std.specs.Prelude.{◌≡◌, ◌+◌, ◌*◌, ◌<◌, ◌≤◌, length, take};
ghost use Rattle.rgctx_words.specs.Frames.{header_count, place_words, most_words, most_frames};
ghost use Rattle.rgctx_words.specs.Stacks.{mem_of};
ghost use Rattle.crossings.specs.Calls.{AreListed, AreWidths, most_places};
ghost use Rattle.crossings.specs.Copies.{copied, with_arguments};

use crate::lying::index_at;
use rgctx_words::{Stack, place_offset};

// Copies so many words from an index to another above them.
fn copy_words(stack: &mut Stack, from: u32, to: u32, count: u32)
    requires apart { 0 < count → from + count ≤ to }
    requires room { to + count ≤ length stack.old.words }
    requires within { length stack.old.words ≤ most_words * most_frames }
    ensures size { length stack.new.words ≡ length stack.old.words }
    ensures bases { stack.new.bases ≡ stack.old.bases }
    ensures memory { mem_of stack.new ≡ copied to count (λ j. mem_of stack.old (from + j)) (mem_of stack.old) }
{
    for k in 0..count {
        let word = stack.word(from + k);
        stack.put(to + k, word);
    }
}

/// Copies each argument to its place in the frame that begins at a word and is the last.
pub(crate) fn copy_arguments(stack: &mut Stack, base: u32, list: u64, widths: &[u32])
    requires widths { AreWidths widths.now most_places }
    requires room { base + (header_count + place_words * length widths.now) ≤ length stack.old.words }
    requires within { length stack.old.words ≤ most_words * most_frames }
    requires listed { AreListed (take base stack.old.words) list widths.now }
    ensures size { length stack.new.words ≡ length stack.old.words }
    ensures bases { stack.new.bases ≡ stack.old.bases }
    ensures memory { mem_of stack.new ≡ with_arguments base (take base stack.old.words) list widths.now (length widths.now) (mem_of stack.old) }
{
    let count = widths.len() as u32;
    let first = index_at(stack, list);
    for number in 0..count {
        let address = stack.word(first + number);
        let from = index_at(stack, address);
        copy_words(
            stack,
            from,
            base + place_offset(number),
            widths[number as usize],
        );
    }
}
