// One generic function on words that are alone, and on words that are not.
ghost use Rattle.std.specs.Prelude.{◌≡◌, ◌≢◌, ℕ, ◌<◌, IfOk, vec_len, slice_index};
ghost use Rattle.rgctx_words.specs.Regions.{word_count};
ghost use Rattle.rgctx_words.specs.Held.{Grows};

use crate::tests::first::First;
use crate::tests::forgetful::Forgetful;
use crate::{PlainWords, Words};
use mn_outside::NoMemory;
use std::alloc::Global;
use std::test::Fail;

// The word that stands at an index once this one was claimed there.
fn settled<W: Words<First>>(words: &mut W, i: u32, new: u64) -> u64
    requires index { i < word_count }
    requires new { new ≢ 0 }
    requires met { (cat : ℕ) × W.meets cat words.old }
    ensures some { result ≢ 0 }
    ensures held { W.held words.new i ≡ result }
    ensures grows { Grows (W.held words.old) (W.held words.new) }
    ensures met { (cat : ℕ) → W.meets cat words.old → W.meets cat words.new }
{
    let old = words.claim(i, new);
    if old == 0 { new } else { old }
}

// The first word.
fn first<W: Words<First>>(words: &mut W) -> u64
    requires met { (cat : ℕ) × W.meets cat words.old }
    ensures some { result ≢ 0 }
    ensures met { (cat : ℕ) → W.meets cat words.old → W.meets cat words.new }
{
    words.load(0)
}

// Claims at a free index and at one in use, and the first word, in this order.
fn answers<W: Words<First>>(words: &mut W) -> [u64; 4]
    requires met { (cat : ℕ) × W.meets cat words.old }
{
    let fresh = settled(words, 81_919, 5);
    let again = settled(words, 81_919, 6);
    let taken = settled(words, 0, 8);
    [fresh, again, taken, first(words)]
}

// Words of which the first is 7, and the others are 0.
fn start(alloc: Global) -> Result<Vec<u64>, NoMemory>
    ensures count { IfOk result (λ words. vec_len words ≡ word_count) }
    ensures first { IfOk result (λ words. slice_index words.items 0 ≡ 7) }
{
    let mut words = PlainWords::new(alloc)?.into_words();
    words[0] = 7;
    Ok(words)
}

// The answers of words that are alone.
fn plain_answers(words: Vec<u64>) -> [u64; 4]
    requires count { vec_len words ≡ word_count }
    requires first { slice_index words.items 0 ≢ 0 }
{
    let mut plain = PlainWords::of(words);
    answers(&mut plain)
}

// The answers of words that are not.
fn forgetful_answers(words: Vec<u64>, zeros: PlainWords) -> [u64; 4]
    requires count { vec_len words ≡ word_count }
    requires first { slice_index words.items 0 ≢ 0 }
    requires zero { (i : ℕ) → slice_index zeros i ≡ 0 }
{
    let mut forgetful = Forgetful::of(words, zeros.into_words());
    answers(&mut forgetful)
}

#[test]
fn a_word_goes_from_0_to_one_value(rt: HostRuntime) -> Result<(), Fail> {
    let alloc = rt.alloc();
    assert_eq!(rt; plain_answers(start(alloc)?), [5, 5, 7, 7]);
    assert_eq!(rt;
        forgetful_answers(start(alloc)?, PlainWords::new(alloc)?),
        [5, 5, 7, 7]
    );
    Ok(())
}
