// The context words in a vector.
ghost use Rattle.std.specs.Prelude.{◌≡◌, ℕ, List, length, slice_index, IfOk, vec_len, true, None, refl};
ghost use Rattle.rgctx_words.specs.Regions.{word_count};
ghost use Rattle.rgctx_words.specs.Held.{AreFit};

use crate::regions::WORDS;
use crate::rule::{Words, WordsRule};
use mn_outside::NoMemory;
use std::alloc::Global;
use std::marker::Model;

/// The 81,920 context words, which nobody else writes. Contracts see them as a list.
#[derive(Drop)]
pub struct PlainWords {
    words: Vec<u64>,
}

impl Model for PlainWords {
    ghost Value = { List ℕ };

    ghost view = { λ p. p.words.items };

    ghost invariant = { λ p. vec_len p.words ≡ word_count };
}

impl PlainWords {
    /// Words that are all 0.
    pub fn new(alloc: Global) -> Result<PlainWords, NoMemory>
        ensures count { IfOk result (λ words. length words ≡ word_count) }
        ensures zero { IfOk result (λ words. (i : ℕ) → slice_index words i ≡ 0) }
    {
        match zeros(alloc, WORDS as usize) {
            Ok(words) => Ok(PlainWords::of(words)),
            Err(NoMemory) => Err(NoMemory),
        }
    }

    /// These words, of which there are 81,920. No memory is taken.
    pub fn of(words: Vec<u64>) -> PlainWords
        requires { vec_len words ≡ word_count }
        ensures { result ≡ words.items }
    {
        PlainWords { words }
    }

    /// The words that it holds.
    pub fn words(&self) -> &[u64]
        ensures words { result.now ≡ self.now }
        ensures count { length result.now ≡ word_count }
    {
        self.words.as_slice()
    }

    /// The words that it holds. No memory is taken.
    pub fn into_words(self) -> Vec<u64>
        ensures words { result.items ≡ self }
        ensures count { vec_len result ≡ word_count }
    {
        self.words
    }
}

impl<R: WordsRule> Words<R> for PlainWords {
    ghost held = { λ s i. slice_index s i };

    ghost alone = { λ _. true };

    ghost meets = { λ cat s. AreFit (R.fits cat) s };

    ghost claims = { λ _. None };

    ghost Place = { Unit {0} };

    ghost place = { λ _. tt };

    fn load(&mut self, i: u32) -> u64 {
        self.words[i as usize]
    }

    fn claim(&mut self, i: u32, new: u64) -> u64 {
        let old = self.words[i as usize];
        if old == 0 {
            self.words[i as usize] = new;
        }
        old
    }

    ghost sound = { λ cat s met. record { words = s; fit = met; within = λ j h. refl } };
}

// So many zeros.
fn zeros(alloc: Global, count: usize) -> Result<Vec<u64>, NoMemory>
    ensures count { IfOk result (λ words. vec_len words ≡ count) }
    ensures zero { IfOk result (λ words. (i : ℕ) → slice_index words.items i ≡ 0) }
{
    match Vec::from_elem(alloc, 0, count) {
        Ok(words) => Ok(words),
        Err(_) => Err(NoMemory),
    }
}
