// The context words of a run, with the claims that found 0.
ghost use Rattle.std.specs.Prelude.{◌≡◌, ◌≤◌, ◌^◌, ℕ, List, [], ◌++◌, ◌∷◌, length, slice_index, slice_set, vec_len, vec_capacity, true, false, Some, IfOk, refl};
ghost use Rattle.rgctx_words.specs.Regions.{word_count};
ghost use Rattle.rgctx_words.specs.Held.{AreFit};
ghost use Rattle.thread_core.specs.Listed.{IsListed, claims_of, unclaimed, is_claimed, MayPut, with_put};

use mn_outside::NoMemory;
use rgctx_words::{PlainWords, WORDS, Words, WordsRule};
use std::alloc::Global;
use std::marker::Model;

/// The 81,920 context words, which nobody else writes, and the indexes of the claims that found 0, in order. It has
/// room for all of them from the beginning, so no claim takes memory.
#[derive(Drop)]
pub(crate) struct ListedWords {
    words: Vec<u64>,
    claimed: Vec<u32>,
}

impl Model for ListedWords {
    ghost use Rattle.std.specs.Prelude.{◌≤◌, vec_capacity};
    ghost use Rattle.rgctx_words.specs.Regions.{word_count};
    ghost use Rattle.thread_core.specs.Listed.{Listed, IsListed};

    ghost Value = { Listed };

    ghost view = { λ l. record { words = l.words.items; claimed = l.claimed.items } };

    ghost invariant = { λ l. IsListed (record { words = l.words.items; claimed = l.claimed.items }) × (word_count ≤ vec_capacity l.claimed) };
}

impl ListedWords {
    /// These words, of which none is claimed.
    pub fn of(alloc: Global, words: PlainWords) -> Result<ListedWords, NoMemory>
        ensures words { IfOk result (λ l. l.words ≡ words) }
        ensures claimed { IfOk result (λ l. l.claimed ≡ []) }
        ensures listed { IfOk result (λ l. IsListed l) }
    {
        let Ok(claimed) = Vec::with_capacity(alloc, WORDS as usize) else {
            return Err(NoMemory);
        };
        Ok(ListedWords {
            words: words.into_words(),
            claimed,
        })
    }

    /// The words.
    pub fn words(&self) -> &[u64]
        ensures words { result.now ≡ self.now.words }
        ensures count { length result.now ≡ word_count }
    {
        self.words.as_slice()
    }

    /// The indexes of the claims that found 0, in order.
    pub fn claimed(&self) -> &[u32]
        ensures claimed { result.now ≡ self.now.claimed }
    {
        self.claimed.as_slice()
    }

    /// The words.
    pub fn into_words(self) -> Vec<u64>
        ensures words { result.items ≡ self.words }
        ensures count { vec_len result ≡ word_count }
    {
        self.words
    }

    // What is always so.
    pub(crate) fn listed(&self)
        ensures { IsListed self.now }
    {
        let _ = &self.words;
    }

    // Puts a word where 0 stands.
    fn put(&mut self, i: u32, new: u64)
        requires { MayPut self.old i new }
        ensures { self.new ≡ with_put self.old i new }
    {
        self.words[i as usize] = new;
        self.claimed.push_reserved(i);
    }
}

impl<R: WordsRule> Words<R> for ListedWords {
    ghost held = { λ l i. slice_index l.words i };

    ghost alone = { λ _. true };

    ghost meets = { λ cat l. AreFit (R.fits cat) l.words };

    ghost claims = { λ l. Some (claims_of l) };

    ghost Place = { ℕ → ℕ };

    ghost place = { unclaimed };

    fn load(&mut self, i: u32) -> u64 {
        self.words[i as usize]
    }

    fn claim(&mut self, i: u32, new: u64) -> u64 {
        let old = self.words[i as usize];
        if old == 0 {
            self.put(i, new);
        }
        old
    }

    ghost sound = { λ cat l met. record { words = l.words; fit = met; within = λ j h. refl } };
}
