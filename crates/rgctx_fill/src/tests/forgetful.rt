// Words that are not alone: they hold only what was answered or put.
ghost use Rattle.std.specs.Prelude.{◌≡◌, ℕ, List, slice_index, vec_len, false, None};
ghost use Rattle.rgctx_words.specs.Regions.{word_count};
ghost use Rattle.rgctx_words.specs.Held.{AreFit, Within};

use rgctx_words::{Words, WordsRule};
use std::marker::Model;

#[derive(Drop)]
pub struct Forgetful {
    words: Vec<u64>,
    seen: Vec<u64>,
}

impl Model for Forgetful {
    ghost Value = { List ℕ × List ℕ };

    ghost view = { λ f. (f.words.items, f.seen.items) };

    ghost invariant = { λ f. (vec_len f.words ≡ word_count) × (vec_len f.seen ≡ word_count) × Within (λ j. slice_index f.seen.items j) f.words.items };
}

impl Forgetful {
    // These words, of which none is held.
    pub fn of(words: Vec<u64>, zeros: Vec<u64>) -> Forgetful
        requires words { vec_len words ≡ word_count }
        requires zeros { vec_len zeros ≡ word_count }
        requires zero { (i : ℕ) → slice_index zeros.items i ≡ 0 }
        ensures words { result.0 ≡ words.items }
        ensures seen { (i : ℕ) → slice_index result.1 i ≡ 0 }
    {
        Forgetful { words, seen: zeros }
    }
}

impl<R: WordsRule> Words<R> for Forgetful {
    ghost held = { λ s i. slice_index s.1 i };

    ghost alone = { λ _. false };

    ghost meets = { λ cat s. AreFit (R.fits cat) s.0 × Within (λ j. slice_index s.1 j) s.0 };

    ghost claims = { λ _. None };

    ghost Place = { Unit {0} };

    ghost place = { λ _. tt };

    fn load(&mut self, i: u32) -> u64 {
        let word = self.words[i as usize];
        if word != 0 {
            self.seen[i as usize] = word;
        }
        word
    }

    fn claim(&mut self, i: u32, new: u64) -> u64 {
        let old = self.words[i as usize];
        if old == 0 {
            self.words[i as usize] = new;
            self.seen[i as usize] = new;
        } else {
            self.seen[i as usize] = old;
        }
        old
    }

    ghost sound = { λ cat s met. record { words = s.0; fit = met.0; within = met.1 } };
}
