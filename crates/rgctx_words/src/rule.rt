// What a rule for the context words says, and what stands behind it.
ghost use Rattle.std.specs.Prelude.{◌≡◌, ◌≢◌, ℕ, ◌<◌, List, length, slice_index, slice_set, Bool, true, Option, ◌^◌};
ghost use Rattle.rgctx_words.specs.Regions.{word_count};
ghost use Rattle.rgctx_words.specs.Held.{Within, Grows, IsSound, with_claim};

/// A rule for the context words, read under a catalogue. It has no calls: only proofs see it. Held words are
/// seen as a function from indexes, which is 0 where nothing is held.
pub trait WordsRule {
    /// What the rule is read under, as plain data.
    type Cat;

    /// Which lists of words fit.
    ghost fits: { Self.Cat → List ℕ → Type 0 };

    /// Which word one who holds given words may claim at which index. It speaks of held words alone.
    ghost allows: { Self.Cat → (ℕ → ℕ) → ℕ → ℕ → Type 0 };

    /// Which indexes always hold a word.
    ghost always: { ℕ → Type 0 };

    /// Which indexes the held words name: wherever words fit and have all that is held, these hold words too.
    ghost names: { Self.Cat → (ℕ → ℕ) → ℕ → Type 0 };

    /// An allowed claim that finds 0 keeps the fit.
    ghost claim_fits: { (cat : Self.Cat) (words : List ℕ) (held : ℕ → ℕ) (i word : ℕ) → length words ≡ word_count → fits cat words → Within held words → i < word_count → word ≢ 0 → word < 2 ^ 64 → slice_index words i ≡ 0 → allows cat held i word → fits cat (slice_set words i word) };

    /// Where the words fit, an index that always holds a word holds one.
    ghost always_there: { (cat : Self.Cat) (words : List ℕ) (i : ℕ) → fits cat words → always i → slice_index words i ≢ 0 };

    /// Where the words fit and have all that is held, what the held words name is there.
    ghost named_there: { (cat : Self.Cat) (words : List ℕ) (held : ℕ → ℕ) (i : ℕ) → length words ≡ word_count → fits cat words → Within held words → names cat held i → slice_index words i ≢ 0 };
}

/// The context words under a rule. A word goes from 0 to one value, for good. No call takes memory.
pub trait Words<R: WordsRule> {
    /// The words other than 0 that are held, and 0 elsewhere.
    ghost held: { Self → ℕ → ℕ };

    /// Whether nobody else writes the words.
    ghost alone: { Self → Bool };

    /// Whether the rule is met under a catalogue.
    ghost meets: { R.Cat → Self → Type 0 };

    /// The claims that found 0, in order, where they are listed.
    ghost claims: { Self → Option (List (ℕ × ℕ)) };

    /// What no call changes: which words these are.
    ghost Place: { Type 0 };

    ghost place: { Self → Place };

    /// The word at an index. 0 says nothing where others write the words.
    fn load(&mut self, i: u32) -> u64
        requires { i < word_count }
        ensures place { place self.new ≡ place self.old }
        ensures alone { alone self.new ≡ alone self.old }
        ensures claims { claims self.new ≡ claims self.old }

        ensures grows { Grows (held self.old) (held self.new) }
        ensures again { held self.old i ≢ 0 → result ≡ held self.old i }
        ensures held { result ≢ 0 → held self.new i ≡ result }

        ensures met { (cat : R.Cat) → meets cat self.old → meets cat self.new }
        ensures always { (cat : R.Cat) → meets cat self.old → R.always i → result ≢ 0 }
        ensures named { (cat : R.Cat) → meets cat self.old → R.names cat (held self.old) i → result ≢ 0 }

        ensures only { alone self.old ≡ true → (result ≡ held self.old i) × ((j : ℕ) → held self.new j ≡ held self.old j) };

    /// Puts a word where 0 stands, and gives the old word: a compare-and-exchange from 0.
    fn claim(&mut self, i: u32, new: u64) -> u64
        requires index { i < word_count }
        requires new { new ≢ 0 }
        requires allowed { (cat : R.Cat) × meets cat self.old × R.allows cat (held self.old) i new }
        ensures place { place self.new ≡ place self.old }
        ensures alone { alone self.new ≡ alone self.old }
        ensures claims { (result ≡ 0 → claims self.new ≡ with_claim (claims self.old) i new) × (result ≢ 0 → claims self.new ≡ claims self.old) }

        ensures grows { Grows (held self.old) (held self.new) }
        ensures again { held self.old i ≢ 0 → result ≡ held self.old i }
        ensures held { result ≢ 0 → held self.new i ≡ result }
        ensures put { result ≡ 0 → held self.new i ≡ new }

        ensures met { (cat : R.Cat) → meets cat self.old → R.allows cat (held self.old) i new → meets cat self.new }
        ensures always { (cat : R.Cat) → meets cat self.old → R.always i → result ≢ 0 }
        ensures named { (cat : R.Cat) → meets cat self.old → R.names cat (held self.old) i → result ≢ 0 }

        ensures only { alone self.old ≡ true → (result ≡ held self.old i) × ((j : ℕ) → j ≢ i → held self.new j ≡ held self.old j) };

    /// Where the rule is met, some list of words fits and has all that is held.
    ghost sound: { (cat : R.Cat) (s : Self) → meets cat s → IsSound (R.fits cat) (held s) };
}
