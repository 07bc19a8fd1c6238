// The static words.
ghost use Rattle.std.specs.Prelude.{◌≡◌, ℕ, ◌+◌, ◌<◌, ◌≤◌, OnOk, OnErr, IsOk};
ghost use Rattle.std.specs.HashMap.{spare};
ghost use Rattle.store_object.specs.Store.{Store, opening, with_word};
ghost use Rattle.store_object.specs.declared.place.Place.TheVariants as at;
ghost use Rattle.store_object.specs.Held.{HoldsStatics, fixed_in};

use std::alloc::{AllocError, Global};
use std::collections::HashMap;

/// The place of a static word.
#[derive(Clone, Copy, PartialEq, Eq, Hash)]
pub(crate) struct StaticPlace {
    pub kind: u32,
    pub index: u32,
}

/// The static words that were written. Every other one is 0.
#[derive(Drop)]
pub(crate) struct Statics {
    pub words: HashMap<StaticPlace, u64>,
}

impl Statics {
    pub(crate) fn new(alloc: Global) -> Statics
        ensures { HoldsStatics result opening }
    {
        Statics {
            words: HashMap::new(alloc),
        }
    }

    /// Makes room for one word.
    pub(crate) fn reserve(&mut self) -> Result<(), AllocError>
        ensures same { (kind index : ℕ) → fixed_in self.new kind index ≡ fixed_in self.old kind index }
        ensures ok { OnOk result (0 < spare self.new.words) }
        ensures err { OnErr result (spare self.old.words ≡ 0) }
        ensures spare { spare self.old.words ≤ spare self.new.words }
    {
        self.words.reserve(1)
    }

    pub(crate) fn load(&self, kind: u32, index: u32) -> u64
        ghost store: { Store }
        requires { HoldsStatics self.now store }
        ensures { result ≡ store.fixed kind index }
    {
        let place = StaticPlace { kind, index };
        self.words.get(&place).copied().unwrap_or(0)
    }

    pub(crate) fn save(&mut self, kind: u32, index: u32, word: u64) -> Result<(), AllocError>
        ghost store: { Store }
        requires { HoldsStatics self.old store }
        ensures ok { OnOk result (HoldsStatics self.new (with_word store (at.Fixed kind index) word)) }
        ensures err { OnErr result (HoldsStatics self.new store) }
        ensures succeeds { 0 < spare self.old.words → IsOk result }
        ensures spare { spare self.old.words ≤ spare self.new.words + 1 }
    {
        self.words.insert(StaticPlace { kind, index }, word)?;
        Ok(())
    }
}
