// The numbers of types while a program runs: the places in a list in which each type stands once.
ghost use Rattle.std.specs.Prelude.{◌≡◌, ◌≤◌, ◌^◌, [], List, Some, length, IfOk, OnOk, slice_get};
ghost use Rattle.std.specs.Option.{option_copied};
ghost use Rattle.type_tree.specs.declared.tree.TExpr.{TExpr as TheType};
ghost use Rattle.type_inst.specs.Opening.{Extends};
ghost use Rattle.unshared.specs.Growing.{Grown};
ghost use Rattle.unshared.specs.Listed.{IsOnce, number_in};

use mn_outside::NoMemory;
use sqlite_items::Items;
use std::alloc::Global;
use type_inst::{Kinds, place_of};
use type_tree::{TExpr, Tree};

/// The types that have numbers.
#[derive(Drop)]
pub(crate) struct Trees {
    pub kinds: Kinds,
}

impl Trees {
    pub(crate) fn new(alloc: Global) -> Trees
        ensures { result.kinds ≡ [] }
    {
        Trees {
            kinds: Kinds::new(alloc),
        }
    }

    /// The number of a type, which gets the next one where it has none.
    pub(crate) fn number_of(&mut self, alloc: Global, kind: &TExpr) -> Result<u32, NoMemory>
        requires { IsOnce self.old.kinds }
        ensures grows { OnOk result (Grown self.old.kinds self.new.kinds) }
        ensures number { IfOk result (λ number. (later : List TheType) → Extends self.new.kinds later → number_in later kind.now ≡ Some number) }
    {
        let place = place_of(alloc, &mut self.kinds, kind)?;
        match u32::try_from(place) {
            Ok(number) => Ok(number),
            Err(_) => Err(NoMemory),
        }
    }

    /// The type with a number.
    pub(crate) fn get(&self, number: u64) -> Option<&TExpr>
        ensures { option_copied result ≡ slice_get self.now.kinds number }
    {
        self.kinds.get(number as usize)
    }

    /// The types as a list, of which there are 2^32 at most.
    pub(crate) fn into_items(self, alloc: Global) -> Result<Items<Tree>, NoMemory>
        ensures trees { IfOk result (λ trees. trees ≡ self.kinds) }
        ensures few { IfOk result (λ trees. length trees ≤ 2 ^ 32) }
    {
        let Trees { kinds } = self;
        if kinds.get(4294967296).is_some() {
            return Err(NoMemory);
        }
        kinds.into_items(alloc)
    }
}
