// Names that have to differ.
ghost use Rattle.std.specs.Prelude.{◌≡◌, ◌∷◌, [], OnOk, IfErr};
ghost use Rattle.il_model.specs.Spellings.{plain_name};
ghost use Rattle.il_model.specs.Lexemes.{is_among};
ghost use Rattle.il_parse.specs.declared.fault.ReadError.TheVariants as error;
ghost use Rattle.il_parse.specs.Looking.{Looks, once};
ghost use Rattle.il_parse.specs.Scopes.{met_with};

use crate::calls::plain_name;
use crate::fault::ReadError;
use crate::looking::once;
use il_model::WrittenName;
use indexmap::IndexSet;
use std::alloc::Global;
use std::marker::Model;

/// Names that were met, found by their hash. Contracts see the list, the last first.
#[derive(Drop)]
pub(crate) struct MetNames {
    known: IndexSet<Vec<u8>>,
}

impl Model for MetNames {
    ghost use Rattle.std.specs.Prelude.{List, ℕ, map, reverse};

    ghost Value = { List (List ℕ) };

    ghost view = { λ m. reverse (map (λ k. k.items) m.known.keys) };
}

impl MetNames {
    /// No names.
    pub(crate) fn new(alloc: Global) -> MetNames
        ensures { result ≡ [] }
    {
        MetNames {
            known: IndexSet::new(alloc),
        }
    }

    /// Adds a name unless it was met before.
    pub(crate) fn add(&mut self, alloc: Global, name: &[u8]) -> Result<(), ReadError>
        ensures ok { OnOk result (self.new ≡ met_with self.old name.now) }
        ensures memory { IfErr result (λ e. e ≡ error.Memory) }
    {
        let bytes = Vec::from_slice(alloc, name)?;
        self.known.insert(bytes)?;
        Ok(())
    }

    // Adds a name that stands at this place, or refuses it where it was met before.
    fn meet_at(&mut self, alloc: Global, name: &[u8], at: u32) -> Result<(), ReadError>
        ensures looks { Looks (once (is_among self.old name.now) at) result }
        ensures adds { OnOk result (self.new ≡ name.now ∷ self.old) }
    {
        let bytes = Vec::from_slice(alloc, name)?;
        let is_new = self.known.insert(bytes)?;
        once(!is_new, at)
    }

    /// Adds a name, or refuses it where it was met before.
    pub(crate) fn meet(&mut self, alloc: Global, name: &WrittenName) -> Result<(), ReadError>
        ensures looks { Looks (once (is_among self.old name.now.name) name.now.at) result }
        ensures adds { OnOk result (self.new ≡ name.now.name ∷ self.old) }
    {
        self.meet_at(alloc, name.name.text().as_bytes(), name.at)
    }

    /// Adds the plain spelling of a name, or refuses it where it was met before.
    pub(crate) fn meet_plain(&mut self, alloc: Global, name: &WrittenName) -> Result<(), ReadError>
        ensures looks { Looks (once (is_among self.old (plain_name name.now.name)) name.now.at) result }
        ensures adds { OnOk result (self.new ≡ plain_name name.now.name ∷ self.old) }
    {
        self.meet_at(alloc, plain_name(name.name.text().as_bytes()), name.at)
    }
}
