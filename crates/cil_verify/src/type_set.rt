// Types in order, each once.
ghost use Rattle.std.specs.Prelude.{◌≡◌, [], OnOk, length, slice_get};
ghost use Rattle.std.specs.List.{list_any};
ghost use Rattle.std.specs.Option.{option_copied};
ghost use Rattle.std.specs.Cmp.{decided, on_equiv, on_per, partial_equiv_from_equiv};
ghost use Rattle.std.specs.Hash.{on_Alike, same_Alike};
ghost use Rattle.type_tree.specs.Same.{is_same};
ghost use Rattle.type_tree.proofs.SameLemmas.{is_same-Decides};
ghost use Rattle.il_model.specs.Trees.{is_among, with_new};
ghost use Rattle.rgctx_template.specs.Fed.{tree_writes};
ghost use Rattle.cil_verify.specs.TypeSets.{listed_in};

use crate::equality::is_same;
use crate::hashing::feed_tree;
use indexmap::IndexSet;
use mn_outside::NoMemory;
use std::alloc::Global;
use std::hash::{Hash, Hasher};
use type_tree::TExpr;

/// A type that is found again by its hash.
#[derive(Drop)]
pub(crate) struct TypeKey {
    pub(crate) kind: TExpr,
}

impl PartialEq for TypeKey {
    ghost eq = { λ a b. is_same a.kind b.kind };

    ghost laws = { on_per (λ k. k.kind) (partial_equiv_from_equiv (decided is_same is_same-Decides)) };

    fn eq(&self, other: &Self) -> bool {
        is_same(&self.kind, &other.kind)
    }
}

impl Eq for TypeKey {
    ghost laws = { on_equiv (λ k. k.kind) (decided is_same is_same-Decides) };
}

impl Hash for TypeKey {
    ghost hash_input = { λ k. tree_writes k.kind };

    ghost respects_eq = { (on_Alike (λ k. k.kind) (same_Alike tree_writes is_same-Decides)).fed };

    fn hash<H: Hasher>(&self, state: &mut H) {
        feed_tree(&self.kind, state);
    }
}

/// Types in the order in which they were added, each once.
#[derive(Drop)]
pub(crate) struct TypeSet {
    pub(crate) known: IndexSet<TypeKey>,
}

impl TypeSet {
    pub(crate) fn new(alloc: Global) -> TypeSet
        ensures { listed_in result ≡ [] }
    {
        TypeSet {
            known: IndexSet::new(alloc),
        }
    }

    pub(crate) fn len(&self) -> usize
        ensures { result ≡ length (listed_in self.now) }
    {
        self.known.as_slice().len()
    }

    /// The type at this place, from 0.
    pub(crate) fn get(&self, place: usize) -> Option<&TExpr>
        ensures { option_copied result ≡ slice_get (listed_in self.now) place }
    {
        match self.known.as_slice().get(place) {
            Some(key) => Some(&key.kind),
            None => None,
        }
    }

    /// Puts a type at the end, unless it is there already.
    pub(crate) fn add(&mut self, kind: TExpr) -> Result<(), NoMemory>
        ensures { OnOk result (listed_in self.new ≡ with_new (listed_in self.old) kind) }
    {
        match self.known.insert(TypeKey { kind }) {
            Ok(_) => Ok(()),
            Err(_) => Err(NoMemory),
        }
    }

    /// Whether the type is one of these.
    pub(crate) fn has(&self, kind: &TExpr) -> bool
        ensures { result ≡ is_among (listed_in self.now) kind.now }
    {
        for key in self.known.as_slice() {
            if is_same(&key.kind, kind) {
                return true;
            }
        }
        false
    }
}
