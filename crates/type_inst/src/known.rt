// Types as the keys of a set, and lists of types in which each is found by its hash.
ghost use Rattle.std.specs.Prelude.{◌≡◌, [], Some, IfOk, OnOk, not, slice_get};
ghost use Rattle.std.specs.Option.{option_copied};
ghost use Rattle.std.specs.Cmp.{decided, on_equiv, on_per, partial_equiv_from_equiv};
ghost use Rattle.std.specs.Hash.{on_Alike, same_Alike};
ghost use Rattle.type_tree.specs.Same.{is_same};
ghost use Rattle.type_tree.proofs.SameLemmas.{is_same-Decides};
ghost use Rattle.il_model.specs.Trees.{is_among, with_new};
ghost use Rattle.type_inst.specs.Fed.{tree_writes};
ghost use Rattle.type_inst.specs.Opening.{Extends};

use crate::equality::is_same;
use crate::hashing::feed_tree;
use crate::steps::put;
use indexmap::IndexSet;
use mn_outside::NoMemory;
use sqlite_items::Items;
use std::alloc::Global;
use std::hash::{Hash, Hasher};
use std::marker::Model;
use type_tree::TExpr;

/// A type that is found again by its hash.
#[derive(Drop)]
pub(crate) struct Known {
    pub(crate) kind: TExpr,
}

impl PartialEq for Known {
    ghost eq = { λ a b. is_same a.kind b.kind };

    ghost laws = { on_per (λ k. k.kind) (partial_equiv_from_equiv (decided is_same is_same-Decides)) };

    fn eq(&self, other: &Self) -> bool {
        is_same(&self.kind, &other.kind)
    }
}

impl Eq for Known {
    ghost laws = { on_equiv (λ k. k.kind) (decided is_same is_same-Decides) };
}

impl Hash for Known {
    ghost hash_input = { λ k. tree_writes k.kind };

    ghost respects_eq = { (on_Alike (λ k. k.kind) (same_Alike tree_writes is_same-Decides)).fed };

    fn hash<H: Hasher>(&self, state: &mut H) {
        feed_tree(&self.kind, state);
    }
}

/// Types in order, each once. Contracts see the list.
#[derive(Drop)]
pub struct Kinds {
    known: IndexSet<Known>,
}

impl Model for Kinds {
    ghost use Rattle.std.specs.Prelude.{List, map};
    ghost use Rattle.std.specs.Coded.{coded_list};
    ghost use Rattle.type_tree.specs.declared.tree.TExpr.{TExpr};
    ghost use Rattle.type_tree.specs.contracts.tree.TExpr.{the_row};

    ghost Value = { List TExpr };

    ghost coded = { coded_list the_row.coded };

    ghost view = { λ k. map (λ known. known.kind) k.known.keys };
}

impl Kinds {
    /// No types.
    pub fn new(alloc: Global) -> Kinds
        ensures { result ≡ [] }
    {
        Kinds {
            known: IndexSet::new(alloc),
        }
    }

    /// The type at a place.
    pub fn get(&self, place: usize) -> Option<&TExpr>
        ensures { option_copied result ≡ slice_get self.now place }
    {
        match self.known.get_index(place) {
            Some(known) => Some(&known.kind),
            None => None,
        }
    }

    /// The types as a list.
    pub fn into_items(self, alloc: Global) -> Result<Items<TExpr>, NoMemory>
        ensures { IfOk result (λ kinds. kinds ≡ self) }
    {
        let mut kinds = Items::new(alloc);
        for known in self.known {
            put(&mut kinds, known.kind)?;
        }
        Ok(kinds)
    }
}

/// The place of a type in the list. One that isn't in it is put at its end.
pub fn place_of(alloc: Global, all: &mut Kinds, kind: &TExpr) -> Result<usize, NoMemory>
    ensures list { OnOk result (all.new ≡ with_new all.old kind.now) }
    ensures kept { OnOk result (Extends all.old all.new) }
    ensures place { IfOk result (λ place. slice_get all.new place ≡ Some kind.now) }
{
    let kind = kind.copy(alloc)?;
    match all.known.insert_full(Known { kind }) {
        Ok((place, _)) => Ok(place),
        Err(_) => Err(NoMemory),
    }
}

/// Puts a type at the end of the list, unless it is in it; whether it was put there.
pub(crate) fn add(alloc: Global, all: &mut Kinds, kind: &TExpr) -> Result<bool, NoMemory>
    ensures list { OnOk result (all.new ≡ with_new all.old kind.now) }
    ensures fresh { IfOk result (λ fresh. fresh ≡ not (is_among all.old kind.now)) }
{
    let kind = kind.copy(alloc)?;
    match all.known.insert_full(Known { kind }) {
        Ok((_, fresh)) => Ok(fresh),
        Err(_) => Err(NoMemory),
    }
}
