// Entries as the keys of a set.
ghost use Rattle.std.specs.Prelude.{◌≡◌};
ghost use Rattle.std.specs.Cmp.{decided, on_equiv, on_per, partial_equiv_from_equiv};
ghost use Rattle.std.specs.Hash.{on_Alike, same_Alike};
ghost use Rattle.std.specs.Cmp.Lexicographic.{pointwise};
ghost use Rattle.type_tree.specs.Same.{is_same};
ghost use Rattle.il_model.specs.Entries.{same_entry};
ghost use Rattle.rgctx_template.specs.Fed.{entry_writes};
ghost use Rattle.rgctx_template.specs.SameEntry.{same_entry-Decides};

use crate::hashing::feed_entry;
use il_model::Entry;
use std::hash::{Hash, Hasher};
use type_tree::{TExpr, same_all};

fn same_type(kind: &TExpr, other: &TExpr) -> bool
    ensures { result ≡ is_same kind.now other.now }
{
    kind.same(other)
}

fn same_types(kinds: &[TExpr], others: &[TExpr]) -> bool
    ensures { result ≡ pointwise is_same kinds.now others.now }
{
    same_all(kinds, others)
}

fn same_entry(first: &Entry, second: &Entry) -> bool
    ensures { result ≡ same_entry first.now second.now }
{
    match (first, second) {
        (Entry::Kind(kind), Entry::Kind(other)) => same_type(kind, other),
        (Entry::Method(number, class, args), Entry::Method(other, owner, others)) => {
            *number == *other
                && same_type(class, owner)
                && same_types(args.as_slice(), others.as_slice())
        }
        (Entry::Size(kind), Entry::Size(other)) => same_type(kind, other),
        (Entry::Extent(kind), Entry::Extent(other)) => same_type(kind, other),
        (Entry::Offset(kind, place), Entry::Offset(other, number)) => {
            same_type(kind, other) && *place == *number
        }
        (Entry::Slot(number), Entry::Slot(other)) => *number == *other,
        (
            Entry::Kind(_)
            | Entry::Method(_, _, _)
            | Entry::Size(_)
            | Entry::Extent(_)
            | Entry::Offset(_, _)
            | Entry::Slot(_),
            _,
        ) => false,
    }
}

/// An entry that is found again by its hash.
#[derive(Drop)]
pub struct Known {
    pub entry: Entry,
}

impl PartialEq for Known {
    ghost eq = { λ a b. same_entry a.entry b.entry };

    ghost laws = { on_per (λ k. k.entry) (partial_equiv_from_equiv (decided same_entry same_entry-Decides)) };

    fn eq(&self, other: &Self) -> bool {
        same_entry(&self.entry, &other.entry)
    }
}

impl Eq for Known {
    ghost laws = { on_equiv (λ k. k.entry) (decided same_entry same_entry-Decides) };
}

impl Hash for Known {
    ghost hash_input = { λ k. entry_writes k.entry };

    ghost respects_eq = { (on_Alike (λ k. k.entry) (same_Alike entry_writes same_entry-Decides)).fed };

    fn hash<H: Hasher>(&self, state: &mut H) {
        feed_entry(&self.entry, state);
    }
}
