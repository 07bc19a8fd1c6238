// The methods and keys of the bodies so far, each found by its hash.
ghost use Rattle.std.specs.Prelude.{◌≡◌, [], ◌∷◌, ◌++◌, not, fold, flat_map, IfOk, OnOk};
ghost use Rattle.std.specs.List.{list_any};
ghost use Rattle.std.specs.Cmp.{decided, on_equiv, on_per, partial_equiv_from_equiv};
ghost use Rattle.std.specs.Cmp.Lexicographic.{pointwise};
ghost use Rattle.std.specs.Hash.{on_Alike, same_Alike};
ghost use Rattle.indexmap.specs.IndexSet.{insert_key};
ghost use Rattle.type_tree.specs.Same.{is_same};
ghost use Rattle.rgctx_template.specs.BodyRows.{same_part};
ghost use Rattle.aot_image.specs.ImagePicks.{same_pick, same_pick-Decides, part_writes, pick_writes};

use il_model::KeyPart;
use indexmap::IndexSet;
use mn_outside::NoMemory;
use rgctx_template::feed_tree;
use sqlite_items::Items;
use std::alloc::Global;
use std::hash::{Hash, Hasher};
use type_tree::TExpr;

/// A method and the parts of a key.
#[derive(Drop)]
pub(crate) struct Pick {
    pub(crate) method: u16,
    pub(crate) parts: Items<KeyPart>,
}

fn same_type(kind: &TExpr, other: &TExpr) -> bool
    ensures { result ≡ is_same kind.now other.now }
{
    kind.same(other)
}

fn same_part(part: &KeyPart, other: &KeyPart) -> bool
    ensures { result ≡ same_part part.now other.now }
{
    match (part, other) {
        (KeyPart::Ref, KeyPart::Ref) => true,
        (KeyPart::Any, KeyPart::Any) => true,
        (KeyPart::Exact(kind), KeyPart::Exact(other)) => same_type(kind, other),
        (KeyPart::Ref | KeyPart::Any | KeyPart::Exact(_), _) => false,
    }
}

fn same_parts(parts: &[KeyPart], others: &[KeyPart]) -> bool
    ensures { result ≡ pointwise same_part parts.now others.now }
{
    if parts.len() != others.len() {
        return false;
    }
    for i in 0..parts.len() {
        if !same_part(&parts[i], &others[i]) {
            return false;
        }
    }
    true
}

fn feed_part<H: Hasher>(part: &KeyPart, state: &mut H)
    ensures { state.new ≡ fold H.write state.old (part_writes part.now) }
{
    match part {
        KeyPart::Ref => state.write_u8(0),
        KeyPart::Any => state.write_u8(1),
        KeyPart::Exact(tree) => {
            state.write_u8(2);
            feed_tree(tree, state);
        }
    }
}

fn feed_parts<H: Hasher>(parts: &[KeyPart], state: &mut H)
    ensures { state.new ≡ fold H.write state.old (flat_map part_writes parts.now) }
{
    for part in parts {
        feed_part(part, state);
    }
}

impl PartialEq for Pick {
    ghost eq = { λ a b. same_pick a b };

    ghost laws = { on_per (λ k. k) (partial_equiv_from_equiv (decided same_pick same_pick-Decides)) };

    fn eq(&self, other: &Self) -> bool {
        self.method == other.method && same_parts(self.parts.as_slice(), other.parts.as_slice())
    }
}

impl Eq for Pick {
    ghost laws = { on_equiv (λ k. k) (decided same_pick same_pick-Decides) };
}

impl Hash for Pick {
    ghost hash_input = { λ k. pick_writes k };

    ghost respects_eq = { (on_Alike (λ k. k) (same_Alike pick_writes same_pick-Decides)).fed };

    fn hash<H: Hasher>(&self, state: &mut H) {
        state.write_u16(self.method);
        feed_parts(self.parts.as_slice(), state);
    }
}

/// Methods with their keys, in order and each once.
#[derive(Drop)]
pub(crate) struct Picks {
    pub(crate) known: IndexSet<Pick>,
}

impl Picks {
    pub(crate) fn new(alloc: Global) -> Picks
        ensures { result.known.keys ≡ [] }
    {
        Picks {
            known: IndexSet::new(alloc),
        }
    }

    /// Puts a method with its key at the end, unless it is there; whether it was put there.
    pub(crate) fn add(&mut self, pick: Pick) -> Result<bool, NoMemory>
        ensures fresh { IfOk result (λ fresh. fresh ≡ not (list_any (same_pick pick) self.old.known.keys)) }
        ensures list { OnOk result (self.new.known.keys ≡ insert_key same_pick self.old.known.keys pick) }
    {
        match self.known.insert_full(pick) {
            Ok((_, fresh)) => Ok(fresh),
            Err(_) => Err(NoMemory),
        }
    }
}

/// Copies of the parts, in order.
pub(crate) fn copy_parts(alloc: Global, parts: &[KeyPart]) -> Result<Items<KeyPart>, NoMemory>
    ensures { IfOk result (λ copies. copies ≡ parts.now) }
{
    let mut copies = Items::new(alloc);
    for part in parts {
        put(&mut copies, copy_part(alloc, part)?)?;
    }
    Ok(copies)
}

fn copy_part(alloc: Global, part: &KeyPart) -> Result<KeyPart, NoMemory>
    ensures { IfOk result (λ copy. copy ≡ part.now) }
{
    match part {
        KeyPart::Ref => Ok(KeyPart::Ref),
        KeyPart::Any => Ok(KeyPart::Any),
        KeyPart::Exact(tree) => {
            let copy = tree.copy(alloc)?;
            Ok(KeyPart::Exact(copy))
        }
    }
}

fn put(parts: &mut Items<KeyPart>, part: KeyPart) -> Result<(), NoMemory>
    ensures { OnOk result (parts.new ≡ parts.old ++ part ∷ []) }
{
    match parts.push(part) {
        Ok(()) => Ok(()),
        Err(_) => Err(NoMemory),
    }
}
