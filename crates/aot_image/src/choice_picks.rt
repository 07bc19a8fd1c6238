// The bodies that are chosen.
ghost use Rattle.std.specs.Prelude.{◌≡◌, ◌<◌, ◌≤◌, ◌++◌, ◌∷◌, [], IfOk, OnOk, length, map, flat_map, fold};
ghost use Rattle.std.specs.Cmp.{decided, partial_equiv_from_equiv};
ghost use Rattle.std.specs.Cmp.Lexicographic.{pointwise};
ghost use Rattle.std.specs.Hash.{same_Alike};
ghost use Rattle.aot_image.specs.ChoosingBounds.{vars_of};
ghost use Rattle.aot_image.specs.ChoosingPicks.{same_part, with_pick, without_method, pick_of, any_part, with_general_of, with_general};
ghost use Rattle.aot_image.specs.ChoosingRounds.{same_entry, entry_writes, part_writes, live_of, is_live, round_of, IsKept};
ghost use Rattle.aot_image.specs.ChoosingSame.{same_entry-Decides};

use crate::choice_judging::may_have_body;
use crate::choice_names::number_of;
use crate::decoding_bodies::vars_of_owner;
use il_model::{Key, KeyPart, MethodDef, Program, VarDef};
use indexmap::IndexSet;
use mn_outside::NoMemory;
use rgctx_template::feed_tree;
use share_canon::Choice;
use sqlite_items::Items;
use std::alloc::Global;
use std::hash::{Hash, Hasher};
use type_inst::is_same;

/// A pick with the round of its method in which it was added: how often the picks of the method had been
/// taken away before.
#[derive(Drop)]
pub(crate) struct Entry {
    pub(crate) method: u16,
    pub(crate) round: usize,
    pub(crate) parts: Items<KeyPart>,
}

fn same_part(part: &KeyPart, other: &KeyPart) -> bool
    ensures { result ≡ same_part part.now other.now }
{
    match (part, other) {
        (KeyPart::Ref, KeyPart::Ref) => true,
        (KeyPart::Any, KeyPart::Any) => true,
        (KeyPart::Exact(kind), KeyPart::Exact(other_kind)) => is_same(kind, other_kind),
        (KeyPart::Ref | KeyPart::Any | KeyPart::Exact(_), _) => false,
    }
}

#[tactic(auto, using(crate::proofs::ChoosingPickLemmas::parts_apart))]
fn same_parts(parts: &[KeyPart], others: &[KeyPart]) -> bool
    ensures { result ≡ pointwise same_part parts.now others.now }
{
    if parts.len() != others.len() {
        return false;
    }
    for i in 0..parts.len() {
        if !same_part(&parts[i], &others[i]) {
            return false;
        }
    }
    true
}

fn same_entry(entry: &Entry, other: &Entry) -> bool
    ensures { result ≡ same_entry entry.now other.now }
{
    entry.method == other.method
        && (entry.round == other.round
            && same_parts(entry.parts.as_slice(), other.parts.as_slice()))
}

impl PartialEq for Entry {
    ghost eq = { same_entry };

    ghost laws = { partial_equiv_from_equiv (decided same_entry same_entry-Decides) };

    fn eq(&self, other: &Self) -> bool {
        same_entry(self, other)
    }
}

impl Eq for Entry {
    ghost laws = { decided same_entry same_entry-Decides };
}

impl Hash for Entry {
    ghost hash_input = { entry_writes };

    ghost respects_eq = { (same_Alike entry_writes same_entry-Decides).fed };

    fn hash<H: Hasher>(&self, state: &mut H) {
        state.write_u16(self.method);
        state.write_usize(self.round);
        feed_parts(self.parts.as_slice(), state);
    }
}

fn feed_part<H: Hasher>(part: &KeyPart, state: &mut H)
    ensures { state.new ≡ fold H.write state.old (part_writes part.now) }
{
    match part {
        KeyPart::Ref => state.write_u8(0),
        KeyPart::Any => state.write_u8(1),
        KeyPart::Exact(kind) => {
            state.write_u8(2);
            feed_tree(kind, state);
        }
    }
}

fn feed_parts<H: Hasher>(parts: &[KeyPart], state: &mut H)
    ensures { state.new ≡ fold H.write state.old (flat_map part_writes parts.now) }
{
    for part in parts {
        feed_part(part, state);
    }
}

/// The picks so far: entries, of which those of their method's present round count, and the round of each
/// method. So taking the picks of a method away is one step.
#[derive(Drop)]
pub(crate) struct Picks {
    entries: IndexSet<Entry>,
    rounds: Vec<usize>,
}

/// No picks, of so many methods.
#[tactic(auto, using(crate::proofs::ChoosingPickLemmas::none_live, crate::proofs::ChoosingPickLemmas::none_kept))]
pub(crate) fn no_picks(alloc: Global, count: usize) -> Result<Picks, NoMemory>
    ensures live { IfOk result (λ picks. live_of picks.rounds.items picks.entries.keys ≡ []) }
    ensures kept { IfOk result (λ picks. IsKept picks.rounds.items picks.entries.keys) }
    ensures count { IfOk result (λ picks. length picks.rounds.items ≡ count) }
{
    let mut rounds = Vec::new(alloc);
    for _turn in 0..count {
        put_round(&mut rounds)?;
    }
    Ok(Picks {
        entries: IndexSet::new(alloc),
        rounds,
    })
}

fn put_round(rounds: &mut Vec<usize>) -> Result<(), NoMemory>
    ensures { OnOk result (rounds.new.items ≡ rounds.old.items ++ 0 ∷ []) }
{
    rounds.push(0).map_err(|_| NoMemory)
}

/// Adds a pick, unless it is there.
#[tactic(auto, using(crate::proofs::ChoosingPickLemmas::live_now, crate::proofs::ChoosingPickLemmas::added_is, crate::proofs::ChoosingPickLemmas::added_keeps))]
pub(crate) fn add(picks: &mut Picks, method: u16, parts: Items<KeyPart>) -> Result<(), NoMemory>
    requires kept { IsKept picks.old.rounds.items picks.old.entries.keys }
    requires within { method < length picks.old.rounds.items }
    ensures live { OnOk result (live_of picks.new.rounds.items picks.new.entries.keys ≡
        with_pick (live_of picks.old.rounds.items picks.old.entries.keys) (pick_of method parts)) }
    ensures kept { OnOk result (IsKept picks.new.rounds.items picks.new.entries.keys) }
    ensures count { OnOk result (length picks.new.rounds.items ≡ length picks.old.rounds.items) }
{
    let round = round_of(picks.rounds.as_slice(), method);
    match picks.entries.insert(Entry {
        method,
        round,
        parts,
    }) {
        Ok(_) => Ok(()),
        Err(_) => Err(NoMemory),
    }
}

/// Takes all picks of a method away.
pub(crate) fn take_away(picks: &mut Picks, method: u16) -> Result<(), NoMemory>
    requires kept { IsKept picks.old.rounds.items picks.old.entries.keys }
    requires within { method < length picks.old.rounds.items }
    ensures live { OnOk result (live_of picks.new.rounds.items picks.new.entries.keys ≡
        without_method method (live_of picks.old.rounds.items picks.old.entries.keys)) }
    ensures kept { OnOk result (IsKept picks.new.rounds.items picks.new.entries.keys) }
    ensures count { OnOk result (length picks.new.rounds.items ≡ length picks.old.rounds.items) }
{
    let round = round_of(picks.rounds.as_slice(), method);
    if round == usize::MAX {
        return Err(NoMemory);
    }
    picks.rounds[method as usize] = round + 1;
    Ok(())
}

fn put_part(parts: &mut Items<KeyPart>, part: KeyPart) -> Result<(), NoMemory>
    ensures { OnOk result (parts.new ≡ parts.old ++ part ∷ []) }
{
    parts.push(part).map_err(|_| NoMemory)
}

// The part of a variable in the key that serves all types.
fn any_part(_var: &VarDef) -> KeyPart
    ensures { result ≡ any_part _var.now }
{
    KeyPart::Any
}

// Puts `any` at the end for each of these variables.
fn put_any(parts: &mut Items<KeyPart>, vars: &[VarDef]) -> Result<(), NoMemory>
    ensures { OnOk result (parts.new ≡ parts.old ++ map any_part vars.now) }
{
    for var in vars {
        put_part(parts, any_part(var))?;
    }
    Ok(())
}

// The key of a method that serves all types.
#[tactic(auto, using(crate::proofs::ChoosingPickLemmas::general_parts))]
fn general_key(
    alloc: Global,
    program: &Program,
    method: &MethodDef,
) -> Result<Items<KeyPart>, NoMemory>
    ensures { IfOk result (λ parts. parts ≡ map any_part (vars_of program.now method.now)) }
{
    let mut parts = Items::new(alloc);
    put_any(&mut parts, vars_of_owner(program, method))?;
    put_any(&mut parts, method.vars.as_slice())?;
    Ok(parts)
}

// Adds the general key of a method, if it may have a body.
fn add_general(
    alloc: Global,
    program: &Program,
    picks: &mut Picks,
    number: u16,
    method: &MethodDef,
) -> Result<(), NoMemory>
    requires kept { IsKept picks.old.rounds.items picks.old.entries.keys }
    requires within { number < length picks.old.rounds.items }
    ensures live { OnOk result (live_of picks.new.rounds.items picks.new.entries.keys ≡
        with_general_of program.now number method.now (live_of picks.old.rounds.items picks.old.entries.keys)) }
    ensures kept { OnOk result (IsKept picks.new.rounds.items picks.new.entries.keys) }
    ensures count { OnOk result (length picks.new.rounds.items ≡ length picks.old.rounds.items) }
{
    if !may_have_body(number as usize, method) {
        return Ok(());
    }
    let parts = general_key(alloc, program, method)?;
    add(picks, number, parts)
}

/// Adds the general key of each method that may have a body.
#[tactic(auto, using(crate::proofs::ChoosingPickLemmas::adds_first, crate::proofs::ChoosingPickLemmas::adds_more, crate::proofs::ChoosingPickLemmas::adds_all))]
pub(crate) fn add_all(alloc: Global, program: &Program, picks: &mut Picks) -> Result<(), NoMemory>
    requires kept { IsKept picks.old.rounds.items picks.old.entries.keys }
    requires count { length picks.old.rounds.items ≡ length program.now.methods }
    requires few { length program.now.methods ≤ 65536 }
    ensures live { OnOk result (live_of picks.new.rounds.items picks.new.entries.keys ≡
        with_general program.now 0 program.now.methods (live_of picks.old.rounds.items picks.old.entries.keys)) }
    ensures kept { OnOk result (IsKept picks.new.rounds.items picks.new.entries.keys) }
    ensures count { OnOk result (length picks.new.rounds.items ≡ length picks.old.rounds.items) }
{
    let methods = program.methods.as_slice();
    for i in 0..methods.len() {
        add_general(alloc, program, picks, number_of(i), &methods[i])?;
    }
    Ok(())
}

fn put_pick(
    picks: &mut Items<(u16, Key)>,
    method: u16,
    parts: Items<KeyPart>,
) -> Result<(), NoMemory>
    ensures { OnOk result (picks.new ≡ picks.old ++ pick_of method parts ∷ []) }
{
    picks.push((method, Key { parts })).map_err(|_| NoMemory)
}

// Puts the pick of an entry at the end, if it is kept.
#[tactic(auto, using(crate::proofs::ChoosingPickLemmas::put_live, crate::proofs::ChoosingPickLemmas::skip_dead))]
fn keep(kept: &mut Items<(u16, Key)>, rounds: &[usize], entry: Entry) -> Result<(), NoMemory>
    ensures { OnOk result (kept.new ≡ kept.old ++ live_of rounds.now (entry ∷ [])) }
{
    if !is_live(rounds, &entry) {
        return Ok(());
    }
    put_pick(kept, entry.method, entry.parts)
}

/// The picks that are kept, in order.
#[tactic(auto, using(crate::proofs::ChoosingPickLemmas::live_next))]
pub(crate) fn choice_of(alloc: Global, picks: Picks) -> Result<Choice, NoMemory>
    ensures { IfOk result (λ choice. choice.picks ≡ live_of picks.rounds.items picks.entries.keys) }
{
    let Picks { entries, rounds } = picks;
    let mut kept = Items::new(alloc);
    for entry in entries {
        keep(&mut kept, &rounds, entry)?;
    }
    Ok(Choice { picks: kept })
}

// Whether an entry is of the present round of its method.
fn is_live(rounds: &[usize], entry: &Entry) -> bool
    ensures { result ≡ is_live rounds.now entry.now }
{
    entry.round == round_of(rounds, entry.method)
}

// How often the picks of a method were taken away.
fn round_of(rounds: &[usize], method: u16) -> usize
    ensures { result ≡ round_of rounds.now method }
{
    match rounds.get(method as usize) {
        Some(round) => *round,
        None => 0,
    }
}
