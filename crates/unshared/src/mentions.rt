// Settling what an instruction mentions, and the limit at which a mention stops the run.
ghost use Rattle.std.specs.Prelude.{◌≡◌, ◌++◌, [], ◌∷◌, List, Ok, map, nat_lt, IfOk, OnOk};
ghost use Rattle.type_tree.specs.declared.tree.TExpr.{TExpr as TheType};
ghost use Rattle.il_model.specs.Admission.{limit_of, most_positions};
ghost use Rattle.il_model.specs.Found.{method_at};
ghost use Rattle.il_model.specs.Methods.{worse, worst, type_of_place, types_of_places, types_of_method, types_named_by, method_positions, limit_at, limit_of_entry};
ghost use Rattle.cil_meaning.specs.Naming.{put_type};
ghost use Rattle.cil_meaning.specs.Mentions.{cause_of};
ghost use Rattle.type_inst.specs.Opening.{Extends};
ghost use Rattle.unshared.specs.Growing.{Grown, Grows};
ghost use Rattle.unshared.specs.Listed.{IsOnce};
ghost use Rattle.unshared.specs.Settled.{stays_within, entry_number, settles_entry, settles_from, settles_method};
ghost use Rattle.unshared.specs.Talk.{Talks};

use crate::found::method_at;
use crate::pause::{Pause, Replies};
use crate::trees::Trees;
use crate::types::{copied, put_type};
use il_model::{Entry, Limit, MethodDef, MethodTree, PType, Program};
use mn_outside::{NoMemory, Refused};
use rgctx_template::closed_entry;
use sqlite_items::Items;
use std::alloc::Global;
use store_object::Cause;
use type_inst::{admitted, arguments_of};
use type_tree::{TExpr, copy_all, positions};

// The most positions of a type, and of a method.
const MOST_POSITIONS: u32 = 256;

fn cause_of(limit: Limit) -> Cause
    ensures { result ≡ cause_of limit }
{
    match limit {
        Limit::Positions => Cause::Positions,
        Limit::ValueWords => Cause::ValueWords,
    }
}

/// Goes on where nothing passes a limit, and else stops the run.
pub(crate) fn within(limit: Option<Limit>, replies: &mut Replies<'_>) -> Result<(), Pause>
    ensures { Talks (λ nothing. nothing) (stays_within limit replies.old) result replies.new }
{
    match limit {
        None => Ok(()),
        Some(limit) => Ok(replies.stop(cause_of(limit))?),
    }
}

// The limit that a type passes.
fn limit_of(alloc: Global, program: &Program, kind: &TExpr) -> Result<Option<Limit>, NoMemory>
    ensures { IfOk result (λ limit. limit ≡ limit_of program.now kind.now) }
{
    match admitted(alloc, program, kind) {
        Ok(()) => Ok(None),
        Err(Refused::Fault(limit)) => Ok(Some(limit)),
        Err(Refused::NoMemory) => Err(NoMemory),
    }
}

// Of two limits the one that counts: Positions, wherever it stands.
fn worse(first: Option<Limit>, second: Option<Limit>) -> Option<Limit>
    ensures { result ≡ worse first second }
{
    match first {
        Some(Limit::Positions) => Some(Limit::Positions),
        Some(Limit::ValueWords) => match second {
            Some(Limit::Positions) => Some(Limit::Positions),
            Some(Limit::ValueWords) => Some(Limit::ValueWords),
            None => Some(Limit::ValueWords),
        },
        None => second,
    }
}

// The limit of many types.
#[tactic(auto, using(crate::proofs::LimitLemmas::worst_push, crate::proofs::LimitLemmas::worst_more))]
fn worst(alloc: Global, program: &Program, kinds: &[TExpr]) -> Result<Option<Limit>, NoMemory>
    ensures { IfOk result (λ limit. limit ≡ worst (map (limit_of program.now) kinds.now)) }
{
    let mut found = None;
    for kind in kinds {
        let own = limit_of(alloc, program, kind)?;
        found = worse(found, own);
    }
    Ok(found)
}

fn put(kinds: &mut Items<TExpr>, kind: TExpr) -> Result<(), NoMemory>
    ensures { OnOk result (kinds.new ≡ kinds.old ++ kind ∷ []) }
{
    match kinds.push(kind) {
        Ok(()) => Ok(()),
        Err(_) => Err(NoMemory),
    }
}

// Adds the type of a place, with the method's arguments put.
fn add_place(
    alloc: Global,
    method: &MethodTree,
    kinds: &mut Items<TExpr>,
    place: &PType,
) -> Result<(), NoMemory>
    ensures { OnOk result (kinds.new ≡ kinds.old ++ map (put_type method.now) (type_of_place place.now)) }
{
    match place {
        PType::Value(kind) => {
            let closed = put_type(alloc, method, kind)?;
            put(kinds, closed)?;
            Ok(())
        }
        PType::Pointer(kind) => {
            let closed = put_type(alloc, method, kind)?;
            put(kinds, closed)?;
            Ok(())
        }
        PType::Native => Ok(()),
    }
}

fn add_places(
    alloc: Global,
    method: &MethodTree,
    kinds: &mut Items<TExpr>,
    places: &[PType],
) -> Result<(), NoMemory>
    ensures { OnOk result (kinds.new ≡ kinds.old ++ map (put_type method.now) (types_of_places places.now)) }
{
    for place in places {
        add_place(alloc, method, kinds, place)?;
    }
    Ok(())
}

// Adds the types of a method's signature and locals.
fn add_definition(
    alloc: Global,
    method: &MethodTree,
    kinds: &mut Items<TExpr>,
    definition: &MethodDef,
) -> Result<(), NoMemory>
    ensures { OnOk result (kinds.new ≡ kinds.old ++ map (put_type method.now) (types_of_method definition.now)) }
{
    add_places(alloc, method, kinds, definition.params.as_slice())?;
    if let Some(kind) = &definition.result {
        let closed = put_type(alloc, method, kind)?;
        put(kinds, closed)?;
    }
    if let Some(body) = &definition.body {
        add_places(alloc, method, kinds, body.locals.as_slice())?;
    }
    Ok(())
}

fn add_all(alloc: Global, kinds: &mut Items<TExpr>, more: &[TExpr]) -> Result<(), NoMemory>
    ensures { OnOk result (kinds.new ≡ kinds.old ++ more.now) }
{
    for kind in more {
        let copy = copied(alloc, kind)?;
        put(kinds, copy)?;
    }
    Ok(())
}

// The class and the arguments of an instantiated method, and the types of its signature and locals.
fn types_named(
    alloc: Global,
    program: &Program,
    method: &MethodTree,
) -> Result<Items<TExpr>, NoMemory>
    ensures { IfOk result (λ kinds. kinds ≡ types_named_by method.now.class method.now.args (method_at program.now method.now.method)) }
{
    let mut kinds = Items::new(alloc);
    let class = copied(alloc, &method.class)?;
    put(&mut kinds, class)?;
    add_all(alloc, &mut kinds, method.args.as_slice())?;
    match method_at(program, method.method) {
        Some(definition) => {
            add_definition(alloc, method, &mut kinds, definition)?;
            Ok(kinds)
        }
        None => Ok(kinds),
    }
}

// Whether a method has too many positions with its class and its arguments.
fn passes_positions(method: &MethodTree) -> bool
    ensures { result ≡ nat_lt most_positions (method_positions method.now.class method.now.args) }
{
    let mut count = positions(&method.class).saturating_add(1);
    for kind in method.args.as_slice() {
        count = count.saturating_add(positions(kind));
    }
    count > MOST_POSITIONS
}

// The limit that an instantiated method passes.
fn limit_of_method(
    alloc: Global,
    program: &Program,
    method: &MethodTree,
) -> Result<Option<Limit>, NoMemory>
    ensures { IfOk result (λ limit. limit ≡ limit_at program.now method.now.class method.now.args (method_at program.now method.now.method)) }
{
    if passes_positions(method) {
        return Ok(Some(Limit::Positions));
    }
    let kinds = types_named(alloc, program, method)?;
    Ok(worst(alloc, program, kinds.as_slice())?)
}

// The limit that an entry passes.
fn limit_of_entry(
    alloc: Global,
    program: &Program,
    entry: &Entry,
) -> Result<Option<Limit>, NoMemory>
    ensures { IfOk result (λ limit. limit ≡ limit_of_entry program.now entry.now) }
{
    match entry {
        Entry::Kind(kind) => Ok(limit_of(alloc, program, kind)?),
        Entry::Size(kind) => Ok(limit_of(alloc, program, kind)?),
        Entry::Extent(kind) => Ok(limit_of(alloc, program, kind)?),
        Entry::Offset(class, _) => Ok(limit_of(alloc, program, class)?),
        Entry::Method(number, class, args) => {
            let method = MethodTree {
                method: *number,
                class: copied(alloc, class)?,
                args: copy_all(alloc, args.as_slice())?,
            };
            Ok(limit_of_method(alloc, program, &method)?)
        }
        Entry::Slot(_) => Ok(None),
    }
}

// The number of an entry without variables. What is no type's has the number 0.
fn numbered(alloc: Global, trees: &mut Trees, entry: &Entry) -> Result<u32, NoMemory>
    requires { IsOnce trees.old.kinds }
    ensures grows { OnOk result (Grown trees.old.kinds trees.new.kinds) }
    ensures number { IfOk result (λ number. (later : List TheType) → Extends trees.new.kinds later → entry_number later entry.now ≡ Ok number) }
{
    match entry {
        Entry::Kind(kind) => Ok(trees.number_of(alloc, kind)?),
        Entry::Method(_, _, _) => Ok(0),
        Entry::Size(_) => Ok(0),
        Entry::Extent(_) => Ok(0),
        Entry::Offset(_, _) => Ok(0),
        Entry::Slot(_) => Ok(0),
    }
}

/// Settles an entry that an instruction of an instantiated method names.
pub(crate) fn settle(
    alloc: Global,
    program: &Program,
    trees: &mut Trees,
    replies: &mut Replies<'_>,
    method: &MethodTree,
    entry: &Entry,
) -> Result<u32, Pause>
    requires { IsOnce trees.old.kinds }
    ensures grows { Grows trees.old.kinds trees.new.kinds result }
    ensures settles { (later : List TheType) → Extends trees.new.kinds later →
        Talks (λ number. number) (settles_entry program.now later method.now entry.now replies.old) result replies.new }
{
    let closed = closed_entry(
        alloc,
        entry,
        arguments_of(&method.class),
        method.args.as_slice(),
    )?;
    let limit = limit_of_entry(alloc, program, &closed)?;
    within(limit, replies)?;
    Ok(numbered(alloc, trees, &closed)?)
}

fn note(numbers: &mut Vec<u32>, number: u32) -> Result<(), NoMemory>
    ensures { OnOk result (numbers.new.items ≡ numbers.old.items ++ number ∷ []) }
{
    match numbers.push(number) {
        Ok(()) => Ok(()),
        Err(_) => Err(NoMemory),
    }
}

/// Settles all entries that an instruction of an instantiated method names, in order.
#[tactic(auto, using(crate::proofs::NumberLemmas::grown_same, crate::proofs::NumberLemmas::grown_both), unfolding(crate::specs::Settled::settles_from))]
pub(crate) fn settle_all(
    alloc: Global,
    program: &Program,
    trees: &mut Trees,
    replies: &mut Replies<'_>,
    method: &MethodTree,
    entries: &[Entry],
) -> Result<Vec<u32>, Pause>
    requires { IsOnce trees.old.kinds }
    ensures grows { Grows trees.old.kinds trees.new.kinds result }
    ensures settles { (later : List TheType) → Extends trees.new.kinds later →
        Talks (λ numbers. numbers.items) (settles_from program.now later method.now entries.now [] replies.old) result replies.new }
{
    let mut numbers = Vec::new(alloc);
    for entry in entries {
        let number = settle(alloc, program, trees, replies, method, entry)?;
        note(&mut numbers, number)?;
    }
    Ok(numbers)
}

/// Settles an instantiated method.
#[tactic(auto, unfolding(crate::specs::Settled::settles_method))]
pub(crate) fn settle_method(
    alloc: Global,
    program: &Program,
    replies: &mut Replies<'_>,
    method: &MethodTree,
) -> Result<(), Pause>
    ensures { Talks (λ nothing. nothing) (settles_method program.now method.now replies.old) result replies.new }
{
    let limit = limit_of_method(alloc, program, method)?;
    Ok(within(limit, replies)?)
}
