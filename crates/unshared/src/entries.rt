// The entries that an instruction names, in order.
ghost use Rattle.std.specs.Prelude.{◌≡◌, ◌++◌, [], ◌∷◌, OnOk, IfOk};
ghost use Rattle.il_model.specs.Entries as spec;
ghost use Rattle.il_model.specs.declared.entry.Entry.TheVariants as entry;
ghost use Rattle.unshared.specs.Mentioned.{mentioned};

use crate::found::{field_found, has_slot_at, method_found};
use crate::mention::{Mention, mention_of};
use crate::types::copied;
use il_model::{Entry, FRef, MRef, Op, Program};
use mn_outside::NoMemory;
use sqlite_items::Items;
use std::alloc::Global;
use type_inst::{is_reference, with_args_of};
use type_tree::{Head, TExpr, copy_all};

fn put(entries: &mut Items<Entry>, entry: Entry) -> Result<(), NoMemory>
    ensures { OnOk result (entries.new ≡ entries.old ++ entry ∷ []) }
{
    match entries.push(entry) {
        Ok(()) => Ok(()),
        Err(_) => Err(NoMemory),
    }
}

fn add_kind(alloc: Global, entries: &mut Items<Entry>, kind: &TExpr) -> Result<(), NoMemory>
    ensures { OnOk result (entries.new ≡ entries.old ++ entry.Kind kind.now ∷ []) }
{
    let copy = copied(alloc, kind)?;
    put(entries, Entry::Kind(copy))?;
    Ok(())
}

fn add_size(
    alloc: Global,
    program: &Program,
    entries: &mut Items<Entry>,
    kind: &TExpr,
) -> Result<(), NoMemory>
    ensures { OnOk result (entries.new ≡ entries.old ++ spec.size_entries program.now kind.now) }
{
    if is_reference(program, kind) {
        return Ok(());
    }
    let copy = copied(alloc, kind)?;
    put(entries, Entry::Size(copy))?;
    Ok(())
}

fn add_type(
    alloc: Global,
    program: &Program,
    entries: &mut Items<Entry>,
    kind: &TExpr,
) -> Result<(), NoMemory>
    ensures { OnOk result (entries.new ≡ entries.old ++ spec.type_entries program.now kind.now) }
{
    add_kind(alloc, entries, kind)?;
    add_size(alloc, program, entries, kind)?;
    Ok(())
}

/// The vector type with these elements.
pub(crate) fn vector_of(alloc: Global, kind: &TExpr) -> Result<TExpr, NoMemory>
    ensures { IfOk result (λ vector. vector ≡ spec.vector_of kind.now) }
{
    let mut parts = Items::new(alloc);
    let Ok(()) = parts.push(copied(alloc, kind)?) else {
        return Err(NoMemory);
    };
    Ok(TExpr::node(Head::Vector, parts))
}

fn add_vector(
    alloc: Global,
    program: &Program,
    entries: &mut Items<Entry>,
    kind: &TExpr,
) -> Result<(), NoMemory>
    ensures { OnOk result (entries.new ≡ entries.old ++ spec.vector_entries program.now kind.now) }
{
    let vector = vector_of(alloc, kind)?;
    put(entries, Entry::Kind(vector))?;
    add_size(alloc, program, entries, kind)?;
    Ok(())
}

fn add_offset(
    alloc: Global,
    entries: &mut Items<Entry>,
    class: &TExpr,
    place: u16,
) -> Result<(), NoMemory>
    ensures { OnOk result (entries.new ≡ entries.old ++ entry.Offset class.now place ∷ []) }
{
    let copy = copied(alloc, class)?;
    put(entries, Entry::Offset(copy, place))?;
    Ok(())
}

fn add_field(
    alloc: Global,
    program: &Program,
    entries: &mut Items<Entry>,
    named: &FRef,
) -> Result<(), NoMemory>
    ensures { OnOk result (entries.new ≡ entries.old ++ spec.field_entries program.now named.now) }
{
    let Some(place) = field_found(program, named) else {
        return Ok(());
    };
    let kind = with_args_of(alloc, &named.class, &named.kind)?;
    add_kind(alloc, entries, &named.class)?;
    add_offset(alloc, entries, &named.class, place)?;
    add_size(alloc, program, entries, &kind)?;
    Ok(())
}

fn add_method(
    alloc: Global,
    entries: &mut Items<Entry>,
    named: &MRef,
    number: u16,
) -> Result<(), NoMemory>
    ensures { OnOk result (entries.new ≡ entries.old ++ spec.method_entry named.now number ∷ []) }
{
    let class = copied(alloc, &named.class)?;
    let args = copy_all(alloc, named.args.as_slice())?;
    put(entries, Entry::Method(number, class, args))?;
    Ok(())
}

fn add_call(
    alloc: Global,
    program: &Program,
    entries: &mut Items<Entry>,
    named: &MRef,
) -> Result<(), NoMemory>
    ensures { OnOk result (entries.new ≡ entries.old ++ spec.call_entries program.now named.now) }
{
    match method_found(program, named) {
        Some(number) => {
            add_method(alloc, entries, named, number)?;
            Ok(())
        }
        None => Ok(()),
    }
}

fn add_virtual_call(
    alloc: Global,
    program: &Program,
    entries: &mut Items<Entry>,
    named: &MRef,
) -> Result<(), NoMemory>
    ensures { OnOk result (entries.new ≡ entries.old ++ spec.callvirt_entries program.now named.now) }
{
    let Some(number) = method_found(program, named) else {
        return Ok(());
    };
    if has_slot_at(program, number) {
        add_kind(alloc, entries, &named.class)?;
        return Ok(());
    }
    add_method(alloc, entries, named, number)?;
    Ok(())
}

fn add_constrained(
    alloc: Global,
    program: &Program,
    entries: &mut Items<Entry>,
    kind: &TExpr,
    named: &MRef,
) -> Result<(), NoMemory>
    ensures { OnOk result (entries.new ≡ entries.old ++ spec.constrained_entries program.now kind.now named.now) }
{
    add_type(alloc, program, entries, kind)?;
    add_kind(alloc, entries, &named.class)?;
    Ok(())
}

fn add_extent(alloc: Global, entries: &mut Items<Entry>, class: &TExpr) -> Result<(), NoMemory>
    ensures { OnOk result (entries.new ≡ entries.old ++ entry.Extent class.now ∷ []) }
{
    let copy = copied(alloc, class)?;
    put(entries, Entry::Extent(copy))?;
    Ok(())
}

fn add_new(
    alloc: Global,
    program: &Program,
    entries: &mut Items<Entry>,
    named: &MRef,
) -> Result<(), NoMemory>
    ensures { OnOk result (entries.new ≡ entries.old ++ spec.new_entries program.now named.now) }
{
    let Some(number) = method_found(program, named) else {
        return Ok(());
    };
    add_method(alloc, entries, named, number)?;
    add_kind(alloc, entries, &named.class)?;
    add_extent(alloc, entries, &named.class)?;
    Ok(())
}

fn add_mentioned(
    alloc: Global,
    program: &Program,
    entries: &mut Items<Entry>,
    mention: Mention<'_>,
) -> Result<(), NoMemory>
    ensures { OnOk result (entries.new ≡ entries.old ++ spec.entries_at program.now (mentioned mention.entry)) }
{
    match mention {
        Mention::Nothing => Ok(()),
        Mention::Type(kind) => Ok(add_type(alloc, program, entries, kind)?),
        Mention::Kind(kind) => Ok(add_kind(alloc, entries, kind)?),
        Mention::Vector(kind) => Ok(add_vector(alloc, program, entries, kind)?),
        Mention::Field(named) => Ok(add_field(alloc, program, entries, named)?),
        Mention::Call(named) => Ok(add_call(alloc, program, entries, named)?),
        Mention::VirtualCall(named) => Ok(add_virtual_call(alloc, program, entries, named)?),
        Mention::Constrained(kind, named) => {
            Ok(add_constrained(alloc, program, entries, kind, named)?)
        }
        Mention::New(named) => Ok(add_new(alloc, program, entries, named)?),
    }
}

/// What an instruction names, in order.
pub(crate) fn entries_of(
    alloc: Global,
    program: &Program,
    op: &Op,
) -> Result<Items<Entry>, NoMemory>
    ensures { IfOk result (λ entries. entries ≡ spec.entries_of program.now op.now) }
{
    let mut entries = Items::new(alloc);
    add_mentioned(alloc, program, &mut entries, mention_of(op))?;
    Ok(entries)
}
