// The entries of instructions on members.
ghost use Rattle.std.specs.Prelude.{◌≡◌, OnOk, IfOk};
ghost use Rattle.il_model.specs.Entries as spec;
ghost use Rattle.il_model.specs.declared.entry.Entry.TheVariants as entry;
ghost use Rattle.rgctx_template.specs.Collected.{added, collected};

use crate::collecting::{Entries, add, add_kind, add_size, add_type};
use crate::found::{arguments_of, field_found, has_slot_at, method_found};
use il_model::{Entry, FRef, MRef, Program};
use mn_outside::NoMemory;
use sqlite_items::Items;
use std::alloc::Global;
use type_tree::{Head, TExpr, copy_all, subst_whole};

// The vector type with these elements.
fn vector_of(alloc: Global, kind: &TExpr) -> Result<TExpr, NoMemory>
    ensures { IfOk result (λ v. v ≡ spec.vector_of kind.now) }
{
    let mut parts = Items::new(alloc);
    let Ok(()) = parts.push(kind.copy(alloc)?) else {
        return Err(NoMemory);
    };
    Ok(TExpr::node(Head::Vector, parts))
}

/// Adds what `newarr` fetches.
pub(crate) fn add_vector(
    alloc: Global,
    program: &Program,
    entries: &mut Entries,
    kind: &TExpr,
) -> Result<(), NoMemory>
    ensures { OnOk result (entries.new ≡ collected entries.old (spec.vector_entries program.now kind.now)) }
{
    let vector = vector_of(alloc, kind)?;
    add(entries, Entry::Kind(vector))?;
    add_size(alloc, program, entries, kind)
}

// The type of a field, with the arguments of its class put.
fn field_type(alloc: Global, field: &FRef) -> Result<TExpr, NoMemory>
    ensures { IfOk result (λ t. t ≡ spec.field_type field.now) }
{
    subst_whole(alloc, &field.kind, arguments_of(&field.class), &[])
}

// Adds the place of a field.
fn add_offset(
    alloc: Global,
    entries: &mut Entries,
    class: &TExpr,
    place: u16,
) -> Result<(), NoMemory>
    ensures { OnOk result (entries.new ≡ added entries.old (entry.Offset class.now place)) }
{
    let class = class.copy(alloc)?;
    add(entries, Entry::Offset(class, place))
}

/// Adds what an instruction on a field fetches.
pub(crate) fn add_field(
    alloc: Global,
    program: &Program,
    entries: &mut Entries,
    field: &FRef,
) -> Result<(), NoMemory>
    ensures { OnOk result (entries.new ≡ collected entries.old (spec.field_entries program.now field.now)) }
{
    let Some(place) = field_found(program, field) else {
        return Ok(());
    };
    let kind = field_type(alloc, field)?;
    add_kind(alloc, entries, &field.class)?;
    add_offset(alloc, entries, &field.class, place)?;
    add_size(alloc, program, entries, &kind)
}

// Adds the method with this number.
fn add_method(
    alloc: Global,
    entries: &mut Entries,
    named: &MRef,
    number: u16,
) -> Result<(), NoMemory>
    ensures { OnOk result (entries.new ≡ added entries.old (spec.method_entry named.now number)) }
{
    let class = named.class.copy(alloc)?;
    let args = copy_all(alloc, named.args.as_slice())?;
    add(entries, Entry::Method(number, class, args))
}

/// Adds what `call` fetches.
pub(crate) fn add_call(
    alloc: Global,
    program: &Program,
    entries: &mut Entries,
    named: &MRef,
) -> Result<(), NoMemory>
    ensures { OnOk result (entries.new ≡ collected entries.old (spec.call_entries program.now named.now)) }
{
    match method_found(program, named) {
        Some(number) => add_method(alloc, entries, named, number),
        None => Ok(()),
    }
}

/// Adds what `callvirt` fetches.
pub(crate) fn add_virtual_call(
    alloc: Global,
    program: &Program,
    entries: &mut Entries,
    named: &MRef,
) -> Result<(), NoMemory>
    ensures { OnOk result (entries.new ≡ collected entries.old (spec.callvirt_entries program.now named.now)) }
{
    let Some(number) = method_found(program, named) else {
        return Ok(());
    };
    if has_slot_at(program, number) {
        return add_kind(alloc, entries, &named.class);
    }
    add_method(alloc, entries, named, number)
}

/// Adds what `constrained.` and its `callvirt` fetch.
pub(crate) fn add_constrained(
    alloc: Global,
    program: &Program,
    entries: &mut Entries,
    kind: &TExpr,
    named: &MRef,
) -> Result<(), NoMemory>
    ensures { OnOk result (entries.new ≡ collected entries.old (spec.constrained_entries program.now kind.now named.now)) }
{
    add_type(alloc, program, entries, kind)?;
    add_kind(alloc, entries, &named.class)
}

// Adds the words of an instance.
fn add_extent(alloc: Global, entries: &mut Entries, class: &TExpr) -> Result<(), NoMemory>
    ensures { OnOk result (entries.new ≡ added entries.old (entry.Extent class.now)) }
{
    let class = class.copy(alloc)?;
    add(entries, Entry::Extent(class))
}

/// Adds what `newobj` fetches.
pub(crate) fn add_new(
    alloc: Global,
    program: &Program,
    entries: &mut Entries,
    named: &MRef,
) -> Result<(), NoMemory>
    ensures { OnOk result (entries.new ≡ collected entries.old (spec.new_entries program.now named.now)) }
{
    let Some(number) = method_found(program, named) else {
        return Ok(());
    };
    add_method(alloc, entries, named, number)?;
    add_kind(alloc, entries, &named.class)?;
    add_extent(alloc, entries, &named.class)
}
