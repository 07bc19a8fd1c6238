// Closed entries as they are read.
ghost use Rattle.std.specs.Prelude.{◌≡◌, [], not, length, IfErr, IfOk, OnOk};
ghost use Rattle.std.specs.Option.{option_copied};
ghost use Rattle.aot_image.specs.declared.image.ReadError.TheVariants.{Memory};
ghost use Rattle.il_model.specs.Find.{class_number_of};
ghost use Rattle.il_model.specs.Found.{method_at};
ghost use Rattle.il_model.specs.Entries.{is_listed};
ghost use Rattle.il_model.specs.ClassRules.{HasTypes, is_number};
ghost use Rattle.rgctx_template.specs.Collected.{added};
ghost use Rattle.rgctx_template.specs.GotEntries.{has_own_method, has_own_field};
ghost use Rattle.aot_image.specs.ImageReading.{Reads, ReadsAs, read_entry_tree, read_entry_trees_from, read_method_entry, read_offset_entry, read_entry_of, read_entry, read_entries_from};

use crate::decoding_cursor::{Cursor, bad_table};
use crate::decoding_trees::read_tree;
use crate::image::ReadError;
use crate::judging::{is_bounded_method, is_bounded_throughout};
use il_model::{Entry, MethodDef, Program, class_of};
use indexmap::IndexSet;
use mn_outside::NoMemory;
use rgctx_template::Known;
use sqlite_items::Items;
use std::alloc::Global;
use std::marker::Model;
use type_tree::{Head, TExpr, TNode};

// The most levels and positions of a tree in a closed entry, and the most entries. This project's own.
const MOST_LEVELS: usize = 768;

const MOST_POSITIONS: usize = 16_777_216;

const MOST_ENTRIES: usize = 1792;

/// Entries in order, each once. Contracts see the list.
#[derive(Drop)]
pub(crate) struct Entries {
    known: IndexSet<Known>,
}

impl Model for Entries {
    ghost use Rattle.std.specs.Prelude.{List, map};
    ghost use Rattle.std.specs.Coded.{coded_list};
    ghost use Rattle.il_model.specs.declared.entry.Entry.{Entry};
    ghost use Rattle.il_model.specs.contracts.entry.Entry.{the_row};

    ghost Value = { List Entry };

    ghost coded = { coded_list the_row.coded };

    ghost view = { λ e. map (λ k. k.entry) e.known.keys };
}

impl Entries {
    fn new(alloc: Global) -> Entries
        ensures { result ≡ [] }
    {
        Entries {
            known: IndexSet::new(alloc),
        }
    }

    fn len(&self) -> usize
        ensures { result ≡ length self.now }
    {
        self.known.as_slice().len()
    }

    /// The entries as a list.
    fn into_items(self, alloc: Global) -> Result<Items<Entry>, NoMemory>
        ensures { IfOk result (λ es. es ≡ self) }
    {
        let mut entries = Items::new(alloc);
        for known in self.known {
            let Ok(()) = entries.push(known.entry) else {
                return Err(NoMemory);
            };
        }
        Ok(entries)
    }
}

// Puts an entry at the end, unless it is listed; whether it was put there.
fn add(entries: &mut Entries, entry: Entry) -> Result<bool, NoMemory>
    ensures fresh { IfOk result (λ fresh. fresh ≡ not (is_listed entries.old entry)) }
    ensures list { OnOk result (entries.new ≡ added entries.old entry) }
{
    match entries.known.insert_full(Known { entry }) {
        Ok((_, fresh)) => Ok(fresh),
        Err(_) => Err(NoMemory),
    }
}

/// So many closed entries.
pub(crate) fn read_entries(
    alloc: Global,
    program: &Program,
    cursor: &mut Cursor<'_>,
    count: u32,
) -> Result<Items<Entry>, ReadError>
    requires { HasTypes program.now }
    ensures { Reads (read_entries_from program.now count [] cursor.old) result cursor.new }
{
    let mut entries = Entries::new(alloc);
    for _turn in 0..count {
        read_entry(alloc, program, cursor, &mut entries)?;
    }
    listed(alloc, entries)
}

fn listed(alloc: Global, entries: Entries) -> Result<Items<Entry>, ReadError>
    ensures ok { IfOk result (λ es. es ≡ entries) }
    ensures err { IfErr result (λ e. e ≡ Memory) }
{
    match entries.into_items(alloc) {
        Ok(items) => Ok(items),
        Err(NoMemory) => Err(ReadError::Memory),
    }
}

// An entry behind these, which is put at their end.
#[tactic(auto, unfolding(crate::specs::ImageReading::read_entry))]
fn read_entry(
    alloc: Global,
    program: &Program,
    cursor: &mut Cursor<'_>,
    entries: &mut Entries,
) -> Result<(), ReadError>
    requires { HasTypes program.now }
    ensures { ReadsAs (λ _. entries.new) (read_entry program.now entries.old cursor.old) result cursor.new }
{
    let row = cursor.at();
    let kind = cursor.byte()?;
    if entries.len() >= MOST_ENTRIES {
        return Err(bad_table(row));
    }
    let entry = read_entry_of(alloc, program, cursor, row, kind)?;
    if !add(entries, entry)? {
        return Err(bad_table(row));
    }
    Ok(())
}

// An entry whose kind is this.
#[tactic(auto, unfolding(crate::specs::ImageReading::read_type_entry))]
fn read_entry_of(
    alloc: Global,
    program: &Program,
    cursor: &mut Cursor<'_>,
    row: u64,
    kind: u8,
) -> Result<Entry, ReadError>
    requires { HasTypes program.now }
    ensures { Reads (read_entry_of program.now row kind cursor.old) result cursor.new }
{
    if kind == 0 {
        let tree = read_entry_tree(alloc, program, cursor, row)?;
        return Ok(Entry::Kind(tree));
    }
    if kind == 1 {
        return read_method_entry(alloc, program, cursor, row);
    }
    if kind == 2 {
        let tree = read_entry_tree(alloc, program, cursor, row)?;
        return Ok(Entry::Size(tree));
    }
    if kind == 3 {
        let tree = read_entry_tree(alloc, program, cursor, row)?;
        return Ok(Entry::Extent(tree));
    }
    if kind == 4 {
        return read_offset_entry(alloc, program, cursor, row);
    }
    Err(bad_table(row))
}

// A tree of a closed entry.
#[tactic(auto, unfolding(crate::specs::ImageReading::read_entry_tree))]
fn read_entry_tree(
    alloc: Global,
    program: &Program,
    cursor: &mut Cursor<'_>,
    row: u64,
) -> Result<TExpr, ReadError>
    requires { HasTypes program.now }
    ensures { Reads (read_entry_tree program.now row cursor.old) result cursor.new }
{
    let tree = read_tree(alloc, program, cursor, row, MOST_LEVELS, MOST_POSITIONS)?;
    if !is_bounded_throughout(alloc, program, &tree)? {
        return Err(bad_table(row));
    }
    Ok(tree)
}

// So many trees of a closed entry.
fn read_entry_trees(
    alloc: Global,
    program: &Program,
    cursor: &mut Cursor<'_>,
    row: u64,
    count: usize,
) -> Result<Items<TExpr>, ReadError>
    requires { HasTypes program.now }
    ensures { Reads (read_entry_trees_from program.now row count [] cursor.old) result cursor.new }
{
    let mut found = Items::new(alloc);
    for _turn in 0..count {
        let tree = read_entry_tree(alloc, program, cursor, row)?;
        found.push(tree)?;
    }
    Ok(found)
}

// A method with its class and its arguments.
#[tactic(auto, unfolding(crate::specs::ImageReading::read_method_entry))]
fn read_method_entry(
    alloc: Global,
    program: &Program,
    cursor: &mut Cursor<'_>,
    row: u64,
) -> Result<Entry, ReadError>
    requires { HasTypes program.now }
    ensures { Reads (read_method_entry program.now row cursor.old) result cursor.new }
{
    let number = cursor.half()?;
    let Some(method) = method_at(program, number) else {
        return Err(bad_table(row));
    };
    let class = read_entry_tree(alloc, program, cursor, row)?;
    if !has_own_method(program, &class, number) {
        return Err(bad_table(row));
    }
    let args = read_entry_trees(alloc, program, cursor, row, method.vars.len())?;
    if !is_bounded_method(alloc, program, &class, args.as_slice(), method)? {
        return Err(bad_table(row));
    }
    Ok(Entry::Method(number, class, args))
}

// A field of a class.
#[tactic(auto, unfolding(crate::specs::ImageReading::read_offset_entry))]
fn read_offset_entry(
    alloc: Global,
    program: &Program,
    cursor: &mut Cursor<'_>,
    row: u64,
) -> Result<Entry, ReadError>
    requires { HasTypes program.now }
    ensures { Reads (read_offset_entry program.now row cursor.old) result cursor.new }
{
    let class = read_entry_tree(alloc, program, cursor, row)?;
    let place = cursor.half()?;
    if !has_own_field(program, &class, place) {
        return Err(bad_table(row));
    }
    Ok(Entry::Offset(class, place))
}

fn method_at(program: &Program, number: u16) -> Option<&MethodDef>
    ensures { option_copied result ≡ method_at program.now number }
{
    program.methods.as_slice().get(number as usize)
}

// Whether the class that a type names has the method with this number itself.
fn has_own_method(program: &Program, class: &TExpr, number: u16) -> bool
    ensures { result ≡ has_own_method program.now class.now number }
{
    match method_at(program, number) {
        Some(method) => is_class(class, method.owner),
        None => false,
    }
}

// Whether a type names the class with this number.
fn is_class(kind: &TExpr, number: u16) -> bool
    ensures { result ≡ is_number number (class_number_of kind.now) }
{
    match kind.top() {
        TNode::Node(Head::Class(class), _) => *class == number,
        TNode::Node(Head::Int32 | Head::Int64 | Head::Bool | Head::Vector, _) => false,
        TNode::ClassVar(_) | TNode::MethodVar(_) => false,
    }
}

// Whether the class that a type names has a field of its own at this place.
fn has_own_field(program: &Program, kind: &TExpr, place: u16) -> bool
    ensures { result ≡ has_own_field program.now kind.now place }
{
    match class_of(program, kind) {
        Some(class) => (place as usize) < class.fields.len(),
        None => false,
    }
}
