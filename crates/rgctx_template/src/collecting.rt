// A list of entries without repeats.
ghost use Rattle.std.specs.Prelude.{◌≡◌, [], IfOk, OnOk};
ghost use Rattle.il_model.specs.Entries.{size_entries, type_entries};
ghost use Rattle.il_model.specs.declared.entry.Entry.TheVariants as entry;
ghost use Rattle.rgctx_template.specs.Collected.{added, collected};

use crate::found::is_reference;
use crate::known::Known;
use il_model::{Entry, Program};
use indexmap::IndexSet;
use mn_outside::NoMemory;
use sqlite_items::Items;
use std::alloc::Global;
use std::marker::Model;
use type_tree::TExpr;

/// Entries in order, each once, found by a hash. Contracts see the list.
#[derive(Drop)]
pub struct Entries {
    known: IndexSet<Known>,
}

impl Model for Entries {
    ghost use Rattle.std.specs.Prelude.{List, map};
    ghost use Rattle.std.specs.Coded.{coded_list};
    ghost use Rattle.il_model.specs.declared.entry.Entry.{Entry};
    ghost use Rattle.il_model.specs.contracts.entry.Entry.{the_row};

    ghost Value = { List Entry };

    ghost coded = { coded_list the_row.coded };

    ghost view = { λ e. map (λ k. k.entry) e.known.keys };
}

impl Entries {
    /// A list without entries.
    pub fn new(alloc: Global) -> Entries
        ensures { result ≡ [] }
    {
        Entries {
            known: IndexSet::new(alloc),
        }
    }

    /// The entries as a list.
    pub fn into_items(self, alloc: Global) -> Result<Items<Entry>, NoMemory>
        ensures { IfOk result (λ es. es ≡ self) }
    {
        let mut entries = Items::new(alloc);
        for known in self.known {
            let Ok(()) = entries.push(known.entry) else {
                return Err(NoMemory);
            };
        }
        Ok(entries)
    }
}

/// Puts an entry at the end of the list, unless it is listed. This project's own.
pub fn add(entries: &mut Entries, entry: Entry) -> Result<(), NoMemory>
    ensures { OnOk result (entries.new ≡ added entries.old entry) }
{
    match entries.known.insert(Known { entry }) {
        Ok(_) => Ok(()),
        Err(_) => Err(NoMemory),
    }
}

/// Adds the kind of a type.
pub(crate) fn add_kind(alloc: Global, entries: &mut Entries, kind: &TExpr) -> Result<(), NoMemory>
    ensures { OnOk result (entries.new ≡ added entries.old (entry.Kind kind.now)) }
{
    let kind = kind.copy(alloc)?;
    add(entries, Entry::Kind(kind))
}

/// Adds the size of a type's value, unless it is a reference type.
pub(crate) fn add_size(
    alloc: Global,
    program: &Program,
    entries: &mut Entries,
    kind: &TExpr,
) -> Result<(), NoMemory>
    ensures { OnOk result (entries.new ≡ collected entries.old (size_entries program.now kind.now)) }
{
    if is_reference(program, kind) {
        return Ok(());
    }
    let kind = kind.copy(alloc)?;
    add(entries, Entry::Size(kind))
}

/// Adds what an instruction on a type fetches.
pub(crate) fn add_type(
    alloc: Global,
    program: &Program,
    entries: &mut Entries,
    kind: &TExpr,
) -> Result<(), NoMemory>
    ensures { OnOk result (entries.new ≡ collected entries.old (type_entries program.now kind.now)) }
{
    add_kind(alloc, entries, kind)?;
    add_size(alloc, program, entries, kind)
}
