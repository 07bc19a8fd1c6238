// The labels of a body.
ghost use Rattle.std.specs.Prelude.{◌≡◌, ℕ, List, ◌+◌, IfOk, OnOk, bytes_eq};
ghost use Rattle.std.specs.HashMap.{get_by};
ghost use Rattle.il_model.specs.LookUp.{labels_from};
ghost use Rattle.il_parse.specs.Looking.{Looks};
ghost use Rattle.il_parse.specs.NamedBodies.{number_of_label, label_named};
ghost use Rattle.il_parse.specs.Labels.{FindsLabels, noted};

use crate::fault::ReadError;
use crate::looking::unknown;
use il_model::{WrittenLine, WrittenName};
use indexmap::IndexMap;
use std::alloc::{AllocError, Global};
use std::marker::Model;

/// The labels of a body, found by their hash, with the numbers of the instructions that follow them.
/// Contracts see each label of the lines, also one whose name stood before; its name finds the first.
#[derive(Drop)]
pub(crate) struct Labels<'a> {
    lines: &'a [WrittenLine],
    table: IndexMap<&'a [u8], u32>,
}

impl<'a> Model for Labels<'a> {
    ghost use Rattle.std.specs.Prelude.{List, ℕ};
    ghost use Rattle.il_model.specs.LookUp.{labels_from};
    ghost use Rattle.il_parse.specs.Labels.{FindsLabels};

    ghost Value = { List (List ℕ × ℕ) };

    ghost view = { λ l. labels_from 0 l.lines.now };

    ghost invariant = { λ l. FindsLabels (λ name. name.now) l.table (labels_from 0 l.lines.now) };
}

impl<'a> Labels<'a> {
    /// The labels among these lines.
    pub(crate) fn of(alloc: Global, lines: &'a [WrittenLine]) -> Result<Labels<'a>, AllocError>
        ensures { IfOk result (λ labels. labels ≡ labels_from 0 lines.now) }
    {
        let table = table_of(alloc, lines)?;
        Ok(Labels { lines, table })
    }

    // The number of the instruction that follows the first label of this name. No memory is taken.
    fn number(&self, name: &[u8]) -> Option<u32>
        ensures { result ≡ number_of_label self.now name.now }
    {
        match self.table.get(name) {
            Some(number) => Some(*number),
            None => None,
        }
    }
}

// The first label of each name, with its number.
fn table_of<'a>(
    alloc: Global,
    lines: &'a [WrittenLine],
) -> Result<IndexMap<&'a [u8], u32>, AllocError>
    ensures { IfOk result (λ table. FindsLabels (λ name. name.now) table (labels_from 0 lines.now)) }
{
    let mut table = IndexMap::new(alloc);
    let mut number = 0;
    for line in lines {
        match line {
            WrittenLine::Label(label) => {
                note(&mut table, label.name.text().as_bytes(), number)?;
            }
            WrittenLine::Instr(_) => {
                number = next(number)?;
            }
        }
    }
    Ok(table)
}

// Notes the number of a name that isn't there yet.
fn note<'a>(
    table: &mut IndexMap<&'a [u8], u32>,
    name: &'a [u8],
    number: u32,
) -> Result<(), AllocError>
    ensures { OnOk result ((other : List ℕ) → get_by (λ k. bytes_eq other k.now) table.new ≡ noted (get_by (λ k. bytes_eq other k.now) table.old) name.now number other) }
{
    if table.contains_key(name) {
        return Ok(());
    }
    match table.insert(name, number) {
        Ok(_) => Ok(()),
        Err(_) => Err(AllocError),
    }
}

// The number behind this one. No body has so many instructions that there is none.
fn next(number: u32) -> Result<u32, AllocError>
    ensures { IfOk result (λ after. after ≡ number + 1) }
{
    match number.checked_add(1) {
        Some(after) => Ok(after),
        None => Err(AllocError),
    }
}

/// The number of the instruction that follows a label.
#[tactic(auto, unfolding(crate::specs::NamedBodies::label_named))]
pub(crate) fn label_named(labels: &Labels<'_>, label: &WrittenName) -> Result<u32, ReadError>
    ensures { Looks (label_named labels.now label.now) result }
{
    match labels.number(label.name.text().as_bytes()) {
        Some(number) => Ok(number),
        None => Err(unknown(label)),
    }
}
