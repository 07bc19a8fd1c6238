// The values of entries that need no node, and the entry word of a method.
ghost use Rattle.std.specs.Prelude.{◌≡◌, ◌++◌, ◌+◌, ◌<◌, ◌^◌, IfOk, OnOk, Some, length, take, count_by, not, slice_get, option_map, option_and_then};
ghost use Rattle.std.specs.Option.{option_copied};
ghost use Rattle.il_model.specs.Entries.{arguments_of};
ghost use Rattle.il_model.specs.Layouts.{layout_of, fields_in};
ghost use Rattle.il_model.specs.Find.{class_of};
ghost use Rattle.rgctx_template.specs.Catalogue.{data_of};
ghost use Rattle.rgctx_fill.specs.NamedValues.{IsEntryWord, size_value, extent_value, is_instance, offset_in, offset_of, offset_value};
ghost use Rattle.rgctx_fill.specs.Starting.{HasOffset};

use il_model::{FieldDef, Layout, MethodTree, Program, class_of};
use mn_outside::NoMemory;
use rgctx_template::Catalogue;
use share_canon::pick;
use std::alloc::Global;
use type_inst::{arguments_of, is_value, layout, words_of};
use type_tree::{Tree, copy_all};

// The entry word of the body that serves a method best, 0 where none does.
pub(crate) fn entry_word(
    alloc: Global,
    cat: &Catalogue,
    method: &MethodTree,
) -> Result<u32, NoMemory>
    requires { length cat.now.bodies.now < 2 ^ 32 }
    ensures { IfOk result (λ word. IsEntryWord (data_of cat.now) method.now word) }
{
    let mut args = copy_all(alloc, arguments_of(&method.class))?;
    args.append(copy_all(alloc, method.args.as_slice())?)
        .map_err(|_| NoMemory)?;
    let rows = cat.bodies.as_slice();
    match pick(cat.program, rows, method.method, args.as_slice()) {
        Some(place) => match rows.get(place as usize) {
            Some(row) => Ok(row.entry),
            None => Ok(0),
        },
        None => Ok(0),
    }
}

pub(crate) fn size_value(alloc: Global, program: &Program, kind: &Tree) -> Result<u64, NoMemory>
    ensures value { IfOk result (λ value. value ≡ size_value program.now kind.now) }
    ensures small { IfOk result (λ value. value < 2 ^ 63) }
{
    let words = words_of(alloc, program, kind)?;
    let own = if is_value(program, kind) { 1 } else { 0 };
    Ok(2 * u64::from(words) + own + 1)
}

pub(crate) fn extent_value(alloc: Global, program: &Program, kind: &Tree) -> Result<u64, NoMemory>
    ensures value { IfOk result (λ value. value ≡ extent_value program.now kind.now) }
    ensures small { IfOk result (λ value. value < 2 ^ 63) }
{
    let own = layout(alloc, program, kind)?;
    Ok(u64::from(own.words) + 1)
}

// The offset of the class's own field at this place, and one.
pub(crate) fn offset_value(
    alloc: Global,
    program: &Program,
    class: &Tree,
    place: u16,
) -> Result<u64, NoMemory>
    requires { HasOffset program.now class.now place }
    ensures value { IfOk result (λ value. offset_value program.now class.now place ≡ Some value) }
    ensures small { IfOk result (λ value. value < 2 ^ 63) }
{
    let own = layout(alloc, program, class)?;
    match own_offset(program, class, &own, place as usize) {
        Some(offset) => Ok(u64::from(offset) + 1),
        None => unreachable!(),
    }
}

// Where the class's own field at this place lies.
fn own_offset(program: &Program, class: &Tree, layout: &Layout, place: usize) -> Option<u32>
    requires { layout.now ≡ layout_of program.now class.now }
    ensures { result ≡ offset_of program.now class.now place }
{
    match class_of(program, class) {
        Some(definition) => offset_at(layout, definition.fields.as_slice(), place),
        None => None,
    }
}

fn offset_at(layout: &Layout, fields: &[FieldDef], place: usize) -> Option<u32>
    ensures { result ≡ option_and_then (offset_in layout.now fields.now place) (slice_get fields.now place) }
{
    match fields.get(place) {
        Some(field) => offset_in(layout, fields, place, field),
        None => None,
    }
}

fn offset_in(layout: &Layout, fields: &[FieldDef], place: usize, field: &FieldDef) -> Option<u32>
    requires { place < length fields.now }
    ensures { result ≡ offset_in layout.now fields.now place field.now }
{
    let before = &fields[..place];
    if field.fixed {
        let i = fixed_count(before);
        layout.fixed_offsets.as_slice().get(i).copied()
    } else {
        let own = instance_count(fields);
        let offsets = layout.offsets.as_slice();
        let first = offsets.len().saturating_sub(own);
        offsets.get(first + instance_count(before)).copied()
    }
}

fn fixed_count(fields: &[FieldDef]) -> usize
    ensures { result ≡ count_by (λ each. each.fixed) fields.now }
{
    fields.iter().filter(|f| f.fixed).count()
}

fn instance_count(fields: &[FieldDef]) -> usize
    ensures { result ≡ count_by is_instance fields.now }
{
    fields.iter().filter(|f| !f.fixed).count()
}
