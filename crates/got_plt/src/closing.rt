// The closed entries of an image.
ghost use Rattle.std.specs.Prelude.{◌≡◌, IfOk, OnOk, map, flat_map};
ghost use Rattle.il_model.specs.Entries.{closed_entry};
ghost use Rattle.rgctx_template.specs.Collected.{collected};
ghost use Rattle.il_model.specs.Found.{method_at};
ghost use Rattle.got_plt.specs.Closed.{closed_template, closed_of, closed_entries};

use crate::exact::{count_of_owner, exact_types, is_exact_key, method_at, split};
use il_model::{Def, Entry, Key, Program};
use mn_outside::NoMemory;
use rgctx_template::{Entries, add, closed_entry, template};
use share_canon::Choice;
use sqlite_items::Items;
use std::alloc::Global;
use type_tree::Tree;

// Adds the entries, closed.
fn add_closed(
    alloc: Global,
    entries: &mut Entries,
    written: &[Entry],
    class_args: &[Tree],
    method_args: &[Tree],
) -> Result<(), NoMemory>
    ensures { OnOk result (entries.new ≡ collected entries.old (map (closed_entry class_args.now method_args.now) written.now)) }
{
    for entry in written {
        let closed = closed_entry(alloc, entry, class_args, method_args)?;
        add(entries, closed)?;
    }
    Ok(())
}

// Adds what the body of a method fetches at these types.
fn add_method(
    alloc: Global,
    program: &Program,
    entries: &mut Entries,
    number: u16,
    types: &[Tree],
) -> Result<(), NoMemory>
    ensures { OnOk result (entries.new ≡ collected entries.old (closed_template program.now number types.now (method_at program.now number))) }
{
    let Some(method) = method_at(program, number) else {
        return Ok(());
    };
    let written = template(alloc, program, Def::Method(number))?;
    let (class_args, method_args) = split(types, count_of_owner(program, method));
    add_closed(alloc, entries, written.as_slice(), class_args, method_args)?;
    Ok(())
}

// Adds what the body of a pick fetches, if its key is exact.
fn add_pick(
    alloc: Global,
    program: &Program,
    entries: &mut Entries,
    pick: &(u16, Key),
) -> Result<(), NoMemory>
    ensures { OnOk result (entries.new ≡ collected entries.old (closed_of program.now pick.now)) }
{
    let parts = pick.1.parts.as_slice();
    if !is_exact_key(parts) {
        return Ok(());
    }
    let types = exact_types(alloc, parts)?;
    add_method(alloc, program, entries, pick.0, types.as_slice())?;
    Ok(())
}

fn add_picks(
    alloc: Global,
    program: &Program,
    entries: &mut Entries,
    picks: &[(u16, Key)],
) -> Result<(), NoMemory>
    ensures { OnOk result (entries.new ≡ collected entries.old (flat_map (closed_of program.now) picks.now)) }
{
    for pick in picks {
        add_pick(alloc, program, entries, pick)?;
    }
    Ok(())
}

/// The closed entries of an image with these bodies: for each exact key, in order, the template of its method
/// with the key's types put for the variables, those of the class first; each entry once, at its first place,
/// whether it is admitted or not. A key that is not exact gives none. A method without a body has no
/// template, and a member that isn't found gives no entry. This project's own.
pub fn closed(alloc: Global, program: &Program, picks: &Choice) -> Result<Items<Entry>, NoMemory>
    ensures { IfOk result (λ es. es ≡ closed_entries program.now picks.now.picks) }
{
    let mut entries = Entries::new(alloc);
    add_picks(alloc, program, &mut entries, picks.picks.as_slice())?;
    entries.into_items(alloc)
}
