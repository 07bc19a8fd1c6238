// The template of a method or a class.
ghost use Rattle.std.specs.Prelude.{◌≡◌, OnOk, IfOk, flat_map, []};
ghost use Rattle.il_model.specs.Entries as spec;
ghost use Rattle.il_model.specs.declared.entry.Def.TheVariants as def;
ghost use Rattle.rgctx_template.specs.Collected.{collected};

use crate::collecting::{Entries, add_kind, add_type};
use crate::found::method_at;
use crate::members::{add_call, add_constrained, add_field, add_new, add_vector, add_virtual_call};
use crate::mention::{Mention, mention_of};
use il_model::{Body, Clause, Def, Entry, Op, Program, Sort};
use mn_outside::NoMemory;
use sqlite_items::Items;
use std::alloc::Global;

// Adds what an instruction fetches.
fn add_op(alloc: Global, program: &Program, entries: &mut Entries, op: &Op) -> Result<(), NoMemory>
    ensures { OnOk result (entries.new ≡ collected entries.old (spec.entries_of program.now op.now)) }
{
    match mention_of(op) {
        Mention::Nothing => Ok(()),
        Mention::Type(kind) => add_type(alloc, program, entries, kind),
        Mention::Kind(kind) => add_kind(alloc, entries, kind),
        Mention::Vector(kind) => add_vector(alloc, program, entries, kind),
        Mention::Field(field) => add_field(alloc, program, entries, field),
        Mention::Call(named) => add_call(alloc, program, entries, named),
        Mention::VirtualCall(named) => add_virtual_call(alloc, program, entries, named),
        Mention::Constrained(kind, named) => add_constrained(alloc, program, entries, kind, named),
        Mention::New(named) => add_new(alloc, program, entries, named),
    }
}

fn add_code(
    alloc: Global,
    program: &Program,
    entries: &mut Entries,
    code: &[Op],
) -> Result<(), NoMemory>
    ensures { OnOk result (entries.new ≡ collected entries.old (flat_map (spec.entries_of program.now) code.now)) }
{
    for op in code {
        add_op(alloc, program, entries, op)?;
    }
    Ok(())
}

fn add_clause(alloc: Global, entries: &mut Entries, clause: &Clause) -> Result<(), NoMemory>
    ensures { OnOk result (entries.new ≡ collected entries.old (spec.clause_entries clause.now)) }
{
    match &clause.sort {
        Sort::Catch(kind) => add_kind(alloc, entries, kind),
        Sort::Finally => Ok(()),
    }
}

fn add_clauses(alloc: Global, entries: &mut Entries, clauses: &[Clause]) -> Result<(), NoMemory>
    ensures { OnOk result (entries.new ≡ collected entries.old (flat_map spec.clause_entries clauses.now)) }
{
    for clause in clauses {
        add_clause(alloc, entries, clause)?;
    }
    Ok(())
}

fn template_of_body(alloc: Global, program: &Program, body: &Body) -> Result<Items<Entry>, NoMemory>
    ensures { IfOk result (λ es. es ≡ spec.once [] (spec.mentions_of program.now body.now)) }
{
    let mut entries = Entries::new(alloc);
    add_code(alloc, program, &mut entries, body.code.as_slice())?;
    add_clauses(alloc, &mut entries, body.clauses.as_slice())?;
    entries.into_items(alloc)
}

fn template_of_method(
    alloc: Global,
    program: &Program,
    number: u16,
) -> Result<Items<Entry>, NoMemory>
    ensures { IfOk result (λ es. es ≡ spec.template_of program.now (def.Method number)) }
{
    let Some(method) = method_at(program, number) else {
        return Ok(Items::new(alloc));
    };
    match &method.body {
        Some(body) => template_of_body(alloc, program, body),
        None => Ok(Items::new(alloc)),
    }
}

fn template_of_class(alloc: Global, count: u16) -> Result<Items<Entry>, NoMemory>
    ensures { IfOk result (λ es. es ≡ spec.slots_from 0 count) }
{
    let mut entries = Items::new(alloc);
    for number in 0..count {
        let Ok(()) = entries.push(Entry::Slot(number)) else {
            return Err(NoMemory);
        };
    }
    Ok(entries)
}

/// The template of a method or a class: what the instructions of the method's body fetch, in order, then
/// the kinds of its clauses, each entry once; or the slots of the class, as many as its definition says. A
/// member that isn't found gives no entry.
pub fn template(alloc: Global, program: &Program, definition: Def) -> Result<Items<Entry>, NoMemory>
    ensures { IfOk result (λ es. es ≡ spec.template_of program.now definition) }
{
    match definition {
        Def::Class(_, count) => template_of_class(alloc, count),
        Def::Method(number) => template_of_method(alloc, program, number),
    }
}
