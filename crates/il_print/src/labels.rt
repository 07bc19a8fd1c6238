// The places of a body that have a label.
ghost use Rattle.std.specs.Prelude.{◌≡◌, ◌+◌, ◌==◌, [], ◌∷◌, ◌++◌, OnOk, false, length, slice_set, true, unwrap_or, slice_get, replicate, position, IfOk, string_bytes};
ghost use Rattle.std.specs.List.{list_any};
ghost use Rattle.il_model.specs.Canonical.{places_of, is_named, label_text, targets_of, ends_of};
ghost use Rattle.il_print.specs.Marks.{marks_by, marked_at, targets_in, ends_in, ranks_from};
ghost use Rattle.il_print.specs.Operands.{seen};

use crate::operand::{Operand, operand_of};
use il_model::{Body, Clause, Op};
use mn_outside::NoMemory;
use std::alloc::Global;
use std::marker::Model;

/// The places that have a label, with its number. Contracts see the list of the places, in rising order.
#[derive(Drop)]
pub(crate) struct Labels {
    marks: Vec<bool>,
    ranks: Vec<usize>,
}

impl Model for Labels {
    ghost use Rattle.std.specs.Prelude.{◌≡◌, List, ℕ};
    ghost use Rattle.il_print.specs.Marks.{marked_from, ranks_from};

    ghost Value = { List ℕ };

    ghost view = { λ l. marked_from 0 l.marks.items };

    ghost invariant = { λ l. l.ranks.items ≡ ranks_from 0 l.marks.items };
}

impl Labels {
    /// The places that an instruction or a clause of this body names.
    pub(crate) fn of(alloc: Global, body: &Body) -> Result<Labels, NoMemory>
        ensures { IfOk result (λ labels. labels ≡ places_of body.now) }
    {
        let marks = marks_of(alloc, body)?;
        let ranks = ranks_of(alloc, marks.as_slice())?;
        Ok(Labels { marks, ranks })
    }

    /// Whether this place has a label.
    pub(crate) fn has(&self, at: usize) -> bool
        ensures { result ≡ list_any (λ to. to == at) self.now }
    {
        is_marked(self.marks.as_slice(), at)
    }

    /// The name of its label, or of the first one where it has none.
    pub(crate) fn name(&self, alloc: Global, at: usize) -> Result<String, NoMemory>
        ensures { IfOk result (λ name. string_bytes name ≡ label_text self.now at) }
    {
        let number = self.number(at);
        match format!(in alloc; "L{number}") {
            Ok(name) => Ok(name),
            Err(_) => Err(NoMemory),
        }
    }

    fn number(&self, at: usize) -> usize
        ensures { result ≡ unwrap_or (position (λ to. to == at) self.now) 0 }
    {
        if is_marked(self.marks.as_slice(), at) {
            rank_at(self.ranks.as_slice(), at)
        } else {
            0
        }
    }
}

fn is_marked(marks: &[bool], at: usize) -> bool
    ensures { result ≡ unwrap_or (slice_get marks.now at) false }
{
    marks.get(at).copied().unwrap_or(false)
}

fn rank_at(ranks: &[usize], at: usize) -> usize
    ensures { result ≡ unwrap_or (slice_get ranks.now at) 0 }
{
    ranks.get(at).copied().unwrap_or(0)
}

// A mark for each place of the body and for its end.
fn marks_of(alloc: Global, body: &Body) -> Result<Vec<bool>, NoMemory>
    ensures { IfOk result (λ marks. marks.items ≡ marks_by (is_named body.now) (length body.now.code + 1) 0) }
{
    let code = body.code.as_slice();
    let mut marks = no_marks(alloc, code.len() + 1)?;
    mark_code(&mut marks, code);
    mark_clauses(&mut marks, body.clauses.as_slice());
    Ok(marks)
}

fn no_marks(alloc: Global, count: usize) -> Result<Vec<bool>, NoMemory>
    ensures { IfOk result (λ marks. marks.items ≡ replicate count false) }
{
    match vec![in alloc; false; count] {
        Ok(marks) => Ok(marks),
        Err(_) => Err(NoMemory),
    }
}

fn mark_code(marks: &mut Vec<bool>, code: &[Op])
    ensures { marks.new.items ≡ marked_at marks.old.items (targets_in code.now) }
{
    for op in code {
        mark_targets(marks, operand_of(op));
    }
}

fn mark_clauses(marks: &mut Vec<bool>, clauses: &[Clause])
    ensures { marks.new.items ≡ marked_at marks.old.items (ends_in clauses.now) }
{
    for clause in clauses {
        mark_ends(marks, clause);
    }
}

fn mark_targets(marks: &mut Vec<bool>, operand: Operand)
    ensures { marks.new.items ≡ marked_at marks.old.items (targets_of (seen operand.entry)) }
{
    match operand {
        Operand::Target(to) => mark(marks, to),
        Operand::Targets(to) => mark_all(marks, to),
        Operand::Nothing
        | Operand::Int32(_)
        | Operand::Int64(_)
        | Operand::Literal(_)
        | Operand::Place(_)
        | Operand::Type(_)
        | Operand::Method(_)
        | Operand::Field(_)
        | Operand::Constrained(_, _) => {}
    }
}

fn mark_all(marks: &mut Vec<bool>, places: &[u32])
    ensures { marks.new.items ≡ marked_at marks.old.items places.now }
{
    for at in places {
        mark(marks, *at);
    }
}

fn mark_ends(marks: &mut Vec<bool>, clause: &Clause)
    ensures { marks.new.items ≡ marked_at marks.old.items (ends_of clause.now) }
{
    mark(marks, clause.from);
    mark(marks, clause.to);
    mark(marks, clause.handler);
    mark(marks, clause.end);
}

fn mark(marks: &mut Vec<bool>, at: u32)
    ensures { marks.new.items ≡ slice_set marks.old.items at true }
{
    if (at as usize) < marks.len() {
        marks[at as usize] = true;
    }
}

// For each place, how many before it are marked.
fn ranks_of(alloc: Global, marks: &[bool]) -> Result<Vec<usize>, NoMemory>
    ensures { IfOk result (λ ranks. ranks.items ≡ ranks_from 0 marks.now) }
{
    let mut ranks = Vec::new(alloc);
    let mut count = 0;
    for is_marked in marks {
        push(&mut ranks, count)?;
        if *is_marked {
            count += 1;
        }
    }
    Ok(ranks)
}

fn push(ranks: &mut Vec<usize>, rank: usize) -> Result<(), NoMemory>
    ensures { OnOk result (ranks.new.items ≡ ranks.old.items ++ rank ∷ []) }
{
    match ranks.push(rank) {
        Ok(()) => Ok(()),
        Err(_) => Err(NoMemory),
    }
}
