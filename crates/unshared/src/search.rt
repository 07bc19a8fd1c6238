// Throws, and the search for a clause from the throwing frame outwards. After ECMA-335, Partition I.
ghost use Rattle.std.specs.Prelude.{◌≡◌, ◌∷◌, List};
ghost use Rattle.type_tree.specs.declared.tree.TExpr.{TExpr as TheType};
ghost use Rattle.il_model.specs.ClassRules.{HasTypes};
ghost use Rattle.cil_meaning.specs.Search.{covers, clauses_of};
ghost use Rattle.type_inst.specs.Opening.{Extends};
ghost use Rattle.unshared.specs.Faults.{the_fault};
ghost use Rattle.unshared.specs.Going.{the_thrown};
ghost use Rattle.unshared.specs.Growing.{Grows};
ghost use Rattle.unshared.specs.Held.{the_frames};
ghost use Rattle.unshared.specs.Listed.{IsOnce};
ghost use Rattle.unshared.specs.Moved.{Halted};
ghost use Rattle.unshared.specs.Searched.{Tells, takes, finds, searched, raised};

use crate::fault::{Fault, class_of_fault};
use crate::found::method_at;
use crate::frames::{Frame, Frames, Thrown};
use crate::mentions::settle;
use crate::pause::{Halt, Pause, Replies};
use crate::trees::Trees;
use crate::types::{copied, passes_as, put_type};
use il_model::{Clause, Entry, MethodTree, Program, Sort};
use std::alloc::Global;
use store_object::Request;
use type_tree::{Head, TExpr};

// Whether an instruction stands in a clause's try.
fn covers(clause: &Clause, at: u32) -> bool
    ensures { result ≡ covers clause.now at }
{
    if clause.from <= at {
        at < clause.to
    } else {
        false
    }
}

// Whether a clause takes the exception, which an instruction threw, or a call there.
#[tactic(auto, using(crate::proofs::NumberLemmas::grown_same))]
fn takes(
    alloc: Global,
    program: &Program,
    trees: &mut Trees,
    replies: &mut Replies<'_>,
    method: &MethodTree,
    clause: &Clause,
    at: u32,
    thrown: Thrown,
) -> Result<bool, Pause>
    requires types { HasTypes program.now }
    requires once { IsOnce trees.old.kinds }
    ensures grows { Grows trees.old.kinds trees.new.kinds result }
    ensures tells { (later : List TheType) → Extends trees.new.kinds later →
        Tells (λ b. b) (takes program.now later method.now thrown.kind at clause.now replies.old) result replies.new }
{
    if !covers(clause, at) {
        return Ok(false);
    }
    let Sort::Catch(kind) = &clause.sort else {
        return Err(Pause::Halts(Halt::Stuck));
    };
    let entry = Entry::Kind(copied(alloc, kind)?);
    settle(alloc, program, trees, replies, method, &entry)?;
    let asked = put_type(alloc, method, kind)?;
    let Some(exact) = trees.get(u64::from(thrown.kind)) else {
        return Err(Pause::Halts(Halt::Unnamed));
    };
    Ok(passes_as(alloc, program, exact, &asked)?)
}

// The handler of the first of these clauses that takes the exception.
#[tactic(auto, using(crate::proofs::NumberLemmas::grown_same, crate::proofs::NumberLemmas::grown_both))]
fn handler_among(
    alloc: Global,
    program: &Program,
    trees: &mut Trees,
    replies: &mut Replies<'_>,
    frame: &Frame,
    clauses: &[Clause],
    thrown: Thrown,
) -> Result<Option<u32>, Pause>
    requires types { HasTypes program.now }
    requires once { IsOnce trees.old.kinds }
    ensures grows { Grows trees.old.kinds trees.new.kinds result }
    ensures tells { (later : List TheType) → Extends trees.new.kinds later →
        Tells (λ handler. handler) (finds program.now later frame.now.method thrown.kind frame.now.at clauses.now replies.old) result replies.new }
{
    for clause in clauses {
        let method = &frame.method;
        if takes(
            alloc, program, trees, replies, method, clause, frame.at, thrown,
        )? {
            return Ok(Some(clause.handler));
        }
    }
    Ok(None)
}

// The handler of a frame that takes the exception.
#[tactic(auto, using(crate::proofs::NumberLemmas::grown_same), unfolding(crate::specs::Searched::finds))]
fn handler_in(
    alloc: Global,
    program: &Program,
    trees: &mut Trees,
    replies: &mut Replies<'_>,
    frame: &Frame,
    thrown: Thrown,
) -> Result<Option<u32>, Pause>
    requires types { HasTypes program.now }
    requires once { IsOnce trees.old.kinds }
    ensures grows { Grows trees.old.kinds trees.new.kinds result }
    ensures tells { (later : List TheType) → Extends trees.new.kinds later →
        Tells (λ handler. handler) (finds program.now later frame.now.method thrown.kind frame.now.at (clauses_of program.now frame.now.method) replies.old) result replies.new }
{
    let Some(definition) = method_at(program, frame.method.method) else {
        return Ok(None);
    };
    let Some(body) = &definition.body else {
        return Ok(None);
    };
    handler_among(
        alloc,
        program,
        trees,
        replies,
        frame,
        body.clauses.as_slice(),
        thrown,
    )
}

/// The search, from the innermost frame outwards. Where no clause matches, the run ends with the exact type.
#[tactic(auto, using(crate::proofs::NumberLemmas::grown_same, crate::proofs::NumberLemmas::grown_both))]
pub(crate) fn searches(
    alloc: Global,
    program: &Program,
    trees: &mut Trees,
    replies: &mut Replies<'_>,
    frames: &mut Frames,
    thrown: Thrown,
) -> Result<(), Pause>
    requires types { HasTypes program.now }
    requires once { IsOnce trees.old.kinds }
    ensures grows { Grows trees.old.kinds trees.new.kinds result }
    ensures tells { (later : List TheType) → Extends trees.new.kinds later →
        Tells (λ nothing. the_frames frames.new) (searched program.now later (the_thrown thrown) (the_frames frames.old).frames (the_frames frames.old).places replies.old) result replies.new }
    ensures kept { Halted result frames.old frames.new }
{
    let innermost = frames.around.len();
    for passed in 0..innermost + 1 {
        let Some(frame) = frames.frame_past(passed) else {
            unreachable!();
        };
        let found = handler_in(alloc, program, trees, replies, frame, thrown)?;
        if let Some(handler) = found {
            frames.handles(passed, handler, thrown)?;
            return Ok(());
        }
    }
    replies.done(Request::Fall { kind: thrown.kind })?;
    Err(Pause::Halts(replies.over()))
}

/// An instruction throws a new exception.
#[tactic(auto, using(crate::proofs::NumberLemmas::grown_same, crate::proofs::NumberLemmas::grown_both))]
pub(crate) fn throws(
    alloc: Global,
    program: &Program,
    trees: &mut Trees,
    replies: &mut Replies<'_>,
    frames: &mut Frames,
    fault: Fault,
) -> Result<(), Pause>
    requires types { HasTypes program.now }
    requires once { IsOnce trees.old.kinds }
    ensures grows { Grows trees.old.kinds trees.new.kinds result }
    ensures tells { (later : List TheType) → Extends trees.new.kinds later →
        Tells (λ nothing. the_frames frames.new) (raised program.now later (the_fault fault) (the_frames frames.old) replies.old) result replies.new }
    ensures kept { Halted result frames.old frames.new }
{
    let class = TExpr::plain(alloc, Head::Class(class_of_fault(fault)));
    let kind = trees.number_of(alloc, &class)?;
    let object = replies.object(Request::Alloc {
        kind,
        length: 0,
        words: 0,
    })?;
    let thrown = Thrown { object, kind };
    searches(alloc, program, trees, replies, frames, thrown)
}
