// The choice of the bodies that an image has.
ghost use Rattle.std.specs.Prelude.{◌≡◌, ◌≤◌, Ok, OnOk, length};
ghost use Rattle.il_model.specs.ClassRules.{HasTypes};
ghost use Rattle.cil_verify.specs.Sizes.{FitsNumbers};
ghost use Rattle.cil_verify.specs.Verifies.{IsVerified};
ghost use Rattle.aot_image.specs.Choosing.{chosen, Chooses, after_line, left_by};
ghost use Rattle.aot_image.specs.ChoosingLines.{judged};
ghost use Rattle.aot_image.specs.ChoosingParts.{lines_of};
ghost use Rattle.aot_image.specs.ChoosingPicks.{picks_after};
ghost use Rattle.aot_image.specs.ChoosingNames.{AreTablesOf};
ghost use Rattle.aot_image.specs.ChoosingRounds.{live_of, IsKept, IsWithin, LeavesLine};

use crate::choice_fault::{ChoiceCause, ChoiceFault};
use crate::choice_judging::{Act, judged};
use crate::choice_names::{Tables, tables_of};
use crate::choice_parts::part_len;
use crate::choice_picks::{Picks, add, add_all, choice_of, no_picks, take_away};
use cil_verify::Verified;
use il_model::Program;
use mn_outside::{NoMemory, Refused};
use share_canon::Choice;
use std::alloc::Global;

// Does what a line says.
fn done(alloc: Global, program: &Program, picks: &mut Picks, act: Act) -> Result<(), NoMemory>
    requires kept { IsKept picks.old.rounds.items picks.old.entries.keys }
    requires count { length picks.old.rounds.items ≡ length program.now.methods }
    requires few { length program.now.methods ≤ 65536 }
    requires within { IsWithin program.now act }
    ensures live { OnOk result (live_of picks.new.rounds.items picks.new.entries.keys ≡
        picks_after program.now act (live_of picks.old.rounds.items picks.old.entries.keys)) }
    ensures kept { OnOk result (IsKept picks.new.rounds.items picks.new.entries.keys) }
    ensures count { OnOk result (length picks.new.rounds.items ≡ length picks.old.rounds.items) }
{
    match act {
        Act::Nothing => Ok(()),
        Act::AddsAll => add_all(alloc, program, picks),
        Act::TakesAway(number) => take_away(picks, number),
        Act::Adds(number, parts) => add(picks, number, parts),
    }
}

// Judges a line and does what it says.
fn take_line(
    alloc: Global,
    program: &Program,
    tables: &Tables,
    picks: &mut Picks,
    line: &[u8],
) -> Result<(), Refused<ChoiceCause>>
    requires types { HasTypes program.now }
    requires tables { AreTablesOf program.now tables.now }
    requires kept { IsKept picks.old.rounds.items picks.old.entries.keys }
    requires count { length picks.old.rounds.items ≡ length program.now.methods }
    ensures live { LeavesLine (after_line program.now (live_of picks.old.rounds.items picks.old.entries.keys) (judged program.now line.now))
        result (live_of picks.new.rounds.items picks.new.entries.keys) }
    ensures kept { OnOk result (IsKept picks.new.rounds.items picks.new.entries.keys) }
    ensures count { OnOk result (length picks.new.rounds.items ≡ length picks.old.rounds.items) }
{
    match judged(alloc, program, tables, line) {
        Ok(act) => match done(alloc, program, picks, act) {
            Ok(()) => Ok(()),
            Err(NoMemory) => Err(Refused::NoMemory),
        },
        Err(Refused::Fault(cause)) => Err(Refused::Fault(cause)),
        Err(Refused::NoMemory) => Err(Refused::NoMemory),
    }
}

// Takes the lines of a text, one after another, behind those before them.
#[tactic(auto, using(crate::proofs::ChoosingLineLemmas::lines_first, crate::proofs::ChoosingLineLemmas::lines_fault, crate::proofs::ChoosingLineLemmas::lines_end, crate::proofs::ChoosingLineLemmas::lines_fewer, crate::proofs::ChoosingLineLemmas::lines_more))]
fn take_lines(
    alloc: Global,
    program: &Program,
    tables: &Tables,
    picks: &mut Picks,
    text: &[u8],
) -> Result<(), Refused<ChoiceFault>>
    requires types { HasTypes program.now }
    requires tables { AreTablesOf program.now tables.now }
    requires kept { IsKept picks.old.rounds.items picks.old.entries.keys }
    requires count { length picks.old.rounds.items ≡ length program.now.methods }
    ensures { LeavesLine (left_by program.now 1 (live_of picks.old.rounds.items picks.old.entries.keys) (lines_of text.now))
        result (live_of picks.new.rounds.items picks.new.entries.keys) }
{
    let mut line: u64 = 1;
    let mut rest = text;
    'lines: loop {
        let (front, behind) = rest.split_at(part_len(rest, b'\n'));
        match take_line(alloc, program, tables, picks, front) {
            Ok(()) => {}
            Err(Refused::Fault(cause)) => return Err(Refused::Fault(ChoiceFault { line, cause })),
            Err(Refused::NoMemory) => return Err(Refused::NoMemory),
        }
        match behind.split_first() {
            Some((_, next)) => {
                rest = next;
                line += 1;
            }
            None => return Ok(()),
        }
    }
}

// The picks that are kept, as a choice.
fn finished(alloc: Global, picks: Picks) -> Result<Choice, Refused<ChoiceFault>>
    ensures { Chooses (Ok (live_of picks.rounds.items picks.entries.keys)) result }
{
    match choice_of(alloc, picks) {
        Ok(choice) => Ok(choice),
        Err(NoMemory) => Err(Refused::NoMemory),
    }
}

// The bodies that a choice leaves for a program.
#[tactic(auto, using(crate::proofs::ChoosingLineLemmas::hands_on))]
fn choose(alloc: Global, program: &Program, text: &[u8]) -> Result<Choice, Refused<ChoiceFault>>
    requires types { HasTypes program.now }
    requires classes { length program.now.classes ≤ 65536 }
    requires methods { length program.now.methods ≤ 65536 }
    ensures { Chooses (chosen program.now text.now) result }
{
    let Ok(tables) = tables_of(alloc, program) else {
        return Err(Refused::NoMemory);
    };
    let Ok(mut picks) = no_picks(alloc, program.methods.len()) else {
        return Err(Refused::NoMemory);
    };
    match take_lines(alloc, program, &tables, &mut picks, text) {
        Ok(()) => finished(alloc, picks),
        Err(e) => Err(e),
    }
}

/// The bodies that a choice leaves for a program, in order: for each the number of its method and its key.
/// Lines end with `\n` or the end of the text, and are counted from 1. An empty line, or one that begins with
/// `//`, says nothing; `*` adds the key of `any` alone for each method that may have a compiled body;
/// `!METHOD` takes away what was added for the method; `METHOD KEY ..` adds a key. The fault is the first bad
/// line with the first of its causes. This project's own.
#[tactic(auto, using(crate::proofs::ChoosingBoundsLemmas::has_types))]
pub fn choice(
    alloc: Global,
    text: &[u8],
    program: &Verified,
) -> Result<Choice, Refused<ChoiceFault>>
    requires verified { IsVerified program.now }
    requires numbers { FitsNumbers program.now.program }
    ensures { Chooses (chosen program.now.program text.now) result }
{
    choose(alloc, &program.program, text)
}
