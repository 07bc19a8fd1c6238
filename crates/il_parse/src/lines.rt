// The labels and instructions of a body.
ghost use Rattle.std.specs.Prelude.{◌≡◌, [], IfOk};
ghost use Rattle.il_parse.specs.Reading.{Reads};
ghost use Rattle.il_parse.specs.Bodies as spec;
ghost use Rattle.il_parse.specs.Operands.{read_instr, read_meaning};
ghost use Rattle.il_parse.specs.Tables.{mnemonic_view};
ghost use Rattle.il_parse.specs.Lines.{start_view, start_of_line, label_line, instr_line, one_line, left_behind};

use crate::calls::read_call;
use crate::cursor::{Cursor, is_left_out};
use crate::fault::{ParseCause, ReadError};
use crate::forms::operand_kind;
use crate::mnemonics::{Says, held_operand, mnemonic_of};
use crate::operands::read_operand;
use il_model::{Form, WrittenInstr, WrittenLine, WrittenOperand};
use sqlite_items::Items;
use std::alloc::Global;

// A body has at most so many instructions.
const MOST_INSTRS: usize = 16_384;

/// What a line begins with: a label; the word of an instruction; a word that is left out; or another.
#[derive(Clone, Copy)]
pub(crate) enum Start {
    NoLine,
    Label,
    Instr(Says),
    LeftOut,
    Unknown,
}

// What the first tokens begin. A word before `:` is a label, whatever else it is, except `.try`.
#[tactic(auto, using(crate::proofs::LineLemmas::starts_none, crate::proofs::LineLemmas::starts_try, crate::proofs::LineLemmas::starts_label, crate::proofs::LineLemmas::starts_word))]
fn start_of_line(cursor: &Cursor<'_>) -> Start
    ensures { start_view result ≡ start_of_line cursor.now }
{
    if !cursor.is_word() || cursor.sees(b".try") {
        return Start::NoLine;
    }
    if cursor.sees_second(b":") {
        return Start::Label;
    }
    match mnemonic_of(cursor.bytes()) {
        Some(says) => Start::Instr(says),
        None => {
            if is_left_out(cursor.bytes()) {
                Start::LeftOut
            } else {
                Start::Unknown
            }
        }
    }
}

// What the word says, with the operand that follows it.
#[tactic(auto, unfolding(crate::specs::Operands::read_meaning))]
fn read_meaning(
    alloc: Global,
    cursor: &mut Cursor<'_>,
    says: Says,
) -> Result<(Form, WrittenOperand), ReadError>
    ensures { Reads (read_meaning (mnemonic_view says) cursor.old) result cursor.new }
{
    match says {
        Says::Calls => read_call(alloc, cursor),
        Says::Takes(form) => Ok((form, read_operand(alloc, cursor, operand_kind(form))?)),
        Says::Holds(form, held) => Ok((form, held_operand(held))),
    }
}

// An instruction behind its word, which is at this place and says this.
#[tactic(auto, unfolding(crate::specs::Operands::read_instr))]
fn read_instr(
    alloc: Global,
    cursor: &mut Cursor<'_>,
    at: u32,
    says: Says,
) -> Result<WrittenInstr, ReadError>
    ensures { Reads (read_instr at (mnemonic_view says) cursor.old) result cursor.new }
{
    let (form, operand) = read_meaning(alloc, cursor, says)?;
    Ok(WrittenInstr { at, form, operand })
}

// An instruction and its word, which says this.
#[tactic(auto, using(crate::proofs::LineLemmas::instr_none, crate::proofs::LineLemmas::instr_some))]
fn instr_line(
    alloc: Global,
    cursor: &mut Cursor<'_>,
    says: Says,
) -> Result<Option<WrittenLine>, ReadError>
    ensures { Reads (instr_line (mnemonic_view says) cursor.old) result cursor.new }
{
    let Some(at) = cursor.at() else {
        return Err(cursor.stuck());
    };
    cursor.advance();
    let instr = read_instr(alloc, cursor, at, says)?;
    Ok(Some(WrittenLine::Instr(instr)))
}

// A label and its colon.
#[tactic(auto, using(crate::proofs::LineLemmas::label_is))]
fn label_line(alloc: Global, cursor: &mut Cursor<'_>) -> Result<Option<WrittenLine>, ReadError>
    ensures { Reads (label_line cursor.old) result cursor.new }
{
    let name = cursor.take_name(alloc)?;
    cursor.advance();
    Ok(Some(WrittenLine::Label(name)))
}

// The next line, where so many instructions may still come, or None behind the last. A word that is no
// instruction could still have been a label, so it is the token behind it that can't go on.
#[tactic(auto, unfolding(crate::specs::Lines::one_line))]
fn one_line(
    alloc: Global,
    cursor: &mut Cursor<'_>,
    left: usize,
) -> Result<Option<WrittenLine>, ReadError>
    ensures { Reads (one_line left cursor.old) result cursor.new }
{
    match start_of_line(cursor) {
        Start::NoLine => Ok(None),
        Start::Label => label_line(alloc, cursor),
        Start::Instr(says) => {
            if left == 0 {
                return Err(cursor.stop(ParseCause::TooMany));
            }
            instr_line(alloc, cursor, says)
        }
        Start::LeftOut => Err(cursor.stuck()),
        Start::Unknown => {
            cursor.advance();
            Err(cursor.stuck())
        }
    }
}

// How many instructions may come behind this line.
fn left_behind(left: usize, line: &WrittenLine) -> usize
    ensures { result ≡ left_behind left line.now }
{
    match line {
        WrittenLine::Label(_) => left,
        WrittenLine::Instr(_) => left.saturating_sub(1),
    }
}

/// The labels and instructions of a body.
pub(crate) fn read_lines(
    alloc: Global,
    cursor: &mut Cursor<'_>,
) -> Result<Items<WrittenLine>, ReadError>
    ensures { Reads (spec.read_lines cursor.old) result cursor.new }
{
    let mut found = Items::new(alloc);
    let mut left = MOST_INSTRS;
    for _turn in 0..cursor.left() {
        let Some(line) = one_line(alloc, cursor, left)? else {
            return Ok(found);
        };
        left = left_behind(left, &line);
        found.push(line)?;
    }
    Ok(found)
}
