// Bodies as they are written.
ghost use Rattle.std.specs.Prelude.{◌≡◌, [], codes};
ghost use Rattle.il_parse.specs.Reading.{Reads, read_many, read_separated};
ghost use Rattle.il_parse.specs.Types.{read_enclosed, read_param};
ghost use Rattle.il_parse.specs.Bodies as spec;

use crate::cursor::Cursor;
use crate::fault::{ParseCause, ReadError};
use crate::lines::read_lines;
use crate::params::read_some_params;
use crate::types::read_type;
use il_model::{WrittenBody, WrittenClause, WrittenParam};
use sqlite_items::Items;
use std::alloc::Global;

// The word `.entrypoint`, if it stands there, where it may.
#[tactic(auto, using(crate::proofs::BodyLemmas::entry_absent, crate::proofs::BodyLemmas::entry_refused, crate::proofs::BodyLemmas::entry_read))]
fn read_entry(cursor: &mut Cursor<'_>, may_begin: bool) -> Result<Option<u32>, ReadError>
    ensures { Reads (spec.read_entry may_begin cursor.old) result cursor.new }
{
    if !cursor.sees(b".entrypoint") {
        return Ok(None);
    }
    if !may_begin {
        return Err(cursor.stop(ParseCause::Syntax));
    }
    let at = cursor.at();
    cursor.advance();
    Ok(at)
}

// The locals between `(` and `)`.
#[tactic(auto, unfolding(crate::specs::Types::read_enclosed))]
fn some_locals(alloc: Global, cursor: &mut Cursor<'_>) -> Result<Items<WrittenParam>, ReadError>
    ensures { Reads (read_enclosed (read_separated read_param (codes ",")) cursor.old) result cursor.new }
{
    cursor.expect(b"(")?;
    let locals = read_some_params(alloc, cursor)?;
    cursor.expect(b")")?;
    Ok(locals)
}

// The locals, if there are any.
#[tactic(auto, unfolding(crate::specs::Bodies::read_locals))]
fn read_locals(alloc: Global, cursor: &mut Cursor<'_>) -> Result<Items<WrittenParam>, ReadError>
    ensures { Reads (spec.read_locals cursor.old) result cursor.new }
{
    if !cursor.eat(b".locals") {
        return Ok(Items::new(alloc));
    }
    cursor.expect(b"init")?;
    some_locals(alloc, cursor)
}

#[tactic(auto, unfolding(crate::specs::Bodies::read_clause))]
fn read_clause(alloc: Global, cursor: &mut Cursor<'_>) -> Result<WrittenClause, ReadError>
    ensures { Reads (spec.read_clause cursor.old) result cursor.new }
{
    cursor.expect(b".try")?;
    let from = cursor.name(alloc)?;
    cursor.expect(b"to")?;
    let to = cursor.name(alloc)?;
    cursor.expect(b"catch")?;
    let catches = read_type(alloc, cursor)?;
    cursor.expect(b"handler")?;
    let handler = cursor.name(alloc)?;
    cursor.expect(b"to")?;
    let end = cursor.name(alloc)?;
    Ok(WrittenClause {
        from,
        to,
        catches,
        handler,
        end,
    })
}

fn read_clauses(alloc: Global, cursor: &mut Cursor<'_>) -> Result<Items<WrittenClause>, ReadError>
    ensures { Reads (read_many spec.read_clause (codes ".try") cursor.old) result cursor.new }
{
    let mut found = Items::new(alloc);
    for _turn in 0..cursor.left() {
        if !cursor.sees(b".try") {
            return Ok(found);
        }
        found.push(read_clause(alloc, cursor)?)?;
    }
    Ok(found)
}

/// What stands between the braces of a method that may have the entry point or not.
#[tactic(auto, unfolding(crate::specs::Bodies::read_body))]
pub(crate) fn read_body(
    alloc: Global,
    cursor: &mut Cursor<'_>,
    may_begin: bool,
) -> Result<WrittenBody, ReadError>
    ensures { Reads (spec.read_body may_begin cursor.old) result cursor.new }
{
    let entry = read_entry(cursor, may_begin)?;
    let locals = read_locals(alloc, cursor)?;
    let lines = read_lines(alloc, cursor)?;
    let clauses = read_clauses(alloc, cursor)?;
    Ok(WrittenBody {
        entry,
        locals,
        lines,
        clauses,
    })
}
