// How large the type of a key is, before it is built.
ghost use Rattle.std.specs.Prelude.{◌≡◌, ◌-◌, ◌&&◌, ◌∷◌, [], true, false, reverse, OnOk, IfErr, IfSome, IfNone};
ghost use Rattle.il_model.specs.declared.program.Program.{Program};
ghost use Rattle.aot_image.specs.declared.choice_read_error.ReadError.TheVariants as error;
ghost use Rattle.aot_image.specs.ChoosingTypes.{type_of};
ghost use Rattle.aot_image.specs.ChoosingNames.{AreTablesOf};
ghost use Rattle.aot_image.specs.ChoosingSizes.{at, extent_with, Goes, Extends};

use crate::choice_cursor::Cursor;
use crate::choice_names::Tables;
use crate::choice_read_error::ReadError;
use crate::choice_start::{Start, start_of};
use crate::choice_types::mark_before;
use il_model::Program;
use std::alloc::Global;

/// How many positions more a type may have before it has one too many, and whether it has no variable.
#[derive(Clone, Copy)]
pub(crate) struct Extent {
    pub(crate) room: usize,
    pub(crate) closed: bool,
}

// The extent behind one position more, which is a variable or is not.
fn with_position(extent: Extent, closed: bool) -> Extent
    ensures { result ≡ extent_with (extent.room - 1) (extent.closed && closed) }
{
    Extent {
        room: extent.room.saturating_sub(1),
        closed: extent.closed && closed,
    }
}

// Puts at the end how many more arguments follow.
fn put(more: &mut Vec<usize>, count: usize) -> Result<(), ReadError>
    ensures ok { OnOk result (reverse more.new.items ≡ count ∷ reverse more.old.items) }
    ensures memory { IfErr result (λ e. e ≡ error.Memory) }
{
    more.push(count)?;
    Ok(())
}

// Takes the last count away.
fn take(more: &mut Vec<usize>) -> Option<usize>
    ensures some { IfSome result (λ count. reverse more.old.items ≡ count ∷ reverse more.new.items) }
    ensures none { IfNone result (reverse more.old.items ≡ []) }
{
    more.pop()
}

// Reads how a type begins. Answers whether another type follows inside it.
fn begin_type(
    program: &Program,
    tables: &Tables,
    cursor: &mut Cursor<'_>,
    more: &mut Vec<usize>,
    extent: &mut Extent,
) -> Result<Option<bool>, ReadError>
    requires { AreTablesOf program.now tables.now }
    ensures { Goes program.now true (at cursor.old (reverse more.old.items) extent.old) result (at cursor.new (reverse more.new.items) extent.new) }
{
    let word = cursor.take_word();
    match start_of(program, tables, word) {
        Start::NoType => Err(ReadError::Malformed),
        Start::Scalar(_) => {
            *extent = with_position(*extent, true);
            Ok(Some(false))
        }
        Start::Variable => {
            *extent = with_position(*extent, false);
            Ok(Some(false))
        }
        Start::Class(_, arity) => {
            *extent = with_position(*extent, true);
            if arity == 0 {
                return Ok(Some(false));
            }
            cursor.expect(b'<')?;
            put(more, arity - 1)?;
            Ok(Some(true))
        }
    }
}

// Reads what stands behind a type. Answers whether another type follows; None where all is read.
fn end_type(
    cursor: &mut Cursor<'_>,
    more: &mut Vec<usize>,
    extent: &mut Extent,
) -> Result<Option<bool>, ReadError>
    ensures { (program : Program) → Goes program false (at cursor.old (reverse more.old.items) extent.old) result (at cursor.new (reverse more.new.items) extent.new) }
{
    if cursor.eat_brackets() {
        *extent = with_position(*extent, true);
        return Ok(Some(false));
    }
    match take(more) {
        Some(count) => {
            cursor.expect(mark_before(count))?;
            if count == 0 {
                return Ok(Some(false));
            }
            put(more, count - 1)?;
            Ok(Some(true))
        }
        None => {
            if cursor.is_at_end() {
                return Ok(None);
            }
            Err(ReadError::Malformed)
        }
    }
}

// Reads on, where a type comes next or one has ended. Answers whether a type follows; None where all is read.
fn go_on(
    program: &Program,
    tables: &Tables,
    cursor: &mut Cursor<'_>,
    more: &mut Vec<usize>,
    extent: &mut Extent,
    inside: bool,
) -> Result<Option<bool>, ReadError>
    requires { AreTablesOf program.now tables.now }
    ensures { Goes program.now inside (at cursor.old (reverse more.old.items) extent.old) result (at cursor.new (reverse more.new.items) extent.new) }
{
    if inside {
        return begin_type(program, tables, cursor, more, extent);
    }
    end_type(cursor, more, extent)
}

/// The extent of the type that these bytes write. No tree is built.
#[tactic(auto, using(crate::proofs::ChoosingSizesLemmas::measures_first, crate::proofs::ChoosingSizesLemmas::measures_more, crate::proofs::ChoosingSizesLemmas::measured_none, crate::proofs::ChoosingSizesLemmas::measured_is, crate::proofs::ChoosingSizesLemmas::nothing_mapped))]
pub(crate) fn measured(
    alloc: Global,
    program: &Program,
    tables: &Tables,
    bytes: &[u8],
) -> Result<Extent, ReadError>
    requires { AreTablesOf program.now tables.now }
    ensures { Extends (type_of program.now bytes.now) result }
{
    let mut cursor = Cursor::new(bytes);
    let mut more = Vec::new(alloc);
    let mut extent = Extent {
        room: 257,
        closed: true,
    };
    let mut inside = true;
    'steps: loop {
        match go_on(program, tables, &mut cursor, &mut more, &mut extent, inside)? {
            Some(next) => inside = next,
            None => return Ok(extent),
        }
    }
}
