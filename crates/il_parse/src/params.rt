// Results, parameters, type arguments and type variables as they are written.
ghost use Rattle.std.specs.Prelude.{◌≡◌, [], codes};
ghost use Rattle.il_parse.specs.declared.fault.ReadError.TheVariants as error;
ghost use Rattle.il_parse.specs.Reading.{Reads, read_separated};
ghost use Rattle.il_parse.specs.Types as spec;
ghost use Rattle.il_parse.specs.Cursor.{no_name_fault};

use crate::cursor::Cursor;
use crate::fault::{ParseCause, ReadError};
use crate::types::{read_type, read_types};
use il_model::{WrittenParam, WrittenType, WrittenVar};
use sqlite_items::Items;
use std::alloc::Global;

/// `void`, which is None, or a type.
#[tactic(auto, unfolding(crate::specs::Types::read_result))]
pub(crate) fn read_result(
    alloc: Global,
    cursor: &mut Cursor<'_>,
) -> Result<Option<WrittenType>, ReadError>
    ensures { Reads (spec.read_result cursor.old) result cursor.new }
{
    if cursor.eat(b"void") {
        return Ok(None);
    }
    let kind = read_type(alloc, cursor)?;
    Ok(Some(kind))
}

#[tactic(auto, unfolding(crate::specs::Types::read_param))]
fn read_param(alloc: Global, cursor: &mut Cursor<'_>) -> Result<WrittenParam, ReadError>
    ensures { Reads (spec.read_param cursor.old) result cursor.new }
{
    let kind = read_type(alloc, cursor)?;
    let pointer = cursor.eat(b"&");
    Ok(WrittenParam { kind, pointer })
}

/// One parameter or several, with `,` between each two.
pub(crate) fn read_some_params(
    alloc: Global,
    cursor: &mut Cursor<'_>,
) -> Result<Items<WrittenParam>, ReadError>
    ensures { Reads (read_separated spec.read_param (codes ",") cursor.old) result cursor.new }
{
    let mut found = Items::new(alloc);
    for _turn in 0..cursor.left() {
        found.push(read_param(alloc, cursor)?)?;
        if !cursor.eat(b",") {
            return Ok(found);
        }
    }
    Err(cursor.stuck())
}

// Parameters or none, up to `)`.
#[tactic(auto, unfolding(crate::specs::Types::read_params))]
fn params_inside(alloc: Global, cursor: &mut Cursor<'_>) -> Result<Items<WrittenParam>, ReadError>
    ensures { Reads (spec.read_params cursor.old) result cursor.new }
{
    if cursor.sees(b")") {
        return Ok(Items::new(alloc));
    }
    read_some_params(alloc, cursor)
}

/// The parameters between `(` and `)`.
#[tactic(auto, unfolding(crate::specs::Types::read_enclosed))]
pub(crate) fn read_params(
    alloc: Global,
    cursor: &mut Cursor<'_>,
) -> Result<Items<WrittenParam>, ReadError>
    ensures { Reads (spec.read_enclosed spec.read_params cursor.old) result cursor.new }
{
    cursor.expect(b"(")?;
    let params = params_inside(alloc, cursor)?;
    cursor.expect(b")")?;
    Ok(params)
}

/// The type arguments that a method's name may carry.
#[tactic(auto, unfolding(crate::specs::Types::read_arguments))]
pub(crate) fn read_arguments(
    alloc: Global,
    cursor: &mut Cursor<'_>,
) -> Result<Items<WrittenType>, ReadError>
    ensures { Reads (spec.read_arguments cursor.old) result cursor.new }
{
    if !cursor.eat(b"<") {
        return Ok(Items::new(alloc));
    }
    let args = read_types(alloc, cursor, b",")?;
    cursor.expect(b">")?;
    Ok(args)
}

// A type variable with the bounds after its colon.
#[tactic(auto, unfolding(crate::specs::Types::read_var))]
fn read_var(alloc: Global, cursor: &mut Cursor<'_>) -> Result<WrittenVar, ReadError>
    ensures { Reads (spec.read_var cursor.old) result cursor.new }
{
    let name = cursor.name(alloc)?;
    if !cursor.eat(b":") {
        let bounds = Items::new(alloc);
        return Ok(WrittenVar { name, bounds });
    }
    let bounds = read_types(alloc, cursor, b"&")?;
    Ok(WrittenVar { name, bounds })
}

// Why no name stands where none may come any more.
fn no_name(cursor: &Cursor<'_>) -> ReadError
    ensures { result ≡ error.Fault (no_name_fault cursor.now) }
{
    if cursor.is_word() {
        cursor.stop(ParseCause::TooMany)
    } else {
        cursor.stuck()
    }
}

// Type variables, so many at most, with `,` between each two.
fn read_some_vars(
    alloc: Global,
    cursor: &mut Cursor<'_>,
    most: usize,
) -> Result<Items<WrittenVar>, ReadError>
    ensures { Reads (spec.vars_from most [] cursor.old) result cursor.new }
{
    let mut found = Items::new(alloc);
    for _turn in 0..most {
        found.push(read_var(alloc, cursor)?)?;
        if !cursor.eat(b",") {
            return Ok(found);
        }
    }
    Err(no_name(cursor))
}

/// The type variables of a class or a method, of which there are at most so many.
#[tactic(auto, unfolding(crate::specs::Types::read_vars))]
pub(crate) fn read_vars(
    alloc: Global,
    cursor: &mut Cursor<'_>,
    most: usize,
) -> Result<Items<WrittenVar>, ReadError>
    ensures { Reads (spec.read_vars most cursor.old) result cursor.new }
{
    if !cursor.eat(b"<") {
        return Ok(Items::new(alloc));
    }
    let vars = read_some_vars(alloc, cursor, most)?;
    cursor.expect(b">")?;
    Ok(vars)
}
