// Members as instructions name them.
ghost use Rattle.il_parse.specs.Reading.{Reads};
ghost use Rattle.il_parse.specs.Members as spec;

use crate::cursor::Cursor;
use crate::fault::ReadError;
use crate::params::{read_arguments, read_params, read_result};
use crate::types::read_type;
use il_model::{WrittenFieldRef, WrittenMethodRef};
use std::alloc::Global;

/// A method as an instruction names it.
#[tactic(auto, unfolding(crate::specs::Members::read_method_ref))]
pub(crate) fn read_method_ref(
    alloc: Global,
    cursor: &mut Cursor<'_>,
) -> Result<WrittenMethodRef, ReadError>
    ensures { Reads (spec.read_method_ref cursor.old) result cursor.new }
{
    let instance = cursor.eat(b"instance");
    let result = read_result(alloc, cursor)?;
    let class = read_type(alloc, cursor)?;
    cursor.expect(b"::")?;
    let name = cursor.method_name(alloc)?;
    let args = read_arguments(alloc, cursor)?;
    let params = read_params(alloc, cursor)?;
    Ok(WrittenMethodRef {
        instance,
        result,
        class,
        name: name.name,
        args,
        params,
    })
}

/// A field as an instruction names it.
#[tactic(auto, unfolding(crate::specs::Members::read_field_ref))]
pub(crate) fn read_field_ref(
    alloc: Global,
    cursor: &mut Cursor<'_>,
) -> Result<WrittenFieldRef, ReadError>
    ensures { Reads (spec.read_field_ref cursor.old) result cursor.new }
{
    let kind = read_type(alloc, cursor)?;
    let class = read_type(alloc, cursor)?;
    cursor.expect(b"::")?;
    let name = cursor.name(alloc)?;
    Ok(WrittenFieldRef {
        kind,
        class,
        name: name.name,
    })
}
