// What follows the words of instructions.
ghost use Rattle.std.specs.Prelude.{codes};
ghost use Rattle.il_model.specs.Literals.{int32_value, int64_value, place_value};
ghost use Rattle.il_parse.specs.Reading.{Reads, read_name, read_separated};
ghost use Rattle.il_parse.specs.Types.{read_enclosed};
ghost use Rattle.il_parse.specs.Operands as spec;
ghost use Rattle.il_parse.specs.Tables.{kind_view};

use crate::cursor::Cursor;
use crate::fault::ReadError;
use crate::forms::Takes;
use crate::literals::{int32_value, int64_value, place_value, text_value};
use crate::members::{read_field_ref, read_method_ref};
use crate::types::read_type;
use il_model::{WrittenName, WrittenOperand};
use mn_outside::Bytes;
use sqlite_items::Items;
use std::alloc::Global;

#[tactic(auto, using(crate::proofs::OperandLemmas::number_none, crate::proofs::OperandLemmas::number_out, crate::proofs::OperandLemmas::number_in))]
fn read_int32(cursor: &mut Cursor<'_>) -> Result<i32, ReadError>
    ensures { Reads (spec.read_number int32_value cursor.old) result cursor.new }
{
    let Some(bytes) = cursor.number() else {
        return Err(cursor.stuck());
    };
    let Some(value) = int32_value(bytes) else {
        return Err(cursor.stuck());
    };
    cursor.advance();
    Ok(value)
}

#[tactic(auto, using(crate::proofs::OperandLemmas::number_none, crate::proofs::OperandLemmas::number_out, crate::proofs::OperandLemmas::number_in))]
fn read_int64(cursor: &mut Cursor<'_>) -> Result<i64, ReadError>
    ensures { Reads (spec.read_number int64_value cursor.old) result cursor.new }
{
    let Some(bytes) = cursor.number() else {
        return Err(cursor.stuck());
    };
    let Some(value) = int64_value(bytes) else {
        return Err(cursor.stuck());
    };
    cursor.advance();
    Ok(value)
}

#[tactic(auto, using(crate::proofs::OperandLemmas::number_none, crate::proofs::OperandLemmas::number_out, crate::proofs::OperandLemmas::number_in))]
fn read_place(cursor: &mut Cursor<'_>) -> Result<u64, ReadError>
    ensures { Reads (spec.read_number place_value cursor.old) result cursor.new }
{
    let Some(bytes) = cursor.number() else {
        return Err(cursor.stuck());
    };
    let Some(value) = place_value(bytes) else {
        return Err(cursor.stuck());
    };
    cursor.advance();
    Ok(value)
}

#[tactic(auto, using(crate::proofs::OperandLemmas::text_none, crate::proofs::OperandLemmas::text_some))]
fn read_text(alloc: Global, cursor: &mut Cursor<'_>) -> Result<Bytes, ReadError>
    ensures { Reads (spec.read_text cursor.old) result cursor.new }
{
    let Some(bytes) = cursor.text() else {
        return Err(cursor.stuck());
    };
    let held = text_value(alloc, bytes)?;
    cursor.advance();
    Ok(Bytes::of(held))
}

// Labels, with `,` between each two.
fn some_labels(alloc: Global, cursor: &mut Cursor<'_>) -> Result<Items<WrittenName>, ReadError>
    ensures { Reads (read_separated read_name (codes ",") cursor.old) result cursor.new }
{
    let mut found = Items::new(alloc);
    for _turn in 0..cursor.left() {
        found.push(cursor.name(alloc)?)?;
        if !cursor.eat(b",") {
            return Ok(found);
        }
    }
    Err(cursor.stuck())
}

// The labels between `(` and `)`.
#[tactic(auto, unfolding(crate::specs::Types::read_enclosed))]
fn read_labels(alloc: Global, cursor: &mut Cursor<'_>) -> Result<Items<WrittenName>, ReadError>
    ensures { Reads (read_enclosed (read_separated read_name (codes ",")) cursor.old) result cursor.new }
{
    cursor.expect(b"(")?;
    let labels = some_labels(alloc, cursor)?;
    cursor.expect(b")")?;
    Ok(labels)
}

// A type, `callvirt` and a method.
#[tactic(auto, unfolding(crate::specs::Operands::read_constrained))]
fn read_constrained(alloc: Global, cursor: &mut Cursor<'_>) -> Result<WrittenOperand, ReadError>
    ensures { Reads (spec.read_constrained cursor.old) result cursor.new }
{
    let kind = read_type(alloc, cursor)?;
    cursor.expect(b"callvirt")?;
    let named = read_method_ref(alloc, cursor)?;
    Ok(WrittenOperand::Constrained(kind, named))
}

/// What an instruction of a form that takes this holds; a called method is read as any other.
#[tactic(auto, unfolding(crate::specs::Operands::read_operand))]
pub(crate) fn read_operand(
    alloc: Global,
    cursor: &mut Cursor<'_>,
    kind: Takes,
) -> Result<WrittenOperand, ReadError>
    ensures { Reads (spec.read_operand (kind_view kind) cursor.old) result cursor.new }
{
    match kind {
        Takes::Nothing => Ok(WrittenOperand::Nothing),
        Takes::Int32 => Ok(WrittenOperand::Int32(read_int32(cursor)?)),
        Takes::Int64 => Ok(WrittenOperand::Int64(read_int64(cursor)?)),
        Takes::Text => Ok(WrittenOperand::Text(read_text(alloc, cursor)?)),
        Takes::Place => Ok(WrittenOperand::Place(read_place(cursor)?)),
        Takes::Label => Ok(WrittenOperand::Label(cursor.name(alloc)?)),
        Takes::Labels => Ok(WrittenOperand::Labels(read_labels(alloc, cursor)?)),
        Takes::Type => Ok(WrittenOperand::Type(read_type(alloc, cursor)?)),
        Takes::Called => Ok(WrittenOperand::Method(read_method_ref(alloc, cursor)?)),
        Takes::Method => Ok(WrittenOperand::Method(read_method_ref(alloc, cursor)?)),
        Takes::Field => Ok(WrittenOperand::Field(read_field_ref(alloc, cursor)?)),
        Takes::Constrained => read_constrained(alloc, cursor),
    }
}
