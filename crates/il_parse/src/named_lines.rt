// What the written lines of a body stand for.
ghost use Rattle.std.specs.Prelude.{◌≡◌, [], IfOk};
ghost use Rattle.il_model.specs.Names.{place_of};
ghost use Rattle.il_model.specs.Ops.{literal};
ghost use Rattle.il_parse.specs.Looking.{Looks, each_of};
ghost use Rattle.il_parse.specs.NamedBodies as spec;
ghost use Rattle.il_parse.specs.Held.{seen_held};

use crate::fault::{Fault, ParseCause, ReadError};
use crate::labels::{Labels, label_named};
use crate::literal_table::Literals;
use crate::met::MetNames;
use crate::named_members::{field_ref_named, method_ref_named};
use crate::named_ops::{Held, op_of};
use crate::named_types::type_named;
use crate::scope::Scope;
use il_model::{Op, WrittenInstr, WrittenLine, WrittenName, WrittenOperand};
use mn_outside::Bytes;
use sqlite_items::Items;
use std::alloc::{AllocError, Global};

// The number of a literal. No text has more literals than a number of 32 bits tells apart.
fn literal_named(literals: &Literals, text: &Bytes) -> Result<u32, AllocError>
    ensures { IfOk result (λ number. literal number ≡ spec.literal_or_first (place_of literals.now text.now)) }
{
    let Some(place) = literals.place(text.list()) else {
        return Ok(0);
    };
    match u32::try_from(place) {
        Ok(number) => Ok(number),
        Err(_) => Err(AllocError),
    }
}

// The numbers of the instructions that follow these labels.
fn labels_named(
    alloc: Global,
    labels: &Labels<'_>,
    written: &[WrittenName],
) -> Result<Items<u32>, ReadError>
    ensures { Looks (each_of (spec.label_named labels.now) written.now) result }
{
    let mut found = Items::new(alloc);
    for label in written {
        found.push(label_named(labels, label)?)?;
    }
    Ok(found)
}

// What follows the word of an instruction.
#[tactic(auto, unfolding(crate::specs::NamedBodies::operand_named))]
fn operand_named(
    alloc: Global,
    scope: &Scope<'_>,
    literals: &Literals,
    labels: &Labels<'_>,
    written: &WrittenOperand,
) -> Result<Held, ReadError>
    ensures { Looks (spec.operand_named scope.now literals.now labels.now written.now) (seen_held result) }
{
    match written {
        WrittenOperand::Nothing => Ok(Held::Nothing),
        WrittenOperand::Int32(number) => Ok(Held::Int32(*number)),
        WrittenOperand::Int64(number) => Ok(Held::Int64(*number)),
        WrittenOperand::Text(text) => Ok(Held::Literal(literal_named(literals, text)?)),
        WrittenOperand::Place(number) => Ok(Held::Place(*number)),
        WrittenOperand::Label(to) => Ok(Held::Target(label_named(labels, to)?)),
        WrittenOperand::Labels(to) => {
            Ok(Held::Targets(labels_named(alloc, labels, to.as_slice())?))
        }
        WrittenOperand::Type(kind) => Ok(Held::Type(type_named(alloc, scope, kind)?)),
        WrittenOperand::Method(named) => Ok(Held::Method(method_ref_named(alloc, scope, named)?)),
        WrittenOperand::Field(named) => Ok(Held::Field(field_ref_named(alloc, scope, named)?)),
        WrittenOperand::Constrained(kind, named) => {
            let kind = type_named(alloc, scope, kind)?;
            let named = method_ref_named(alloc, scope, named)?;
            Ok(Held::Constrained(kind, named))
        }
    }
}

#[tactic(auto, unfolding(crate::specs::NamedBodies::instr_named))]
fn instr_named(
    alloc: Global,
    scope: &Scope<'_>,
    literals: &Literals,
    labels: &Labels<'_>,
    written: &WrittenInstr,
) -> Result<Op, ReadError>
    ensures { Looks (spec.instr_named scope.now literals.now labels.now written.now) result }
{
    let held = operand_named(alloc, scope, literals, labels, &written.operand)?;
    match op_of(written.form, held) {
        Some(op) => Ok(op),
        None => Err(ReadError::Fault(Fault {
            at: Some(written.at),
            cause: ParseCause::Syntax,
        })),
    }
}

/// The instructions among the lines of a body, whose labels these are. No two labels have one name.
pub(crate) fn lines_named(
    alloc: Global,
    scope: &Scope<'_>,
    literals: &Literals,
    labels: &Labels<'_>,
    written: &[WrittenLine],
) -> Result<Items<Op>, ReadError>
    ensures { Looks (spec.lines_named scope.now literals.now labels.now [] [] written.now) result }
{
    let mut met = MetNames::new(alloc);
    let mut found = Items::new(alloc);
    for line in written {
        match line {
            WrittenLine::Label(name) => {
                met.meet(alloc, name)?;
            }
            WrittenLine::Instr(instr) => {
                found.push(instr_named(alloc, scope, literals, labels, instr)?)?;
            }
        }
    }
    Ok(found)
}
