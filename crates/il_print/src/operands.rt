// Instructions.
ghost use Rattle.std.specs.Prelude.{◌≡◌, ◌++◌, [], ◌∷◌, codes, flat_map, map, slice_get, unwrap_or, OnOk};
ghost use Rattle.std.specs.Fmt.{decimal, signed_decimal};
ghost use Rattle.il_model.specs.Canonical.{spaced, spaced_after, between, comma, label_text, literal_text, escaped, operand_words, op_words, type_text, method_ref_words};
ghost use Rattle.il_print.specs.ClassNames.{names_of};
ghost use Rattle.il_print.specs.Operands.{seen};
ghost use Rattle.il_print.specs.Spaces.{behind};

use crate::forms::{is_spelled, text_before, text_behind};
use crate::labels::Labels;
use crate::members::{put_field_ref, put_method_ref};
use crate::operand::{Operand, form_of, operand_of};
use crate::scope::Scope;
use crate::text::Text;
use crate::types::put_type;
use il_model::{ClassDef, MRef, Op};
use mn_outside::{Bytes, NoMemory};
use type_tree::TExpr;

/// Puts an instruction in its long form.
pub(crate) fn put_op(text: &mut Text, scope: &Scope, op: &Op) -> Result<(), NoMemory>
    ensures { OnOk result (text.new ≡ text.old ++ spaced (op_words scope.now op.now)) }
{
    let form = form_of(op);
    if !is_spelled(form) {
        return Ok(());
    }
    text.put(text_before(form))?;
    put_operand(text, scope, operand_of(op))?;
    text.put(text_behind(form))?;
    Ok(())
}

fn put_operand(text: &mut Text, scope: &Scope, operand: Operand) -> Result<(), NoMemory>
    ensures { OnOk result (text.new ≡ text.old ++ spaced_after (operand_words scope.now (seen operand.entry))) }
{
    match operand {
        Operand::Nothing => Ok(()),
        Operand::Int32(number) => put_signed(text, number as i64),
        Operand::Int64(number) => put_signed(text, number),
        Operand::Literal(number) => put_literal(text, literal_at(scope.literals(), number)),
        Operand::Place(number) => put_decimal(text, number),
        Operand::Target(to) => put_label(text, scope.labels(), to),
        Operand::Targets(to) => put_labels(text, scope.labels(), to),
        Operand::Type(kind) => put_type(text, scope.classes(), kind),
        Operand::Method(method) => put_method_ref(text, scope.classes(), method),
        Operand::Field(field) => put_field_ref(text, scope.classes(), field),
        Operand::Constrained(kind, method) => {
            put_constrained(text, scope.classes(), kind, method)
        }
    }
}

fn put_constrained(
    text: &mut Text,
    classes: &[ClassDef],
    kind: &TExpr,
    method: &MRef,
) -> Result<(), NoMemory>
    ensures { OnOk result (text.new ≡ text.old ++ spaced_after
        (type_text (names_of classes.now) kind.now ∷ codes "callvirt" ∷ method_ref_words (names_of classes.now) method.now)) }
{
    put_type(text, classes, kind)?;
    text.put(b" callvirt")?;
    put_method_ref(text, classes, method)
}

fn put_signed(text: &mut Text, number: i64) -> Result<(), NoMemory>
    ensures { OnOk result (text.new ≡ text.old ++ behind (signed_decimal number)) }
{
    let digits = text.signed_decimal(number)?;
    text.word(digits.as_bytes())
}

fn put_decimal(text: &mut Text, number: u64) -> Result<(), NoMemory>
    ensures { OnOk result (text.new ≡ text.old ++ behind (decimal number)) }
{
    let digits = text.decimal(number)?;
    text.word(digits.as_bytes())
}

// The bytes of the literal with this number.
fn literal_at(literals: &[Bytes], number: u32) -> &[u8]
    ensures { result.now ≡ unwrap_or (slice_get literals.now number) [] }
{
    match literals.get(number as usize) {
        Some(bytes) => bytes.list(),
        None => b"",
    }
}

fn put_literal(text: &mut Text, bytes: &[u8]) -> Result<(), NoMemory>
    ensures { OnOk result (text.new ≡ text.old ++ behind (literal_text bytes.now)) }
{
    text.put(b" \"")?;
    put_all_escaped(text, bytes)?;
    text.put(b"\"")
}

fn put_all_escaped(text: &mut Text, bytes: &[u8]) -> Result<(), NoMemory>
    ensures { OnOk result (text.new ≡ text.old ++ flat_map escaped bytes.now) }
{
    for byte in bytes {
        put_escaped(text, *byte)?;
    }
    Ok(())
}

fn put_escaped(text: &mut Text, byte: u8) -> Result<(), NoMemory>
    ensures { OnOk result (text.new ≡ text.old ++ escaped byte) }
{
    match byte {
        b'\n' => text.put(b"\\n"),
        b'\t' => text.put(b"\\t"),
        b'"' => text.put(b"\\\""),
        b'\\' => text.put(b"\\\\"),
        _ => text.put(&[byte]),
    }
}

/// Puts the name of the label of this place.
pub(crate) fn put_label(text: &mut Text, labels: &Labels, to: u32) -> Result<(), NoMemory>
    ensures { OnOk result (text.new ≡ text.old ++ behind (label_text labels.now to)) }
{
    let name = labels.name(text.alloc(), to as usize)?;
    text.word(name.as_bytes())
}

// Puts labels between parentheses.
fn put_labels(text: &mut Text, labels: &Labels, to: &[u32]) -> Result<(), NoMemory>
    ensures { OnOk result (text.new ≡ text.old ++
        spaced_after (codes "(" ∷ between comma (map (λ n. label_text labels.now n ∷ []) to.now) ++ codes ")" ∷ [])) }
{
    text.put(b" (")?;
    put_label_list(text, labels, to)?;
    text.put(b" )")?;
    Ok(())
}

fn put_label_list(text: &mut Text, labels: &Labels, to: &[u32]) -> Result<(), NoMemory>
    ensures { OnOk result (text.new ≡ text.old ++
        spaced_after (between comma (map (λ n. label_text labels.now n ∷ []) to.now))) }
{
    match to.split_first() {
        Some((first, rest)) => {
            put_label(text, labels, *first)?;
            put_more_labels(text, labels, rest)?;
            Ok(())
        }
        None => Ok(()),
    }
}

fn put_more_labels(text: &mut Text, labels: &Labels, to: &[u32]) -> Result<(), NoMemory>
    ensures { OnOk result (text.new ≡ text.old ++
        flat_map (λ n. spaced_after (comma ∷ label_text labels.now n ∷ [])) to.now) }
{
    for place in to {
        text.put(b",")?;
        put_label(text, labels, *place)?;
    }
    Ok(())
}
