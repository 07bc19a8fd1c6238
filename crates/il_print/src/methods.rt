// Fields and methods of a class.
ghost use Rattle.std.specs.Prelude.{◌≡◌, ◌++◌, [], ◌∷◌, codes, OnOk, if◌then◌else◌};
ghost use Rattle.il_model.specs.Canonical.{line, spaced, spaced_after, field_line, shape_text, method_head, bodied_lines, method_lines, numbered_lines};
ghost use Rattle.il_print.specs.ClassNames.{names_of};
ghost use Rattle.il_print.specs.Parts.{lines_text, named_words};

use crate::bodies::put_body;
use crate::params::{put_params, put_result, put_vars};
use crate::text::Text;
use crate::types::put_type;
use il_model::{ClassDef, FieldDef, MethodDef, Program, Shape};
use mn_outside::{Bytes, NoMemory};

/// Puts the line of a field.
pub(crate) fn put_field_line(
    text: &mut Text,
    classes: &[ClassDef],
    field: &FieldDef,
) -> Result<(), NoMemory>
    ensures { OnOk result (text.new ≡ text.old ++ lines_text (field_line (names_of classes.now) field.now)) }
{
    text.put(b"  .field")?;
    put_fixed(text, field.fixed)?;
    put_type(text, classes, &field.kind)?;
    text.word(field.name.text().as_bytes())?;
    text.put(b"\n")?;
    Ok(())
}

fn put_fixed(text: &mut Text, is_fixed: bool) -> Result<(), NoMemory>
    ensures { OnOk result (text.new ≡ text.old ++ spaced_after (if is_fixed then codes "static" ∷ [] else [])) }
{
    if is_fixed {
        text.put(b" static")
    } else {
        Ok(())
    }
}

/// Puts the lines of the method with this number, if there is one.
pub(crate) fn put_method(text: &mut Text, program: &Program, number: u16) -> Result<(), NoMemory>
    ensures { OnOk result (text.new ≡
        text.old ++ lines_text (method_lines program.now (names_of program.now.classes) number)) }
{
    match program.methods.as_slice().get(number as usize) {
        Some(method) => put_numbered(text, program, number, method),
        None => Ok(()),
    }
}

fn put_numbered(
    text: &mut Text,
    program: &Program,
    number: u16,
    method: &MethodDef,
) -> Result<(), NoMemory>
    ensures { OnOk result (text.new ≡
        text.old ++ lines_text (numbered_lines program.now (names_of program.now.classes) number (Some method.now))) }
{
    let classes = program.classes.as_slice();
    let is_entry = number == program.main;
    put_bodied(text, classes, program.literals.as_slice(), is_entry, method)
}

// The head, and behind it `;` or the body.
fn put_bodied(
    text: &mut Text,
    classes: &[ClassDef],
    literals: &[Bytes],
    is_entry: bool,
    method: &MethodDef,
) -> Result<(), NoMemory>
    ensures { OnOk result (text.new ≡ text.old ++
        lines_text (bodied_lines (names_of classes.now) literals.now is_entry (method_head (names_of classes.now) method.now) method.now.body)) }
{
    match &method.body {
        None => {
            put_head_line(text, classes, method, b";")?;
            Ok(())
        }
        Some(body) => {
            put_head_line(text, classes, method, b"{")?;
            put_body(text, classes, literals, is_entry, body)?;
            text.put(b"  }\n")?;
            Ok(())
        }
    }
}

// The line of the head, with this mark behind it.
fn put_head_line(
    text: &mut Text,
    classes: &[ClassDef],
    method: &MethodDef,
    mark: &[u8],
) -> Result<(), NoMemory>
    ensures { OnOk result (text.new ≡
        text.old ++ lines_text (line 1 (method_head (names_of classes.now) method.now ++ mark.now ∷ []))) }
{
    text.put(b"  ")?;
    put_method_head(text, classes, method)?;
    text.word(mark)?;
    text.put(b"\n")?;
    Ok(())
}

fn put_method_head(
    text: &mut Text,
    classes: &[ClassDef],
    method: &MethodDef,
) -> Result<(), NoMemory>
    ensures { OnOk result (text.new ≡ text.old ++ spaced (method_head (names_of classes.now) method.now)) }
{
    text.put(b".method")?;
    put_shape(text, method.shape)?;
    put_named(text, classes, method)?;
    put_params(text, classes, method.params.as_slice())?;
    Ok(())
}

// The result, the name and the type variables.
fn put_named(text: &mut Text, classes: &[ClassDef], method: &MethodDef) -> Result<(), NoMemory>
    ensures { OnOk result (text.new ≡ text.old ++ spaced_after (named_words (names_of classes.now) method.now)) }
{
    put_result(text, classes, &method.result)?;
    text.word(method.name.text().as_bytes())?;
    put_vars(text, classes, method.vars.as_slice())
}

fn put_shape(text: &mut Text, shape: Shape) -> Result<(), NoMemory>
    ensures { OnOk result (text.new ≡ text.old ++ spaced_after (shape_text shape)) }
{
    match shape {
        Shape::Fixed => text.put(b" static"),
        Shape::Instance => Ok(()),
        Shape::Virtual => text.put(b" virtual"),
        Shape::NewSlot => text.put(b" newslot virtual"),
        Shape::Abstract => text.put(b" abstract"),
    }
}
