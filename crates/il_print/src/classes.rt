// Classes.
ghost use Rattle.std.specs.Prelude.{◌≡◌, ◌++◌, flat_map, OnOk};
ghost use Rattle.il_model.specs.Canonical.{line, spaced, spaced_after, field_line, method_lines, kind_text, base_words, interfaces_words, class_lines};
ghost use Rattle.il_print.specs.ClassNames.{names_of};
ghost use Rattle.il_print.specs.Parts.{lines_text, class_head, named_class_words};

use crate::members::put_more_types;
use crate::methods::{put_field_line, put_method};
use crate::params::put_vars;
use crate::text::Text;
use crate::types::{put_type, type_name};
use il_model::{ClassDef, ClassKind, FieldDef, Program};
use mn_outside::NoMemory;
use type_tree::TExpr;

/// Puts the lines of a class: its head, its fields, its methods and a brace.
pub(crate) fn put_class(
    text: &mut Text,
    program: &Program,
    class: &ClassDef,
) -> Result<(), NoMemory>
    ensures { OnOk result (text.new ≡
        text.old ++ lines_text (class_lines program.now (names_of program.now.classes) class.now)) }
{
    let classes = program.classes.as_slice();
    put_head_line(text, classes, class)?;
    put_fields(text, classes, class.fields.as_slice())?;
    put_methods(text, program, class.methods.as_slice())?;
    text.put(b"}\n")?;
    Ok(())
}

fn put_fields(text: &mut Text, classes: &[ClassDef], fields: &[FieldDef]) -> Result<(), NoMemory>
    ensures { OnOk result (text.new ≡
        text.old ++ lines_text (flat_map (field_line (names_of classes.now)) fields.now)) }
{
    for field in fields {
        put_field_line(text, classes, field)?;
    }
    Ok(())
}

fn put_methods(text: &mut Text, program: &Program, numbers: &[u16]) -> Result<(), NoMemory>
    ensures { OnOk result (text.new ≡
        text.old ++ lines_text (flat_map (method_lines program.now (names_of program.now.classes)) numbers.now)) }
{
    for number in numbers {
        put_method(text, program, *number)?;
    }
    Ok(())
}

fn put_head_line(text: &mut Text, classes: &[ClassDef], class: &ClassDef) -> Result<(), NoMemory>
    ensures { OnOk result (text.new ≡ text.old ++ lines_text (line 0 (class_head (names_of classes.now) class.now))) }
{
    put_head(text, classes, class)?;
    text.put(b"\n")?;
    Ok(())
}

fn put_head(text: &mut Text, classes: &[ClassDef], class: &ClassDef) -> Result<(), NoMemory>
    ensures { OnOk result (text.new ≡ text.old ++ spaced (class_head (names_of classes.now) class.now)) }
{
    text.put(b".class")?;
    put_kind(text, class.kind)?;
    put_named_class(text, classes, class)?;
    put_base(text, classes, &class.base)?;
    put_interfaces(text, classes, class.interfaces.as_slice())?;
    text.put(b" {")?;
    Ok(())
}

// The name and the type variables.
fn put_named_class(text: &mut Text, classes: &[ClassDef], class: &ClassDef) -> Result<(), NoMemory>
    ensures { OnOk result (text.new ≡ text.old ++ spaced_after (named_class_words (names_of classes.now) class.now)) }
{
    text.word(class.name.text().as_bytes())?;
    put_vars(text, classes, class.vars.as_slice())
}

fn put_kind(text: &mut Text, kind: ClassKind) -> Result<(), NoMemory>
    ensures { OnOk result (text.new ≡ text.old ++ spaced_after (kind_text kind)) }
{
    match kind {
        ClassKind::Plain | ClassKind::Delegate => Ok(()),
        ClassKind::Abstract => text.put(b" abstract"),
        ClassKind::Interface => text.put(b" interface"),
        ClassKind::Struct => text.put(b" struct"),
    }
}

// The base, where it isn't `object`.
fn put_base(text: &mut Text, classes: &[ClassDef], base: &Option<TExpr>) -> Result<(), NoMemory>
    ensures { OnOk result (text.new ≡ text.old ++ spaced_after (base_words (names_of classes.now) base.now)) }
{
    match base {
        Some(kind) => put_extends(text, classes, kind),
        None => Ok(()),
    }
}

fn put_extends(text: &mut Text, classes: &[ClassDef], kind: &TExpr) -> Result<(), NoMemory>
    ensures { OnOk result (text.new ≡ text.old ++ spaced_after (base_words (names_of classes.now) (Some kind.now))) }
{
    let name = type_name(text, classes, kind)?;
    if name.bytes() == b"object".as_slice() {
        return Ok(());
    }
    text.put(b" extends")?;
    text.word(name.bytes())
}

fn put_interfaces(
    text: &mut Text,
    classes: &[ClassDef],
    interfaces: &[TExpr],
) -> Result<(), NoMemory>
    ensures { OnOk result (text.new ≡
        text.old ++ spaced_after (interfaces_words (names_of classes.now) interfaces.now)) }
{
    match interfaces.split_first() {
        Some((first, rest)) => {
            text.put(b" implements")?;
            put_type(text, classes, first)?;
            put_more_types(text, classes, rest)?;
            Ok(())
        }
        None => Ok(()),
    }
}
