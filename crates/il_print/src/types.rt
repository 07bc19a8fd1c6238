// Types, by the names of the classes.
ghost use Rattle.std.specs.Prelude.{◌≡◌, ◌++◌, codes, map, IfOk, OnOk};
ghost use Rattle.std.specs.Fmt.{decimal};
ghost use Rattle.type_tree.specs.declared.tree.TNode.TheVariants.{Node};
ghost use Rattle.type_tree.specs.Printed.{listed, angled, class_name};
ghost use Rattle.il_model.specs.Canonical.{type_text, level_text, long_names};
ghost use Rattle.il_print.specs.Spaces.{behind};
ghost use Rattle.il_print.specs.ClassNames.{names_of};

use crate::text::Text;
use il_model::ClassDef;
use mn_outside::NoMemory;
use type_tree::{Head, TExpr, TNode};

/// Puts a type behind another word.
pub(crate) fn put_type(text: &mut Text, classes: &[ClassDef], kind: &TExpr) -> Result<(), NoMemory>
    ensures { OnOk result (text.new ≡ text.old ++ behind (type_text (names_of classes.now) kind.now)) }
{
    let name = type_name(text, classes, kind)?;
    text.word(name.bytes())
}

/// The type as it is written, in a text of its own.
pub(crate) fn type_name(text: &Text, classes: &[ClassDef], kind: &TExpr) -> Result<Text, NoMemory>
    ensures { IfOk result (λ name. name ≡ type_text (names_of classes.now) kind.now) }
{
    let mut name = Text::new(text.alloc());
    write_type(&mut name, classes, kind)?;
    Ok(name)
}

#[cycle(write)]
fn write_type(text: &mut Text, classes: &[ClassDef], kind: &TExpr) -> Result<(), NoMemory>
    ensures { OnOk result (text.new ≡ text.old ++ type_text (names_of classes.now) kind.now) }
{
    match kind.top() {
        TNode::Node(head, parts) => write_applied(text, classes, *head, parts.as_slice()),
        TNode::ClassVar(number) => write_variable(text, b"!", *number),
        TNode::MethodVar(number) => write_variable(text, b"!!", *number),
    }
}

#[cycle(write)]
fn write_applied(
    text: &mut Text,
    classes: &[ClassDef],
    head: Head,
    parts: &[TExpr],
) -> Result<(), NoMemory>
    ensures { OnOk result (text.new ≡
        text.old ++ level_text (names_of classes.now) (Node head (map (type_text (names_of classes.now)) parts.now))) }
{
    match head {
        Head::Int32 => write_angled(text, classes, b"int32", parts),
        Head::Int64 => write_angled(text, classes, b"int64", parts),
        Head::Bool => write_angled(text, classes, b"bool", parts),
        Head::Vector => write_vector(text, classes, parts),
        Head::Class(number) => {
            if parts.is_empty() {
                return text.put(class_text(classes, number));
            }
            write_angled(text, classes, long_class_text(classes, number), parts)
        }
    }
}

// The element and `[]`.
#[cycle(write)]
fn write_vector(text: &mut Text, classes: &[ClassDef], parts: &[TExpr]) -> Result<(), NoMemory>
    ensures { OnOk result (text.new ≡
        text.old ++ (listed (map (type_text (names_of classes.now)) parts.now) ++ codes "[]")) }
{
    write_list(text, classes, parts)?;
    text.put(b"[]")
}

// The name, and the arguments between angle brackets where there are any.
#[cycle(write)]
fn write_angled(
    text: &mut Text,
    classes: &[ClassDef],
    name: &[u8],
    parts: &[TExpr],
) -> Result<(), NoMemory>
    ensures { OnOk result (text.new ≡
        text.old ++ (name.now ++ angled (map (type_text (names_of classes.now)) parts.now))) }
{
    text.put(name)?;
    if parts.is_empty() {
        return Ok(());
    }
    text.put(b"<")?;
    write_list(text, classes, parts)?;
    text.put(b">")
}

// The types, with a comma between each two.
#[cycle(write)]
fn write_list(text: &mut Text, classes: &[ClassDef], parts: &[TExpr]) -> Result<(), NoMemory>
    ensures { OnOk result (text.new ≡ text.old ++ listed (map (type_text (names_of classes.now)) parts.now)) }
{
    for i in 0..parts.len() {
        if i != 0 {
            text.put(b",")?;
        }
        write_type(text, classes, &parts[i])?;
    }
    Ok(())
}

// The name of the class with this number.
fn class_text(classes: &[ClassDef], number: u16) -> &[u8]
    ensures { result.now ≡ class_name (names_of classes.now) number }
{
    match classes.get(number as usize) {
        Some(class) => class.name.text().as_bytes(),
        None => b"",
    }
}

// Its name before type arguments: `object` and `string` go by their long names there.
fn long_class_text(classes: &[ClassDef], number: u16) -> &[u8]
    ensures { result.now ≡ class_name (long_names (names_of classes.now)) number }
{
    if classes.len() < 2 {
        return class_text(classes, number);
    }
    match number {
        0 => b"System.Object",
        1 => b"System.String",
        _ => class_text(classes, number),
    }
}

fn write_variable(text: &mut Text, mark: &[u8], number: u8) -> Result<(), NoMemory>
    ensures { OnOk result (text.new ≡ text.old ++ (mark.now ++ decimal number)) }
{
    let digits = text.decimal(number as u64)?;
    text.put(mark)?;
    text.put(digits.as_bytes())
}
