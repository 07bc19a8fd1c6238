ghost use Rattle.std.specs.Prelude.{◌≡◌, ◌++◌, codes, map, IfOk, OnOk};
ghost use Rattle.std.specs.Fmt.{decimal};
ghost use Rattle.type_tree.specs.Printed.{printed, applied, angled, listed, class_name};

use crate::tree::{Head, TExpr, TNode, Tree};
use mn_outside::{Name, NoMemory};
use std::alloc::{AllocError, Global};

/// The printed name of a type, as `Pair<int32,string>[]`: no blanks, `names` having the printed name of
/// each class by its number. A class that has none there prints nothing, and a variable as it is
/// written, `!0` or `!!0`.
pub fn name_of(alloc: Global, tree: &Tree, names: &[Name]) -> Result<Vec<u8>, NoMemory>
    ensures { IfOk result (λ text. text.items ≡ printed names.now tree.now) }
{
    let mut text = Vec::new(alloc);
    write_tree(alloc, &mut text, tree, names).map_err(|_| NoMemory)?;
    Ok(text)
}

#[cycle(write)]
fn write_tree(
    alloc: Global,
    text: &mut Vec<u8>,
    tree: &TExpr,
    names: &[Name],
) -> Result<(), AllocError>
    ensures { OnOk result (text.new.items ≡ text.old.items ++ printed names.now tree.now) }
{
    match tree.top() {
        TNode::Node(head, parts) => write_applied(alloc, text, *head, parts.as_slice(), names),
        TNode::ClassVar(number) => write_variable(alloc, text, b"!", *number),
        TNode::MethodVar(number) => write_variable(alloc, text, b"!!", *number),
    }
}

#[cycle(write)]
fn write_applied(
    alloc: Global,
    text: &mut Vec<u8>,
    head: Head,
    parts: &[TExpr],
    names: &[Name],
) -> Result<(), AllocError>
    ensures { OnOk result (text.new.items ≡
        text.old.items ++ applied names.now head (map (printed names.now) parts.now)) }
{
    match head {
        Head::Int32 => write_angled(alloc, text, b"int32", parts, names),
        Head::Int64 => write_angled(alloc, text, b"int64", parts, names),
        Head::Bool => write_angled(alloc, text, b"bool", parts, names),
        Head::Vector => write_vector(alloc, text, parts, names),
        Head::Class(number) => write_angled(alloc, text, class_text(names, number), parts, names),
    }
}

// The element and `[]`.
#[cycle(write)]
fn write_vector(
    alloc: Global,
    text: &mut Vec<u8>,
    parts: &[TExpr],
    names: &[Name],
) -> Result<(), AllocError>
    ensures { OnOk result (text.new.items ≡
        text.old.items ++ (listed (map (printed names.now) parts.now) ++ codes "[]")) }
{
    write_list(alloc, text, parts, names)?;
    text.extend_from_slice(b"[]")
}

// The name, and the arguments between angle brackets where there are any.
#[cycle(write)]
fn write_angled(
    alloc: Global,
    text: &mut Vec<u8>,
    name: &[u8],
    parts: &[TExpr],
    names: &[Name],
) -> Result<(), AllocError>
    ensures { OnOk result (text.new.items ≡
        text.old.items ++ (name.now ++ angled (map (printed names.now) parts.now))) }
{
    text.extend_from_slice(name)?;
    if parts.is_empty() {
        return Ok(());
    }
    text.extend_from_slice(b"<")?;
    write_list(alloc, text, parts, names)?;
    text.extend_from_slice(b">")
}

// The trees, with a comma between each two.
#[cycle(write)]
fn write_list(
    alloc: Global,
    text: &mut Vec<u8>,
    parts: &[TExpr],
    names: &[Name],
) -> Result<(), AllocError>
    ensures { OnOk result (text.new.items ≡ text.old.items ++ listed (map (printed names.now) parts.now)) }
{
    for i in 0..parts.len() {
        if i != 0 {
            text.extend_from_slice(b",")?;
        }
        write_tree(alloc, text, &parts[i], names)?;
    }
    Ok(())
}

// The name of the class with this number.
fn class_text(names: &[Name], number: u16) -> &[u8]
    ensures { result.now ≡ class_name names.now number }
{
    match names.get(number as usize) {
        Some(name) => name.text().as_bytes(),
        None => b"",
    }
}

fn write_variable(
    alloc: Global,
    text: &mut Vec<u8>,
    mark: &[u8],
    number: u8,
) -> Result<(), AllocError>
    ensures { OnOk result (text.new.items ≡ text.old.items ++ (mark.now ++ decimal number)) }
{
    let digits = format!(in alloc; "{number}")?;
    text.extend_from_slice(mark)?;
    text.extend_from_slice(digits.as_bytes())
}
