// Images as bytes.
ghost use Rattle.std.specs.Prelude.{◌≡◌, ◌<◌, ◌^◌, ◌++◌, length, flat_map, IfOk, OnOk};
ghost use Rattle.std.specs.List.{AllByRecursion};
ghost use Rattle.il_model.specs.Canonical.{canonical_text};
ghost use Rattle.aot_image.specs.ImageSpelling.{byte, half, word, definition_number, tree_bytes, part_bytes, pick_bytes, handler_bytes, body_bytes, method_bytes, entry_bytes, head_bytes, image_bytes};
ghost use Rattle.aot_image.specs.ImageForm.{BodyFits, IsImage, data_of};

use crate::image::{FIRST_CLASS, Image, MAGIC, VERSION};
use il_model::{BodyRow, Entry, KeyPart};
use il_print::print;
use mn_outside::NoMemory;
use std::alloc::{AllocError, Global};
use type_tree::{Head, TExpr, TNode};

/// The one spelling of an image in bytes: the mark and the version, the counts, the canonical text of the
/// program, the rows of bodies and closed entries, and the code, all numbers little-endian. This project's
/// own. `docs/IMAGE.md` has the fields.
pub fn encode(alloc: Global, image: &Image) -> Result<Vec<u8>, NoMemory>
    requires { IsImage (data_of image.now) }
    ensures { IfOk result (λ bytes. bytes.items ≡ image_bytes (data_of image.now)) }
{
    let text = print(alloc, image.program.program())?;
    let mut out = Vec::new(alloc);
    match put_image(&mut out, image, text.as_slice()) {
        Ok(()) => Ok(out),
        Err(_) => Err(NoMemory),
    }
}

fn put_image(out: &mut Vec<u8>, image: &Image, text: &[u8]) -> Result<(), AllocError>
    requires is { IsImage (data_of image.now) }
    requires text { text.now ≡ canonical_text image.now.program.program }
    ensures { OnOk result (out.new.items ≡ out.old.items ++ image_bytes (data_of image.now)) }
{
    let bodies = image.bodies.as_slice();
    let got = image.got.as_slice();
    let code = image.code.as_slice();
    put_head(
        out,
        count_of(text.len()),
        count_of(bodies.len()),
        count_of(got.len()),
        count_of(code.len()),
    )?;
    out.extend_from_slice(text)?;
    put_bodies(out, bodies)?;
    put_entries(out, got)?;
    put_words(out, code)?;
    Ok(())
}

// A count of the head.
fn count_of(length: usize) -> u32
    requires { length < 2 ^ 32 }
    ensures { result ≡ length }
{
    match u32::try_from(length) {
        Ok(count) => count,
        Err(_) => unreachable!(),
    }
}

// The fields before the text, which has so many bytes.
fn put_head(
    out: &mut Vec<u8>,
    text: u32,
    bodies: u32,
    got: u32,
    code: u32,
) -> Result<(), AllocError>
    ensures { OnOk result (out.new.items ≡ out.old.items ++ head_bytes text bodies got code) }
{
    out.extend_from_slice(MAGIC)?;
    put_word(out, VERSION)?;
    put_word(out, text)?;
    put_word(out, bodies)?;
    put_word(out, got)?;
    put_word(out, code)?;
    Ok(())
}

fn put_length(out: &mut Vec<u8>, length: usize) -> Result<(), AllocError>
    requires { length < 2 ^ 8 }
    ensures { OnOk result (out.new.items ≡ out.old.items ++ byte length) }
{
    match u8::try_from(length) {
        Ok(count) => out.push(count)?,
        Err(_) => unreachable!(),
    }
    Ok(())
}

fn put_half(out: &mut Vec<u8>, number: u16) -> Result<(), AllocError>
    ensures { OnOk result (out.new.items ≡ out.old.items ++ half number) }
{
    out.extend_from_slice(&number.to_le_bytes())?;
    Ok(())
}

fn put_word(out: &mut Vec<u8>, number: u32) -> Result<(), AllocError>
    ensures { OnOk result (out.new.items ≡ out.old.items ++ word number) }
{
    out.extend_from_slice(&number.to_le_bytes())?;
    Ok(())
}

fn put_words(out: &mut Vec<u8>, words: &[u32]) -> Result<(), AllocError>
    ensures { OnOk result (out.new.items ≡ out.old.items ++ flat_map word words.now) }
{
    for number in words {
        put_word(out, *number)?;
    }
    Ok(())
}

fn put_bodies(out: &mut Vec<u8>, bodies: &[BodyRow]) -> Result<(), AllocError>
    requires { AllByRecursion BodyFits bodies.now }
    ensures { OnOk result (out.new.items ≡ out.old.items ++ flat_map body_bytes bodies.now) }
{
    for row in bodies {
        put_body(out, row)?;
    }
    Ok(())
}

fn put_body(out: &mut Vec<u8>, row: &BodyRow) -> Result<(), AllocError>
    requires { BodyFits row.now }
    ensures { OnOk result (out.new.items ≡ out.old.items ++ body_bytes row.now) }
{
    put_pick(out, row.method, row.key.parts.as_slice())?;
    put_word(out, row.entry)?;
    put_word(out, row.frame)?;
    put_handlers(out, row.handlers.as_slice())?;
    Ok(())
}

// The method and the key of a body.
fn put_pick(out: &mut Vec<u8>, method: u16, parts: &[KeyPart]) -> Result<(), AllocError>
    requires { length parts.now < 2 ^ 8 }
    ensures { OnOk result (out.new.items ≡ out.old.items ++ pick_bytes method parts.now) }
{
    put_half(out, method)?;
    put_length(out, parts.len())?;
    put_parts(out, parts)?;
    Ok(())
}

fn put_parts(out: &mut Vec<u8>, parts: &[KeyPart]) -> Result<(), AllocError>
    ensures { OnOk result (out.new.items ≡ out.old.items ++ flat_map part_bytes parts.now) }
{
    for part in parts {
        put_part(out, part)?;
    }
    Ok(())
}

fn put_part(out: &mut Vec<u8>, part: &KeyPart) -> Result<(), AllocError>
    ensures { OnOk result (out.new.items ≡ out.old.items ++ part_bytes part.now) }
{
    match part {
        KeyPart::Ref => out.push(0)?,
        KeyPart::Any => out.push(1)?,
        KeyPart::Exact(tree) => {
            out.push(2)?;
            put_tree(out, tree)?;
        }
    }
    Ok(())
}

// The handlers of a body, with their number.
fn put_handlers(out: &mut Vec<u8>, handlers: &[u32]) -> Result<(), AllocError>
    requires { length handlers.now < 2 ^ 8 }
    ensures { OnOk result (out.new.items ≡ out.old.items ++ handler_bytes handlers.now) }
{
    put_length(out, handlers.len())?;
    put_words(out, handlers)?;
    Ok(())
}

// The number of a definition, of whose bytes an image has two.
#[tactic(auto, using(crate::proofs::WritingLemmas::half_wrapped))]
fn definition_number(head: Head) -> u16
    ensures { half result ≡ half (definition_number head) }
{
    match head {
        Head::Int32 => 1,
        Head::Int64 => 2,
        Head::Bool => 3,
        Head::Vector => 4,
        Head::Class(number) => FIRST_CLASS.wrapping_add(number),
    }
}

#[cycle(trees)]
fn put_tree(out: &mut Vec<u8>, tree: &TExpr) -> Result<(), AllocError>
    ensures { OnOk result (out.new.items ≡ out.old.items ++ tree_bytes tree.now) }
{
    match tree.top() {
        TNode::Node(head, parts) => {
            put_half(out, definition_number(*head))?;
            put_trees(out, parts.as_slice())?;
        }
        TNode::ClassVar(_) | TNode::MethodVar(_) => {}
    }
    Ok(())
}

#[cycle(trees)]
fn put_trees(out: &mut Vec<u8>, trees: &[TExpr]) -> Result<(), AllocError>
    ensures { OnOk result (out.new.items ≡ out.old.items ++ flat_map tree_bytes trees.now) }
{
    for tree in trees {
        put_tree(out, tree)?;
    }
    Ok(())
}

fn put_entries(out: &mut Vec<u8>, entries: &[Entry]) -> Result<(), AllocError>
    ensures { OnOk result (out.new.items ≡ out.old.items ++ flat_map entry_bytes entries.now) }
{
    for entry in entries {
        put_entry(out, entry)?;
    }
    Ok(())
}

// An entry with its kind. There are no slots in an image.
fn put_entry(out: &mut Vec<u8>, entry: &Entry) -> Result<(), AllocError>
    ensures { OnOk result (out.new.items ≡ out.old.items ++ entry_bytes entry.now) }
{
    match entry {
        Entry::Kind(kind) => put_kind(out, 0, kind),
        Entry::Method(number, class, args) => put_method(out, *number, class, args.as_slice()),
        Entry::Size(kind) => put_kind(out, 2, kind),
        Entry::Extent(kind) => put_kind(out, 3, kind),
        Entry::Offset(class, place) => {
            put_kind(out, 4, class)?;
            put_half(out, *place)?;
            Ok(())
        }
        Entry::Slot(_) => Ok(()),
    }
}

// The kind of an entry and a type.
fn put_kind(out: &mut Vec<u8>, kind: u8, tree: &TExpr) -> Result<(), AllocError>
    ensures { OnOk result (out.new.items ≡ out.old.items ++ (byte kind ++ tree_bytes tree.now)) }
{
    out.push(kind)?;
    put_tree(out, tree)?;
    Ok(())
}

// A method with its class and its arguments.
fn put_method(
    out: &mut Vec<u8>,
    number: u16,
    class: &TExpr,
    args: &[TExpr],
) -> Result<(), AllocError>
    ensures { OnOk result (out.new.items ≡ out.old.items ++ method_bytes number class.now args.now) }
{
    out.push(1)?;
    put_half(out, number)?;
    put_tree(out, class)?;
    put_trees(out, args)?;
    Ok(())
}
