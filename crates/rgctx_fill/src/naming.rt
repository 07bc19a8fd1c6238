// What an entry of a template names, once the arguments of its node are put: the nodes that the value needs, and what
// is added to the number of the last.
ghost use Rattle.std.specs.Prelude.{◌≡◌, ℕ, ◌<◌, ◌^◌, IfOk, Some, length};
ghost use Rattle.il_model.specs.declared.entry.Entry.TheVariants as entry;
ghost use Rattle.il_model.specs.ClassRules.{HasTypes};
ghost use Rattle.rgctx_template.specs.Catalogue.{data_of};
ghost use Rattle.rgctx_fill.specs.declared.spelled.NodeTree.{NodeTree};
ghost use Rattle.rgctx_fill.specs.NamedValues.{entry_at, class_arguments, method_arguments, method_in_slot};
ghost use Rattle.rgctx_fill.specs.Starting.{IsWholeType, IsWholeMethod, IsWhole, IsWholeSlot, HasOffset, IsNameable, IsFillable, IsPlanned};

use crate::limits::{method_limit, type_limit};
use crate::planning::{method_steps, type_steps};
use crate::spelled::NodeTree;
use crate::stage::NodeStep;
use crate::values::{entry_word, extent_value, offset_value, size_value};
use il_model::{Entry, Limit, MethodTree};
use mn_outside::NoMemory;
use rgctx_template::{Catalogue, closed_entry};
use std::alloc::Global;
use type_inst::{arguments_of, slots};
use type_tree::{Tree, copy_all};

/// What is planned for an entry: the nodes that its value needs, with what is added to the number of the last, or the
/// limit that what it names passes.
#[derive(Drop)]
pub(crate) enum Planned {
    Plan(Vec<NodeStep>, u64),
    Refused(Limit),
}

// The plan of an entry without variables in the template of what a node spells.
pub(crate) fn plan_of(
    alloc: Global,
    cat: &Catalogue,
    tree: &NodeTree,
    named: &Entry,
) -> Result<Planned, NoMemory>
    requires fillable { IsFillable (data_of cat.now) }
    requires whole { IsWhole cat.now.program.now tree.now named.now }
    ensures { IfOk result (λ plan. IsPlanned (data_of cat.now) tree.now named.now plan) }
{
    match named {
        Entry::Kind(kind) => kind_planned(alloc, cat, kind),
        Entry::Method(number, class, args) => {
            let method = MethodTree {
                method: *number,
                class: class.copy(alloc)?,
                args: copy_all(alloc, args.as_slice())?,
            };
            method_planned(alloc, cat, &method)
        }
        Entry::Size(kind) => size_planned(alloc, cat, kind),
        Entry::Extent(kind) => extent_planned(alloc, cat, kind),
        Entry::Offset(class, place) => offset_planned(alloc, cat, class, *place),
        Entry::Slot(number) => slot_planned(alloc, cat, tree, *number),
    }
}

// An entry with the arguments of what a node spells put for its variables.
pub(crate) fn entry_at(alloc: Global, tree: &NodeTree, named: &Entry) -> Result<Entry, NoMemory>
    ensures { IfOk result (λ e. e ≡ entry_at tree.now named.now) }
{
    closed_entry(alloc, named, class_arguments(tree), method_arguments(tree))
}

// The types that stand for the variables of the class, in the template of what a node spells.
fn class_arguments(tree: &NodeTree) -> &[Tree]
    ensures { result.now ≡ class_arguments tree.now }
{
    match tree {
        NodeTree::Kind(kind) => arguments_of(kind),
        NodeTree::Method(method) => arguments_of(&method.class),
        NodeTree::Other | NodeTree::Zero(_) => &[],
    }
}

// Those for the variables of the method.
fn method_arguments(tree: &NodeTree) -> &[Tree]
    ensures { result.now ≡ method_arguments tree.now }
{
    match tree {
        NodeTree::Method(method) => method.args.as_slice(),
        NodeTree::Kind(_) | NodeTree::Other | NodeTree::Zero(_) => &[],
    }
}

// The value of a type is its node.
fn kind_planned(alloc: Global, cat: &Catalogue, kind: &Tree) -> Result<Planned, NoMemory>
    requires nameable { IsNameable cat.now.program.now }
    requires whole { IsWholeType cat.now.program.now kind.now }
    ensures { (spells : NodeTree) → IfOk result (λ plan. IsPlanned (data_of cat.now) spells (entry.Kind kind.now) plan) }
{
    if let Some(limit) = type_limit(alloc, cat.program, kind)? {
        return Ok(Planned::Refused(limit));
    }
    let steps = type_steps(alloc, kind)?;
    Ok(Planned::Plan(steps, 0))
}

// The value of a method is 65,536 times its entry word, and its node.
fn method_planned(alloc: Global, cat: &Catalogue, method: &MethodTree) -> Result<Planned, NoMemory>
    requires nameable { IsNameable cat.now.program.now }
    requires bodies { length cat.now.bodies.now < 2 ^ 32 }
    requires whole { IsWholeMethod cat.now.program.now method.now }
    ensures method { (spells : NodeTree) → IfOk result (λ plan. IsPlanned (data_of cat.now) spells (entry.Method method.now.method method.now.class method.now.args) plan) }
    ensures slot { (spells : NodeTree) (number : ℕ) → method_in_slot cat.now.program.now spells number ≡ Some method.now → IfOk result (λ plan. IsPlanned (data_of cat.now) spells (entry.Slot number) plan) }
{
    if let Some(limit) = method_limit(alloc, cat.program, method)? {
        return Ok(Planned::Refused(limit));
    }
    let word = entry_word(alloc, cat, method)?;
    let steps = method_steps(alloc, method)?;
    Ok(Planned::Plan(steps, 65_536 * u64::from(word)))
}

// The value of a slot is that of the method in it.
fn slot_planned(
    alloc: Global,
    cat: &Catalogue,
    tree: &NodeTree,
    number: u16,
) -> Result<Planned, NoMemory>
    requires types { HasTypes cat.now.program.now }
    requires nameable { IsNameable cat.now.program.now }
    requires bodies { length cat.now.bodies.now < 2 ^ 32 }
    requires whole { IsWholeSlot cat.now.program.now (method_in_slot cat.now.program.now tree.now number) }
    ensures { IfOk result (λ plan. IsPlanned (data_of cat.now) tree.now (entry.Slot number) plan) }
{
    match tree {
        NodeTree::Kind(kind) => {
            let all = slots(alloc, cat.program, kind)?;
            match all.as_slice().get(number as usize) {
                Some(method) => method_planned(alloc, cat, method),
                None => unreachable!(),
            }
        }
        NodeTree::Method(_) | NodeTree::Other | NodeTree::Zero(_) => unreachable!(),
    }
}

fn size_planned(alloc: Global, cat: &Catalogue, kind: &Tree) -> Result<Planned, NoMemory>
    ensures { (spells : NodeTree) → IfOk result (λ plan. IsPlanned (data_of cat.now) spells (entry.Size kind.now) plan) }
{
    if let Some(limit) = type_limit(alloc, cat.program, kind)? {
        return Ok(Planned::Refused(limit));
    }
    let value = size_value(alloc, cat.program, kind)?;
    Ok(Planned::Plan(Vec::new(alloc), value))
}

fn extent_planned(alloc: Global, cat: &Catalogue, kind: &Tree) -> Result<Planned, NoMemory>
    ensures { (spells : NodeTree) → IfOk result (λ plan. IsPlanned (data_of cat.now) spells (entry.Extent kind.now) plan) }
{
    if let Some(limit) = type_limit(alloc, cat.program, kind)? {
        return Ok(Planned::Refused(limit));
    }
    let value = extent_value(alloc, cat.program, kind)?;
    Ok(Planned::Plan(Vec::new(alloc), value))
}

fn offset_planned(
    alloc: Global,
    cat: &Catalogue,
    class: &Tree,
    place: u16,
) -> Result<Planned, NoMemory>
    requires { HasOffset cat.now.program.now class.now place }
    ensures { (spells : NodeTree) → IfOk result (λ plan. IsPlanned (data_of cat.now) spells (entry.Offset class.now place) plan) }
{
    if let Some(limit) = type_limit(alloc, cat.program, class)? {
        return Ok(Planned::Refused(limit));
    }
    let value = offset_value(alloc, cat.program, class, place)?;
    Ok(Planned::Plan(Vec::new(alloc), value))
}
