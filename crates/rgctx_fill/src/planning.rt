// The nodes that a type or a method needs, in the order in which a fill looks for them.
ghost use Rattle.std.specs.Prelude.{◌≡◌, ◌++◌, ◌∷◌, [], ◌+◌, IfOk, OnOk, length, slice_index, vec_len};
ghost use Rattle.rgctx_fill.specs.Steps.{head_number, method_number, step_with, type_steps, types_steps, types_places, method_steps};

use crate::stage::NodeStep;
use il_model::MethodTree;
use mn_outside::NoMemory;
use std::alloc::Global;
use type_tree::{Head, TExpr, TNode};

// The steps of a method with its class and its arguments.
pub(crate) fn method_steps(alloc: Global, method: &MethodTree) -> Result<Vec<NodeStep>, NoMemory>
    ensures { IfOk result (λ steps. steps.items ≡ method_steps method.now) }
{
    let mut steps = Vec::new(alloc);
    let mut places = Vec::new(alloc);
    add_type(alloc, &mut steps, &method.class)?;
    put_place(&mut places, steps.len())?;
    add_types(alloc, &mut steps, &mut places, method.args.as_slice())?;
    put_step(
        &mut steps,
        step_with(method_number(method.method), places.as_slice()),
    )?;
    Ok(steps)
}

// The steps of a type.
pub(crate) fn type_steps(alloc: Global, kind: &TExpr) -> Result<Vec<NodeStep>, NoMemory>
    ensures { IfOk result (λ steps. steps.items ≡ type_steps kind.now 0) }
{
    let mut steps = Vec::new(alloc);
    add_type(alloc, &mut steps, kind)?;
    Ok(steps)
}

// Adds the steps of a type: those of its arguments, then its own.
#[cycle(planning)]
fn add_type(alloc: Global, steps: &mut Vec<NodeStep>, kind: &TExpr) -> Result<(), NoMemory>
    ensures { OnOk result (steps.new.items ≡ steps.old.items ++ type_steps kind.now (vec_len steps.old)) }
{
    match kind.top() {
        TNode::Node(head, parts) => {
            let mut places = Vec::new(alloc);
            add_types(alloc, steps, &mut places, parts.as_slice())?;
            put_step(steps, step_with(head_number(*head), places.as_slice()))?;
            Ok(())
        }
        TNode::ClassVar(_) | TNode::MethodVar(_) => Ok(()),
    }
}

// Adds the steps of types in order, and the place of the last step of each.
#[cycle(planning)]
fn add_types(
    alloc: Global,
    steps: &mut Vec<NodeStep>,
    places: &mut Vec<usize>,
    kinds: &[TExpr],
) -> Result<(), NoMemory>
    ensures steps { OnOk result (steps.new.items ≡ steps.old.items ++ types_steps kinds.now (vec_len steps.old)) }
    ensures places { OnOk result (places.new.items ≡ places.old.items ++ types_places kinds.now (vec_len steps.old)) }
{
    for kind in kinds {
        add_type(alloc, steps, kind)?;
        put_place(places, steps.len())?;
    }
    Ok(())
}

fn put_step(steps: &mut Vec<NodeStep>, step: NodeStep) -> Result<(), NoMemory>
    ensures { OnOk result (steps.new.items ≡ steps.old.items ++ step ∷ []) }
{
    steps.push(step).map_err(|_| NoMemory)
}

fn put_place(places: &mut Vec<usize>, place: usize) -> Result<(), NoMemory>
    ensures { OnOk result (places.new.items ≡ places.old.items ++ place ∷ []) }
{
    places.push(place).map_err(|_| NoMemory)
}

// The step of a definition with the places of its arguments.
fn step_with(definition: u16, places: &[usize]) -> NodeStep
    ensures { result ≡ step_with definition places.now }
{
    NodeStep {
        definition,
        first: place_at(places, 0),
        second: place_at(places, 1),
        third: place_at(places, 2),
    }
}

fn place_at(places: &[usize], i: usize) -> usize
    ensures { result ≡ slice_index places.now i }
{
    match places.get(i) {
        Some(place) => *place,
        None => 0,
    }
}

fn head_number(head: Head) -> u16
    ensures { result ≡ head_number head }
{
    match head {
        Head::Int32 => 1,
        Head::Int64 => 2,
        Head::Bool => 3,
        Head::Vector => 4,
        Head::Class(number) => { if number < 0x7FF0 { 16 + number } else { 0 } }
    }
}

fn method_number(number: u16) -> u16
    ensures { result ≡ method_number number }
{
    if number < 0x8000 { 0x8000 + number } else { 0 }
}
