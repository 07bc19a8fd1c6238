// The virtual slots of a type: the method that stands in each, and the slot that each method took.
ghost use Rattle.std.specs.Prelude.{◌≡◌, IfOk, OnOk, None, fold, slice_set, if◌then◌else◌};
ghost use Rattle.il_model.specs.Bases.{base_of, proper_bases_of};
ghost use Rattle.il_model.specs.Slots.{takes_new, own_methods_of, no_slots, slot_taken, with_slot, slot_below, with_method, slots_at, slots_or_none, virtual_within};
ghost use Rattle.il_model.specs.ClassRules.{HasTypes};
ghost use Rattle.type_inst.specs.Matching.{seen};

use crate::ascent::bases;
use crate::classes::base_of;
use crate::definitions::definition_of;
use crate::matching::{has_slot, method_at, nearest_match, own_methods_of};
use crate::method_trees::{method_of, methods_at};
use il_model::{MethodDef, MethodTree, Program, Shape};
use mn_outside::NoMemory;
use sqlite_items::Items;
use std::alloc::Global;
use type_tree::TExpr;

/// The method that stands in each virtual slot, and for each virtual method of the class and its bases its
/// number and the slot that it took.
#[derive(Drop)]
pub struct SlotTable {
    pub stands: Items<MethodTree>,
    pub taken: Items<(u16, usize)>,
}

fn no_slots(alloc: Global) -> SlotTable
    ensures { seen result ≡ no_slots }
{
    SlotTable {
        stands: Items::new(alloc),
        taken: Items::new(alloc),
    }
}

// The slot that the method with this number took.
pub(crate) fn slot_taken(slots: &SlotTable, number: u16) -> Option<usize>
    ensures { result ≡ slot_taken (seen slots.now) number }
{
    for taken in slots.taken.as_slice() {
        if taken.0 == number {
            return Some(taken.1);
        }
    }
    None
}

/// The virtual slots of a type, from so many levels of the hierarchy: as many as the program has classes
/// reach all of them. Slots are found in the type's definition.
#[cycle(virtual_slots)]
pub fn virtual_slots(
    alloc: Global,
    program: &Program,
    kind: &TExpr,
    levels: usize,
) -> Result<SlotTable, NoMemory>
    requires { HasTypes program.now }
    ensures { IfOk result (λ slots. seen slots ≡ virtual_within program.now levels kind.now) }
{
    if levels == 0 {
        return Ok(no_slots(alloc));
    }
    let definition = definition_of(alloc, program, kind)?;
    let mut slots = base_slots(alloc, program, &definition, levels - 1)?;
    add_own(alloc, program, &definition, &mut slots)?;
    slots_at(alloc, kind, slots)
}

// Those of the base.
#[cycle(virtual_slots)]
fn base_slots(
    alloc: Global,
    program: &Program,
    definition: &TExpr,
    levels: usize,
) -> Result<SlotTable, NoMemory>
    requires { HasTypes program.now }
    ensures { IfOk result (λ slots. seen slots ≡
        slots_or_none (λ base. virtual_within program.now levels base) (base_of program.now definition.now)) }
{
    match base_of(alloc, program, definition)? {
        Some(base) => virtual_slots(alloc, program, &base, levels),
        None => Ok(no_slots(alloc)),
    }
}

// The slots with the arguments of a type put for the variables of its class.
fn slots_at(alloc: Global, kind: &TExpr, slots: SlotTable) -> Result<SlotTable, NoMemory>
    ensures { IfOk result (λ at. seen at ≡ slots_at kind.now (seen slots)) }
{
    let SlotTable { stands, taken } = slots;
    let stands = methods_at(alloc, kind, stands.as_slice())?;
    Ok(SlotTable { stands, taken })
}

// Gives each virtual method of the class itself its slot, in order of the text.
fn add_own(
    alloc: Global,
    program: &Program,
    definition: &TExpr,
    slots: &mut SlotTable,
) -> Result<(), NoMemory>
    ensures { OnOk result (seen slots.new ≡
        fold (with_method program.now definition.now) (seen slots.old) (own_methods_of program.now definition.now)) }
{
    let uppers = proper_bases(alloc, program, definition)?;
    for number in own_methods_of(program, definition) {
        add_method(
            alloc,
            program,
            definition,
            uppers.as_slice(),
            *number,
            slots,
        )?;
    }
    Ok(())
}

// The bases of a type, the type itself aside.
fn proper_bases(alloc: Global, program: &Program, kind: &TExpr) -> Result<Items<TExpr>, NoMemory>
    ensures { IfOk result (λ all. all ≡ proper_bases_of program.now kind.now) }
{
    let mut all = bases(alloc, program, kind)?;
    all.remove(0);
    Ok(all)
}

// Gives the method with this number its slot, if it is virtual.
fn add_method(
    alloc: Global,
    program: &Program,
    definition: &TExpr,
    uppers: &[TExpr],
    number: u16,
    slots: &mut SlotTable,
) -> Result<(), NoMemory>
    requires { uppers.now ≡ proper_bases_of program.now definition.now }
    ensures { OnOk result (seen slots.new ≡ with_method program.now definition.now (seen slots.old) number) }
{
    let Some(method) = method_at(program, number) else {
        return Ok(());
    };
    if !has_slot(method.shape) {
        return Ok(());
    }
    let slot = slot_for(alloc, program, definition, uppers, method, slots)?;
    let tree = method_of(alloc, definition, number)?;
    take_slot(slots, tree, slot)
}

// The slot of a base that a virtual method takes; None where it takes a new one.
fn slot_for(
    alloc: Global,
    program: &Program,
    definition: &TExpr,
    uppers: &[TExpr],
    method: &MethodDef,
    slots: &SlotTable,
) -> Result<Option<usize>, NoMemory>
    requires { uppers.now ≡ proper_bases_of program.now definition.now }
    ensures { IfOk result (λ slot. slot ≡
        (if takes_new method.now.shape then None else slot_below program.now definition.now (seen slots.now) method.now)) }
{
    if takes_new(method.shape) {
        return Ok(None);
    }
    match nearest_match(alloc, program, definition, method, uppers)? {
        Some(number) => Ok(slot_taken(slots, number)),
        None => Ok(None),
    }
}

// Whether a method of this shape always takes a new slot.
fn takes_new(shape: Shape) -> bool
    ensures { result ≡ takes_new shape }
{
    match shape {
        Shape::Fixed | Shape::Instance | Shape::Virtual => false,
        Shape::NewSlot | Shape::Abstract => true,
    }
}

// Puts the method into this slot, or else into a new one at the end.
fn take_slot(slots: &mut SlotTable, method: MethodTree, slot: Option<usize>) -> Result<(), NoMemory>
    ensures { OnOk result (seen slots.new ≡ with_slot (seen slots.old) method slot) }
{
    let number = method.method;
    match slot {
        Some(slot) => {
            stand(&mut slots.stands, slot, method);
            slots.taken.push((number, slot)).map_err(|_| NoMemory)
        }
        None => {
            let slot = slots.stands.len();
            slots.stands.push(method).map_err(|_| NoMemory)?;
            slots.taken.push((number, slot)).map_err(|_| NoMemory)
        }
    }
}

// Puts the method into the slot, if it is there.
fn stand(stands: &mut Items<MethodTree>, slot: usize, method: MethodTree)
    ensures { stands.new ≡ slice_set stands.old slot method }
{
    if slot < stands.len() {
        stands.set(slot, method);
    }
}
