// The slots of a type.
ghost use Rattle.std.specs.Prelude.{◌≡◌, ◌++◌, IfOk, OnOk, map};
ghost use Rattle.il_model.specs.Found.{method_at};
ghost use Rattle.std.specs.Option.{option_copied};
ghost use Rattle.il_model.specs.Bases.{bases_of};
ghost use Rattle.il_model.specs.ClassRules.{HasTypes};
ghost use Rattle.il_model.specs.Slots.{slots_of, is_interface, is_interface_kind, definition_slots, places_of, place_holds};
ghost use Rattle.type_inst.specs.Matching.{seen, own_places, found_in, standing_in};

use crate::ascent::bases;
use crate::definitions::definition_of;
use crate::implementing::interfaces;
use crate::matching::{method_at, nearest_match, own_methods_of};
use crate::method_trees::{copy_of, method_of, methods_at};
use crate::slotting::{SlotTable, slot_taken, virtual_slots};
use il_model::{ClassKind, MethodTree, Program, class_of};
use mn_outside::NoMemory;
use sqlite_items::Items;
use std::alloc::Global;
use type_tree::{TExpr, Tree};

/// The slots of a type: the virtual ones, those of the base first, then a place for each method of each
/// interface, and in each the method that stands there. Slots are found in the definition of the type's
/// class, and the type's arguments are put afterwards. After ECMA-335, Partition II.
pub fn slots(alloc: Global, program: &Program, tree: &Tree) -> Result<Items<MethodTree>, NoMemory>
    requires { HasTypes program.now }
    ensures { IfOk result (λ all. all ≡ slots_of program.now tree.now) }
{
    let definition = definition_of(alloc, program, tree)?;
    let all = definition_slots(alloc, program, &definition)?;
    methods_at(alloc, tree, all.as_slice())
}

// The slots of a definition.
fn definition_slots(
    alloc: Global,
    program: &Program,
    definition: &TExpr,
) -> Result<Items<MethodTree>, NoMemory>
    requires { HasTypes program.now }
    ensures { IfOk result (λ all. all ≡ definition_slots program.now definition.now) }
{
    let slots = virtual_slots(alloc, program, definition, program.classes.len())?;
    let places = places(alloc, program, definition, &slots)?;
    let mut all = slots.stands;
    all.append(places).map_err(|_| NoMemory)?;
    Ok(all)
}

// What the place of each method of each interface holds.
fn places(
    alloc: Global,
    program: &Program,
    definition: &TExpr,
    slots: &SlotTable,
) -> Result<Items<MethodTree>, NoMemory>
    requires { HasTypes program.now }
    ensures { IfOk result (λ all. all ≡
        map (place_holds program.now definition.now (seen slots.now)) (places_of program.now definition.now)) }
{
    let mut all = Items::new(alloc);
    let classes = bases(alloc, program, definition)?;
    let listed = interfaces(alloc, program, definition)?;
    for each in listed.as_slice() {
        add_places(
            alloc,
            program,
            definition,
            classes.as_slice(),
            slots,
            each,
            &mut all,
        )?;
    }
    Ok(all)
}

// Puts what the places of one interface's methods hold at the end.
fn add_places(
    alloc: Global,
    program: &Program,
    definition: &TExpr,
    classes: &[TExpr],
    slots: &SlotTable,
    interface: &TExpr,
    all: &mut Items<MethodTree>,
) -> Result<(), NoMemory>
    requires { classes.now ≡ bases_of program.now definition.now }
    ensures { OnOk result (all.new ≡ all.old ++
        map (place_holds program.now definition.now (seen slots.now)) (own_places program.now interface.now)) }
{
    for number in own_methods_of(program, interface) {
        let holds = place_holds(
            alloc, program, definition, classes, slots, interface, *number,
        )?;
        all.push(holds).map_err(|_| NoMemory)?;
    }
    Ok(())
}

// What the place of an interface's method holds: in an interface that method itself, else the one that
// implements it.
fn place_holds(
    alloc: Global,
    program: &Program,
    definition: &TExpr,
    classes: &[TExpr],
    slots: &SlotTable,
    interface: &TExpr,
    number: u16,
) -> Result<MethodTree, NoMemory>
    requires { classes.now ≡ bases_of program.now definition.now }
    ensures { IfOk result (λ holds. holds ≡
        place_holds program.now definition.now (seen slots.now) (interface.now, number)) }
{
    if is_interface(program, definition) {
        return method_of(alloc, interface, number);
    }
    match standing(alloc, program, classes, slots, interface, number)? {
        Some(method) => copy_of(alloc, method),
        None => method_of(alloc, interface, number),
    }
}

// The method that stands in the slot of the virtual method that an interface's method finds.
fn standing<'a>(
    alloc: Global,
    program: &Program,
    classes: &[TExpr],
    slots: &'a SlotTable,
    interface: &TExpr,
    number: u16,
) -> Result<Option<&'a MethodTree>, NoMemory>
    ensures { IfOk result (λ found. option_copied found ≡
        standing_in (seen slots.now) (found_in program.now interface.now classes.now (method_at program.now number))) }
{
    let Some(method) = method_at(program, number) else {
        return Ok(None);
    };
    let Some(found) = nearest_match(alloc, program, interface, method, classes)? else {
        return Ok(None);
    };
    let Some(slot) = slot_taken(slots, found) else {
        return Ok(None);
    };
    Ok(slots.stands.as_slice().get(slot))
}

// Whether a type is an interface.
fn is_interface(program: &Program, kind: &TExpr) -> bool
    ensures { result ≡ is_interface program.now kind.now }
{
    match class_of(program, kind) {
        Some(class) => is_interface_kind(class.kind),
        None => false,
    }
}

fn is_interface_kind(kind: ClassKind) -> bool
    ensures { result ≡ is_interface_kind kind }
{
    match kind {
        ClassKind::Interface => true,
        ClassKind::Plain | ClassKind::Abstract | ClassKind::Struct | ClassKind::Delegate => false,
    }
}
