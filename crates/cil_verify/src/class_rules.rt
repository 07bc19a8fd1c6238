// The rules on classes in which all types can be asked about: bounds, implementations and slots.
ghost use Rattle.std.specs.Prelude.{◌≡◌, [], ◌+◌, ◌||◌, not, IfOk, length, map, nat_le, slice_get, is_some, option_to_list, Some};
ghost use Rattle.std.specs.List.{list_all, list_any};
ghost use Rattle.il_model.specs.Bases.{bases_of};
ghost use Rattle.il_model.specs.Slots.{is_interface_kind, candidates, places_of, match_of_place};
ghost use Rattle.il_model.specs.ClassRules.{HasTypes, types_written, meets_bounds, is_abstract_slot, has_objects, most_slots};
ghost use Rattle.cil_verify.specs.WellTyped.{later_class_rules};
ghost use Rattle.cil_verify.specs.Judging.{Judges};
ghost use Rattle.type_inst.specs.Matching.{own_places};

use crate::bounds::{all_bounds_meet, all_meet, meets_bounds};
use crate::class_kinds::{has_objects, is_abstract_shape, is_interface_kind};
use crate::fault::VerifyCause;
use crate::hierarchy::own_of;
use il_model::{ClassDef, FieldDef, MethodTree, Program, VarDef};
use mn_outside::NoMemory;
use std::alloc::Global;
use type_inst::{SlotTable, bases, interfaces, nearest_match, own_methods_of, virtual_slots};
use type_tree::TExpr;

/// The cause of the first of the later rules that does not hold of the class with this number.
pub(crate) fn later_cause(
    alloc: Global,
    program: &Program,
    number: u16,
    class: &ClassDef,
) -> Result<Option<VerifyCause>, NoMemory>
    requires types { HasTypes program.now }
    requires at { slice_get program.now.classes number ≡ Some class.now }
    ensures { IfOk result (λ found. Judges later_class_rules program.now number class.now found) }
{
    if !has_bounds(alloc, program, class)? {
        return Ok(Some(VerifyCause::BadConstraint));
    }
    let own = own_of(alloc, number, class)?;
    let slots = virtual_slots(alloc, program, &own, program.classes.len())?;
    if !finds_methods(alloc, program, class, &own)? {
        return Ok(Some(VerifyCause::MissingImplementation));
    }
    if !is_complete(program, class, &slots) {
        return Ok(Some(VerifyCause::MissingImplementation));
    }
    if !has_few_slots(alloc, program, &own, &slots)? {
        return Ok(Some(VerifyCause::TooManySlots));
    }
    Ok(None)
}

// Whether all types that a class writes meet their bounds.
fn has_bounds(alloc: Global, program: &Program, class: &ClassDef) -> Result<bool, NoMemory>
    requires { HasTypes program.now }
    ensures { IfOk result (λ met. met ≡
        list_all (meets_bounds program.now (record { of_class = class.now.vars; of_method = [] })) (types_written class.now)) }
{
    let vars = class.vars.as_slice();
    if !some_meets(alloc, program, vars, &class.base)? {
        return Ok(false);
    }
    if !all_meet(alloc, program, vars, &[], class.interfaces.as_slice())? {
        return Ok(false);
    }
    if !all_bounds_meet(alloc, program, vars, &[], vars)? {
        return Ok(false);
    }
    fields_meet(alloc, program, vars, class.fields.as_slice())
}

fn some_meets(
    alloc: Global,
    program: &Program,
    vars: &[VarDef],
    kind: &Option<TExpr>,
) -> Result<bool, NoMemory>
    requires { HasTypes program.now }
    ensures { IfOk result (λ met. met ≡
        list_all (meets_bounds program.now (record { of_class = vars.now; of_method = [] })) (option_to_list kind.now)) }
{
    match kind {
        Some(kind) => meets_bounds(alloc, program, vars, &[], kind),
        None => Ok(true),
    }
}

fn fields_meet(
    alloc: Global,
    program: &Program,
    vars: &[VarDef],
    fields: &[FieldDef],
) -> Result<bool, NoMemory>
    requires { HasTypes program.now }
    ensures { IfOk result (λ met. met ≡
        list_all (meets_bounds program.now (record { of_class = vars.now; of_method = [] })) (map (λ f. f.kind) fields.now)) }
{
    for field in fields {
        if !meets_bounds(alloc, program, vars, &[], &field.kind)? {
            return Ok(false);
        }
    }
    Ok(true)
}

// Whether, outside interfaces, each method of an interface finds a virtual method.
fn finds_methods(
    alloc: Global,
    program: &Program,
    class: &ClassDef,
    own: &TExpr,
) -> Result<bool, NoMemory>
    requires { HasTypes program.now }
    ensures { IfOk result (λ found. found ≡
        (is_interface_kind class.now.kind || list_all (λ place. is_some (match_of_place program.now own.now place)) (places_of program.now own.now))) }
{
    if is_interface_kind(class.kind) {
        return Ok(true);
    }
    let uppers = bases(alloc, program, own)?;
    let listed = interfaces(alloc, program, own)?;
    finds_all(alloc, program, own, uppers.as_slice(), listed.as_slice())
}

fn finds_all(
    alloc: Global,
    program: &Program,
    own: &TExpr,
    uppers: &[TExpr],
    listed: &[TExpr],
) -> Result<bool, NoMemory>
    requires { uppers.now ≡ bases_of program.now own.now }
    ensures { IfOk result (λ found. found ≡
        list_all (λ place. is_some (match_of_place program.now own.now place)) (candidates program.now listed.now)) }
{
    for each in listed {
        if !finds_own(alloc, program, own, uppers, each)? {
            return Ok(false);
        }
    }
    Ok(true)
}

// The same of one interface's own methods.
fn finds_own(
    alloc: Global,
    program: &Program,
    own: &TExpr,
    uppers: &[TExpr],
    interface: &TExpr,
) -> Result<bool, NoMemory>
    requires { uppers.now ≡ bases_of program.now own.now }
    ensures { IfOk result (λ found. found ≡
        list_all (λ place. is_some (match_of_place program.now own.now place)) (own_places program.now interface.now)) }
{
    for number in own_methods_of(program, interface) {
        if !finds_one(alloc, program, own, uppers, interface, *number)? {
            return Ok(false);
        }
    }
    Ok(true)
}

fn finds_one(
    alloc: Global,
    program: &Program,
    own: &TExpr,
    uppers: &[TExpr],
    interface: &TExpr,
    number: u16,
) -> Result<bool, NoMemory>
    requires { uppers.now ≡ bases_of program.now own.now }
    ensures { IfOk result (λ found. found ≡ is_some (match_of_place program.now own.now (interface.now, number))) }
{
    match program.methods.as_slice().get(number as usize) {
        Some(method) => {
            let found = nearest_match(alloc, program, interface, method, uppers)?;
            Ok(found.is_some())
        }
        None => Ok(false),
    }
}

// Whether a class whose objects are of just its type has no abstract slot.
fn is_complete(program: &Program, class: &ClassDef, slots: &SlotTable) -> bool
    ensures { result ≡ (not (has_objects class.now.kind) || not (list_any (is_abstract_slot program.now) slots.now.stands)) }
{
    if has_objects(class.kind) {
        !has_abstract(program, slots.stands.as_slice())
    } else {
        true
    }
}

fn has_abstract(program: &Program, slots: &[MethodTree]) -> bool
    ensures { result ≡ list_any (is_abstract_slot program.now) slots.now }
{
    for slot in slots {
        if is_abstract_slot(program, slot) {
            return true;
        }
    }
    false
}

fn is_abstract_slot(program: &Program, slot: &MethodTree) -> bool
    ensures { result ≡ is_abstract_slot program.now slot.now }
{
    match program.methods.as_slice().get(slot.method as usize) {
        Some(method) => is_abstract_shape(method.shape),
        None => false,
    }
}

// Whether the virtual slots and the places of interfaces' methods are few.
fn has_few_slots(
    alloc: Global,
    program: &Program,
    own: &TExpr,
    slots: &SlotTable,
) -> Result<bool, NoMemory>
    requires { HasTypes program.now }
    ensures { IfOk result (λ few. few ≡ nat_le (length slots.now.stands + length (places_of program.now own.now)) most_slots) }
{
    if slots.stands.len() > 224 {
        return Ok(false);
    }
    let listed = interfaces(alloc, program, own)?;
    Ok(has_few_places(program, listed.as_slice(), 224 - slots.stands.len()))
}

// Whether these interfaces have no more than so many methods.
fn has_few_places(program: &Program, listed: &[TExpr], most: usize) -> bool
    ensures { result ≡ nat_le (length (candidates program.now listed.now)) most }
{
    let mut left = most;
    for each in listed {
        let count = own_methods_of(program, each).len();
        if count > left {
            return false;
        }
        left -= count;
    }
    true
}
