// The number of the slot in which a type has a method of an interface.
ghost use Rattle.std.specs.Prelude.{◌≡◌, ◌≤◌, ◌<◌, IfOk, IfSome, length, take, position};
ghost use Rattle.type_tree.specs.Same.{is_same};
ghost use Rattle.il_model.specs.Bases.{with_args_of};
ghost use Rattle.il_model.specs.Slots.{own_methods_of, method_count, implementation_of};
ghost use Rattle.il_model.specs.ClassRules.{HasTypes, OfClass, HasFewSlots, most_slots};

use crate::classes::with_args_of;
use crate::definitions::definition_of;
use crate::equality::is_same;
use crate::implementing::interfaces;
use crate::matching::own_methods_of;
use crate::slotting::virtual_slots;
use il_model::Program;
use mn_outside::NoMemory;
use std::alloc::Global;
use type_tree::{TExpr, Tree};

/// The number of the slot in which a type has a method of an interface, which is the one with this place
/// among the interface's own methods. None exactly where the type has no such interface; of interfaces
/// that became equal the first counts. This project's own, after ECMA-335, Partition II.
pub fn implementation(
    alloc: Global,
    program: &Program,
    exact: &Tree,
    interface: &Tree,
    ordinal: u16,
) -> Result<Option<u16>, NoMemory>
    requires types { HasTypes program.now }
    requires few { OfClass HasFewSlots program.now exact.now }
    requires among { IfSome (implementation_of program.now exact.now interface.now ordinal)
        (λ number. ordinal < length (own_methods_of program.now interface.now)) }
    ensures { IfOk result (λ number. number ≡ implementation_of program.now exact.now interface.now ordinal) }
{
    let definition = definition_of(alloc, program, exact)?;
    let listed = interfaces(alloc, program, &definition)?;
    let Some(place) = place_of(alloc, exact, interface, listed.as_slice())? else {
        return Ok(None);
    };
    let slots = virtual_slots(alloc, program, &definition, program.classes.len())?;
    let before = method_count(program, listed.as_slice(), place);
    Ok(Some((slots.stands.len() + (before + ordinal as usize)) as u16))
}

// The place of the first that is the interface, with the arguments of the type put.
fn place_of(
    alloc: Global,
    exact: &TExpr,
    interface: &TExpr,
    listed: &[TExpr],
) -> Result<Option<usize>, NoMemory>
    ensures { IfOk result (λ place. place ≡
        position (λ each. is_same (with_args_of exact.now each) interface.now) listed.now) }
{
    for i in 0..listed.len() {
        let each = with_args_of(alloc, exact, &listed[i])?;
        if is_same(&each, interface) {
            return Ok(Some(i));
        }
    }
    Ok(None)
}

// How many methods the first so many of these interfaces have.
fn method_count(program: &Program, listed: &[TExpr], place: usize) -> usize
    requires inside { place ≤ length listed.now }
    requires few { method_count program.now listed.now ≤ most_slots }
    ensures { result ≡ method_count program.now (take place listed.now) }
{
    let mut count = 0;
    for i in 0..place {
        count += own_methods_of(program, &listed[i]).len();
    }
    count
}
