// The rules over all classes and all methods of a program, in the order in which they are judged.
ghost use Rattle.std.specs.Prelude.{◌≡◌, ◌≤◌, [], ◌∷◌, ◌++◌, IfOk, OnOk, length, slice_get};
ghost use Rattle.il_model.specs.ClassRules.{HasTypes};
ghost use Rattle.cil_verify.specs.Heights.{AreHeights};
ghost use Rattle.cil_verify.specs.Places.{code_of};
ghost use Rattle.cil_verify.specs.Passes.{refusal_of};
ghost use Rattle.cil_verify.specs.Sizes.{FitsNumbers};
ghost use Rattle.cil_verify.specs.WellTyped.{HoldAll, first_class_rules, later_class_rules, Each};
ghost use Rattle.cil_verify.specs.Judging.{Judges, refusal_at, fault_in, JudgesClasses, JudgesMethod, JudgesMethods};

use crate::bodies::{body_states, size_cause};
use crate::class_rules::later_cause;
use crate::fault::{BodyFault, VerifyCause, VerifyFault, Where};
use crate::hierarchy::judged;
use crate::layouts::has_layout;
use crate::method_heads::head_cause;
use cil_flow::States;
use il_model::{ClassDef, MethodDef, Program};
use mn_outside::{NoMemory, Refused};
use sqlite_items::Items;
use std::alloc::Global;

/// Whether the rules on hierarchies and layouts hold of all classes, or the first that they refuse.
pub(crate) fn judge_first(alloc: Global, program: &Program) -> Result<(), Refused<VerifyFault>>
    requires { FitsNumbers program.now }
    ensures { JudgesClasses first_class_rules program.now result }
{
    let Ok(mut heights) = Vec::from_elem(alloc, 0usize, program.classes.len()) else {
        return Err(Refused::NoMemory);
    };
    judge_each(alloc, program, &mut heights)
}

// The same, where these heights are known.
fn judge_each(
    alloc: Global,
    program: &Program,
    heights: &mut [usize],
) -> Result<(), Refused<VerifyFault>>
    requires size { FitsNumbers program.now }
    requires known { AreHeights program.now heights.old }
    ensures { JudgesClasses first_class_rules program.now result }
{
    let classes = program.classes.as_slice();
    for i in 0..classes.len() {
        let found = first_cause(alloc, program, heights, i as u16, &classes[i]);
        refuse(Where::Class(i as u16), found)?;
    }
    Ok(())
}

// The cause of the first of the rules on hierarchies and layouts that does not hold of the class with this
// number.
fn first_cause(
    alloc: Global,
    program: &Program,
    heights: &mut [usize],
    number: u16,
    class: &ClassDef,
) -> Result<Option<VerifyCause>, NoMemory>
    requires at { slice_get program.now.classes number ≡ Some class.now }
    requires known { AreHeights program.now heights.old }
    ensures known { AreHeights program.now heights.new }
    ensures value { IfOk result (λ found. Judges first_class_rules program.now number class.now found) }
{
    let Some(whole) = judged(alloc, program, heights, number, class)? else {
        return Ok(Some(VerifyCause::BadHierarchy));
    };
    if !has_layout(alloc, program, number, class, &whole)? {
        return Ok(Some(VerifyCause::BadLayout));
    }
    Ok(None)
}

// A cause that was found, as the refusal at this place.
fn refuse(
    at: Where,
    found: Result<Option<VerifyCause>, NoMemory>,
) -> Result<(), Refused<VerifyFault>>
    ensures { result ≡ refusal_at at found }
{
    match found {
        Ok(None) => Ok(()),
        Ok(Some(cause)) => Err(Refused::Fault(VerifyFault { at, cause })),
        Err(NoMemory) => Err(Refused::NoMemory),
    }
}

/// Whether the other rules on classes hold of all classes, or the first that they refuse.
pub(crate) fn judge_later(alloc: Global, program: &Program) -> Result<(), Refused<VerifyFault>>
    requires size { FitsNumbers program.now }
    requires first { Each (HoldAll first_class_rules program.now) program.now.classes }
    ensures { JudgesClasses later_class_rules program.now result }
{
    let classes = program.classes.as_slice();
    for i in 0..classes.len() {
        let found = later_cause(alloc, program, i as u16, &classes[i]);
        refuse(Where::Class(i as u16), found)?;
    }
    Ok(())
}

/// The states of all methods, or the first refusal of a method.
pub(crate) fn judge_methods(
    alloc: Global,
    program: &Program,
) -> Result<Items<States>, Refused<VerifyFault>>
    requires size { FitsNumbers program.now }
    requires first { Each (HoldAll first_class_rules program.now) program.now.classes }
    requires later { Each (HoldAll later_class_rules program.now) program.now.classes }
    ensures { JudgesMethods program.now result }
{
    let mut all: Items<States> = Items::new(alloc);
    let methods = program.methods.as_slice();
    for i in 0..methods.len() {
        let states = judge_method(alloc, program, i as u16, &methods[i])?;
        let Ok(()) = put(&mut all, states) else {
            return Err(Refused::NoMemory);
        };
    }
    Ok(all)
}

fn put(all: &mut Items<States>, states: States) -> Result<(), NoMemory>
    ensures { OnOk result (all.new ≡ all.old ++ states ∷ []) }
{
    all.push(states).map_err(|_| NoMemory)
}

// The states of the method with this number, or why it is refused.
fn judge_method(
    alloc: Global,
    program: &Program,
    number: u16,
    method: &MethodDef,
) -> Result<States, Refused<VerifyFault>>
    requires types { HasTypes program.now }
    requires few { length (code_of method.now.body) ≤ 16384 }
    ensures { JudgesMethod program.now number method.now result }
{
    let head = head_cause(alloc, program, number, method);
    refuse(Where::Method(number), head)?;
    let states = match body_states(alloc, program, method) {
        Ok(states) => states,
        Err(Refused::Fault(fault)) => return Err(Refused::Fault(at_instr(number, fault))),
        Err(Refused::NoMemory) => return Err(Refused::NoMemory),
    };
    let size = size_cause(alloc, program, number, method, &states);
    refuse(Where::Method(number), size)?;
    Ok(states)
}

// The refusal at an instruction of the method with this number.
fn at_instr(number: u16, fault: BodyFault) -> VerifyFault
    ensures { result ≡ fault_in number (refusal_of fault) }
{
    VerifyFault {
        at: Where::Instr(number, fault.instr),
        cause: fault.cause,
    }
}
