// How wide a place is for the values of a type.
ghost use Rattle.std.specs.Prelude.{◌≡◌, IfOk};
ghost use Rattle.il_model.specs.Admission.{limit_of};
ghost use Rattle.frame_plan.specs.Widths.{width_unless, width_of_open, width_of, width_in};
ghost use Rattle.frame_plan.specs.Places.{width_of_place, width_of_stack};

use crate::kinds::StandIns;
use cil_flow::StackType;
use il_model::{PType, Program};
use mn_outside::{NoMemory, Refused};
use std::alloc::Global;
use type_inst::{admitted, is_reference, words_of};
use type_tree::{TExpr, is_closed, subst_whole};

// The width of an argument or a local.
pub(crate) fn width_of_place(
    alloc: Global,
    program: &Program,
    ins: &StandIns,
    place: &PType,
) -> Result<u32, NoMemory>
    ensures { IfOk result (λ width. width ≡ width_of_place program.now ins.now place.now) }
{
    match place {
        PType::Value(kind) => width_in(alloc, program, ins, kind),
        PType::Pointer(_) | PType::Native => Ok(1),
    }
}

// The width of a value on the stack.
pub(crate) fn width_of_stack(
    alloc: Global,
    program: &Program,
    ins: &StandIns,
    value: &StackType,
) -> Result<u32, NoMemory>
    ensures { IfOk result (λ width. width ≡ width_of_stack program.now ins.now value.now) }
{
    match value {
        StackType::Kind(kind) => width_in(alloc, program, ins, kind),
        StackType::Int32
        | StackType::Int64
        | StackType::Native
        | StackType::Null
        | StackType::Boxed(_)
        | StackType::Pointer(_) => Ok(1),
    }
}

// The width for a type of the definition.
fn width_in(alloc: Global, program: &Program, ins: &StandIns, kind: &TExpr) -> Result<u32, NoMemory>
    ensures { IfOk result (λ width. width ≡ width_in program.now ins.now kind.now) }
{
    let whole = subst_whole(
        alloc,
        kind,
        ins.for_class.as_slice(),
        ins.for_method.as_slice(),
    )?;
    let width = width_of(alloc, program, &whole)?;
    Ok(width)
}

// The width for a type in which stand-ins are put.
fn width_of(alloc: Global, program: &Program, kind: &TExpr) -> Result<u32, NoMemory>
    ensures { IfOk result (λ width. width ≡ width_of program.now kind.now) }
{
    if is_closed(kind) {
        return closed_width(alloc, program, kind);
    }
    Ok(open_width(program, kind))
}

// The width for a type with variables left.
fn open_width(program: &Program, kind: &TExpr) -> u32
    ensures { result ≡ width_of_open program.now kind.now }
{
    if is_reference(program, kind) {
        return 1;
    }
    16
}

// The width for a type without variables.
#[tactic(auto, using(crate::proofs::AdmittedLemmas::width_admitted, crate::proofs::AdmittedLemmas::width_limited))]
fn closed_width(alloc: Global, program: &Program, kind: &TExpr) -> Result<u32, NoMemory>
    ensures { IfOk result (λ width. width ≡ width_unless program.now kind.now (limit_of program.now kind.now)) }
{
    match admitted(alloc, program, kind) {
        Ok(()) => words_of(alloc, program, kind),
        Err(Refused::Fault(_)) => Ok(16),
        Err(Refused::NoMemory) => Err(NoMemory),
    }
}
