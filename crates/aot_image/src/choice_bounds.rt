// Which keys may be chosen for a method.
ghost use Rattle.std.specs.Prelude.{◌≡◌, ◌+◌, ◌||◌, ◌==◌, true, not, List, None, IfOk, length};
ghost use Rattle.std.specs.List.{list_all};
ghost use Rattle.il_model.specs.declared.key.KeyPart.{KeyPart};
ghost use Rattle.il_model.specs.ClassRules.{HasTypes};
ghost use Rattle.rgctx_template.specs.BodyRows.{vars_of_owner};
ghost use Rattle.aot_image.specs.ChoosingBounds as spec;
ghost use Rattle.aot_image.specs.ChoosingSizes.{IsCounted, StandFor};

use crate::bounds::key_meets;
use crate::choice_fault::ChoiceCause;
use crate::choice_keys::Keys;
use crate::decoding_bodies::vars_of_owner;
use crate::judging::{is_admitted, is_bounded_throughout};
use il_model::{KeyPart, MethodDef, Program};
use mn_outside::NoMemory;
use std::alloc::Global;
use type_tree::{TExpr, is_closed};

/// Whether a part is no type with variables.
pub(crate) fn is_closed_part(part: &KeyPart) -> bool
    ensures { result ≡ spec.is_closed_part part.now }
{
    match part {
        KeyPart::Ref | KeyPart::Any => true,
        KeyPart::Exact(kind) => is_closed(kind),
    }
}

// Whether a type is admitted, and the arguments in it meet their bounds.
fn is_good_type(alloc: Global, program: &Program, kind: &TExpr) -> Result<bool, NoMemory>
    requires { HasTypes program.now }
    ensures { IfOk result (λ answer. answer ≡ spec.is_good_type program.now kind.now) }
{
    if !is_admitted(alloc, program, kind)? {
        return Ok(false);
    }
    is_bounded_throughout(alloc, program, kind)
}

fn is_good_part(alloc: Global, program: &Program, part: &KeyPart) -> Result<bool, NoMemory>
    requires { HasTypes program.now }
    ensures { IfOk result (λ answer. answer ≡ spec.is_good_part program.now part.now) }
{
    match part {
        KeyPart::Ref | KeyPart::Any => Ok(true),
        KeyPart::Exact(kind) => is_good_type(alloc, program, kind),
    }
}

fn are_good_parts(alloc: Global, program: &Program, parts: &[KeyPart]) -> Result<bool, NoMemory>
    requires { HasTypes program.now }
    ensures { IfOk result (λ answer. answer ≡ list_all (spec.is_good_part program.now) parts.now) }
{
    for part in parts {
        if !is_good_part(alloc, program, part)? {
            return Ok(false);
        }
    }
    Ok(true)
}

// Whether the types of a key are admitted, and the bounds that are judged are met. A key of more than 255
// parts is want of memory: variables are numbered in a byte.
fn is_admitted_key(
    alloc: Global,
    program: &Program,
    method: &MethodDef,
    parts: &[KeyPart],
) -> Result<bool, NoMemory>
    requires types { HasTypes program.now }
    requires count { length parts.now ≡ length (spec.vars_of program.now method.now) }
    ensures { IfOk result (λ answer. answer ≡ spec.is_admitted_key program.now method.now parts.now) }
{
    if !are_good_parts(alloc, program, parts)? {
        return Ok(false);
    }
    if parts.len() > 255 {
        return Err(NoMemory);
    }
    let of_class = vars_of_owner(program, method);
    key_meets(alloc, program, of_class, method.vars.as_slice(), parts)
}

// The sum. No two counts pass what a number holds.
fn sum(first: usize, second: usize) -> Result<usize, NoMemory>
    ensures { IfOk result (λ sum. sum ≡ first + second) }
{
    match first.checked_add(second) {
        Some(sum) => Ok(sum),
        None => Err(NoMemory),
    }
}

// Whether a key of this method has so many parts.
fn has_arity(program: &Program, method: &MethodDef, count: usize) -> Result<bool, NoMemory>
    ensures { IfOk result (λ answer. answer ≡ (count == length (spec.vars_of program.now method.now))) }
{
    let vars = sum(vars_of_owner(program, method).len(), method.vars.len())?;
    Ok(count == vars)
}

// Whether all of the keys are `any`, or none is.
fn are_unmixed(keys: &Keys) -> bool
    ensures { result ≡ (not keys.now.some_any || keys.now.all_any) }
{
    !keys.some_any || keys.all_any
}

/// The first cause for which keys are refused for a method. Where there is none, no type among them has too
/// many positions.
#[tactic(auto, using(crate::proofs::ChoosingBoundsLemmas::wrong_arity, crate::proofs::ChoosingBoundsLemmas::not_closed, crate::proofs::ChoosingBoundsLemmas::mixed_any, crate::proofs::ChoosingBoundsLemmas::too_large, crate::proofs::ChoosingBoundsLemmas::small_cause))]
pub(crate) fn cause_of(
    alloc: Global,
    program: &Program,
    method: &MethodDef,
    keys: &Keys,
) -> Result<Option<ChoiceCause>, NoMemory>
    requires types { HasTypes program.now }
    requires counted { IsCounted keys.now }
    ensures cause { IfOk result (λ cause. (parts : List KeyPart) → StandFor keys.now parts → cause ≡ spec.cause_of program.now method.now parts) }
    ensures small { IfOk result (λ cause. cause ≡ None → keys.now.small ≡ true) }
{
    if !has_arity(program, method, keys.count)? {
        return Ok(Some(ChoiceCause::WrongArity));
    }
    if !keys.closed {
        return Ok(Some(ChoiceCause::NotClosed));
    }
    if !are_unmixed(keys) {
        return Ok(Some(ChoiceCause::MixedAny));
    }
    if !keys.small {
        return Ok(Some(ChoiceCause::NotAdmitted));
    }
    if !is_admitted_key(alloc, program, method, keys.parts.as_slice())? {
        return Ok(Some(ChoiceCause::NotAdmitted));
    }
    Ok(None)
}
