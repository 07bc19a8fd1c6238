// The rule on layouts.
ghost use Rattle.std.specs.Prelude.{◌≡◌, ℕ, [], ◌∷◌, IfOk, Some, map, nat_le, slice_get};
ghost use Rattle.std.specs.List.{list_any};
ghost use Rattle.std.specs.Bool.{Decides};
ghost use Rattle.il_model.specs.Find.{class_number_of};
ghost use Rattle.il_model.specs.Bases.{own_of};
ghost use Rattle.il_model.specs.Admission.{steps_of};
ghost use Rattle.il_model.specs.ClassRules.{HasHierarchy, HasLayout, is_number, is_in_own_closure, comes_back, field_count, most_own_fields, fits_interface};
ghost use Rattle.cil_verify.specs.TypeSets.{listed_in};
ghost use Rattle.cil_verify.specs.Closures.{HasClosures, AreTooMuch};
ghost use Rattle.cil_verify.specs.Hierarchies.{IsShortStruct};
ghost use Rattle.il_model.specs.declared.class.FieldDef.{FieldDef};

use crate::class_kinds::is_interface_kind;
use crate::closing::closures;
use crate::heights::class_number;
use crate::hierarchy::{is_number, own_of};
use crate::naming::fields_of;
use crate::objects::{is_struct, is_struct_kind};
use crate::type_set::TypeSet;
use il_model::{ClassDef, FieldDef, Program};
use mn_outside::NoMemory;
use std::alloc::Global;
use type_inst::{bases, steps_of};
use type_tree::TExpr;

/// Whether the rule on layouts holds for the class with this number, which the rule on hierarchies does not
/// refuse.
pub(crate) fn has_layout(
    alloc: Global,
    program: &Program,
    number: u16,
    class: &ClassDef,
    whole: &TypeSet,
) -> Result<bool, NoMemory>
    requires at { slice_get program.now.classes number ≡ Some class.now }
    requires hierarchy { HasHierarchy program.now number class.now }
    requires closure { HasClosures program.now (own_of program.now number ∷ []) (listed_in whole.now) }
    ensures { IfOk result (λ holds. Decides holds (HasLayout program.now number class.now)) }
{
    if !fits_interface(class) {
        return Ok(false);
    }
    let own = own_of(alloc, number, class)?;
    if !has_few_fields(alloc, program, &own)? {
        return Ok(false);
    }
    if comes_back(alloc, program, number, class, &own)? {
        return Ok(false);
    }
    let found = has_own_struct(alloc, program, class.fields.as_slice())?;
    Ok(!found)
}

// An interface has no fields.
fn fits_interface(class: &ClassDef) -> bool
    ensures { result ≡ fits_interface class.now }
{
    if is_interface_kind(class.kind) {
        class.fields.is_empty()
    } else {
        true
    }
}

// Whether a class and its bases have few fields, static ones counted.
fn has_few_fields(alloc: Global, program: &Program, own: &TExpr) -> Result<bool, NoMemory>
    ensures { IfOk result (λ few. few ≡ nat_le (field_count program.now own.now) most_own_fields) }
{
    let uppers = bases(alloc, program, own)?;
    let mut left = 4096;
    for each in uppers.as_slice() {
        let fields = fields_of(program, each).len();
        if fields > left {
            return Ok(false);
        }
        left -= fields;
    }
    Ok(true)
}

// Whether a struct's definition is reached from itself, with whatever arguments.
fn comes_back(
    alloc: Global,
    program: &Program,
    number: u16,
    class: &ClassDef,
    own: &TExpr,
) -> Result<bool, NoMemory>
    requires own { own.now ≡ own_of program.now number }
    requires few { ¬ (AreTooMuch program.now (steps_of program.now (own_of program.now number))) }
    ensures { IfOk result (λ back. back ≡ comes_back program.now number class.now) }
{
    if !is_struct_kind(class.kind) {
        return Ok(false);
    }
    let steps = steps_of(alloc, program, own)?;
    match closures(alloc, program, steps.as_slice())? {
        Some(found) => Ok(has_number(&found, number)),
        None => Ok(false),
    }
}

// Whether one of the types names the class with this number.
fn has_number(set: &TypeSet, number: u16) -> bool
    ensures { result ≡ list_any (λ t. is_number number (class_number_of t)) (listed_in set.now) }
{
    for key in set.known.as_slice() {
        if is_number(number, class_number(&key.kind)) {
            return true;
        }
    }
    false
}

// Whether the type of a field is a struct that is reached from itself.
fn has_own_struct(alloc: Global, program: &Program, fields: &[FieldDef]) -> Result<bool, NoMemory>
    requires { (place : ℕ) (field : FieldDef) → slice_get fields.now place ≡ Some field → IsShortStruct program.now field.kind }
    ensures { IfOk result (λ found. found ≡ list_any (is_in_own_closure program.now) (map (λ f. f.kind) fields.now)) }
{
    for field in fields {
        if is_in_own_closure(alloc, program, &field.kind)? {
            return Ok(true);
        }
    }
    Ok(false)
}

// Whether a type is a struct that is reached from itself.
fn is_in_own_closure(alloc: Global, program: &Program, kind: &TExpr) -> Result<bool, NoMemory>
    requires { IsShortStruct program.now kind.now }
    ensures { IfOk result (λ found. found ≡ is_in_own_closure program.now kind.now) }
{
    if !is_struct(program, kind) {
        return Ok(false);
    }
    let steps = steps_of(alloc, program, kind)?;
    match closures(alloc, program, steps.as_slice())? {
        Some(found) => Ok(found.has(kind)),
        None => Ok(false),
    }
}
