// The class of a method, applied to its own variables, and the places of its arguments.
ghost use Rattle.std.specs.Prelude.{◌≡◌, ◌<◌, IfOk, length, map, slice_get};
ghost use Rattle.std.specs.Option.{option_copied};
ghost use Rattle.type_tree.specs.Tree.{class_var};
ghost use Rattle.il_model.specs.Find.{takes_object};
ghost use Rattle.il_model.specs.Kinds.{is_struct_class};
ghost use Rattle.il_model.specs.LookUp.{numbers_from};
ghost use Rattle.il_model.specs.Bases.{own_of};
ghost use Rattle.il_model.specs.ClassRules.{HasTypes};
ghost use Rattle.cil_verify.specs.Places.{object_place, argument_places};

use crate::naming::takes_object;
use crate::objects::is_struct_kind;
use il_model::{ClassDef, MethodDef, PType, Program};
use mn_outside::NoMemory;
use sqlite_items::Items;
use std::alloc::Global;
use type_tree::{Head, TExpr};

/// The class with this number, applied to its own variables.
pub(crate) fn own_of(alloc: Global, program: &Program, number: u16) -> Result<TExpr, NoMemory>
    requires { HasTypes program.now }
    ensures { IfOk result (λ own. own ≡ own_of program.now number) }
{
    match class_at(program, number) {
        Some(class) => {
            let vars = variables(alloc, class)?;
            Ok(TExpr::node(Head::Class(number), vars))
        }
        None => Ok(TExpr::plain(alloc, Head::Class(number))),
    }
}

// The class with this number.
fn class_at(program: &Program, number: u16) -> Option<&ClassDef>
    ensures { option_copied result ≡ slice_get program.now.classes number }
{
    program.classes.as_slice().get(number as usize)
}

// The variables of a class as types, by their numbers.
fn variables(alloc: Global, class: &ClassDef) -> Result<Items<TExpr>, NoMemory>
    requires { length class.now.vars < 256 }
    ensures { IfOk result (λ all. all ≡ map class_var (numbers_from 0 class.now.vars)) }
{
    let mut all = Items::new(alloc);
    for i in 0..class.vars.len() {
        all.push(TExpr::class_var(i as u8)).map_err(|_| NoMemory)?;
    }
    Ok(all)
}

fn is_of_struct(program: &Program, method: &MethodDef) -> bool
    ensures { result ≡ is_struct_class (slice_get program.now.classes method.now.owner) }
{
    match class_at(program, method.owner) {
        Some(class) => is_struct_kind(class.kind),
        None => false,
    }
}

// The object that a method is called on: a pointer to a struct, or else a reference.
fn object_place(alloc: Global, program: &Program, method: &MethodDef) -> Result<PType, NoMemory>
    requires { HasTypes program.now }
    ensures { IfOk result (λ place. place ≡ object_place program.now method.now) }
{
    let own = own_of(alloc, program, method.owner)?;
    if is_of_struct(program, method) {
        Ok(PType::Pointer(own))
    } else {
        Ok(PType::Value(own))
    }
}

fn copied_place(alloc: Global, place: &PType) -> Result<PType, NoMemory>
    ensures { IfOk result (λ copy. copy ≡ place.now) }
{
    match place {
        PType::Value(kind) => Ok(PType::Value(kind.copy(alloc)?)),
        PType::Pointer(kind) => Ok(PType::Pointer(kind.copy(alloc)?)),
        PType::Native => Ok(PType::Native),
    }
}

// The parameter with this number, if there is one.
fn parameter(alloc: Global, method: &MethodDef, number: u64) -> Result<Option<PType>, NoMemory>
    ensures { IfOk result (λ place. place ≡ slice_get method.now.params number) }
{
    match method.params.as_slice().get(number as usize) {
        Some(place) => Ok(Some(copied_place(alloc, place)?)),
        None => Ok(None),
    }
}

/// The place of the argument with this number, if there is one; the object is argument 0.
pub(crate) fn argument(
    alloc: Global,
    program: &Program,
    method: &MethodDef,
    number: u64,
) -> Result<Option<PType>, NoMemory>
    requires { HasTypes program.now }
    ensures { IfOk result (λ place. place ≡ slice_get (argument_places program.now method.now) number) }
{
    if !takes_object(method.shape) {
        return parameter(alloc, method, number);
    }
    if number == 0 {
        return Ok(Some(object_place(alloc, program, method)?));
    }
    parameter(alloc, method, number - 1)
}
