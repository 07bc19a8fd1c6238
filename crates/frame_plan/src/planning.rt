// The plan of a body's frame.
ghost use Rattle.std.specs.Prelude.{◌≡◌, ◌<◌, ◌++◌, Some, map, length, IfOk, OnOk};
ghost use Rattle.std.specs.Option.{option_copied};
ghost use Rattle.il_model.specs.declared.method.MethodDef.{MethodDef};
ghost use Rattle.il_model.specs.Found.{method_at};
ghost use Rattle.il_model.specs.Find.{takes_object};
ghost use Rattle.il_model.specs.ClassRules.{vars_in};
ghost use Rattle.cil_flow.specs.FramePlans.{IsPlan};
ghost use Rattle.frame_plan.specs.Widths.{stand_ins_of};
ghost use Rattle.frame_plan.specs.Places.{width_of_place, object_widths, locals_in, place_widths};
ghost use Rattle.frame_plan.specs.Planned.{plan_of, IsSmallBody};

use crate::kinds::{StandIns, stand_ins_with};
use crate::laying::{laid, put};
use crate::passing::most_passed;
use crate::stacks::stack_widths;
use crate::widths::width_of_place;
use cil_flow::{Plan, States};
use il_model::{Body, ClassDef, Key, MethodDef, PType, Program, Shape};
use mn_outside::NoMemory;
use sqlite_items::Items;
use std::alloc::Global;

/// The frame of a method's body with these stacks before its instructions, compiled for a key, in words of
/// 64 bits. The places are the arguments, the object first, then the locals and those of the stack. They lie
/// one behind the other from word 8 on, each as wide as the widest value that it holds: 16 words where
/// the key doesn't tell the size of a type, or where the type isn't admitted. After them come 16 words
/// of scratch and the list of argument addresses, with a word for each argument of the call that passes
/// most. With at most 120 places, and at most 120 arguments in each call, a frame has at most 2,064 words.
/// This project's own.
pub fn plan(
    alloc: Global,
    program: &Program,
    method: u16,
    states: &States,
    key: &Key,
) -> Result<Plan, NoMemory>
    requires method { method < length program.now.methods }
    ensures plan { IfOk result (λ plan. (m : MethodDef) → method_at program.now method ≡ Some m →
        plan ≡ plan_of program.now m states.now.states key.now.parts) }
    ensures legal { IfOk result (λ plan. (m : MethodDef) → method_at program.now method ≡ Some m →
        IsSmallBody m states.now.states → IsPlan plan) }
{
    let method = method_at(program, method);
    let plan = plan_method(alloc, program, method, states, key)?;
    Ok(plan)
}

fn method_at(program: &Program, number: u16) -> &MethodDef
    requires { number < length program.now.methods }
    ensures { method_at program.now number ≡ Some result.now }
{
    &program.methods.as_slice()[number as usize]
}

#[tactic(auto, using(crate::proofs::PlaceLemmas::planned_legal))]
fn plan_method(
    alloc: Global,
    program: &Program,
    method: &MethodDef,
    states: &States,
    key: &Key,
) -> Result<Plan, NoMemory>
    ensures plan { IfOk result (λ plan. plan ≡ plan_of program.now method.now states.now.states key.now.parts) }
    ensures legal { IfOk result (λ plan. IsSmallBody method.now states.now.states → IsPlan plan) }
{
    let ins = stand_ins_of(alloc, program, method, key)?;
    let widths = place_widths(alloc, program, &ins, method, states)?;
    let plan = laid(alloc, widths, most_passed(method))?;
    Ok(plan)
}

// What stands for the variables of a method.
fn stand_ins_of(
    alloc: Global,
    program: &Program,
    method: &MethodDef,
    key: &Key,
) -> Result<StandIns, NoMemory>
    ensures { IfOk result (λ ins. ins ≡ stand_ins_of program.now method.now key.now.parts) }
{
    let class = program.classes.as_slice().get(method.owner as usize);
    let ins = stand_ins_with(alloc, var_count(class), key.parts.as_slice())?;
    Ok(ins)
}

fn var_count(class: Option<&ClassDef>) -> usize
    ensures { result ≡ length (vars_in (option_copied class.entry)) }
{
    match class {
        Some(class) => class.vars.len(),
        None => 0,
    }
}

// The widths of all places.
fn place_widths(
    alloc: Global,
    program: &Program,
    ins: &StandIns,
    method: &MethodDef,
    states: &States,
) -> Result<Items<u32>, NoMemory>
    ensures { IfOk result (λ widths. widths ≡ place_widths program.now ins.now method.now states.now.states) }
{
    let mut widths = object_widths(alloc, method)?;
    put_places(alloc, program, ins, method.params.as_slice(), &mut widths)?;
    put_places(alloc, program, ins, locals(&method.body), &mut widths)?;
    let stack = stack_widths(alloc, program, ins, states.states.as_slice())?;
    widths.append(stack).map_err(|_| NoMemory)?;
    Ok(widths)
}

fn object_widths(alloc: Global, method: &MethodDef) -> Result<Items<u32>, NoMemory>
    ensures { IfOk result (λ widths. widths ≡ object_widths method.now) }
{
    let mut widths: Items<u32> = Items::new(alloc);
    if takes_object(method.shape) {
        put(&mut widths, 1)?;
    }
    Ok(widths)
}

fn takes_object(shape: Shape) -> bool
    ensures { result ≡ takes_object shape }
{
    match shape {
        Shape::Fixed => false,
        Shape::Instance | Shape::Virtual | Shape::NewSlot | Shape::Abstract => true,
    }
}

fn locals(body: &Option<Body>) -> &[PType]
    ensures { result.now ≡ locals_in body.now }
{
    match body {
        Some(body) => body.locals.as_slice(),
        None => &[],
    }
}

// Puts the widths of arguments or locals at the end.
fn put_places(
    alloc: Global,
    program: &Program,
    ins: &StandIns,
    places: &[PType],
    widths: &mut Items<u32>,
) -> Result<(), NoMemory>
    ensures { OnOk result (widths.new ≡ widths.old ++ map (width_of_place program.now ins.now) places.now) }
{
    for place in places {
        let width = width_of_place(alloc, program, ins, place)?;
        put(widths, width)?;
    }
    Ok(())
}
