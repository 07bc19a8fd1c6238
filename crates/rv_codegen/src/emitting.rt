// The code of one plain instruction.
ghost use Rattle.std.specs.Prelude.{◌≡◌, ◌<◌, ◌≤◌, Some, length, slice_get, OnOk};
ghost use Rattle.std.specs.Option.{option_copied};
ghost use Rattle.il_model.specs.declared.method.MethodDef.{MethodDef};
ghost use Rattle.il_model.specs.declared.op.Op.{Op};
ghost use Rattle.il_model.specs.Found.{method_at};
ghost use Rattle.cil_meaning.specs.Site.{op_at};
ghost use Rattle.cil_flow.specs.FramePlans.{IsPlan};
ghost use Rattle.cil_flow.specs.declared.state.States.{States};
ghost use Rattle.rv_codegen.specs.PlainItems.{held_count, stack_of, plain_items};
ghost use Rattle.rv_codegen.specs.Forms.{form_items};
ghost use Rattle.rv_codegen.specs.Emitted.{data_of, data_in, IsViewOf, IsSmallView, with_items};

use crate::forms::{PlainForm, form_of};
use crate::numbers::{binary_instr, unary_instr};
use crate::operations::{
    emit_comparing, emit_conversion, emit_copy, emit_jump_by, emit_jump_to, emit_jump_where,
    emit_on_one, emit_on_two, emit_point, emit_print, emit_push, emit_read, emit_rest, emit_write,
};
use crate::places::is_int32_from_top;
use crate::returns::emit_return;
use crate::switching::emit_switch;
use crate::view::BodyParts;
use cil_flow::{StackType, States};
use cil_verify::BodyView;
use il_model::{MethodDef, Op, Program};
use mn_outside::NoMemory;
use rv_isa::Asm;
use std::alloc::Global;

// The code of a form, at an instruction before which the stack is of these types.
fn emit_form(
    alloc: Global,
    asm: &mut Asm,
    body: &BodyParts,
    at: u32,
    types: &[StackType],
    form: PlainForm,
) -> Result<(), NoMemory>
    requires legal { IsPlan body.now.plan.now }
    requires small { held_count (data_of body.now) ≤ 120 }
    ensures { OnOk result (asm.new ≡ with_items asm.old (form_items (data_of body.now) at types.now form.entry)) }
{
    match form {
        PlainForm::Rest => emit_rest(asm),
        PlainForm::Copy => emit_copy(asm, body, types),
        PlainForm::Push(word) => emit_push(asm, body, types, word),
        PlainForm::Read(slot) => emit_read(asm, body, types, slot),
        PlainForm::Point(slot) => emit_point(asm, body, types, slot),
        PlainForm::Write(slot) => emit_write(asm, body, types, slot),
        PlainForm::Calculate(form) => {
            let instr = binary_instr(form, is_int32_from_top(types, 2));
            emit_on_two(asm, body, types, instr)
        }
        PlainForm::Turn(form) => {
            let instr = unary_instr(form, is_int32_from_top(types, 1));
            emit_on_one(asm, body, types, instr)
        }
        PlainForm::Convert(form) => emit_conversion(asm, body, types, form),
        PlainForm::Compare(form) => emit_comparing(asm, body, types, form),
        PlainForm::Jump(to) => emit_jump_to(asm, body, to as usize),
        PlainForm::JumpWhere(wanted, to) => emit_jump_where(asm, body, types, wanted, to),
        PlainForm::JumpBy(form, to) => emit_jump_by(asm, body, types, form, to),
        PlainForm::Choose(targets) => emit_switch(asm, body, at, types, targets),
        PlainForm::Return => emit_return(alloc, asm, body, types),
        PlainForm::Print(form) => emit_print(asm, body, types, form),
        PlainForm::Other => Ok(()),
    }
}

// The method with this number.
fn method_at(program: &Program, number: u16) -> &MethodDef
    requires { number < length program.now.methods }
    ensures { method_at program.now number ≡ Some result.now }
{
    &program.methods.as_slice()[number as usize]
}

/// What the code of a view's method is made from.
pub(crate) fn parts_of<'a>(body: &BodyView<'a>) -> BodyParts<'a>
    requires method { body.now.method < length body.now.program.now.program.methods }
    requires states { body.now.method < length body.now.program.now.states }
    ensures view { IsViewOf body.now result.method.now result.states.now }
    ensures parts { data_of result ≡ data_in body.now result.method.now result.states.now }
{
    BodyParts {
        program: body.program.program(),
        method: method_at(body.program.program(), body.method),
        states: body.program.states(body.method),
        plan: body.plan,
        labels: body.labels,
    }
}

fn types_at(states: &States, at: u32) -> &[StackType]
    ensures { result.now ≡ stack_of (slice_get states.now.states at) }
{
    match states.states.as_slice().get(at as usize) {
        Some(state) => state.stack.as_slice(),
        None => &[],
    }
}

fn op_at(method: &MethodDef, at: u32) -> Option<&Op>
    ensures { option_copied result ≡ op_at method.now at }
{
    match &method.body {
        Some(body) => body.code.as_slice().get(at as usize),
        None => None,
    }
}

// The code of an instruction.
fn emit_at(alloc: Global, asm: &mut Asm, body: &BodyParts, at: u32) -> Result<(), NoMemory>
    requires legal { IsPlan body.now.plan.now }
    requires small { held_count (data_of body.now) ≤ 120 }
    ensures items { OnOk result ((op : Op) → op_at body.now.method.now at ≡ Some op →
        asm.new ≡ with_items asm.old (plain_items (data_of body.now) at op)) }
    ensures places { OnOk result (asm.new.places ≡ asm.old.places) }
{
    match op_at(body.method, at) {
        Some(op) => emit_form(alloc, asm, body, at, types_at(body.states, at), form_of(op)),
        None => Ok(()),
    }
}

/// Puts the code of a method's instruction at the end: the items that are defined for a plain instruction, one
/// that fetches no entry and can't throw. Of any other instruction nothing is put. `instr` counts from 0. The plan is
/// a legal one for the method, whose arguments and locals are at most 120. After a refusal the assembler is not to
/// be used again.
pub fn emit_plain(alloc: Global, asm: &mut Asm, body: &BodyView, instr: u32) -> Result<(), NoMemory>
    requires method { body.now.method < length body.now.program.now.program.methods }
    requires states { body.now.method < length body.now.program.now.states }
    requires plan { IsPlan body.now.plan.now }
    requires small { IsSmallView body.now }
    ensures items { OnOk result ((m : MethodDef) (s : States) (op : Op) → IsViewOf body.now m s → op_at m instr ≡ Some op →
        asm.new ≡ with_items asm.old (plain_items (data_in body.now m s) instr op)) }
    // The labels are those that it had, each with its place.
    ensures places { OnOk result (asm.new.places ≡ asm.old.places) }
{
    let parts = parts_of(body);
    emit_at(alloc, asm, &parts, instr)
}
