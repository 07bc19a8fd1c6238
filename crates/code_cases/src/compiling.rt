// The code of one body of a text: the copy of its arguments, and the code of each instruction behind its label.
ghost use Rattle.std.specs.Prelude.{◌<◌, length, IfOk, OnOk};
ghost use Rattle.code_cases.specs.Made.{AreMade};
ghost use Rattle.cil_flow.specs.FramePlans.{IsPlan};
ghost use Rattle.cil_verify.specs.Verifies.{IsVerified};
ghost use Rattle.rv_codegen.specs.Emitted.{IsSmallView};

use crate::plans::{is_plan, is_small};
use cil_verify::{BodyView, Verified, fits_numbers, verify};
use frame_plan::plan;
use il_model::Key;
use il_parse::parse;
use mn_outside::Label;
use rv_codegen::{emit_entry, emit_plain};
use rv_isa::Asm;
use sqlite_items::Items;
use std::alloc::Global;
use std::test::Fail;

/// The code of a body, and the words of its frame.
#[derive(Drop)]
pub(crate) struct Compiled {
    pub(crate) code: Vec<u32>,
    pub(crate) frame: u32,
}

/// The program of a text.
pub(crate) fn verified(alloc: Global, text: &[u8]) -> Result<Verified, Fail>
    ensures { IfOk result IsVerified }
{
    let Ok(parsed) = parse(alloc, text) else {
        return Err(Fail::new("the text parses"));
    };
    if !fits_numbers(&parsed.program) {
        return Err(Fail::new("a large program"));
    }
    match verify(alloc, parsed.program) {
        Ok(verified) => Ok(verified),
        Err(_) => Err(Fail::new("the program is verified")),
    }
}

fn instr_count(program: &Verified, method: u16) -> Result<u32, Fail> {
    let method = program
        .program
        .methods
        .as_slice()
        .get(method as usize)
        .ok_or("a method")?;
    let body = method.body.as_ref().ok_or("a body")?;
    Ok(u32::try_from(body.code.len()).ok().ok_or("a short body")?)
}

fn labels(alloc: Global, asm: &mut Asm, count: u32) -> Result<Vec<Label>, Fail>
    ensures { IfOk result (λ ls. AreMade ls.items (length asm.new.places)) }
{
    let mut labels: Vec<Label> = Vec::new(alloc);
    for _ in 0..count {
        labels.push(asm.label().ok().ok_or("memory")?)?;
    }
    Ok(labels)
}

// The label of an instruction is placed at the end.
#[tactic(auto, using(crate::proofs::MadeLemmas::made_below, crate::proofs::MadeLemmas::made_placed))]
fn place_label(asm: &mut Asm, labels: &[Label], instr: u32) -> Result<(), Fail>
    requires made { AreMade labels.now (length asm.old.places) }
    ensures { OnOk result (AreMade labels.now (length asm.new.places)) }
{
    let Some(label) = labels.get(instr as usize) else {
        return Err(Fail::new("a label"));
    };
    match asm.place(*label) {
        Ok(()) => Ok(()),
        Err(_) => Err(Fail::new("a label is placed once")),
    }
}

#[tactic(auto, using(crate::proofs::MadeLemmas::made_still))]
fn emit_first(asm: &mut Asm, body: &BodyView) -> Result<(), Fail>
    requires method { body.now.method < length body.now.program.now.program.methods }
    requires states { body.now.method < length body.now.program.now.states }
    requires plan { IsPlan body.now.plan.now }
    requires small { IsSmallView body.now }
    requires made { AreMade body.now.labels.now (length asm.old.places) }
    ensures { OnOk result (AreMade body.now.labels.now (length asm.new.places)) }
{
    match emit_entry(asm, body) {
        Ok(()) => Ok(()),
        Err(_) => Err(Fail::new("memory")),
    }
}

#[tactic(auto, using(crate::proofs::MadeLemmas::made_still))]
fn emit_next(alloc: Global, asm: &mut Asm, body: &BodyView, instr: u32) -> Result<(), Fail>
    requires method { body.now.method < length body.now.program.now.program.methods }
    requires states { body.now.method < length body.now.program.now.states }
    requires plan { IsPlan body.now.plan.now }
    requires small { IsSmallView body.now }
    requires made { AreMade body.now.labels.now (length asm.old.places) }
    ensures { OnOk result (AreMade body.now.labels.now (length asm.new.places)) }
{
    match emit_plain(alloc, asm, body, instr) {
        Ok(()) => Ok(()),
        Err(_) => Err(Fail::new("memory")),
    }
}

fn emit_body(alloc: Global, asm: &mut Asm, body: &BodyView, count: u32) -> Result<(), Fail>
    requires method { body.now.method < length body.now.program.now.program.methods }
    requires states { body.now.method < length body.now.program.now.states }
    requires plan { IsPlan body.now.plan.now }
    requires small { IsSmallView body.now }
    requires made { AreMade body.now.labels.now (length asm.old.places) }
{
    emit_first(asm, body)?;
    for instr in 0..count {
        place_label(asm, body.labels, instr)?;
        emit_next(alloc, asm, body, instr)?;
    }
    Ok(())
}

/// The code of the method with this number, which has no type variables.
pub(crate) fn compile_body(alloc: Global, text: &[u8], method: u16) -> Result<Compiled, Fail> {
    let program = verified(alloc, text)?;
    if method as usize >= program.program.methods.len() || method as usize >= program.states.len() {
        return Err(Fail::new("no such method"));
    }
    let key = Key {
        parts: Items::new(alloc),
    };
    let plan = plan(
        alloc,
        &program.program,
        method,
        program.states(method),
        &key,
    )?;
    let count = instr_count(&program, method)?;
    let mut asm = Asm::new(alloc)?;
    let labels = labels(alloc, &mut asm, count)?;
    let body = BodyView {
        program: &program,
        method,
        key: &key,
        plan: &plan,
        got: &[],
        labels: labels.as_slice(),
    };
    if !is_plan(&plan) || !is_small(&body) {
        return Err(Fail::new("a plan"));
    }
    emit_body(alloc, &mut asm, &body, count)?;
    if asm.word_count() > 268_435_456 {
        return Err(Fail::new("much code"));
    }
    let code = asm.finish(alloc).ok().ok_or("the code is assembled")?;
    Ok(Compiled {
        code,
        frame: plan.frame,
    })
}
