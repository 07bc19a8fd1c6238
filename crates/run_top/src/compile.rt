// From instructions to code words.
ghost use Rattle.std.specs.Prelude.{◌≡◌, ◌≤◌, ◌+◌, ◌*◌, ◌++◌, [], ◌∷◌, IfOk, OnOk, map};
ghost use Rattle.rv_isa.specs.Word.{word_of};
ghost use Rattle.run_top.specs.WellFormed.{AllFind, FindsOperands, depth_after};
ghost use Rattle.run_top.specs.Code.{image_of, offset, op_code};

use crate::first::FirstOp;
use rv_isa::{Imm12, Imm20, Instr, Reg, encode};
use std::alloc::{AllocError, Global};

// One more word.
fn emit(image: &mut Vec<u32>, instr: Instr) -> Result<(), AllocError>
    ensures { OnOk result (image.new.items ≡ image.old.items ++ word_of instr ∷ []) }
{
    image.push(encode(&instr))?;
    Ok(())
}

// A stack place, in bytes from the frame's start.
fn place(depth: usize) -> Imm12
    requires { depth ≤ 120 }
    ensures { result ≡ offset depth }
{
    Imm12::of((64 + 8 * depth) as u16)
}

fn emit_push(image: &mut Vec<u32>, number: i32, depth: usize) -> Result<(), AllocError>
    requires { depth ≤ 120 }
    ensures { OnOk result (image.new.items ≡ image.old.items ++ map word_of (op_code (FirstOp.Push number) depth)) }
{
    let bits = u64::from(number.cast_unsigned());
    let high = ((bits + 2048) / 4096 % 1048576) as u32;
    let low = (bits % 4096) as u16;
    let five = Reg::of(5);
    emit(image, Instr::Lui(five, Imm20::of(high)))?;
    emit(image, Instr::Addiw(five, five, Imm12::of(low)))?;
    emit(image, Instr::Sd(five, Reg::of(8), place(depth)))
}

fn emit_add(image: &mut Vec<u32>, depth: usize) -> Result<(), AllocError>
    requires low { 2 ≤ depth }
    requires high { depth ≤ 120 }
    ensures { OnOk result (image.new.items ≡ image.old.items ++ map word_of (op_code FirstOp.Add depth)) }
{
    let frame = Reg::of(8);
    emit(image, Instr::Ld(Reg::of(5), frame, place(depth - 2)))?;
    emit(image, Instr::Ld(Reg::of(6), frame, place(depth - 1)))?;
    emit(image, Instr::Addw(Reg::of(5), Reg::of(5), Reg::of(6)))?;
    emit(image, Instr::Sd(Reg::of(5), frame, place(depth - 2)))
}

fn emit_print(image: &mut Vec<u32>, depth: usize) -> Result<(), AllocError>
    requires low { 1 ≤ depth }
    requires high { depth ≤ 120 }
    ensures { OnOk result (image.new.items ≡ image.old.items ++ map word_of (op_code FirstOp.Print depth)) }
{
    emit(image, Instr::Ld(Reg::of(10), Reg::of(8), place(depth - 1)))?;
    emit(image, Instr::Addi(Reg::of(11), Reg::of(0), Imm12::of(0)))?;
    emit(image, Instr::Addi(Reg::of(17), Reg::of(0), Imm12::of(24)))?;
    emit(image, Instr::Ecall)
}

fn emit_ret(image: &mut Vec<u32>, depth: usize) -> Result<(), AllocError>
    ensures { OnOk result (image.new.items ≡ image.old.items ++ map word_of (op_code FirstOp.Ret depth)) }
{
    emit(image, Instr::Addi(Reg::of(17), Reg::of(0), Imm12::of(2)))?;
    emit(image, Instr::Ecall)
}

// The words of one instruction, and the depth after it.
fn emit_op(image: &mut Vec<u32>, op: FirstOp, depth: usize) -> Result<usize, AllocError>
    requires finds { FindsOperands op depth }
    requires high { depth ≤ 120 }
    ensures words { OnOk result (image.new.items ≡ image.old.items ++ map word_of (op_code op depth)) }
    ensures after { IfOk result (λ d. d ≡ depth_after op depth) }
{
    match op {
        FirstOp::Push(number) => {
            emit_push(image, number, depth)?;
            Ok(depth + 1)
        }
        FirstOp::Add => {
            emit_add(image, depth)?;
            Ok(depth - 1)
        }
        FirstOp::Print => {
            emit_print(image, depth)?;
            Ok(depth - 1)
        }
        FirstOp::Ret => {
            emit_ret(image, depth)?;
            Ok(depth)
        }
    }
}

/// The code words of instructions that find their operands. Word 0 is EBREAK, and the first
/// instruction begins at word 1.
pub(crate) fn compile(alloc: Global, ops: &[FirstOp]) -> Result<Vec<u32>, AllocError>
    requires { AllFind 0 ops.now }
    ensures { IfOk result (λ image. image.items ≡ image_of ops.now) }
{
    let mut image = Vec::new(alloc);
    emit(&mut image, Instr::Ebreak)?;
    let mut depth = 0;
    for op in ops {
        depth = emit_op(&mut image, *op, depth)?;
    }
    Ok(image)
}
