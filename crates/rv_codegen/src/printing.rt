// The service PRINT.
ghost use Rattle.std.specs.Prelude.{◌≡◌, ◌<◌, ◌++◌, ◌∷◌, [], OnOk};
ghost use Rattle.rv_isa.specs.declared.instr.Instr.TheVariants.{Addi, Ecall};
ghost use Rattle.rv_codegen.specs.FrameWords.{loads_word};
ghost use Rattle.rv_codegen.specs.PlainItems.{form_number};
ghost use Rattle.rv_codegen.specs.Emitted.{with_instrs};

use crate::words::{emit, load_word};
use mn_outside::NoMemory;
use rv_isa::{Asm, Imm12, Instr, Reg};
use store_object::Form;

fn form_number(form: Form) -> Imm12
    ensures { result ≡ form_number form }
{
    match form {
        Form::Number => Imm12::of(0),
        Form::String => Imm12::of(1),
    }
}

/// Prints the word at an offset of the frame.
#[tactic(auto, using(crate::proofs::EmitLemmas::printed_grown))]
pub(crate) fn emit_print(asm: &mut Asm, offset: u16, form: Form) -> Result<(), NoMemory>
    requires { offset < 4096 }
    ensures { OnOk result (asm.new ≡ with_instrs asm.old (loads_word 10 offset ++ Addi 11 0 (form_number form) ∷ Addi 17 0 24 ∷ Ecall ∷ [])) }
{
    load_word(asm, Reg::of(10), offset)?;
    emit(asm, Instr::Addi(Reg::of(11), Reg::of(0), form_number(form)))?;
    emit(asm, Instr::Addi(Reg::of(17), Reg::of(0), Imm12::of(24)))?;
    emit(asm, Instr::Ecall)?;
    Ok(())
}
