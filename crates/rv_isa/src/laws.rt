// Laws that no call's contract says.
ghost use Rattle.std.specs.Prelude.{◌≡◌, Some};
ghost use Rattle.rv_isa.specs.Row.{IsRow};
ghost use Rattle.rv_isa.specs.Word.{word_of};
ghost use Rattle.rv_isa.specs.Reading.{decode_of};
ghost use Rattle.rv_isa.specs.declared.instr.Instr.{Instr};

/// Reading the word of an instruction gives that instruction. A law alone: it does nothing.
pub fn reads_what_was_written()
    ensures { (instr : Instr) → IsRow instr → decode_of (word_of instr) ≡ Some instr }
{}
