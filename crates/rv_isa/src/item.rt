// The items of an assembler.
use crate::Instr;
use mn_outside::Label;

/// What code is assembled from.
#[derive(Clone, Copy, Debug, PartialEq, Eq)]
pub enum Item {
    /// An instruction as it is.
    Plain(Instr),
    /// A branch or JAL to a label. The instruction is of format B or J, and its own distance doesn't count.
    Branch(Instr, Label),
    /// A jump to a label however far, in two words: AUIPC x6 and JALR x0 from x6.
    Far(Label),
}
