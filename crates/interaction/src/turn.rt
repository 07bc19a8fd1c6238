/// What a turn of a thread is noted as. Words of the context are counted from 0.
#[derive(Clone, Copy, PartialEq, Eq, Debug)]
pub enum What {
    /// One machine instruction, with its address; it may have loaded a word of the context.
    Instr { pc: u64, word: u32 },
    /// A private action, or a request, which itself stands in the history.
    Action,
    /// The load of a word of the context.
    Load(u32),
    /// The claim of a word of the context.
    Claim(u32),
}
