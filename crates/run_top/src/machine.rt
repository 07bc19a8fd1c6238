// A thread's core, and what its turns give.
use interaction::What;
use rv_isa::Reg;
use store_object::Request;

/// What goes on with the thread's next turn.
#[derive(Clone, Copy, Debug, PartialEq, Eq)]
pub(crate) enum Mode {
    /// The code word at pc.
    Code,
    /// The service that x17 names.
    Service,
    /// The request that ends the thread.
    Leaving,
    /// Nothing: the thread has finished.
    Gone,
}

/// The registers of a thread. Its frame stands beside it.
#[derive(Drop)]
pub(crate) struct Core {
    /// In bytes.
    pub pc: u64,
    pub x: [u64; 32],
    pub mode: Mode,
}

/// What an instruction asks for.
#[derive(Clone, Copy)]
pub(crate) enum Effect {
    /// A register is written.
    Sets { rd: Reg, value: u64 },
    /// A register is written with a word of the frame.
    Loads { rd: Reg, address: u64 },
    /// A word of the frame is written.
    Stores { address: u64, value: u64 },
    /// A service goes on with the next turn.
    Calls,
    /// Nothing that this machine does.
    Breaks,
}

/// What a turn gave. A request counts as answered, whatever the reply.
#[derive(Clone, Copy, Debug, PartialEq, Eq)]
pub(crate) enum Gave {
    Did(What),
    Asked(Request),
    /// There is no turn.
    Nothing,
}
