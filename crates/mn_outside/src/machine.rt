// Why a machine has no next turn.

/// A machine fault: where it came, and why. `pc` is the address of the code word, in bytes.
#[derive(Clone, Copy, Debug, PartialEq, Eq)]
pub struct MachineFault {
    pub pc: u64,
    pub cause: FaultCause,
}

/// The cause of a machine fault. This project's own.
#[derive(Clone, Copy, Debug, PartialEq, Eq)]
pub enum FaultCause {
    /// There is no code word at the address.
    Fetch,
    /// The code word, which is no instruction.
    Undefined(u32),
    /// The address, which isn't a multiple of the access's width.
    Misaligned(u64),
    /// The address, at which there is no such word.
    Access(u64),
    /// The instruction EBREAK.
    Break,
    /// The number of a service that refused what it was given, or that isn't one.
    Service(u64),
}
