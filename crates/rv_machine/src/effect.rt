// What an instruction does, by kind.
use crate::size::Size;
use rv_isa::Reg;

/// What an instruction asks for, from the registers and the pc before it.
#[derive(Clone, Copy, Debug, PartialEq, Eq)]
pub enum Effect {
    /// Sets a register to a word.
    Sets(Reg, u64),
    /// Loads a register: how many bytes, whether their sign is extended, and the address.
    Loads(Reg, Size, bool, u64),
    /// Stores: how many bytes, the address, and a word whose low bytes they are.
    Stores(Size, u64, u64),
    /// Goes to an address, with that of the next code word in a register (x0 where it is not kept).
    Goes(Reg, u64),
    /// Calls a service.
    Calls,
    /// Stops with the fault Break.
    Breaks,
}
