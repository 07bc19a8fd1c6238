// The registers and the pc.
ghost use Rattle.std.specs.Prelude.{◌≡◌, ◌<◌};
ghost use Rattle.rv_machine.specs.Registers.{register_of, with_register, next_pc, at_pc};

use rv_isa::Reg;

/// A thread's core: the address of its next code word, in bytes, and its registers x0 to x31.
/// x0 reads as zero whatever `x[0]` is.
#[derive(Clone, Copy, Debug, PartialEq, Eq)]
pub struct Core {
    pub pc: u64,
    pub x: [u64; 32],
}

// The word in a register.
#[inline]
pub(crate) fn register(core: &Core, reg: Reg) -> u64
    ensures { result ≡ register_of core.now reg }
{
    let number = usize::from(reg.number());
    if number == 0 { 0 } else { core.x[number] }
}

// Writes a register and goes to an address.
#[inline]
pub(crate) fn set(core: &mut Core, reg: Reg, word: u64, pc: u64)
    ensures { core.new ≡ at_pc (with_register core.old reg word) pc }
{
    let number = usize::from(reg.number());
    if number != 0 {
        core.x[number] = word;
    }
    core.pc = pc;
}

// The address of the next code word.
#[inline]
pub(crate) fn next(core: &Core) -> u64
    ensures { result ≡ next_pc core.now }
{
    core.pc.wrapping_add(4)
}
