// What the machine reads and writes.
ghost use Rattle.std.specs.Prelude.{◌≡◌, ◌<◌, ◌*◌, ◌^◌, ℕ, Bool, Option, IfNone, IsFalse};
ghost use Rattle.rv_machine.specs.Access.{IsAccess};

/// What a machine reads and writes besides its registers and code. An address counts bytes; a size
/// is 1, 2, 4 or 8 bytes, and the address is a multiple of it. A refused access leaves the bus as it
/// was. No memory is taken.
pub trait Bus {
    /// A read: the bus before, address, size, answer, and the bus after.
    ghost reads: { Self → ℕ → ℕ → Option ℕ → Self → Type 0 };

    /// A write: the bus before, address, size, value, answer, and the bus after.
    ghost writes: { Self → ℕ → ℕ → ℕ → Bool → Self → Type 0 };

    /// Reads a word, of which the low `size` bytes count. None where there is nothing to read.
    fn read(&mut self, address: u64, size: u8) -> Option<u64>
        requires { IsAccess address size }
        ensures meets { reads self.old address size result self.new }
        ensures refused { IfNone result (self.new ≡ self.old) };

    /// Writes a value of `size` bytes. False where it can't be written.
    fn write(&mut self, address: u64, size: u8, value: u64) -> bool
        requires access { IsAccess address size }
        requires fits { value < 2 ^ (8 * size) }
        ensures meets { writes self.old address size value result self.new }
        ensures refused { IsFalse result → self.new ≡ self.old };
}
