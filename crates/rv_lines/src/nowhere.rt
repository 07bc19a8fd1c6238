// A bus that holds nothing.
ghost use Rattle.std.specs.Prelude.{◌≡◌, None, false};

use rv_machine::Bus;

/// A bus that refuses each access.
#[derive(Drop)]
pub struct Nowhere;

impl Bus for Nowhere {
    ghost reads = { λ before address size answer after. (answer ≡ None) × (after ≡ before) };

    ghost writes = { λ before address size value answer after. (answer ≡ false) × (after ≡ before) };

    fn read(&mut self, _address: u64, _size: u8) -> Option<u64> {
        None
    }

    fn write(&mut self, _address: u64, _size: u8, _value: u64) -> bool {
        false
    }
}
