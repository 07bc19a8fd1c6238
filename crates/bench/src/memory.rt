// A bus for benchmarks.
use rv_machine::Bus;

/// Words of 64 bits from address 0 on. The relations say nothing, since no claim rests on this memory.
#[derive(Drop)]
pub struct Memory {
    pub words: Vec<u64>,
}

impl Bus for Memory {
    ghost reads = { λ before address size answer after. Unit {0} };

    ghost writes = { λ before address size value answer after. Unit {0} };

    fn read(&mut self, address: u64, _size: u8) -> Option<u64> {
        let place = (address / 8) as usize;
        self.words.get(place).copied()
    }

    fn write(&mut self, address: u64, _size: u8, value: u64) -> bool {
        let place = (address / 8) as usize;
        match self.words.get_mut(place) {
            Some(word) => {
                *word = value;
                true
            }
            None => false,
        }
    }
}
