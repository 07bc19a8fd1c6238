// Steps on a small memory: results that QEMU gives, accesses, jumps and faults.
use crate::{Bus, Core, Step, step};
use mn_outside::{FaultCause, MachineFault};
use std::process::Abort;
use std::test::Fail;

// Words from address 4096 on, each readable and writable in any size.
#[derive(Drop)]
struct Memory {
    words: Vec<u64>,
    accesses: u32,
}

// The bits of a number of bytes.
fn mask(size: u8) -> u64 {
    match size {
        1 => 0xFF,
        2 => 0xFFFF,
        4 => 0xFFFFFFFF,
        _ => u64::MAX,
    }
}

impl Memory {
    fn place(&self, address: u64) -> Option<usize> {
        if address < 4096 {
            return None;
        }
        let place = ((address - 4096) / 8) as usize;
        if place < self.words.len() {
            Some(place)
        } else {
            None
        }
    }
}

impl Bus for Memory {
    ghost reads = { λ before address size answer after. Unit {0} };

    ghost writes = { λ before address size value answer after. Unit {0} };

    fn read(&mut self, address: u64, size: u8) -> Option<u64> {
        let place = self.place(address)?;
        let word = *self.words.get(place)?;
        self.accesses = self.accesses.saturating_add(1);
        let shift = (address % 8 * 8) as u32;
        let noise = if size < 8 { !mask(size) } else { 0 };
        Some(word.wrapping_shr(shift) | noise)
    }

    fn write(&mut self, address: u64, size: u8, value: u64) -> bool {
        let Some(place) = self.place(address) else {
            return false;
        };
        let Some(word) = self.words.get_mut(place) else {
            return false;
        };
        let shift = (address % 8 * 8) as u32;
        *word = *word & !mask(size).wrapping_shl(shift) | value.wrapping_shl(shift);
        self.accesses = self.accesses.saturating_add(1);
        true
    }
}

fn two_words(rt: &HostRuntime) -> Result<Memory, Fail> {
    let words = [0x8182838485868788, 0x0102030405060708].to_vec(rt.alloc())?;
    Ok(Memory { words, accesses: 0 })
}

fn core_with(a: u64, b: u64) -> Core {
    let mut core = Core {
        pc: 65536,
        x: [0; 32],
    };
    core.x[0] = 99;
    core.x[11] = a;
    core.x[12] = b;
    core
}

// One step of a word gives a result in x13, and goes on.
fn gives(rt: &impl Abort, memory: &mut Memory, table: &[(u32, u64, u64, u64)]) {
    for (word, a, b, want) in table {
        let mut core = core_with(*a, *b);
        assert_eq!(rt; step(&mut core, &[*word], memory), Step::Went);
        assert_eq!(rt; core.x[13], *want, "{word}");
        assert_eq!(rt; core.pc, 65540);
    }
}

#[test]
#[rattlefmt::skip]
fn immediates(rt: HostRuntime) -> Result<(), Fail> {
    let mut memory = two_words(&rt)?;
    gives(&rt, &mut memory, &[
        (0x00158693, 0xFFFFFFFFFFFFFFFF, 0x0, 0x0), // addi x13,x11,1
        (0x80058693, 0x0, 0x0, 0xFFFFFFFFFFFFF800), // addi x13,x11,-2048
        (0x03F59693, 0x3, 0x0, 0x8000000000000000), // slli x13,x11,63
        (0xFFC5A693, 0xFFFFFFFFFFFFFFFB, 0x0, 0x1), // slti x13,x11,-4
        (0xFFF5A693, 0x0, 0x0, 0x0), // slti x13,x11,-1
        (0xFFF5B693, 0x0, 0x0, 0x1), // sltiu x13,x11,-1
        (0xFFF5B693, 0xFFFFFFFFFFFFFFFF, 0x0, 0x0), // sltiu x13,x11,-1
        (0xFFF5C693, 0xFF, 0x0, 0xFFFFFFFFFFFFFF00), // xori x13,x11,-1
        (0x03F5D693, 0xFFFFFFFFFFFFFFFF, 0x0, 0x1), // srli x13,x11,63
        (0x43F5D693, 0x8000000000000000, 0x0, 0xFFFFFFFFFFFFFFFF), // srai x13,x11,63
        (0x8005E693, 0x1, 0x0, 0xFFFFFFFFFFFFF801), // ori x13,x11,-2048
        (0x8005F693, 0xFFFFFFFFFFFFFFFF, 0x0, 0xFFFFFFFFFFFFF800), // andi x13,x11,-2048
        (0x0015869B, 0x7FFFFFFF, 0x0, 0xFFFFFFFF80000000), // addiw x13,x11,1
        (0x0005869B, 0xFFFFFFFF, 0x0, 0xFFFFFFFFFFFFFFFF), // addiw x13,x11,0
        (0x01F5969B, 0x3, 0x0, 0xFFFFFFFF80000000), // slliw x13,x11,31
        (0x01F5D69B, 0xFFFFFFFFFFFFFFFF, 0x0, 0x1), // srliw x13,x11,31
        (0x41F5D69B, 0x80000000, 0x0, 0xFFFFFFFFFFFFFFFF), // sraiw x13,x11,31
        (0x800006B7, 0x0, 0x0, 0xFFFFFFFF80000000), // lui x13,0x80000
    ]);
    Ok(())
}

#[test]
#[rattlefmt::skip]
fn registers(rt: HostRuntime) -> Result<(), Fail> {
    let mut memory = two_words(&rt)?;
    gives(&rt, &mut memory, &[
        (0x00C586B3, 0xFFFFFFFFFFFFFFFF, 0x1, 0x0), // add x13,x11,x12
        (0x00C586B3, 0x7FFFFFFFFFFFFFFF, 0x1, 0x8000000000000000), // add x13,x11,x12
        (0x00C596B3, 0xFFFFFFFFFFFFFFFF, 0x7F, 0x8000000000000000), // sll x13,x11,x12
        (0x00C596B3, 0x3, 0x40, 0x3), // sll x13,x11,x12
        (0x00C5A6B3, 0x8000000000000000, 0x7FFFFFFFFFFFFFFF, 0x1), // slt x13,x11,x12
        (0x00C5A6B3, 0x0, 0xFFFFFFFFFFFFFFFF, 0x0), // slt x13,x11,x12
        (0x00C5B6B3, 0x8000000000000000, 0x7FFFFFFFFFFFFFFF, 0x0), // sltu x13,x11,x12
        (0x00C5B6B3, 0x0, 0xFFFFFFFFFFFFFFFF, 0x1), // sltu x13,x11,x12
        (0x00C5C6B3, 0xF0F0, 0xFF00, 0xFF0), // xor x13,x11,x12
        (0x00C5D6B3, 0xFFFFFFFFFFFFFFFF, 0x7F, 0x1), // srl x13,x11,x12
        (0x00C5D6B3, 0x8000000000000000, 0x40, 0x8000000000000000), // srl x13,x11,x12
        (0x00C5E6B3, 0xF0F0, 0xFF00, 0xFFF0), // or x13,x11,x12
        (0x00C5F6B3, 0xF0F0, 0xFF00, 0xF000), // and x13,x11,x12
        (0x40C586B3, 0x0, 0x1, 0xFFFFFFFFFFFFFFFF), // sub x13,x11,x12
        (0x40C586B3, 0x8000000000000000, 0x1, 0x7FFFFFFFFFFFFFFF), // sub x13,x11,x12
        (0x40C5D6B3, 0xFFFFFFFFFFFFFFFE, 0x7F, 0xFFFFFFFFFFFFFFFF), // sra x13,x11,x12
        (0x40C5D6B3, 0x8000000000000000, 0x3F, 0xFFFFFFFFFFFFFFFF), // sra x13,x11,x12
        (0x00C586BB, 0x7FFFFFFF, 0x1, 0xFFFFFFFF80000000), // addw x13,x11,x12
        (0x00C586BB, 0xFFFFFFFF, 0x1, 0x0), // addw x13,x11,x12
        (0x00C596BB, 0x1, 0x3F, 0xFFFFFFFF80000000), // sllw x13,x11,x12
        (0x00C596BB, 0x1, 0x20, 0x1), // sllw x13,x11,x12
        (0x00C5D6BB, 0xFFFFFFFFFFFFFFFF, 0x1F, 0x1), // srlw x13,x11,x12
        (0x00C5D6BB, 0x80000000, 0x20, 0xFFFFFFFF80000000), // srlw x13,x11,x12
        (0x40C586BB, 0x80000000, 0x1, 0x7FFFFFFF), // subw x13,x11,x12
        (0x40C586BB, 0x0, 0x1, 0xFFFFFFFFFFFFFFFF), // subw x13,x11,x12
        (0x40C5D6BB, 0x80000000, 0x1F, 0xFFFFFFFFFFFFFFFF), // sraw x13,x11,x12
        (0x40C5D6BB, 0x7FFFFFFF, 0x21, 0x3FFFFFFF), // sraw x13,x11,x12
    ]);
    Ok(())
}

#[test]
#[rattlefmt::skip]
fn products(rt: HostRuntime) -> Result<(), Fail> {
    let mut memory = two_words(&rt)?;
    gives(&rt, &mut memory, &[
        (0x02C586B3, 0xFFFFFFFFFFFFFFFF, 0xFFFFFFFFFFFFFFFF, 0x1), // mul x13,x11,x12
        (0x02C586B3, 0x123456789ABCDEF0, 0xFEDCBA9876543210, 0x236D88FE5618CF00), // mul x13,x11,x12
        (0x02C596B3, 0x8000000000000000, 0x8000000000000000, 0x4000000000000000), // mulh x13,x11,x12
        (0x02C596B3, 0xFFFFFFFFFFFFFFFF, 0x1, 0xFFFFFFFFFFFFFFFF), // mulh x13,x11,x12
        (0x02C5A6B3, 0x8000000000000000, 0xFFFFFFFFFFFFFFFF, 0x8000000000000000), // mulhsu x13,x11,x12
        (0x02C5A6B3, 0xFFFFFFFFFFFFFFFF, 0xFFFFFFFFFFFFFFFF, 0xFFFFFFFFFFFFFFFF), // mulhsu x13,x11,x12
        (0x02C5B6B3, 0xFFFFFFFFFFFFFFFF, 0xFFFFFFFFFFFFFFFF, 0xFFFFFFFFFFFFFFFE), // mulhu x13,x11,x12
        (0x02C5B6B3, 0x8000000000000000, 0x2, 0x1), // mulhu x13,x11,x12
        (0x02C586BB, 0x10001, 0x8000, 0xFFFFFFFF80008000), // mulw x13,x11,x12
        (0x02C586BB, 0xFFFFFFFF, 0xFFFFFFFF, 0x1), // mulw x13,x11,x12
    ]);
    Ok(())
}

#[test]
#[rattlefmt::skip]
fn quotients(rt: HostRuntime) -> Result<(), Fail> {
    let mut memory = two_words(&rt)?;
    gives(&rt, &mut memory, &[
        (0x02C5C6B3, 0x8000000000000000, 0xFFFFFFFFFFFFFFFF, 0x8000000000000000), // div x13,x11,x12
        (0x02C5C6B3, 0x7, 0x0, 0xFFFFFFFFFFFFFFFF), // div x13,x11,x12
        (0x02C5C6B3, 0xFFFFFFFFFFFFFFF9, 0x2, 0xFFFFFFFFFFFFFFFD), // div x13,x11,x12
        (0x02C5D6B3, 0xFFFFFFFFFFFFFFFF, 0x2, 0x7FFFFFFFFFFFFFFF), // divu x13,x11,x12
        (0x02C5D6B3, 0x7, 0x0, 0xFFFFFFFFFFFFFFFF), // divu x13,x11,x12
        (0x02C5E6B3, 0x8000000000000000, 0xFFFFFFFFFFFFFFFF, 0x0), // rem x13,x11,x12
        (0x02C5E6B3, 0x7, 0x0, 0x7), // rem x13,x11,x12
        (0x02C5E6B3, 0xFFFFFFFFFFFFFFF9, 0x2, 0xFFFFFFFFFFFFFFFF), // rem x13,x11,x12
        (0x02C5E6B3, 0x7, 0xFFFFFFFFFFFFFFFE, 0x1), // rem x13,x11,x12
        (0x02C5F6B3, 0xFFFFFFFFFFFFFFFF, 0xA, 0x5), // remu x13,x11,x12
        (0x02C5F6B3, 0x7, 0x0, 0x7), // remu x13,x11,x12
        (0x02C5C6BB, 0x80000000, 0xFFFFFFFF, 0xFFFFFFFF80000000), // divw x13,x11,x12
        (0x02C5C6BB, 0x5, 0x100000000, 0xFFFFFFFFFFFFFFFF), // divw x13,x11,x12
        (0x02C5C6BB, 0xFFFFFFFFFFFFFFF9, 0x2, 0xFFFFFFFFFFFFFFFD), // divw x13,x11,x12
        (0x02C5D6BB, 0xFFFFFFFFFFFFFFFF, 0x2, 0x7FFFFFFF), // divuw x13,x11,x12
        (0x02C5D6BB, 0x5, 0x0, 0xFFFFFFFFFFFFFFFF), // divuw x13,x11,x12
        (0x02C5E6BB, 0x80000000, 0xFFFFFFFF, 0x0), // remw x13,x11,x12
        (0x02C5E6BB, 0xFFFFFFFF80000001, 0x100000000, 0xFFFFFFFF80000001), // remw x13,x11,x12
        (0x02C5E6BB, 0xFFFFFFFFFFFFFFF9, 0x2, 0xFFFFFFFFFFFFFFFF), // remw x13,x11,x12
        (0x02C5F6BB, 0xFFFFFFFF, 0xA, 0x5), // remuw x13,x11,x12
        (0x02C5F6BB, 0x80000000, 0x0, 0xFFFFFFFF80000000), // remuw x13,x11,x12
    ]);
    Ok(())
}

#[test]
#[rattlefmt::skip]
fn loads(rt: HostRuntime) -> Result<(), Fail> {
    let mut memory = two_words(&rt)?;
    gives(&rt, &mut memory, &[
        (0x00158683, 4096, 0, 0xFFFFFFFFFFFFFF87), // lb x13,1(x11)
        (0x00259683, 4096, 0, 0xFFFFFFFFFFFF8586), // lh x13,2(x11)
        (0x0045A683, 4096, 0, 0xFFFFFFFF81828384), // lw x13,4(x11)
        (0x0005B683, 4096, 0, 0x8182838485868788), // ld x13,0(x11)
        (0x0015C683, 4096, 0, 0x87), // lbu x13,1(x11)
        (0x0025D683, 4096, 0, 0x8586), // lhu x13,2(x11)
        (0x0045E683, 4096, 0, 0x81828384), // lwu x13,4(x11)
        (0xFF85B683, 4112, 0, 0x0102030405060708), // ld x13,-8(x11)
    ]);
    assert_eq!(rt; memory.accesses, 8);
    Ok(())
}

#[test]
fn stores(rt: HostRuntime) -> Result<(), Fail> {
    let mut memory = two_words(&rt)?;
    // sb x12,1(x11); sh x12,2(x11); sw x12,4(x11); sd x12,8(x11)
    for word in [0x00C580A3, 0x00C59123, 0x00C5A223, 0x00C5B423] {
        let mut core = core_with(4096, 0xA1A2A3A4A5A6A7A8);
        assert_eq!(rt; step(&mut core, &[word], &mut memory), Step::Went);
        assert_eq!(rt; core.pc, 65540);
    }
    let want = [0xA5A6A7A8A7A8A888, 0xA1A2A3A4A5A6A7A8];
    assert_eq!(rt; memory.words.as_slice(), want.as_slice());
    assert_eq!(rt; memory.accesses, 4);
    Ok(())
}

#[test]
#[rattlefmt::skip]
fn jumps(rt: HostRuntime) -> Result<(), Fail> {
    let mut memory = two_words(&rt)?;
    let table = [
        (0x00C58863, 5, 5, 65552, 0), // beq x11,x12,.+16
        (0x00C58863, 5, 6, 65540, 0),
        (0x00C59863, 5, 6, 65552, 0), // bne x11,x12,.+16
        (0xFEC5C8E3, u64::MAX, 0, 65520, 0), // blt x11,x12,.-16
        (0x00C5D863, u64::MAX, 0, 65540, 0), // bge x11,x12,.+16
        (0x00C5E863, u64::MAX, 0, 65540, 0), // bltu x11,x12,.+16
        (0x00C5F863, u64::MAX, 0, 65552, 0), // bgeu x11,x12,.+16
        (0xFFF586E7, 65538, 0, 65536, 65540), // jalr x13,-1(x11)
        (0xFF1FF6EF, 0, 0, 65520, 65540), // jal x13,.-16
    ];
    for (word, a, b, pc, link) in table {
        let mut core = core_with(a, b);
        assert_eq!(rt; step(&mut core, &[word], &mut memory), Step::Went);
        assert_eq!(rt; core.pc, pc, "{word}");
        assert_eq!(rt; core.x[13], link, "{word}");
    }
    // jalr x11,3(x11) goes by the old x11
    let mut core = core_with(70000, 0);
    assert_eq!(rt; step(&mut core, &[0x003585E7], &mut memory), Step::Went);
    assert_eq!(rt; core.pc, 70002);
    assert_eq!(rt; core.x[11], 65540);
    // auipc x13,0xFFFFF
    let mut core = core_with(0, 0);
    assert_eq!(rt; step(&mut core, &[0xFFFFF697], &mut memory), Step::Went);
    assert_eq!(rt; core.x[13], 61440);
    // addi x0,x11,1 and ld x0,0(x11) write nothing, and the load makes its access
    for word in [0x00158013, 0x0005B003] {
        let mut core = core_with(4096, 0);
        assert_eq!(rt; step(&mut core, &[word], &mut memory), Step::Went);
        assert_eq!(rt; core.x[0], 99);
    }
    assert_eq!(rt; memory.accesses, 1);
    // ecall
    let mut core = core_with(0, 0);
    assert_eq!(rt; step(&mut core, &[0x00000073], &mut memory), Step::Call);
    assert_eq!(rt; core.pc, 65540);
    Ok(())
}

#[test]
#[rattlefmt::skip]
fn faults(rt: HostRuntime) -> Result<(), Fail> {
    let mut memory = two_words(&rt)?;
    let table = [
        (65536, 0x00100073, 0, FaultCause::Break), // ebreak
        (65536, 0x0000000F, 0, FaultCause::Undefined(15)), // fence
        (65540, 0x00000013, 0, FaultCause::Fetch), // past the code
        (65538, 0x00000013, 0, FaultCause::Fetch),
        (65532, 0x00000013, 0, FaultCause::Fetch),
        (0, 0x00000013, 0, FaultCause::Fetch),
        (u64::MAX, 0x00000013, 0, FaultCause::Fetch),
        (65536, 0x0005B683, 4100, FaultCause::Misaligned(4100)), // ld x13,0(x11)
        (65536, 0x0005B683, 4112, FaultCause::Access(4112)),
        (65536, 0x0005B683, 3, FaultCause::Misaligned(3)),
        (65536, 0x00C5B423, 4104, FaultCause::Access(4112)), // sd x12,8(x11)
        (65536, 0x00C5B423, 4097, FaultCause::Misaligned(4105)),
        (65536, 0x00C59123, u64::MAX, FaultCause::Misaligned(1)), // sh x12,2(x11)
    ];
    for (pc, word, a, cause) in table {
        let mut core = core_with(a, 7);
        core.pc = pc;
        let before = core;
        let fault = MachineFault { pc, cause };
        assert_eq!(rt; step(&mut core, &[word], &mut memory), Step::Fault(fault));
        assert_eq!(rt; core, before);
    }
    assert_eq!(rt; memory.accesses, 0);
    Ok(())
}
