// The table tried both ways, with words that GNU's assembler gives, and the assembler's places.
ghost use Rattle.std.specs.Prelude.{◌≡◌};

use crate::{
    Asm, AsmFault, BranchOffset, Imm12, Imm20, Instr, Item, JumpOffset, Placed, Reg, Shift5,
    Shift6, decode, encode,
};
use mn_outside::{NoMemory, Refused};
use std::alloc::Global;
use std::process::Abort;
use std::test::Fail;

fn x(number: u8) -> Reg {
    Reg::of(number % 32)
}

fn imm(bits: u16) -> Imm12 {
    Imm12::of(bits % 4096)
}

fn upper(bits: u32) -> Imm20 {
    Imm20::of(bits % 1048576)
}

fn long(count: u8) -> Shift6 {
    Shift6::of(count % 64)
}

fn short(count: u8) -> Shift5 {
    Shift5::of(count % 32)
}

fn branch(bits: u16) -> BranchOffset {
    BranchOffset::of(bits % 8192 / 2 * 2)
}

fn jump(bits: u32) -> JumpOffset {
    JumpOffset::of(bits % 2097152 / 2 * 2)
}

// Each instruction has its word, and each word its instruction.
fn check(rt: &impl Abort, table: &[(Instr, u32)]) {
    for (instr, word) in table {
        assert_eq!(rt; encode(instr), *word, "{instr:?}");
        assert_eq!(rt; decode(*word), Some(*instr), "{word}");
    }
}

#[test]
#[rattlefmt::skip]
fn loads(rt: HostRuntime) {
    check(&rt, &[
        (Instr::Lb(x(1), x(2), imm(2047)), 0x7FF10083), // lb x1,2047(x2)
        (Instr::Lh(x(8), x(13), imm(4095)), 0xFFF69403), // lh x8,-1(x13)
        (Instr::Lw(x(15), x(24), imm(5)), 0x005C2783), // lw x15,5(x24)
        (Instr::Ld(x(22), x(3), imm(4088)), 0xFF81BB03), // ld x22,-8(x3)
        (Instr::Lbu(x(29), x(14), imm(1000)), 0x3E874E83), // lbu x29,1000(x14)
        (Instr::Lhu(x(4), x(25), imm(2048)), 0x800CD203), // lhu x4,-2048(x25)
        (Instr::Lwu(x(11), x(4), imm(2047)), 0x7FF26583), // lwu x11,2047(x4)
    ]);
}

#[test]
#[rattlefmt::skip]
fn stores(rt: HostRuntime) {
    check(&rt, &[
        (Instr::Sb(x(18), x(15), imm(2048)), 0x81278023), // sb x18,-2048(x15)
        (Instr::Sb(x(28), x(26), imm(2047)), 0x7FCD0FA3), // sb x28,2047(x26)
        (Instr::Sh(x(0), x(5), imm(2048)), 0x80029023), // sh x0,-2048(x5)
        (Instr::Sh(x(10), x(16), imm(2047)), 0x7EA81FA3), // sh x10,2047(x16)
        (Instr::Sw(x(14), x(27), imm(2048)), 0x80EDA023), // sw x14,-2048(x27)
        (Instr::Sw(x(24), x(6), imm(2047)), 0x7F832FA3), // sw x24,2047(x6)
        (Instr::Sd(x(28), x(17), imm(2048)), 0x81C8B023), // sd x28,-2048(x17)
        (Instr::Sd(x(6), x(28), imm(2047)), 0x7E6E3FA3), // sd x6,2047(x28)
    ]);
}

#[test]
#[rattlefmt::skip]
fn immediates(rt: HostRuntime) {
    check(&rt, &[
        (Instr::Addi(x(10), x(7), imm(4088)), 0xFF838513), // addi x10,x7,-8
        (Instr::Slli(x(17), x(18), long(1)), 0x00191893), // slli x17,x18,1
        (Instr::Slti(x(24), x(29), imm(2048)), 0x800EAC13), // slti x24,x29,-2048
        (Instr::Sltiu(x(31), x(8), imm(2047)), 0x7FF43F93), // sltiu x31,x8,2047
        (Instr::Xori(x(6), x(19), imm(4095)), 0xFFF9C313), // xori x6,x19,-1
        (Instr::Srli(x(13), x(30), long(63)), 0x03FF5693), // srli x13,x30,63
        (Instr::Srai(x(20), x(9), long(33)), 0x4214DA13), // srai x20,x9,33
        (Instr::Ori(x(27), x(20), imm(1000)), 0x3E8A6D93), // ori x27,x20,1000
        (Instr::Andi(x(2), x(31), imm(2048)), 0x800FF113), // andi x2,x31,-2048
        (Instr::Addiw(x(9), x(10), imm(2047)), 0x7FF5049B), // addiw x9,x10,2047
        (Instr::Slliw(x(16), x(21), short(1)), 0x001A981B), // slliw x16,x21,1
        (Instr::Srliw(x(23), x(0), short(31)), 0x01F05B9B), // srliw x23,x0,31
        (Instr::Sraiw(x(30), x(11), short(17)), 0x4115DF1B), // sraiw x30,x11,17
    ]);
}

#[test]
#[rattlefmt::skip]
fn registers(rt: HostRuntime) {
    check(&rt, &[
        (Instr::Add(x(5), x(22), x(19)), 0x013B02B3), // add x5,x22,x19
        (Instr::Sll(x(12), x(1), x(14)), 0x00E09633), // sll x12,x1,x14
        (Instr::Slt(x(19), x(12), x(9)), 0x009629B3), // slt x19,x12,x9
        (Instr::Sltu(x(26), x(23), x(4)), 0x004BBD33), // sltu x26,x23,x4
        (Instr::Xor(x(1), x(2), x(31)), 0x01F140B3), // xor x1,x2,x31
        (Instr::Srl(x(8), x(13), x(26)), 0x01A6D433), // srl x8,x13,x26
        (Instr::Or(x(15), x(24), x(21)), 0x015C67B3), // or x15,x24,x21
        (Instr::And(x(22), x(3), x(16)), 0x0101FB33), // and x22,x3,x16
        (Instr::Sub(x(29), x(14), x(11)), 0x40B70EB3), // sub x29,x14,x11
        (Instr::Sra(x(4), x(25), x(6)), 0x406CD233), // sra x4,x25,x6
    ]);
}

#[test]
#[rattlefmt::skip]
fn products(rt: HostRuntime) {
    check(&rt, &[
        (Instr::Mul(x(11), x(4), x(1)), 0x021205B3), // mul x11,x4,x1
        (Instr::Mulh(x(18), x(15), x(28)), 0x03C79933), // mulh x18,x15,x28
        (Instr::Mulhsu(x(25), x(26), x(23)), 0x037D2CB3), // mulhsu x25,x26,x23
        (Instr::Mulhu(x(0), x(5), x(18)), 0x0322B033), // mulhu x0,x5,x18
        (Instr::Div(x(7), x(16), x(13)), 0x02D843B3), // div x7,x16,x13
        (Instr::Divu(x(14), x(27), x(8)), 0x028DD733), // divu x14,x27,x8
        (Instr::Rem(x(21), x(6), x(3)), 0x02336AB3), // rem x21,x6,x3
        (Instr::Remu(x(28), x(17), x(30)), 0x03E8FE33), // remu x28,x17,x30
    ]);
}

#[test]
#[rattlefmt::skip]
fn registers_of_32_bits(rt: HostRuntime) {
    check(&rt, &[
        (Instr::Addw(x(3), x(28), x(25)), 0x019E01BB), // addw x3,x28,x25
        (Instr::Sllw(x(10), x(7), x(20)), 0x0143953B), // sllw x10,x7,x20
        (Instr::Srlw(x(17), x(18), x(15)), 0x00F958BB), // srlw x17,x18,x15
        (Instr::Subw(x(24), x(29), x(10)), 0x40AE8C3B), // subw x24,x29,x10
        (Instr::Sraw(x(31), x(8), x(5)), 0x40545FBB), // sraw x31,x8,x5
        (Instr::Mulw(x(6), x(19), x(0)), 0x0209833B), // mulw x6,x19,x0
        (Instr::Divw(x(13), x(30), x(27)), 0x03BF46BB), // divw x13,x30,x27
        (Instr::Divuw(x(20), x(9), x(22)), 0x0364DA3B), // divuw x20,x9,x22
        (Instr::Remw(x(27), x(20), x(17)), 0x031A6DBB), // remw x27,x20,x17
        (Instr::Remuw(x(2), x(31), x(12)), 0x02CFF13B), // remuw x2,x31,x12
    ]);
}

#[test]
#[rattlefmt::skip]
fn branches(rt: HostRuntime) {
    check(&rt, &[
        (Instr::Beq(x(9), x(10), branch(6142)), 0xFEA48F63), // beq x9,x10,.-2050
        (Instr::Beq(x(19), x(21), branch(30)), 0x01598F63), // beq x19,x21,.+30
        (Instr::Bne(x(23), x(0), branch(8160)), 0xFE0B90E3), // bne x23,x0,.-32
        (Instr::Bne(x(1), x(11), branch(4096)), 0x80B09063), // bne x1,x11,.-4096
        (Instr::Blt(x(5), x(22), branch(4094)), 0x7F62CFE3), // blt x5,x22,.+4094
        (Instr::Blt(x(15), x(1), branch(2048)), 0x0017C0E3), // blt x15,x1,.+2048
        (Instr::Bge(x(19), x(12), branch(6142)), 0xFEC9DF63), // bge x19,x12,.-2050
        (Instr::Bge(x(29), x(23), branch(30)), 0x017EDF63), // bge x29,x23,.+30
        (Instr::Bltu(x(1), x(2), branch(8160)), 0xFE20E0E3), // bltu x1,x2,.-32
        (Instr::Bltu(x(11), x(13), branch(4096)), 0x80D5E063), // bltu x11,x13,.-4096
        (Instr::Bgeu(x(15), x(24), branch(4094)), 0x7F87FFE3), // bgeu x15,x24,.+4094
        (Instr::Bgeu(x(25), x(3), branch(2048)), 0x003CF0E3), // bgeu x25,x3,.+2048
    ]);
}

#[test]
#[rattlefmt::skip]
fn the_rest(rt: HostRuntime) {
    check(&rt, &[
        (Instr::Jalr(x(29), x(14), imm(5)), 0x00570EE7), // jalr x29,5(x14)
        (Instr::Jal(x(4), jump(1048576)), 0x8000026F), // jal x4,.-1048576
        (Instr::Jal(x(14), jump(1048574)), 0x7FFFF76F), // jal x14,.+1048574
        (Instr::Lui(x(18), upper(703710)), 0xABCDE937), // lui x18,703710
        (Instr::Auipc(x(25), upper(703710)), 0xABCDEC97), // auipc x25,703710
        (Instr::Ecall, 0x00000073), // ecall
        (Instr::Ebreak, 0x00100073), // ebreak
    ]);
}

#[test]
#[rattlefmt::skip]
fn known_words(rt: HostRuntime) {
    check(&rt, &[
        (Instr::Addi(x(5), x(0), imm(1)), 0x00100293),
        (Instr::Jalr(x(0), x(1), imm(0)), 0x00008067),
        (Instr::Add(x(10), x(11), x(12)), 0x00C58533),
        (Instr::Mul(x(10), x(11), x(12)), 0x02C58533),
        (Instr::Ld(x(5), x(8), imm(8)), 0x00843283),
        (Instr::Sd(x(5), x(8), imm(4088)), 0xFE543C23),
        (Instr::Beq(x(5), x(0), branch(8)), 0x00028463),
        (Instr::Jal(x(0), jump(2097148)), 0xFFDFF06F),
        (Instr::Lui(x(6), upper(0x20000)), 0x20000337),
    ]);
}

#[test]
#[rattlefmt::skip]
fn words_of_no_instruction(rt: HostRuntime) {
    let words = [
        0x00000000, 0xFFFFFFFF, 0x00000001, 0x00008082, // zero, ones, two compressed
        0x0FF0000F, 0x0000100F, 0x30529073, 0xC0002573, // FENCE, FENCE.I, CSRRW, CSRRS
        0x30200073, 0x10500073, 0x000000F3, 0x00200073, // MRET, WFI, ECALL with rd, URET
        0x1000302F, 0x02007053, 0x00007007, 0x0000707B, // LR.D, FADD.D, FLH's opcode, no opcode
        0x0000F003, 0x0000C023, 0x00002063, 0x00001067, // LOAD 7, STORE 4, BRANCH 2, JALR 1
        0x04009093, 0x0400D093, 0x4200D09B, 0x0200109B, // reserved bits above a shift's count
        0x40001033, 0x40007033, 0x04000033, 0xC0000033, // OP with other funct7
        0x0000203B, 0x4000103B, 0x0200103B, 0x0000209B, // OP-32 and OP-IMM-32 with other funct3
    ];
    for word in words {
        assert_eq!(rt; decode(word), None, "{word}");
    }
}

// Emits as many ADDI x0, x0, 0.
fn fill(asm: &mut Asm, count: u32) -> Result<(), NoMemory>
    ensures { asm.new.places ≡ asm.old.places }
{
    for _ in 0..count {
        asm.emit(Item::Plain(Instr::Addi(Reg::of(0), Reg::of(0), Imm12::of(0))))?;
    }
    Ok(())
}

// The first word, or the fault, of a JAL x0 to a label that is so many words ahead of it.
fn jump_ahead(alloc: Global, words: u32) -> Result<Result<u32, AsmFault>, Fail> {
    let mut asm = Asm::new(alloc)?;
    let label = asm.label()?;
    asm.emit(Item::Branch(Instr::Jal(Reg::of(0), JumpOffset::of(0)), label))?;
    fill(&mut asm, words.saturating_sub(1))?;
    asm.place(label)?;
    if asm.word_count() > 268435456 {
        return Err("too many words".into());
    }
    match asm.finish(alloc) {
        Ok(words) => Ok(Ok(words.first().copied().unwrap_or(0))),
        Err(Refused::Fault(fault)) => Ok(Err(fault)),
        Err(Refused::NoMemory) => Err(NoMemory.into()),
    }
}

#[test]
fn jumps_reach_so_far(rt: HostRuntime) -> Result<(), Fail> {
    assert_eq!(rt; jump_ahead(rt.alloc(), 262143)?, Ok(0x7FDFF06F));
    let fault = AsmFault::FarBranch {
        from: 0,
        to: 262144,
    };
    assert_eq!(rt; jump_ahead(rt.alloc(), 262144)?, Err(fault));
    Ok(())
}

#[test]
fn places_and_far_jumps(rt: HostRuntime) -> Result<(), Fail> {
    let mut asm = Asm::new(rt.alloc())?;
    let back = asm.label()?;
    let ahead = asm.label()?;
    let never = asm.label()?;
    asm.place(back)?;
    assert_eq!(rt; asm.place(back), Err(Placed));
    asm.emit(Item::Branch(
        Instr::Bne(Reg::of(5), Reg::of(0), BranchOffset::of(0)),
        ahead,
    ))?;
    asm.emit(Item::Far(back))?;
    asm.emit(Item::Far(ahead))?;
    asm.place(ahead)?;
    asm.emit(Item::Branch(Instr::Jal(Reg::of(1), JumpOffset::of(0)), back))?;
    assert_eq!(rt; asm.word_count(), 6);
    let words = asm.finish(rt.alloc())?;
    let want = [
        0x00029A63, 0x00000317, 0xFFC30067, 0x00000317, 0x00830067, 0xFEDFF0EF,
    ];
    assert_eq!(rt; words.as_slice(), want.as_slice());
    let mut other = Asm::new(rt.alloc())?;
    let label = other.label()?;
    other.emit(Item::Far(label))?;
    other.emit(Item::Branch(Instr::Jal(Reg::of(1), JumpOffset::of(0)), never))?;
    let fault = Refused::Fault(AsmFault::Unplaced { label: 0 });
    assert_eq!(rt; other.finish(rt.alloc()).err(), Some(fault));
    Ok(())
}
