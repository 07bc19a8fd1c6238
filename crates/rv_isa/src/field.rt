// The fields of a word.
ghost use Rattle.std.specs.Prelude.{◌≡◌};
ghost use Rattle.rv_isa.specs.Word.{opcode_of, rd_of, rs1_of, rs2_of, funct3_of, funct6_of, funct7_of, count6_of, i_imm_of, s_imm_of, b_offset_of, u_imm_of, j_offset_of};

use crate::{BranchOffset, Imm12, Imm20, JumpOffset, Reg, Shift5, Shift6};

pub(crate) fn opcode(word: u32) -> u32
    ensures { result ≡ opcode_of word }
{
    word % 128
}

pub(crate) fn funct3(word: u32) -> u32
    ensures { result ≡ funct3_of word }
{
    word / 4096 % 8
}

pub(crate) fn funct6(word: u32) -> u32
    ensures { result ≡ funct6_of word }
{
    word / 67108864
}

pub(crate) fn funct7(word: u32) -> u32
    ensures { result ≡ funct7_of word }
{
    word / 33554432
}

pub(crate) fn rd(word: u32) -> Reg
    ensures { result ≡ rd_of word }
{
    Reg::of((word / 128 % 32) as u8)
}

pub(crate) fn rs1(word: u32) -> Reg
    ensures { result ≡ rs1_of word }
{
    Reg::of((word / 32768 % 32) as u8)
}

pub(crate) fn rs2(word: u32) -> Reg
    ensures { result ≡ rs2_of word }
{
    Reg::of((word / 1048576 % 32) as u8)
}

pub(crate) fn count5(word: u32) -> Shift5
    ensures { result ≡ rs2_of word }
{
    Shift5::of((word / 1048576 % 32) as u8)
}

pub(crate) fn count6(word: u32) -> Shift6
    ensures { result ≡ count6_of word }
{
    Shift6::of((word / 1048576 % 64) as u8)
}

pub(crate) fn i_imm(word: u32) -> Imm12
    ensures { result ≡ i_imm_of word }
{
    Imm12::of((word / 1048576) as u16)
}

pub(crate) fn s_imm(word: u32) -> Imm12
    ensures { result ≡ s_imm_of word }
{
    Imm12::of((word / 33554432 * 32 + word / 128 % 32) as u16)
}

pub(crate) fn b_offset(word: u32) -> BranchOffset
    ensures { result ≡ b_offset_of word }
{
    let bits = word / 2147483648 * 4096
        + word / 128 % 2 * 2048
        + word / 33554432 % 64 * 32
        + word / 256 % 16 * 2;
    BranchOffset::of(bits as u16)
}

pub(crate) fn u_imm(word: u32) -> Imm20
    ensures { result ≡ u_imm_of word }
{
    Imm20::of(word / 4096)
}

pub(crate) fn j_offset(word: u32) -> JumpOffset
    ensures { result ≡ j_offset_of word }
{
    JumpOffset::of(
        word / 2147483648 * 1048576
            + word / 4096 % 256 * 4096
            + word / 1048576 % 2 * 2048
            + word / 2097152 % 1024 * 2,
    )
}
