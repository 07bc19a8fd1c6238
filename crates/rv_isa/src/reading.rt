// Instructions from words.
ghost use Rattle.std.specs.Prelude.{◌≡◌, IfSome};
ghost use Rattle.rv_isa.specs.Row.{IsRow};
ghost use Rattle.rv_isa.specs.Word.{word_of, opcode_of, rd_of, rs1_of, rs2_of, funct3_of, funct7_of, count6_of, i_imm_of, s_imm_of, b_offset_of, u_imm_of, j_offset_of};
ghost use Rattle.rv_isa.specs.Reading.{Decodes, load_of, store_of, left_shift_of, right_shift_of, immediate_of, left_shift_32_of, right_shift_32_of, immediate_32_of, plain_of, other_of, product_of, register_of, plain_32_of, other_32_of, product_32_of, register_32_of, branch_of, jalr_of, system_of, decode_of};

use crate::Instr;
use crate::field::{
    b_offset, count5, count6, funct3, funct6, funct7, i_imm, j_offset, opcode, rd, rs1, rs2, s_imm,
    u_imm,
};

// The opcode LOAD.
fn load(word: u32) -> Option<Instr>
    requires { opcode_of word ≡ 3 }
    ensures fields { result ≡ load_of word }
    ensures word { IfSome result (λ instr. IsRow instr × (word_of instr ≡ word)) }
{
    let rd = rd(word);
    let rs1 = rs1(word);
    let imm = i_imm(word);
    match funct3(word) {
        0 => Some(Instr::Lb(rd, rs1, imm)),
        1 => Some(Instr::Lh(rd, rs1, imm)),
        2 => Some(Instr::Lw(rd, rs1, imm)),
        3 => Some(Instr::Ld(rd, rs1, imm)),
        4 => Some(Instr::Lbu(rd, rs1, imm)),
        5 => Some(Instr::Lhu(rd, rs1, imm)),
        6 => Some(Instr::Lwu(rd, rs1, imm)),
        _ => None,
    }
}

// The opcode STORE.
fn store(word: u32) -> Option<Instr>
    requires { opcode_of word ≡ 35 }
    ensures fields { result ≡ store_of word }
    ensures word { IfSome result (λ instr. IsRow instr × (word_of instr ≡ word)) }
{
    let rs2 = rs2(word);
    let rs1 = rs1(word);
    let imm = s_imm(word);
    match funct3(word) {
        0 => Some(Instr::Sb(rs2, rs1, imm)),
        1 => Some(Instr::Sh(rs2, rs1, imm)),
        2 => Some(Instr::Sw(rs2, rs1, imm)),
        3 => Some(Instr::Sd(rs2, rs1, imm)),
        _ => None,
    }
}

// SLLI.
fn left_shift(word: u32) -> Option<Instr>
    requires opcode { opcode_of word ≡ 19 }
    requires shift { funct3_of word ≡ 1 }
    ensures fields { result ≡ left_shift_of word }
    ensures word { IfSome result (λ instr. IsRow instr × (word_of instr ≡ word)) }
{
    let rd = rd(word);
    let rs1 = rs1(word);
    let count = count6(word);
    match funct6(word) {
        0 => Some(Instr::Slli(rd, rs1, count)),
        _ => None,
    }
}

// SRLI and SRAI.
fn right_shift(word: u32) -> Option<Instr>
    requires opcode { opcode_of word ≡ 19 }
    requires shift { funct3_of word ≡ 5 }
    ensures fields { result ≡ right_shift_of word }
    ensures word { IfSome result (λ instr. IsRow instr × (word_of instr ≡ word)) }
{
    let rd = rd(word);
    let rs1 = rs1(word);
    let count = count6(word);
    match funct6(word) {
        0 => Some(Instr::Srli(rd, rs1, count)),
        16 => Some(Instr::Srai(rd, rs1, count)),
        _ => None,
    }
}

// The opcode OP-IMM.
fn immediate(word: u32) -> Option<Instr>
    requires { opcode_of word ≡ 19 }
    ensures fields { result ≡ immediate_of word }
    ensures word { IfSome result (λ instr. IsRow instr × (word_of instr ≡ word)) }
{
    let rd = rd(word);
    let rs1 = rs1(word);
    let imm = i_imm(word);
    match funct3(word) {
        0 => Some(Instr::Addi(rd, rs1, imm)),
        1 => left_shift(word),
        2 => Some(Instr::Slti(rd, rs1, imm)),
        3 => Some(Instr::Sltiu(rd, rs1, imm)),
        4 => Some(Instr::Xori(rd, rs1, imm)),
        5 => right_shift(word),
        6 => Some(Instr::Ori(rd, rs1, imm)),
        _ => Some(Instr::Andi(rd, rs1, imm)),
    }
}

// SLLIW.
fn left_shift_32(word: u32) -> Option<Instr>
    requires opcode { opcode_of word ≡ 27 }
    requires shift { funct3_of word ≡ 1 }
    ensures fields { result ≡ left_shift_32_of word }
    ensures word { IfSome result (λ instr. IsRow instr × (word_of instr ≡ word)) }
{
    let rd = rd(word);
    let rs1 = rs1(word);
    let count = count5(word);
    match funct7(word) {
        0 => Some(Instr::Slliw(rd, rs1, count)),
        _ => None,
    }
}

// SRLIW and SRAIW.
fn right_shift_32(word: u32) -> Option<Instr>
    requires opcode { opcode_of word ≡ 27 }
    requires shift { funct3_of word ≡ 5 }
    ensures fields { result ≡ right_shift_32_of word }
    ensures word { IfSome result (λ instr. IsRow instr × (word_of instr ≡ word)) }
{
    let rd = rd(word);
    let rs1 = rs1(word);
    let count = count5(word);
    match funct7(word) {
        0 => Some(Instr::Srliw(rd, rs1, count)),
        32 => Some(Instr::Sraiw(rd, rs1, count)),
        _ => None,
    }
}

// The opcode OP-IMM-32.
fn immediate_32(word: u32) -> Option<Instr>
    requires { opcode_of word ≡ 27 }
    ensures fields { result ≡ immediate_32_of word }
    ensures word { IfSome result (λ instr. IsRow instr × (word_of instr ≡ word)) }
{
    match funct3(word) {
        0 => Some(Instr::Addiw(rd(word), rs1(word), i_imm(word))),
        1 => left_shift_32(word),
        5 => right_shift_32(word),
        _ => None,
    }
}

// OP with funct7 0000000.
fn plain(word: u32) -> Option<Instr>
    requires opcode { opcode_of word ≡ 51 }
    requires funct7 { funct7_of word ≡ 0 }
    ensures fields { result ≡ plain_of word }
    ensures word { IfSome result (λ instr. IsRow instr × (word_of instr ≡ word)) }
{
    let rd = rd(word);
    let rs1 = rs1(word);
    let rs2 = rs2(word);
    match funct3(word) {
        0 => Some(Instr::Add(rd, rs1, rs2)),
        1 => Some(Instr::Sll(rd, rs1, rs2)),
        2 => Some(Instr::Slt(rd, rs1, rs2)),
        3 => Some(Instr::Sltu(rd, rs1, rs2)),
        4 => Some(Instr::Xor(rd, rs1, rs2)),
        5 => Some(Instr::Srl(rd, rs1, rs2)),
        6 => Some(Instr::Or(rd, rs1, rs2)),
        _ => Some(Instr::And(rd, rs1, rs2)),
    }
}

// OP with funct7 0100000.
fn other(word: u32) -> Option<Instr>
    requires opcode { opcode_of word ≡ 51 }
    requires funct7 { funct7_of word ≡ 32 }
    ensures fields { result ≡ other_of word }
    ensures word { IfSome result (λ instr. IsRow instr × (word_of instr ≡ word)) }
{
    let rd = rd(word);
    let rs1 = rs1(word);
    let rs2 = rs2(word);
    match funct3(word) {
        0 => Some(Instr::Sub(rd, rs1, rs2)),
        5 => Some(Instr::Sra(rd, rs1, rs2)),
        _ => None,
    }
}

// OP with funct7 0000001.
fn product(word: u32) -> Option<Instr>
    requires opcode { opcode_of word ≡ 51 }
    requires funct7 { funct7_of word ≡ 1 }
    ensures fields { result ≡ product_of word }
    ensures word { IfSome result (λ instr. IsRow instr × (word_of instr ≡ word)) }
{
    let rd = rd(word);
    let rs1 = rs1(word);
    let rs2 = rs2(word);
    match funct3(word) {
        0 => Some(Instr::Mul(rd, rs1, rs2)),
        1 => Some(Instr::Mulh(rd, rs1, rs2)),
        2 => Some(Instr::Mulhsu(rd, rs1, rs2)),
        3 => Some(Instr::Mulhu(rd, rs1, rs2)),
        4 => Some(Instr::Div(rd, rs1, rs2)),
        5 => Some(Instr::Divu(rd, rs1, rs2)),
        6 => Some(Instr::Rem(rd, rs1, rs2)),
        _ => Some(Instr::Remu(rd, rs1, rs2)),
    }
}

// The opcode OP.
fn register(word: u32) -> Option<Instr>
    requires { opcode_of word ≡ 51 }
    ensures fields { result ≡ register_of word }
    ensures word { IfSome result (λ instr. IsRow instr × (word_of instr ≡ word)) }
{
    match funct7(word) {
        0 => plain(word),
        32 => other(word),
        1 => product(word),
        _ => None,
    }
}

// OP-32 with funct7 0000000.
fn plain_32(word: u32) -> Option<Instr>
    requires opcode { opcode_of word ≡ 59 }
    requires funct7 { funct7_of word ≡ 0 }
    ensures fields { result ≡ plain_32_of word }
    ensures word { IfSome result (λ instr. IsRow instr × (word_of instr ≡ word)) }
{
    let rd = rd(word);
    let rs1 = rs1(word);
    let rs2 = rs2(word);
    match funct3(word) {
        0 => Some(Instr::Addw(rd, rs1, rs2)),
        1 => Some(Instr::Sllw(rd, rs1, rs2)),
        5 => Some(Instr::Srlw(rd, rs1, rs2)),
        _ => None,
    }
}

// OP-32 with funct7 0100000.
fn other_32(word: u32) -> Option<Instr>
    requires opcode { opcode_of word ≡ 59 }
    requires funct7 { funct7_of word ≡ 32 }
    ensures fields { result ≡ other_32_of word }
    ensures word { IfSome result (λ instr. IsRow instr × (word_of instr ≡ word)) }
{
    let rd = rd(word);
    let rs1 = rs1(word);
    let rs2 = rs2(word);
    match funct3(word) {
        0 => Some(Instr::Subw(rd, rs1, rs2)),
        5 => Some(Instr::Sraw(rd, rs1, rs2)),
        _ => None,
    }
}

// OP-32 with funct7 0000001.
fn product_32(word: u32) -> Option<Instr>
    requires opcode { opcode_of word ≡ 59 }
    requires funct7 { funct7_of word ≡ 1 }
    ensures fields { result ≡ product_32_of word }
    ensures word { IfSome result (λ instr. IsRow instr × (word_of instr ≡ word)) }
{
    let rd = rd(word);
    let rs1 = rs1(word);
    let rs2 = rs2(word);
    match funct3(word) {
        0 => Some(Instr::Mulw(rd, rs1, rs2)),
        4 => Some(Instr::Divw(rd, rs1, rs2)),
        5 => Some(Instr::Divuw(rd, rs1, rs2)),
        6 => Some(Instr::Remw(rd, rs1, rs2)),
        7 => Some(Instr::Remuw(rd, rs1, rs2)),
        _ => None,
    }
}

// The opcode OP-32.
fn register_32(word: u32) -> Option<Instr>
    requires { opcode_of word ≡ 59 }
    ensures fields { result ≡ register_32_of word }
    ensures word { IfSome result (λ instr. IsRow instr × (word_of instr ≡ word)) }
{
    match funct7(word) {
        0 => plain_32(word),
        32 => other_32(word),
        1 => product_32(word),
        _ => None,
    }
}

// The opcode BRANCH.
fn branch(word: u32) -> Option<Instr>
    requires { opcode_of word ≡ 99 }
    ensures fields { result ≡ branch_of word }
    ensures word { IfSome result (λ instr. IsRow instr × (word_of instr ≡ word)) }
{
    let rs1 = rs1(word);
    let rs2 = rs2(word);
    let offset = b_offset(word);
    match funct3(word) {
        0 => Some(Instr::Beq(rs1, rs2, offset)),
        1 => Some(Instr::Bne(rs1, rs2, offset)),
        4 => Some(Instr::Blt(rs1, rs2, offset)),
        5 => Some(Instr::Bge(rs1, rs2, offset)),
        6 => Some(Instr::Bltu(rs1, rs2, offset)),
        7 => Some(Instr::Bgeu(rs1, rs2, offset)),
        _ => None,
    }
}

// The opcode JALR.
fn jalr(word: u32) -> Option<Instr>
    requires { opcode_of word ≡ 103 }
    ensures fields { result ≡ jalr_of word }
    ensures word { IfSome result (λ instr. IsRow instr × (word_of instr ≡ word)) }
{
    match funct3(word) {
        0 => Some(Instr::Jalr(rd(word), rs1(word), i_imm(word))),
        _ => None,
    }
}

// The opcode SYSTEM.
fn system(word: u32) -> Option<Instr>
    requires { opcode_of word ≡ 115 }
    ensures fields { result ≡ system_of word }
    ensures word { IfSome result (λ instr. IsRow instr × (word_of instr ≡ word)) }
{
    match word {
        115 => Some(Instr::Ecall),
        1048691 => Some(Instr::Ebreak),
        _ => None,
    }
}

/// The instruction of a word. None exactly where no instruction has that word. No memory is taken.
pub fn decode(word: u32) -> Option<Instr>
    ensures row { Decodes result word }
    ensures fields { result ≡ decode_of word }
{
    match opcode(word) {
        3 => load(word),
        35 => store(word),
        19 => immediate(word),
        27 => immediate_32(word),
        51 => register(word),
        59 => register_32(word),
        99 => branch(word),
        103 => jalr(word),
        111 => Some(Instr::Jal(rd(word), j_offset(word))),
        55 => Some(Instr::Lui(rd(word), u_imm(word))),
        23 => Some(Instr::Auipc(rd(word), u_imm(word))),
        115 => system(word),
        _ => None,
    }
}
