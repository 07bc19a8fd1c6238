// The code words of items.
ghost use Rattle.std.specs.Prelude.{◌≡◌, ◌≤◌, ◌+◌, ◌&&◌, nat_le, nat_lt, ◌∷◌, [], ℕ, Ok, OnOk, vec_len};
ghost use Rattle.rv_isa.specs.Assembly.{word_count, item_len, place_of, distance, branch_word, far_words, item_words, joined, words_from, Answers, AnswersOnto};

use crate::fault::AsmFault;
use crate::item::Item;
use crate::row::Row;
use crate::table::parts;
use crate::writing::{b_format, encode, j_format};
use crate::{BranchOffset, Imm12, Imm20, Instr, JumpOffset, Reg};
use mn_outside::{Label, Refused};
use std::alloc::Global;

// The place of a label.
fn find(places: &[Option<u32>], label: Label) -> Option<u32>
    ensures { result ≡ place_of places.now label.number }
{
    match places.get(label.number as usize) {
        Some(place) => *place,
        None => None,
    }
}

// The distance in bytes between two code words.
fn bytes(from: u32, to: u32) -> u32
    requires { from ≤ 268435456 }
    ensures { result ≡ distance from to }
{
    to.wrapping_mul(4).wrapping_sub(from * 4)
}

// Whether a place lies within a reach of code words.
fn is_near(from: u32, to: u32, reach: u32) -> bool
    requires from { from ≤ 268435456 }
    requires reach { reach ≤ 262144 }
    ensures { result ≡ (nat_le from (to + reach) && nat_lt to (from + reach)) }
{
    u64::from(from) <= u64::from(to) + u64::from(reach) && to < from + reach
}

// The word of a branch.
fn branch(instr: &Instr, from: u32, label: Label, place: Option<u32>) -> Result<u32, AsmFault>
    requires { from ≤ 268435456 }
    ensures { result ≡ branch_word instr.now from label.number place }
{
    let Some(to) = place else {
        return Err(AsmFault::Unplaced {
            label: label.number,
        });
    };
    let distance = bytes(from, to);
    match parts(instr) {
        Row::B(_, rs2, rs1, funct3, opcode) if is_near(from, to, 1024) => {
            let offset = BranchOffset::of((distance % 8192) as u16);
            Ok(b_format(offset, rs2, rs1, funct3, opcode))
        }
        Row::J(_, rd, opcode) if is_near(from, to, 262144) => {
            Ok(j_format(JumpOffset::of(distance % 2097152), rd, opcode))
        }
        _ => Err(AsmFault::FarBranch { from, to }),
    }
}

// Puts one word at the end.
fn push(words: &mut Vec<u32>, word: u32) -> Result<(), Refused<AsmFault>>
    ensures ok { AnswersOnto words.old.items (Ok (word ∷ [])) result words.new.items }
    ensures len { OnOk result (vec_len words.new ≡ vec_len words.old + 1) }
{
    match words.push(word) {
        Ok(()) => Ok(()),
        Err(_) => Err(Refused::NoMemory),
    }
}

// Puts the two words of a far jump at the end.
fn far(
    words: &mut Vec<u32>,
    from: u32,
    label: Label,
    place: Option<u32>,
) -> Result<(), Refused<AsmFault>>
    requires { from ≤ 268435456 }
    ensures ok { AnswersOnto words.old.items (far_words from label.number place) result words.new.items }
    ensures len { OnOk result (vec_len words.new ≡ vec_len words.old + 2) }
{
    let Some(to) = place else {
        return Err(Refused::Fault(AsmFault::Unplaced {
            label: label.number,
        }));
    };
    let distance = bytes(from, to);
    let upper = Imm20::of(distance.wrapping_add(2048) / 4096);
    let lower = Imm12::of((distance % 4096) as u16);
    push(words, encode(&Instr::Auipc(Reg::of(6), upper)))?;
    push(words, encode(&Instr::Jalr(Reg::of(0), Reg::of(6), lower)))
}

// Puts the words of an item at the end.
fn append(
    words: &mut Vec<u32>,
    item: &Item,
    places: &[Option<u32>],
) -> Result<(), Refused<AsmFault>>
    requires { vec_len words.old ≤ 268435456 }
    ensures ok { AnswersOnto words.old.items (item_words places.now (vec_len words.old) item.now) result words.new.items }
    ensures len { OnOk result (vec_len words.new ≡ vec_len words.old + item_len item.now) }
{
    let from = words.len() as u32;
    match item {
        Item::Plain(instr) => push(words, encode(instr)),
        Item::Branch(instr, label) => {
            match branch(instr, from, *label, find(places, *label)) {
                Ok(word) => push(words, word),
                Err(fault) => Err(Refused::Fault(fault)),
            }
        }
        Item::Far(label) => far(words, from, *label, find(places, *label)),
    }
}

/// The words of items, each with its distance to its label.
pub(crate) fn assemble(
    alloc: Global,
    items: &[Item],
    places: &[Option<u32>],
) -> Result<Vec<u32>, Refused<AsmFault>>
    requires { word_count items.now ≤ 268435456 }
    ensures { Answers (words_from places.now 0 items.now) result }
{
    let mut words = Vec::new(alloc);
    for item in items {
        append(&mut words, item, places)?;
    }
    Ok(words)
}
