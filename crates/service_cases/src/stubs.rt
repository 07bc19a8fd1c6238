// The closed entries of the entry point's body, and a call stub.
use crate::images::PROGRAM;
use got_plt::{Choice, MOST_CLOSED, closed, stub};
use il_model::{Entry, Key, KeyPart, Program};
use il_parse::parse;
use rv_isa::Asm;
use sqlite_items::Items;
use std::alloc::Global;
use std::process::Abort;
use std::test::Fail;
use type_tree::{Head, TExpr, TNode};

fn is_int32(tree: &TExpr) -> bool {
    matches!(tree.top(), TNode::Node(Head::Int32, _))
}

fn is_vector_of_int32(tree: &TExpr) -> bool {
    match tree.top() {
        TNode::Node(Head::Vector, parts) => match parts.as_slice() {
            [element] => is_int32(element),
            _ => false,
        },
        _ => false,
    }
}

// `Main` makes an `int32[]`: its type, and the size of an element.
#[test]
fn the_body_of_main_has_two_closed_entries(rt: HostRuntime) -> Result<(), Fail> {
    let alloc = rt.alloc();
    let parsed = parse(alloc, PROGRAM).ok().ok_or("the text parses")?;
    let parts: Items<KeyPart> = Items::new(alloc);
    let mut picks = Items::new(alloc);
    picks.push((13, Key { parts }))?;
    let entries = closed(alloc, &parsed.program, &Choice { picks })?;
    match entries.as_slice() {
        [Entry::Kind(kind), Entry::Size(element)] => {
            assert!(rt; is_vector_of_int32(kind));
            assert!(rt; is_int32(element));
        }
        _ => assert!(rt; false, "not a type and a size"),
    }
    Ok(())
}

// The stub of entry 0.
const STUB: [u32; 22] = [
    0x0005_8393, // addi x7,x11,0
    0x2001_82B7,
    0x0082_8293,
    0x0010_0313,
    0x00C0_006F, // lui x5,0x20018; addi x5,x5,8; addi x6,x0,1; jal x0,12
    0x0002_B283,
    0x0002_8E63,
    0x0002_B283,
    0x0002_8A63, // ld x5,0(x5); beq x5,x0,28; ld x5,0(x5); beq x5,x0,20
    0xFFF3_0313,
    0xFE03_16E3,
    0x0082_B283,
    0x0002_9C63, // addi x6,x6,-1; bne x6,x0,-20; ld x5,8(x5); bne x5,x0,24
    0x0010_0513,
    0x0000_0593,
    0x0050_0893,
    0x0000_0073, // addi x10,x0,1; addi x11,x0,0; addi x17,x0,5; ecall
    0x0005_0293, // addi x5,x10,0
    0x0003_8593,
    0x0002_8513,
    0x0010_0893,
    0x0000_0073, // addi x11,x7,0; addi x10,x5,0; addi x17,x0,1; ecall
];

#[test]
fn a_stub_asks_for_fill_and_call(rt: HostRuntime) -> Result<(), Fail> {
    let alloc = rt.alloc();
    let mut asm = Asm::new(alloc)?;
    stub(&mut asm, 0)?;
    assert!(rt; asm.word_count() == 22);
    match asm.finish(alloc) {
        Ok(words) => assert_eq!(rt; words.as_slice(), STUB.as_slice()),
        Err(_) => assert!(rt; false, "an item has a fault"),
    }
    Ok(())
}
