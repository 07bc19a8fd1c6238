// The closed entries of a few bodies, and the code words of fetches and stubs.
use crate::{Choice, MOST_CLOSED, closed, fetch, stub};
use il_model::{
    Body, ClassDef, ClassKind, Entry, Key, KeyPart, MethodDef, Op, Program, Shape, VarDef,
};
use mn_outside::{Name, Refused};
use rv_isa::Asm;
use sqlite_items::Items;
use std::alloc::Global;
use std::test::Fail;
use type_tree::{Head, TExpr};

fn name(alloc: Global, text: &str) -> Result<Name, Fail> {
    Ok(Name::of(String::from_str(alloc, text)?))
}

fn var(alloc: Global) -> Result<VarDef, Fail> {
    Ok(VarDef {
        name: name(alloc, "T")?,
        bounds: Items::new(alloc),
    })
}

// A class with one variable.
fn class(alloc: Global) -> Result<ClassDef, Fail> {
    let mut vars = Items::new(alloc);
    vars.push(var(alloc)?)?;
    Ok(ClassDef {
        name: name(alloc, "C")?,
        kind: ClassKind::Plain,
        vars,
        base: None,
        interfaces: Items::new(alloc),
        fields: Items::new(alloc),
        methods: Items::new(alloc),
    })
}

// `newarr` of the class's variable, and the name of the method's.
fn body(alloc: Global) -> Result<Body, Fail> {
    let mut code = Items::new(alloc);
    code.push(Op::Newarr(TExpr::class_var(0)))?;
    code.push(Op::NameOf(TExpr::method_var(0)))?;
    Ok(Body {
        locals: Items::new(alloc),
        code,
        clauses: Items::new(alloc),
    })
}

// A method with one variable of its own in the class with one.
fn program(alloc: Global) -> Result<Program, Fail> {
    let mut classes = Items::new(alloc);
    classes.push(class(alloc)?)?;
    let mut vars = Items::new(alloc);
    vars.push(var(alloc)?)?;
    let mut methods = Items::new(alloc);
    methods.push(MethodDef {
        owner: 0,
        name: name(alloc, "f")?,
        shape: Shape::Fixed,
        vars,
        params: Items::new(alloc),
        result: None,
        body: Some(body(alloc)?),
    })?;
    Ok(Program {
        classes,
        methods,
        literals: Items::new(alloc),
        main: 0,
    })
}

// The key of a class's and a method's argument; a variable is for every type.
fn key(alloc: Global, heads: [Option<Head>; 2]) -> Result<Key, Fail> {
    let mut parts = Items::new(alloc);
    for head in heads {
        match head {
            Some(head) => parts.push(KeyPart::Exact(TExpr::plain(alloc, head)))?,
            None => parts.push(KeyPart::Any)?,
        }
    }
    Ok(Key { parts })
}

#[rattlefmt::skip]
const PICKS: [[Option<Head>; 2]; 4] = [
    [Some(Head::Int32), Some(Head::Int64)],
    [None, None],
    [Some(Head::Int32), Some(Head::Bool)],
    [Some(Head::Bool), Some(Head::Int64)],
];

fn letter_of(tree: &TExpr) -> &'static [u8] {
    match tree.top() {
        type_tree::TNode::Node(Head::Int32, _) => b"i",
        type_tree::TNode::Node(Head::Int64, _) => b"l",
        type_tree::TNode::Node(Head::Bool, _) => b"b",
        type_tree::TNode::Node(Head::Vector, parts) => match parts.get(0) {
            Some(part) => match part.top() {
                type_tree::TNode::Node(Head::Int32, _) => b"[i",
                type_tree::TNode::Node(Head::Bool, _) => b"[b",
                _ => b"[?",
            },
            None => b"[",
        },
        _ => b"?",
    }
}

// Each entry as its letter and its type.
fn letters(alloc: Global, entries: &[Entry]) -> Result<Vec<u8>, Fail> {
    let mut found = Vec::new(alloc);
    for entry in entries {
        match entry {
            Entry::Kind(kind) => {
                found.push(b'K')?;
                found.extend_from_slice(letter_of(kind))?;
            }
            Entry::Size(kind) => {
                found.push(b'S')?;
                found.extend_from_slice(letter_of(kind))?;
            }
            _ => found.push(b'?')?,
        }
    }
    Ok(found)
}

#[test]
fn exact_bodies_list_what_they_fetch_once(rt: HostRuntime) -> Result<(), Fail> {
    let alloc = rt.alloc();
    let program = program(alloc)?;
    let mut picks = Items::new(alloc);
    for heads in PICKS {
        picks.push((0, key(alloc, heads)?))?;
    }
    let entries = closed(alloc, &program, &Choice { picks })?;
    let found = letters(alloc, entries.as_slice())?;
    assert_eq!(rt; found.as_slice(), b"K[iSiKlKbK[bSb".as_slice());
    Ok(())
}

// Places at both ends, of both parities of depth, with the words that differ: the rounds, the jump into the
// loop, the load of the entry and the entry's number.
#[rattlefmt::skip]
const FETCHES: [(u16, [u32; 4]); 4] = [
    (0, [0x00100313, 0x00C0006F, 0x0082B283, 0x00000593]),
    (6, [0x00100313, 0x00C0006F, 0x0382B283, 0x00600593]),
    (7, [0x00100313, 0x0040006F, 0x0082B283, 0x00700593]),
    (1791, [0x08000313, 0x0040006F, 0x0382B283, 0x6FF00593]),
];

fn fetch_words(words: [u32; 4]) -> [u32; 17] {
    let [rounds, start, entry, number] = words;
    [
        0x200182B7, 0x00828293, rounds, start, // lui x5,0x20018; addi x5,x5,8; addi x6,x0,ROUNDS; jal x0,START
        0x0002B283, 0x00028E63, 0x0002B283, 0x00028A63, // ld x5,0(x5); beq x5,x0,28; ld x5,0(x5); beq x5,x0,20
        0xFFF30313, 0xFE0316E3, entry, 0x00029C63, // addi x6,x6,-1; bne x6,x0,-20; ld x5,8*SLOT(x5); bne x5,x0,24
        0x00100513, number, 0x00500893, 0x00000073, // addi x10,x0,1; addi x11,x0,PLACE; addi x17,x0,5; ecall
        0x00050293, // addi x5,x10,0
    ]
}

fn words_of(alloc: Global, asm: Asm) -> Result<Vec<u32>, Fail> {
    if asm.word_count() > 268_435_456 {
        return Err(Fail::new("too many words"));
    }
    match asm.finish(alloc) {
        Ok(words) => Ok(words),
        Err(Refused::Fault(_)) => Err(Fail::new("an item has a fault")),
        Err(Refused::NoMemory) => Err(Fail::new("no memory")),
    }
}

#[test]
fn fetches_differ_in_four_words(rt: HostRuntime) -> Result<(), Fail> {
    let alloc = rt.alloc();
    for (place, words) in FETCHES {
        assert!(rt; place < MOST_CLOSED);
        let mut asm = Asm::new(alloc)?;
        fetch(&mut asm, place)?;
        assert_eq!(rt;
            words_of(alloc, asm)?.as_slice(),
            fetch_words(words).as_slice()
        );
    }
    Ok(())
}

#[test]
fn a_stub_fetches_and_calls(rt: HostRuntime) -> Result<(), Fail> {
    let alloc = rt.alloc();
    let mut asm = Asm::new(alloc)?;
    fetch(&mut asm, 7)?;
    stub(&mut asm, 7)?;
    let words = words_of(alloc, asm)?;
    assert!(rt; words.len() == 39);
    let mut wanted = Vec::new(alloc);
    wanted.push(0x00058393)?; // addi x7,x11,0
    for word in fetch_words([0x00100313, 0x0040006F, 0x0082B283, 0x00700593]) {
        wanted.push(word)?;
    }
    for word in [0x00038593, 0x00028513, 0x00100893, 0x00000073] {
        wanted.push(word)?; // addi x11,x7,0; addi x10,x5,0; addi x17,x0,1; ecall
    }
    assert_eq!(rt; &words.as_slice()[17..], wanted.as_slice());
    Ok(())
}
