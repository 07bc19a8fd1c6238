// Which row serves which types, over a program of five classes.
use crate::{BodyRow, Key, KeyPart, canon, pick};
use il_model::{ClassDef, ClassKind, Program};
use mn_outside::Name;
use sqlite_items::Items;
use std::alloc::Global;
use std::test::Fail;
use type_tree::{Head, Tree};

// The parts of keys, and the types that are given.
#[derive(Clone, Copy, PartialEq, Eq, Debug)]
enum Kind {
    Ref,
    Any,
    Int,
    Object,
    Interface,
    Struct,
    Vector,
    Unknown,
}

const KINDS: [ClassKind; 4] = [
    ClassKind::Plain,
    ClassKind::Interface,
    ClassKind::Struct,
    ClassKind::Abstract,
];

// The rows: a method and its key.
#[rattlefmt::skip]
const ROWS: [(u16, &[Kind]); 15] = [
    (7, &[Kind::Any, Kind::Any]),
    (7, &[Kind::Ref, Kind::Any]),
    (7, &[Kind::Ref, Kind::Ref]),
    (7, &[Kind::Int, Kind::Ref]),
    (7, &[Kind::Int, Kind::Any]),
    (7, &[Kind::Any, Kind::Any]),
    (8, &[Kind::Int]),
    (8, &[Kind::Ref]),
    (8, &[Kind::Ref]),
    (9, &[]),
    (11, &[Kind::Ref]),
    (11, &[Kind::Object]),
    (11, &[Kind::Any]),
    (12, &[Kind::Ref, Kind::Ref]),
    (12, &[Kind::Object, Kind::Any]),
];

// A method, the types, and the place of the row that serves.
#[rattlefmt::skip]
const CASES: [(u16, &[Kind], Option<u32>); 18] = [
    (7, &[Kind::Int, Kind::Int], Some(4)),
    (7, &[Kind::Int, Kind::Object], Some(3)),
    (7, &[Kind::Object, Kind::Object], Some(2)),
    (7, &[Kind::Vector, Kind::Interface], Some(2)),
    (7, &[Kind::Object, Kind::Int], Some(1)),
    (7, &[Kind::Struct, Kind::Struct], Some(0)),
    (7, &[Kind::Struct, Kind::Object], Some(0)),
    (7, &[Kind::Int], None),
    (8, &[Kind::Int], Some(6)),
    (8, &[Kind::Object], Some(7)),
    (8, &[Kind::Struct], None),
    (8, &[Kind::Unknown], None),
    (9, &[], Some(9)),
    (10, &[], None),
    (11, &[Kind::Object], Some(11)),
    (11, &[Kind::Interface], Some(10)),
    (11, &[Kind::Struct], Some(12)),
    (12, &[Kind::Object, Kind::Object], Some(14)),
];

fn tree(alloc: Global, kind: Kind) -> Result<Tree, Fail> {
    let head = match kind {
        Kind::Object => Head::Class(0),
        Kind::Interface => Head::Class(1),
        Kind::Struct => Head::Class(2),
        Kind::Unknown => Head::Class(4),
        Kind::Vector => {
            let mut parts = Items::new(alloc);
            parts.push(Tree::plain(alloc, Head::Int32))?;
            return Ok(Tree::node(Head::Vector, parts));
        }
        Kind::Int | Kind::Ref | Kind::Any => Head::Int32,
    };
    Ok(Tree::plain(alloc, head))
}

fn trees(alloc: Global, kinds: &[Kind]) -> Result<Vec<Tree>, Fail> {
    let mut trees = Vec::new(alloc);
    for kind in kinds {
        trees.push(tree(alloc, *kind)?)?;
    }
    Ok(trees)
}

fn key(alloc: Global, kinds: &[Kind]) -> Result<Key, Fail> {
    let mut parts = Items::new(alloc);
    for kind in kinds {
        let part = match kind {
            Kind::Ref => KeyPart::Ref,
            Kind::Any => KeyPart::Any,
            _ => KeyPart::Exact(tree(alloc, *kind)?),
        };
        parts.push(part)?;
    }
    Ok(Key { parts })
}

fn rows(alloc: Global) -> Result<Vec<BodyRow>, Fail> {
    let mut rows = Vec::new(alloc);
    for (method, kinds) in ROWS {
        rows.push(BodyRow {
            method,
            key: key(alloc, kinds)?,
            entry: 1,
            frame: 24,
            handlers: Items::new(alloc),
        })?;
    }
    Ok(rows)
}

fn program(alloc: Global) -> Result<Program, Fail> {
    let mut classes = Items::new(alloc);
    for kind in KINDS {
        classes.push(ClassDef {
            name: Name::of(String::from_str(alloc, "C")?),
            kind,
            vars: Items::new(alloc),
            base: None,
            interfaces: Items::new(alloc),
            fields: Items::new(alloc),
            methods: Items::new(alloc),
        })?;
    }
    Ok(Program {
        classes,
        methods: Items::new(alloc),
        literals: Items::new(alloc),
        main: 0,
    })
}

#[test]
fn the_best_match_serves(rt: HostRuntime) -> Result<(), Fail> {
    let alloc = rt.alloc();
    let program = program(alloc)?;
    let rows = rows(alloc)?;
    assert!(rt; rows.len() < 16);
    for (method, kinds, want) in CASES {
        let args = trees(alloc, kinds)?;
        assert_eq!(rt;
            pick(&program, rows.as_slice(), method, args.as_slice()),
            want,
            "{method} at {kinds:?}"
        );
    }
    Ok(())
}

#[test]
fn reference_types_are_shared(rt: HostRuntime) -> Result<(), Fail> {
    let alloc = rt.alloc();
    let program = program(alloc)?;
    let kinds = [
        Kind::Int,
        Kind::Object,
        Kind::Interface,
        Kind::Struct,
        Kind::Vector,
    ];
    let key = canon(alloc, &program, trees(alloc, &kinds)?.as_slice())?;
    let wanted = [false, true, true, false, true];
    assert_eq!(rt; key.parts.len(), 5);
    for (part, is_shared) in key.parts.as_slice().iter().zip(wanted) {
        assert_eq!(rt; matches!(part, KeyPart::Ref), is_shared);
    }
    match key.parts.get(3) {
        Some(KeyPart::Exact(kept)) => assert!(rt; kept.same(&tree(alloc, Kind::Struct)?)),
        _ => assert!(rt; false),
    }
    Ok(())
}
