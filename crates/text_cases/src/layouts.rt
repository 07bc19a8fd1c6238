// Limits and layouts of types, over the classes of a text.
use il_model::Limit;
use il_parse::parse;
use mn_outside::{NoMemory, Refused};
use sqlite_items::Items;
use std::alloc::Global;
use std::test::Fail;
use type_inst::{admitted, bases, layout};
use type_tree::{Head, TExpr, same_all};

const TEXT: &[u8] = b"
.class struct Two<T> {
  .field !0 first
  .field !0 second
}
.class struct Empty {
}
.class Base {
  .field int32 count
  .field static Two<int32> two
  .field static object last
}
.class Derived extends Base {
  .field Two<int64> ends
  .field static bool done
  .field object rest
}
.class Growing<T> extends Growing<Two<!0>> {
}
.class Wide {
  .field static Two<Two<Two<Two<Two<int32>>>>> all
}
.class Far {
  .field Wide wide
}
.class Cell<T> {
}
.class Link extends Cell<Link> {
}
.class P {
  .method static void Main() { .entrypoint ret }
}
";

// The classes by their numbers: thirteen are predefined.
const OBJECT: Head = Head::Class(0);

const TWO: Head = Head::Class(13);

const EMPTY: Head = Head::Class(14);

const BASE: Head = Head::Class(15);

const DERIVED: Head = Head::Class(16);

const GROWING: Head = Head::Class(17);

const WIDE: Head = Head::Class(18);

const FAR: Head = Head::Class(19);

const CELL: Head = Head::Class(20);

const LINK: Head = Head::Class(21);

// A type: the head inside, the class's variable where it is None, and then heads of one argument with how
// often each stands around what is before it.
type Shape = (Option<Head>, &'static [(Head, u32)]);

const INT32: Shape = (Some(Head::Int32), &[]);

const INT64: Shape = (Some(Head::Int64), &[]);

const VAR: Shape = (None, &[]);

// A type, and the limit that it passes.
#[rattlefmt::skip]
const LIMITS: [(Shape, Option<Limit>); 14] = [
    (INT32, None),
    (VAR, None),
    ((Some(Head::Int32), &[(TWO, 4)]), None),
    ((Some(Head::Int32), &[(TWO, 5)]), Some(Limit::ValueWords)),
    ((Some(Head::Int32), &[(TWO, 30)]), Some(Limit::ValueWords)),
    ((Some(EMPTY), &[(TWO, 30)]), None),
    ((Some(Head::Int32), &[(Head::Vector, 255)]), None),
    ((Some(Head::Int32), &[(Head::Vector, 256)]), Some(Limit::Positions)),
    ((Some(Head::Int32), &[(TWO, 5), (Head::Vector, 1)]), Some(Limit::ValueWords)),
    ((Some(Head::Int32), &[(TWO, 5), (Head::Vector, 251)]), Some(Limit::Positions)),
    ((Some(Head::Int32), &[(GROWING, 1)]), Some(Limit::Positions)),
    ((Some(DERIVED), &[]), None),
    ((Some(WIDE), &[]), Some(Limit::ValueWords)),
    ((Some(FAR), &[]), None),
];

// A type, its words with the places of its fields, and its static words with the places of theirs.
#[rattlefmt::skip]
const LAYOUTS: [(Shape, u32, &[u32], u32, &[u32]); 9] = [
    (INT64, 1, &[], 0, &[]),
    (VAR, 1, &[], 0, &[]),
    ((Some(Head::Int32), &[(Head::Vector, 1)]), 0, &[], 0, &[]),
    ((Some(OBJECT), &[]), 0, &[], 0, &[]),
    ((Some(Head::Int64), &[(TWO, 1)]), 2, &[0, 1], 0, &[]),
    ((Some(Head::Int32), &[(TWO, 4)]), 16, &[0, 8], 0, &[]),
    ((Some(EMPTY), &[(TWO, 2)]), 0, &[0, 0], 0, &[]),
    ((Some(BASE), &[]), 1, &[0], 3, &[0, 2]),
    ((Some(DERIVED), &[]), 4, &[0, 1, 3], 1, &[0]),
];

fn kind_of(alloc: Global, shape: Shape) -> Result<TExpr, Fail> {
    let (inside, around) = shape;
    let mut kind = match inside {
        Some(head) => TExpr::plain(alloc, head),
        None => TExpr::class_var(0),
    };
    for (head, times) in around {
        for _ in 0..*times {
            let mut parts = Items::new(alloc);
            parts.push(kind)?;
            kind = TExpr::node(*head, parts);
        }
    }
    Ok(kind)
}

fn limit_of(found: Result<(), Refused<Limit>>) -> Result<Option<Limit>, NoMemory> {
    match found {
        Ok(()) => Ok(None),
        Err(Refused::Fault(limit)) => Ok(Some(limit)),
        Err(Refused::NoMemory) => Err(NoMemory),
    }
}

#[test]
fn passes_limits(rt: HostRuntime) -> Result<(), Fail> {
    let alloc = rt.alloc();
    let program = parse(alloc, TEXT)?.program;
    for (shape, want) in LIMITS {
        let kind = kind_of(alloc, shape)?;
        let found = limit_of(admitted(alloc, &program, &kind))?;
        assert_eq!(rt; found, want, "{shape:?}");
    }
    Ok(())
}

#[test]
fn lays_fields_out(rt: HostRuntime) -> Result<(), Fail> {
    let alloc = rt.alloc();
    let program = parse(alloc, TEXT)?.program;
    for (shape, words, offsets, fixed_words, fixed_offsets) in LAYOUTS {
        let kind = kind_of(alloc, shape)?;
        let found = layout(alloc, &program, &kind)?;
        assert_eq!(rt; found.words, words, "{shape:?}");
        assert_eq!(rt; found.offsets.as_slice(), offsets, "{shape:?}");
        assert_eq!(rt; found.fixed_words, fixed_words, "{shape:?}");
        assert_eq!(rt; found.fixed_offsets.as_slice(), fixed_offsets, "{shape:?}");
    }
    Ok(())
}

// The base of a class may mention the class in an argument.
#[test]
fn lists_bases(rt: HostRuntime) -> Result<(), Fail> {
    let alloc = rt.alloc();
    let program = parse(alloc, TEXT)?.program;
    let last = TExpr::plain(alloc, LINK);
    let found = bases(alloc, &program, &last)?;
    let mut wanted = Items::new(alloc);
    wanted.push(last)?;
    wanted.push(kind_of(alloc, (Some(LINK), &[(CELL, 1)]))?)?;
    wanted.push(TExpr::plain(alloc, OBJECT))?;
    assert!(rt; same_all(found.as_slice(), wanted.as_slice()));
    Ok(())
}
