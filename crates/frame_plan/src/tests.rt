// Plans of small bodies, with offsets and widths worked out by hand.
use crate::{Plan, plan};
use cil_flow::{StackType, State, States};
use il_model::{
    Body, ClassDef, ClassKind, FieldDef, Key, KeyPart, MRef, MethodDef, Op, PType, Program, Shape,
    VarDef,
};
use mn_outside::Name;
use sqlite_items::Items;
use std::alloc::Global;
use std::test::Fail;
use type_tree::{Head, TExpr};

// Types of the test's program: class 0 is `object`, class 1 a struct of two words, class 2 one of seventeen,
// class 3 a struct without fields, class 4 a struct with a field of its variable and an int32.
#[derive(Clone, Copy, PartialEq, Eq, Debug)]
enum Kind {
    Int,
    Object,
    Pair,
    Large,
    Nothing,
    OfInt,
    OfPair,
    OfVar,
    Var,
    Vector,
    Deep,
    Address,
    Native,
}

const STRUCTS: [&[Kind]; 4] = [
    &[Kind::Int, Kind::Object],
    &[Kind::Int; 17],
    &[],
    &[Kind::Var, Kind::Int],
];

fn applied(alloc: Global, head: Head, part: TExpr) -> Result<TExpr, Fail> {
    let mut parts = Items::new(alloc);
    parts.push(part)?;
    Ok(TExpr::node(head, parts))
}

// A vector of 257 positions, which is not admitted.
fn deep(alloc: Global, inner: TExpr) -> Result<TExpr, Fail> {
    let mut outer = inner;
    for _ in 0..256 {
        outer = applied(alloc, Head::Vector, outer)?;
    }
    Ok(outer)
}

fn plain(alloc: Global, kind: Kind) -> TExpr {
    match kind {
        Kind::Object => TExpr::plain(alloc, Head::Class(0)),
        Kind::Pair | Kind::OfPair => TExpr::plain(alloc, Head::Class(1)),
        Kind::Large => TExpr::plain(alloc, Head::Class(2)),
        Kind::Nothing => TExpr::plain(alloc, Head::Class(3)),
        Kind::Var | Kind::OfVar => TExpr::class_var(0),
        Kind::Int | Kind::OfInt | Kind::Vector | Kind::Deep | Kind::Address | Kind::Native =>
            TExpr::plain(alloc, Head::Int32),
    }
}

fn tree(alloc: Global, kind: Kind) -> Result<TExpr, Fail> {
    let inner = plain(alloc, kind);
    match kind {
        Kind::OfInt | Kind::OfPair | Kind::OfVar => applied(alloc, Head::Class(4), inner),
        Kind::Vector => applied(alloc, Head::Vector, inner),
        Kind::Deep => deep(alloc, inner),
        _ => Ok(inner),
    }
}

fn class(alloc: Global, kind: ClassKind, vars: usize, fields: &[Kind]) -> Result<ClassDef, Fail> {
    let mut all = Items::new(alloc);
    for field in fields {
        all.push(FieldDef {
            name: Name::of(String::from_str(alloc, "f")?),
            fixed: false,
            kind: tree(alloc, *field)?,
        })?;
    }
    let mut names = Items::new(alloc);
    for _ in 0..vars {
        names.push(VarDef {
            name: Name::of(String::from_str(alloc, "T")?),
            bounds: Items::new(alloc),
        })?;
    }
    Ok(ClassDef {
        name: Name::of(String::from_str(alloc, "C")?),
        kind,
        vars: names,
        base: None,
        interfaces: Items::new(alloc),
        fields: all,
        methods: Items::new(alloc),
    })
}

fn place(alloc: Global, kind: Kind) -> Result<PType, Fail> {
    match kind {
        Kind::Address => Ok(PType::Pointer(tree(alloc, Kind::Pair)?)),
        Kind::Native => Ok(PType::Native),
        _ => Ok(PType::Value(tree(alloc, kind)?)),
    }
}

fn places(alloc: Global, kinds: &[Kind]) -> Result<Items<PType>, Fail> {
    let mut all = Items::new(alloc);
    for kind in kinds {
        all.push(place(alloc, *kind)?)?;
    }
    Ok(all)
}

fn value(alloc: Global, kind: Kind) -> Result<StackType, Fail> {
    match kind {
        Kind::Int => Ok(StackType::Int32),
        Kind::Address => Ok(StackType::Pointer(tree(alloc, Kind::Pair)?)),
        Kind::Native => Ok(StackType::Native),
        _ => Ok(StackType::Kind(tree(alloc, kind)?)),
    }
}

fn states(alloc: Global, stacks: &[&[Kind]]) -> Result<States, Fail> {
    let mut states = Items::new(alloc);
    for kinds in stacks {
        let mut stack = Items::new(alloc);
        for kind in *kinds {
            stack.push(value(alloc, *kind)?)?;
        }
        states.push(State { stack })?;
    }
    Ok(States { states })
}

// A call that passes an object and so many values of type int32.
fn call(alloc: Global, params: usize) -> Result<Op, Fail> {
    let mut kinds = Items::new(alloc);
    for _ in 0..params {
        kinds.push(place(alloc, Kind::Int)?)?;
    }
    Ok(Op::Callvirt(MRef {
        instance: true,
        result: None,
        class: tree(alloc, Kind::Object)?,
        name: Name::of(String::from_str(alloc, "M")?),
        args: Items::new(alloc),
        params: kinds,
    }))
}

// A method of class 4, whose key has one part.
#[derive(Clone, Copy)]
struct Case {
    shape: Shape,
    params: &'static [Kind],
    locals: &'static [Kind],
    passes: Option<usize>,
    stacks: &'static [&'static [Kind]],
    part: Kind,
    offsets: &'static [u32],
    widths: &'static [u32],
    frame: u32,
}

const EMPTY: &[Kind] = &[];

const INT: &[Kind] = &[Kind::Int];

const PAIR: &[Kind] = &[Kind::Pair];

const TWO: &[Kind] = &[Kind::Int, Kind::Object];

const VAR: &[Kind] = &[Kind::Var];

#[rattlefmt::skip]
const CASES: [Case; 6] = [
    Case { shape: Shape::Fixed, params: &[], locals: &[], passes: None, stacks: &[EMPTY], part: Kind::Int,
           offsets: &[], widths: &[], frame: 24 },
    Case { shape: Shape::Instance, params: &[Kind::Int, Kind::Address], locals: &[Kind::Pair, Kind::Nothing, Kind::Native], passes: Some(1),
           stacks: &[EMPTY, INT, PAIR, TWO], part: Kind::Int,
           offsets: &[8, 9, 10, 11, 13, 13, 14, 16], widths: &[1, 1, 1, 2, 0, 1, 2, 1], frame: 35 },
    Case { shape: Shape::Fixed, params: &[Kind::OfVar, Kind::Var, Kind::Vector], locals: &[Kind::OfPair], passes: None, stacks: &[EMPTY], part: Kind::OfInt,
           offsets: &[8, 11, 13, 14], widths: &[3, 2, 1, 3], frame: 33 },
    Case { shape: Shape::Fixed, params: &[Kind::OfVar, Kind::Var, Kind::OfInt], locals: &[], passes: None, stacks: &[VAR], part: Kind::Object,
           offsets: &[8, 10, 11, 13], widths: &[2, 1, 2, 1], frame: 30 },
    Case { shape: Shape::Fixed, params: &[Kind::OfVar, Kind::Var, Kind::OfInt], locals: &[], passes: None, stacks: &[VAR], part: Kind::Var,
           offsets: &[8, 24, 40, 42], widths: &[16, 16, 2, 16], frame: 74 },
    Case { shape: Shape::Fixed, params: &[Kind::Large, Kind::Pair, Kind::Deep], locals: &[], passes: None, stacks: &[EMPTY], part: Kind::Int,
           offsets: &[8, 24, 26], widths: &[16, 2, 16], frame: 58 },
];

fn part(alloc: Global, kind: Kind) -> Result<KeyPart, Fail> {
    match kind {
        Kind::Object => Ok(KeyPart::Ref),
        Kind::Var => Ok(KeyPart::Any),
        _ => Ok(KeyPart::Exact(tree(alloc, kind)?)),
    }
}

fn program(alloc: Global, case: &Case) -> Result<Program, Fail> {
    let mut classes = Items::new(alloc);
    classes.push(class(alloc, ClassKind::Plain, 0, &[])?)?;
    for fields in STRUCTS {
        let vars = match fields.first() {
            Some(Kind::Var) => 1,
            _ => 0,
        };
        classes.push(class(alloc, ClassKind::Struct, vars, fields)?)?;
    }
    let mut code = Items::new(alloc);
    if let Some(params) = case.passes {
        code.push(call(alloc, params)?)?;
    }
    code.push(Op::Ret)?;
    let mut methods = Items::new(alloc);
    methods.push(MethodDef {
        owner: 4,
        name: Name::of(String::from_str(alloc, "M")?),
        shape: case.shape,
        vars: Items::new(alloc),
        params: places(alloc, case.params)?,
        result: None,
        body: Some(Body {
            locals: places(alloc, case.locals)?,
            code,
            clauses: Items::new(alloc),
        }),
    })?;
    Ok(Program {
        classes,
        methods,
        literals: Items::new(alloc),
        main: 0,
    })
}

fn plan_of(alloc: Global, case: &Case) -> Result<Plan, Fail> {
    let program = program(alloc, case)?;
    if program.methods.len() == 0 {
        return Err(Fail::new("no method"));
    }
    let mut parts = Items::new(alloc);
    parts.push(part(alloc, case.part)?)?;
    let states = states(alloc, case.stacks)?;
    Ok(plan(alloc, &program, 0, &states, &Key { parts })?)
}

#[test]
fn places_lie_one_behind_the_other(rt: HostRuntime) -> Result<(), Fail> {
    let alloc = rt.alloc();
    for case in CASES {
        let found = plan_of(alloc, &case)?;
        assert!(rt; found.offsets.as_slice() == case.offsets);
        assert!(rt; found.widths.as_slice() == case.widths);
        assert_eq!(rt; found.frame, case.frame);
    }
    Ok(())
}

#[rattlefmt::skip]
const LARGEST: Case =
    Case { shape: Shape::Fixed, params: &[Kind::Large; 120], locals: &[], passes: Some(119), stacks: &[EMPTY], part: Kind::Int,
           offsets: &[], widths: &[], frame: 2064 };

#[test]
fn the_largest_frame_has_2064_words(rt: HostRuntime) -> Result<(), Fail> {
    let alloc = rt.alloc();
    let found = plan_of(alloc, &LARGEST)?;
    assert_eq!(rt; found.offsets.as_slice().last().copied(), Some(1912));
    assert_eq!(rt; found.scratch, 1928);
    assert_eq!(rt; found.list, 1944);
    assert_eq!(rt; found.frame, LARGEST.frame);
    Ok(())
}
