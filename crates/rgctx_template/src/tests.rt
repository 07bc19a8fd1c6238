// A class and a method with their entries.
use crate::{closed_entry, template};
use il_model::{
    Body, ClassDef, ClassKind, Clause, Def, Entry, MethodDef, Op, Program, Shape, Sort,
};
use mn_outside::Name;
use sqlite_items::Items;
use std::alloc::Global;
use std::test::Fail;
use type_tree::{Head, TExpr};

fn name(alloc: Global, text: &str) -> Result<Name, Fail> {
    Ok(Name::of(String::from_str(alloc, text)?))
}

fn object(alloc: Global) -> Result<ClassDef, Fail> {
    Ok(ClassDef {
        name: name(alloc, "object")?,
        kind: ClassKind::Plain,
        vars: Items::new(alloc),
        base: None,
        interfaces: Items::new(alloc),
        fields: Items::new(alloc),
        methods: Items::new(alloc),
    })
}

fn body(alloc: Global) -> Result<Body, Fail> {
    let mut code = Items::new(alloc);
    code.push(Op::Newarr(TExpr::plain(alloc, Head::Int32)))?;
    code.push(Op::Box(TExpr::plain(alloc, Head::Class(0))))?;
    code.push(Op::Newarr(TExpr::plain(alloc, Head::Int32)))?;
    code.push(Op::NameOf(TExpr::plain(alloc, Head::Int64)))?;
    let mut clauses = Items::new(alloc);
    clauses.push(Clause {
        from: 0,
        to: 1,
        sort: Sort::Catch(TExpr::plain(alloc, Head::Int32)),
        handler: 1,
        end: 2,
    })?;
    Ok(Body {
        locals: Items::new(alloc),
        code,
        clauses,
    })
}

fn program(alloc: Global) -> Result<Program, Fail> {
    let mut classes = Items::new(alloc);
    classes.push(object(alloc)?)?;
    let mut methods = Items::new(alloc);
    methods.push(MethodDef {
        owner: 0,
        name: name(alloc, "f")?,
        shape: Shape::Fixed,
        vars: Items::new(alloc),
        params: Items::new(alloc),
        result: None,
        body: Some(body(alloc)?),
    })?;
    Ok(Program {
        classes,
        methods,
        literals: Items::new(alloc),
        main: 0,
    })
}

fn letter(entry: &Entry) -> u8 {
    match entry {
        Entry::Kind(_) => b'K',
        Entry::Method(_, _, _) => b'M',
        Entry::Size(_) => b'S',
        Entry::Extent(_) => b'E',
        Entry::Offset(_, _) => b'O',
        Entry::Slot(_) => b'L',
    }
}

fn letters(alloc: Global, entries: &[Entry]) -> Result<Vec<u8>, Fail> {
    let mut found = Vec::new(alloc);
    for entry in entries {
        found.push(letter(entry))?;
    }
    Ok(found)
}

#[test]
fn entries_stand_once_and_in_order(rt: HostRuntime) -> Result<(), Fail> {
    let alloc = rt.alloc();
    let program = program(alloc)?;
    let method = template(alloc, &program, Def::Method(0))?;
    assert_eq!(rt;
        letters(alloc, method.as_slice())?.as_slice(),
        b"KSKKK".as_slice()
    );
    let class = template(alloc, &program, Def::Class(0, 3))?;
    assert_eq!(rt;
        letters(alloc, class.as_slice())?.as_slice(),
        b"LLL".as_slice()
    );
    let none = template(alloc, &program, Def::Method(7))?;
    assert_eq!(rt; none.len(), 0);
    Ok(())
}

#[test]
fn a_closed_entry_keeps_its_form_and_place(rt: HostRuntime) -> Result<(), Fail> {
    let alloc = rt.alloc();
    let class = [TExpr::plain(alloc, Head::Int32)];
    let method = [TExpr::plain(alloc, Head::Int64)];
    let written = Entry::Offset(TExpr::class_var(0), 3);
    match closed_entry(alloc, &written, class.as_slice(), method.as_slice())? {
        Entry::Offset(kind, place) => {
            assert!(rt; kind.same(&class[0]));
            assert_eq!(rt; place, 3);
        }
        _ => assert!(rt; false),
    }
    Ok(())
}
