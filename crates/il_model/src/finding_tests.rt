// Members and classes of a small program are found.
ghost use Rattle.std.specs.Prelude.{bytes_eq, IfOk};
ghost use Rattle.std.specs.List.{IsDistinct};
ghost use Rattle.il_model.specs.Names.{plain_names};

use crate::{
    ClassDef, ClassKind, FRef, FieldDef, MRef, MethodDef, Names, Program, Shape, find_field,
    find_method,
};
use mn_outside::Name;
use sqlite_items::Items;
use std::alloc::Global;
use std::test::Fail;
use type_tree::{Head, TExpr};

fn name(alloc: Global, text: &str) -> Result<Name, Fail> {
    Ok(Name::of(String::from_str(alloc, text)?))
}

fn class(alloc: Global, text: &str) -> Result<ClassDef, Fail> {
    Ok(ClassDef {
        name: name(alloc, text)?,
        kind: ClassKind::Plain,
        vars: Items::new(alloc),
        base: None,
        interfaces: Items::new(alloc),
        fields: Items::new(alloc),
        methods: Items::new(alloc),
    })
}

fn method(alloc: Global, shape: Shape) -> Result<MethodDef, Fail> {
    Ok(MethodDef {
        owner: 1,
        name: name(alloc, "f")?,
        shape,
        vars: Items::new(alloc),
        params: Items::new(alloc),
        result: None,
        body: None,
    })
}

// Class 0 is `object`; class 1 is `P`, with the fields `a` and `b`, a static `f` and a virtual `f`.
fn program(alloc: Global) -> Result<Program, Fail> {
    let mut p = class(alloc, "P")?;
    for text in ["a", "b"] {
        p.fields.push(FieldDef {
            name: name(alloc, text)?,
            fixed: false,
            kind: TExpr::plain(alloc, Head::Int32),
        })?;
    }
    p.methods.push(0)?;
    p.methods.push(1)?;
    let mut classes = Items::new(alloc);
    classes.push(class(alloc, "object")?)?;
    classes.push(p)?;
    let mut methods = Items::new(alloc);
    methods.push(method(alloc, Shape::Fixed)?)?;
    methods.push(method(alloc, Shape::Virtual)?)?;
    Ok(Program {
        classes,
        methods,
        literals: Items::new(alloc),
        main: 0,
    })
}

fn named(alloc: Global, instance: bool, text: &str) -> Result<MRef, Fail> {
    Ok(MRef {
        instance,
        result: None,
        class: TExpr::plain(alloc, Head::Class(1)),
        name: name(alloc, text)?,
        args: Items::new(alloc),
        params: Items::new(alloc),
    })
}

#[test]
fn finds_methods(rt: HostRuntime) -> Result<(), Fail> {
    let alloc = rt.alloc();
    let program = program(alloc)?;
    assert_eq!(rt; find_method(&program, &named(alloc, false, "f")?), Some(0));
    assert_eq!(rt; find_method(&program, &named(alloc, true, "f")?), Some(1));
    assert_eq!(rt; find_method(&program, &named(alloc, true, "g")?), None);
    Ok(())
}

#[test]
fn finds_fields(rt: HostRuntime) -> Result<(), Fail> {
    let alloc = rt.alloc();
    let program = program(alloc)?;
    let b = FRef {
        kind: TExpr::plain(alloc, Head::Int32),
        class: TExpr::plain(alloc, Head::Class(1)),
        name: name(alloc, "b")?,
    };
    assert_eq!(rt; find_field(&program, &b), Some(1));
    let wide = FRef {
        kind: TExpr::plain(alloc, Head::Int64),
        class: TExpr::plain(alloc, Head::Class(1)),
        name: name(alloc, "b")?,
    };
    assert_eq!(rt; find_field(&program, &wide), None);
    Ok(())
}

fn one_class(alloc: Global) -> Result<Program, Fail>
    ensures { IfOk result (λ p. IsDistinct bytes_eq (plain_names p.classes)) }
{
    let object = class(alloc, "object")?;
    let mut classes = Items::new(alloc);
    classes.push(object)?;
    Ok(Program {
        classes,
        methods: Items::new(alloc),
        literals: Items::new(alloc),
        main: 0,
    })
}

#[test]
fn finds_classes(rt: HostRuntime) -> Result<(), Fail> {
    let alloc = rt.alloc();
    let program = one_class(alloc)?;
    let names = Names::of(alloc, &program)?;
    assert_eq!(rt; names.class(b"object".as_slice()), Some(0));
    assert_eq!(rt; names.class(b"System.Object".as_slice()), Some(0));
    assert_eq!(rt; names.class(b"System.String".as_slice()), None);
    Ok(())
}
