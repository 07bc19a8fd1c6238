// Types inside one another.
use il_model::{ClassDef, ClassKind, FieldDef, Limit, Program, VarDef};
use mn_outside::{Name, NoMemory, Refused};
use sqlite_items::Items;
use std::alloc::{AllocError, Global};
use type_inst::admitted;
use type_tree::{Head, TExpr};

fn name(alloc: Global) -> Result<Name, AllocError> {
    Ok(Name::of(String::from_str(alloc, "N")?))
}

fn field(alloc: Global) -> Result<FieldDef, AllocError> {
    Ok(FieldDef {
        name: name(alloc)?,
        fixed: false,
        kind: TExpr::class_var(0),
    })
}

// A program of one struct, with a variable and two fields of it.
fn program(alloc: Global) -> Result<Program, AllocError> {
    let mut vars = Items::new(alloc);
    vars.push(VarDef {
        name: name(alloc)?,
        bounds: Items::new(alloc),
    })?;
    let mut fields = Items::new(alloc);
    fields.push(field(alloc)?)?;
    fields.push(field(alloc)?)?;
    let mut classes = Items::new(alloc);
    classes.push(ClassDef {
        name: name(alloc)?,
        kind: ClassKind::Struct,
        vars,
        base: None,
        interfaces: Items::new(alloc),
        fields,
        methods: Items::new(alloc),
    })?;
    Ok(Program {
        classes,
        methods: Items::new(alloc),
        literals: Items::new(alloc),
        main: 0,
    })
}

// The struct in itself, so many levels deep, around `int32`.
fn nested(alloc: Global, levels: u32) -> Result<TExpr, AllocError> {
    let mut kind = TExpr::plain(alloc, Head::Int32);
    for _ in 0..levels {
        let mut parts = Items::new(alloc);
        parts.push(kind)?;
        kind = TExpr::node(Head::Class(0), parts);
    }
    Ok(kind)
}

fn is_wide(alloc: Global, program: &Program, kind: &TExpr) -> Result<bool, NoMemory> {
    match admitted(alloc, program, kind) {
        Err(Refused::Fault(Limit::ValueWords)) => Ok(true),
        Ok(()) | Err(Refused::Fault(Limit::Positions)) => Ok(false),
        Err(Refused::NoMemory) => Err(NoMemory),
    }
}

/// How often a struct of two fields of the same struct, so many levels deep, was found to have too many
/// words, in so many rounds.
pub fn wide_of(alloc: Global, levels: u32, rounds: u32) -> Result<u32, NoMemory> {
    let Ok(program) = program(alloc) else {
        return Err(NoMemory);
    };
    let Ok(kind) = nested(alloc, levels) else {
        return Err(NoMemory);
    };
    let mut wide: u32 = 0;
    for _ in 0..rounds {
        if is_wide(alloc, &program, &kind)? {
            wide = wide.wrapping_add(1);
        }
    }
    Ok(wide)
}
