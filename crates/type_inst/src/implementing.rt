// The interfaces of a type.
ghost use Rattle.std.specs.Prelude.{◌≡◌, IfOk, OnOk};
ghost use Rattle.il_model.specs.Interfaces.{interfaces_of};
ghost use Rattle.il_model.specs.ClassRules.{HasTypes};
ghost use Rattle.type_inst.specs.Listing.{listed, listed_one, listed_own, listed_base};

use crate::classes::{base_of, with_args_of};
use crate::known::{Kinds, add};
use il_model::{Program, class_of};
use mn_outside::NoMemory;
use sqlite_items::Items;
use std::alloc::Global;
use type_tree::{TExpr, Tree};

/// The interfaces of a type: those of its base first, then each that its class names, followed by its
/// own, depth first, repeats left out. Each is walked once, however often it is named.
pub fn interfaces(alloc: Global, program: &Program, tree: &Tree) -> Result<Items<Tree>, NoMemory>
    requires { HasTypes program.now }
    ensures { IfOk result (λ all. all ≡ interfaces_of program.now tree.now) }
{
    let mut all = Kinds::new(alloc);
    list(alloc, program, &mut all, tree, program.classes.len())?;
    all.into_items(alloc)
}

// Puts the interfaces of a type, so many levels far, at the end of the list, passing over those listed.
#[cycle(list)]
fn list(
    alloc: Global,
    program: &Program,
    all: &mut Kinds,
    kind: &TExpr,
    levels: usize,
) -> Result<(), NoMemory>
    ensures { OnOk result (all.new ≡ listed program.now levels all.old kind.now) }
{
    if levels == 0 {
        return Ok(());
    }
    list_base(alloc, program, all, kind, levels - 1)?;
    list_own(alloc, program, all, kind, levels - 1)
}

// Those of the base.
#[cycle(list)]
fn list_base(
    alloc: Global,
    program: &Program,
    all: &mut Kinds,
    kind: &TExpr,
    levels: usize,
) -> Result<(), NoMemory>
    ensures { OnOk result (all.new ≡ listed_base program.now levels all.old kind.now) }
{
    match base_of(alloc, program, kind)? {
        Some(base) => list(alloc, program, all, &base, levels),
        None => Ok(()),
    }
}

// Those that the class names.
#[cycle(list)]
fn list_own(
    alloc: Global,
    program: &Program,
    all: &mut Kinds,
    kind: &TExpr,
    levels: usize,
) -> Result<(), NoMemory>
    ensures { OnOk result (all.new ≡ listed_own program.now levels all.old kind.now) }
{
    let Some(class) = class_of(program, kind) else {
        return Ok(());
    };
    for named in class.interfaces.as_slice() {
        let each = with_args_of(alloc, kind, named)?;
        list_one(alloc, program, all, each, levels)?;
    }
    Ok(())
}

// One interface and its own, unless it is listed.
#[cycle(list)]
fn list_one(
    alloc: Global,
    program: &Program,
    all: &mut Kinds,
    each: TExpr,
    levels: usize,
) -> Result<(), NoMemory>
    ensures { OnOk result (all.new ≡ listed_one program.now levels all.old each) }
{
    if !add(alloc, all, &each)? {
        return Ok(());
    }
    list(alloc, program, all, &each, levels)
}
