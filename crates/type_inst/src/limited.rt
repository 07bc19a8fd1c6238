// The trees that the limits are asked of.
ghost use Rattle.std.specs.Prelude.{◌≡◌, ◌++◌, false, IfOk, OnOk, flat_map};
ghost use Rattle.il_model.specs.Trees.{trees_within, trees_in};
ghost use Rattle.il_model.specs.Admission.{closure_of, is_large};
ghost use Rattle.type_inst.specs.Reaching.{SmallOf, InClosure, Limited};

use crate::classes::arguments_of;
use crate::closure::{is_large, reached};
use crate::steps::put;
use il_model::Program;
use mn_outside::NoMemory;
use sqlite_items::Items;
use std::alloc::Global;
use type_tree::{TExpr, positions};

// The type, each argument in it at any depth, and the closure of each of these, in which each tree stands
// once; None where one of all these is too large.
pub(crate) fn limited_trees_of(
    alloc: Global,
    program: &Program,
    tree: &TExpr,
) -> Result<Option<Items<TExpr>>, NoMemory>
    ensures { IfOk result (λ found. Limited program.now tree.now found) }
{
    if is_large(tree) {
        return Ok(None);
    }
    let roots = trees_in(alloc, tree)?;
    closures_of(alloc, program, roots.as_slice())
}

// The closures of these types, one behind the other; None where a tree of them is too large.
fn closures_of(
    alloc: Global,
    program: &Program,
    roots: &[TExpr],
) -> Result<Option<Items<TExpr>>, NoMemory>
    ensures { IfOk result (λ found. SmallOf (flat_map (closure_of program.now) roots.now) found) }
{
    let mut all: Items<TExpr> = Items::new(alloc);
    for root in roots {
        let reach = closure_of(alloc, program, root)?;
        let Some(found) = reach else {
            return Ok(None);
        };
        put_all(&mut all, found)?;
    }
    Ok(Some(all))
}

// What is reached from a type, each tree once; None where one of them is too large.
fn closure_of(
    alloc: Global,
    program: &Program,
    root: &TExpr,
) -> Result<Option<Items<TExpr>>, NoMemory>
    ensures { IfOk result (λ found. InClosure program.now root.now found) }
{
    if is_large(root) {
        return Ok(None);
    }
    reached(alloc, program, root, 8192 * (positions(root) as usize))
}

// The type and each argument in it.
fn trees_in(alloc: Global, tree: &TExpr) -> Result<Items<TExpr>, NoMemory>
    requires { is_large tree.now ≡ false }
    ensures { IfOk result (λ all. all ≡ trees_in tree.now) }
{
    let mut all: Items<TExpr> = Items::new(alloc);
    put_trees(alloc, &mut all, tree, positions(tree) as usize)?;
    Ok(all)
}

// Puts a type and the arguments in it, so many levels deep, at the end of a list.
#[cycle(put_trees)]
fn put_trees(
    alloc: Global,
    all: &mut Items<TExpr>,
    kind: &TExpr,
    levels: usize,
) -> Result<(), NoMemory>
    ensures { OnOk result (all.new ≡ all.old ++ trees_within levels kind.now) }
{
    put(all, kind.copy(alloc)?)?;
    if levels == 0 {
        return Ok(());
    }
    for part in arguments_of(kind) {
        put_trees(alloc, all, part, levels - 1)?;
    }
    Ok(())
}

// Puts the types of one list at the end of another.
fn put_all(all: &mut Items<TExpr>, more: Items<TExpr>) -> Result<(), NoMemory>
    ensures { OnOk result (all.new ≡ all.old ++ more) }
{
    all.append(more).map_err(|_| NoMemory)
}
