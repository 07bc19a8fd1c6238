// Methods of a class with their type arguments.
ghost use Rattle.std.specs.Prelude.{◌≡◌, IfOk, map};
ghost use Rattle.il_model.specs.Bases.{with_args_of};
ghost use Rattle.il_model.specs.Slots.{method_of, method_tree_at};

use crate::classes::with_args_of;
use il_model::MethodTree;
use mn_outside::NoMemory;
use sqlite_items::Items;
use std::alloc::Global;
use type_tree::{TExpr, copy_all};

// The method with this number, of the class of this type, without type arguments of its own.
pub(crate) fn method_of(alloc: Global, kind: &TExpr, number: u16) -> Result<MethodTree, NoMemory>
    ensures { IfOk result (λ method. method ≡ method_of kind.now number) }
{
    Ok(MethodTree {
        method: number,
        class: kind.copy(alloc)?,
        args: Items::new(alloc),
    })
}

pub(crate) fn copy_of(alloc: Global, method: &MethodTree) -> Result<MethodTree, NoMemory>
    ensures { IfOk result (λ copy. copy ≡ method.now) }
{
    Ok(MethodTree {
        method: method.method,
        class: method.class.copy(alloc)?,
        args: copy_all(alloc, method.args.as_slice())?,
    })
}

// The methods with the arguments of a type put for the variables of its class.
pub(crate) fn methods_at(
    alloc: Global,
    kind: &TExpr,
    methods: &[MethodTree],
) -> Result<Items<MethodTree>, NoMemory>
    ensures { IfOk result (λ all. all ≡ map (method_tree_at kind.now) methods.now) }
{
    let mut all = Items::new(alloc);
    for method in methods {
        all.push(method_at(alloc, kind, method)?)
            .map_err(|_| NoMemory)?;
    }
    Ok(all)
}

fn method_at(alloc: Global, kind: &TExpr, method: &MethodTree) -> Result<MethodTree, NoMemory>
    ensures { IfOk result (λ at. at ≡ method_tree_at kind.now method.now) }
{
    Ok(MethodTree {
        method: method.method,
        class: with_args_of(alloc, kind, &method.class)?,
        args: all_at(alloc, kind, method.args.as_slice())?,
    })
}

fn all_at(alloc: Global, kind: &TExpr, parts: &[TExpr]) -> Result<Items<TExpr>, NoMemory>
    ensures { IfOk result (λ all. all ≡ map (with_args_of kind.now) parts.now) }
{
    let mut all = Items::new(alloc);
    for part in parts {
        all.push(with_args_of(alloc, kind, part)?)
            .map_err(|_| NoMemory)?;
    }
    Ok(all)
}
