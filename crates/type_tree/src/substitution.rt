ghost use Rattle.std.specs.Prelude.{◌≡◌, ◌-◌, ◌^◌, ◌<◌, ◌≤◌, min, map, IfOk, OnOk};
ghost use Rattle.type_tree.specs.Positions.{positions_of};
ghost use Rattle.type_tree.specs.Substitution.{substituted, argument_or, IfFault};

use crate::copying::copied;
use crate::counting::{sizes, weight};
use crate::tree::{TExpr, TNode, Tree};
use mn_outside::{NoMemory, Refused};
use sqlite_items::Items;
use std::alloc::{AllocError, Global};

/// The most positions of a type that `subst` gives. This project's own.
pub const MOST_POSITIONS: u32 = 256;

/// A type has more positions than `MOST_POSITIONS`: how many, or the largest number.
#[derive(Clone, Copy, Debug, PartialEq, Eq)]
pub struct TooLarge {
    pub count: u128,
}

/// The type with the arguments put for the variables, by number, where it has at most `MOST_POSITIONS`
/// positions. A larger one is counted and not made. A variable that has no argument stays.
pub fn subst(
    alloc: Global,
    kind: &TExpr,
    class_args: &[Tree],
    method_args: &[Tree],
) -> Result<Tree, Refused<TooLarge>>
    ensures ok { IfOk result (λ tree. tree ≡ substituted class_args.now method_args.now kind.now) }
    ensures fits { IfOk result (λ tree. positions_of tree ≤ MOST_POSITIONS) }

    ensures too_large { IfFault result (λ _. MOST_POSITIONS < positions_of (substituted class_args.now method_args.now kind.now)) }
    ensures count { IfFault result (λ fault. fault.count ≡
        min (positions_of (substituted class_args.now method_args.now kind.now)) (2 ^ 128 - 1)) }
{
    let count = count(alloc, kind, class_args, method_args).map_err(|_| Refused::NoMemory)?;
    if count > MOST_POSITIONS as u128 {
        return Err(Refused::Fault(TooLarge { count }));
    }
    filled(alloc, kind, class_args, method_args).map_err(|_| Refused::NoMemory)
}

/// The type with the arguments put for the variables, by number, of any size. A variable that has no
/// argument stays. It needs as many levels of the stack as the type and the deepest argument have
/// together.
pub fn subst_whole(
    alloc: Global,
    kind: &TExpr,
    class_args: &[TExpr],
    method_args: &[TExpr],
) -> Result<TExpr, NoMemory>
    ensures { IfOk result (λ tree. tree ≡ substituted class_args.now method_args.now kind.now) }
{
    filled(alloc, kind, class_args, method_args).map_err(|_| NoMemory)
}

// The positions of the type with the arguments put in, or the largest number. Each argument is counted
// once, however often it is put in.
fn count(
    alloc: Global,
    kind: &TExpr,
    class_args: &[Tree],
    method_args: &[Tree],
) -> Result<u128, AllocError>
    ensures { IfOk result (λ count. count ≡
        min (positions_of (substituted class_args.now method_args.now kind.now)) (2 ^ 128 - 1)) }
{
    let class_sizes = sizes(alloc, class_args)?;
    let method_sizes = sizes(alloc, method_args)?;
    Ok(weight(kind, class_sizes.as_slice(), method_sizes.as_slice()))
}

#[cycle(filled)]
fn filled(
    alloc: Global,
    kind: &TExpr,
    class_args: &[TExpr],
    method_args: &[TExpr],
) -> Result<TExpr, AllocError>
    ensures { IfOk result (λ tree. tree ≡ substituted class_args.now method_args.now kind.now) }
{
    match kind.top() {
        TNode::Node(head, parts) => {
            let filled = filled_all(alloc, parts.as_slice(), class_args, method_args)?;
            Ok(TExpr::node(*head, filled))
        }
        TNode::ClassVar(number) => argument(alloc, class_args, *number, kind),
        TNode::MethodVar(number) => argument(alloc, method_args, *number, kind),
    }
}

#[cycle(filled)]
fn filled_all(
    alloc: Global,
    parts: &[TExpr],
    class_args: &[TExpr],
    method_args: &[TExpr],
) -> Result<Items<TExpr>, AllocError>
    ensures { IfOk result (λ trees. trees ≡ map (substituted class_args.now method_args.now) parts.now) }
{
    let mut trees = Items::new(alloc);
    for part in parts {
        trees.push(filled(alloc, part, class_args, method_args)?)?;
    }
    Ok(trees)
}

// A copy of the argument with this number, or else of the variable.
fn argument(
    alloc: Global,
    args: &[TExpr],
    number: u8,
    variable: &TExpr,
) -> Result<TExpr, AllocError>
    ensures { IfOk result (λ tree. tree ≡ argument_or args.now number variable.now) }
{
    match args.get(number as usize) {
        Some(arg) => copied(alloc, arg),
        None => copied(alloc, variable),
    }
}
