ghost use Rattle.std.specs.Prelude.{◌≡◌, ℕ, ◌-◌, ◌^◌, min, map, slice_get, sum_by, unwrap_or, IfOk};
ghost use Rattle.type_tree.specs.Positions.{positions_of, weighted};

use crate::tree::{TExpr, TNode, Tree};
use std::alloc::{AllocError, Global};

/// How many positions the tree has, a variable being one, or 4,294,967,295 where it has more. No memory
/// is taken.
pub fn positions(tree: &Tree) -> u32
    ensures { result ≡ min (positions_of tree.now) (2 ^ 32 - 1) }
{
    let count = weight(tree, &[], &[]);
    if count < u32::MAX as u128 {
        count as u32
    } else {
        u32::MAX
    }
}

// The positions of a type once variables have arguments of these sizes, or the largest number. A
// variable without an argument is one.
#[cycle(weight)]
pub(crate) fn weight(kind: &TExpr, class_sizes: &[u128], method_sizes: &[u128]) -> u128
    ensures { result ≡ min (weighted class_sizes.now method_sizes.now kind.now) (2 ^ 128 - 1) }
{
    match kind.top() {
        TNode::Node(_, parts) => {
            total_weight(parts.as_slice(), class_sizes, method_sizes).saturating_add(1)
        }
        TNode::ClassVar(number) => size_at(class_sizes, *number),
        TNode::MethodVar(number) => size_at(method_sizes, *number),
    }
}

#[cycle(weight)]
fn total_weight(parts: &[TExpr], class_sizes: &[u128], method_sizes: &[u128]) -> u128
    ensures { result ≡ min (sum_by (weighted class_sizes.now method_sizes.now) parts.now) (2 ^ 128 - 1) }
{
    let mut total: u128 = 0;
    for part in parts {
        total = total.saturating_add(weight(part, class_sizes, method_sizes));
    }
    total
}

fn size_at(sizes: &[u128], number: u8) -> u128
    ensures { result ≡ unwrap_or (slice_get sizes.now number) 1 }
{
    sizes.get(number as usize).copied().unwrap_or(1)
}

// The positions of each tree, or the largest number.
pub(crate) fn sizes(alloc: Global, trees: &[TExpr]) -> Result<Vec<u128>, AllocError>
    ensures { IfOk result (λ all. all.items ≡ map (λ tree. min (positions_of tree) (2 ^ 128 - 1)) trees.now) }
{
    let mut all = Vec::new(alloc);
    for tree in trees {
        all.push(weight(tree, &[], &[]))?;
    }
    Ok(all)
}
