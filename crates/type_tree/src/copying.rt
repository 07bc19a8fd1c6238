ghost use Rattle.std.specs.Prelude.{◌≡◌, IfOk};

use crate::tree::{TExpr, TNode};
use mn_outside::NoMemory;
use sqlite_items::Items;
use std::alloc::{AllocError, Global};

impl TExpr {
    /// A copy, which equals the tree.
    pub fn copy(&self, alloc: Global) -> Result<TExpr, NoMemory>
        ensures { IfOk result (λ tree. tree ≡ self.now) }
    {
        copied(alloc, self).map_err(|_| NoMemory)
    }
}

/// Copies of the trees, in order.
pub fn copy_all(alloc: Global, trees: &[TExpr]) -> Result<Items<TExpr>, NoMemory>
    ensures { IfOk result (λ copies. copies ≡ trees.now) }
{
    copied_all(alloc, trees).map_err(|_| NoMemory)
}

#[cycle(copied)]
pub(crate) fn copied(alloc: Global, tree: &TExpr) -> Result<TExpr, AllocError>
    ensures { IfOk result (λ copy. copy ≡ tree.now) }
{
    match tree.top() {
        TNode::Node(head, parts) => Ok(TExpr::node(*head, copied_all(alloc, parts.as_slice())?)),
        TNode::ClassVar(number) => Ok(TExpr::class_var(*number)),
        TNode::MethodVar(number) => Ok(TExpr::method_var(*number)),
    }
}

#[cycle(copied)]
fn copied_all(alloc: Global, trees: &[TExpr]) -> Result<Items<TExpr>, AllocError>
    ensures { IfOk result (λ copies. copies ≡ trees.now) }
{
    let mut copies = Items::new(alloc);
    for tree in trees {
        copies.push(copied(alloc, tree)?)?;
    }
    Ok(copies)
}
