ghost use Rattle.std.specs.Prelude.{◌≡◌, ◌↔◌, IsTrue};

use crate::tree::{TExpr, TNode};

impl TExpr {
    /// Whether the trees are equal. No memory is taken.
    #[cycle(same)]
    pub fn same(&self, other: &TExpr) -> bool
        ensures { IsTrue result ↔ (self.now ≡ other.now) }
    {
        match (self.top(), other.top()) {
            (TNode::Node(head, parts), TNode::Node(other_head, other_parts)) => {
                *head == *other_head && same_all(parts.as_slice(), other_parts.as_slice())
            }
            (TNode::ClassVar(number), TNode::ClassVar(other_number)) => *number == *other_number,
            (TNode::MethodVar(number), TNode::MethodVar(other_number)) => *number == *other_number,
            (TNode::Node(_, _) | TNode::ClassVar(_) | TNode::MethodVar(_), _) => false,
        }
    }
}

/// Whether the lists are equal, tree by tree. No memory is taken.
#[cycle(same)]
pub fn same_all(trees: &[TExpr], others: &[TExpr]) -> bool
    ensures { IsTrue result ↔ (trees.now ≡ others.now) }
{
    if trees.len() != others.len() {
        return false;
    }
    for i in 0..trees.len() {
        if !trees[i].same(&others[i]) {
            return false;
        }
    }
    true
}
