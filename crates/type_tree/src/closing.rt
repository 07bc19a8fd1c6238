// Which types have no variables.
ghost use Rattle.std.specs.Prelude.{◌≡◌};
ghost use Rattle.std.specs.List.{list_all};
ghost use Rattle.type_tree.specs.Tree.{has_variables_below};

use crate::tree::{TExpr, TNode};

/// Whether a type has no variables. No memory is taken.
#[cycle(closed)]
pub fn is_closed(kind: &TExpr) -> bool
    ensures { result ≡ has_variables_below 0 0 kind.now }
{
    match kind.top() {
        TNode::Node(_, parts) => are_closed(parts.as_slice()),
        TNode::ClassVar(_) | TNode::MethodVar(_) => false,
    }
}

#[cycle(closed)]
fn are_closed(kinds: &[TExpr]) -> bool
    ensures { result ≡ list_all (has_variables_below 0 0) kinds.now }
{
    for kind in kinds {
        if !is_closed(kind) {
            return false;
        }
    }
    true
}
