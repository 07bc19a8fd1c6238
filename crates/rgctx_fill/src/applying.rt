// What a node word spells, once the types of its arguments are read.
ghost use Rattle.std.specs.Prelude.{◌≡◌};
ghost use Rattle.rgctx_words.specs.NodeWords.{definition_of};
ghost use Rattle.rgctx_fill.specs.Spelled.{is_packed, applied, kind_applied, method_applied};

use crate::spelled::NodeTree;
use il_model::MethodTree;
use rgctx_words::{Definition, NodeWord};
use sqlite_items::Items;
use type_tree::{Head, TExpr, Tree};

/// Whether no argument stands behind a 0.
pub(crate) fn is_packed(word: NodeWord) -> bool
    ensures { result ≡ is_packed word }
{
    (word.first != 0 || word.second == 0) && (word.second != 0 || word.third == 0)
}

/// The definition with this number, with the types of its arguments.
pub(crate) fn applied(number: u16, types: Items<Tree>) -> NodeTree
    ensures { result ≡ applied (definition_of number) types }
{
    match Definition::of(number) {
        Some(Definition::Int32) => kind(Head::Int32, types),
        Some(Definition::Int64) => kind(Head::Int64, types),
        Some(Definition::Bool) => kind(Head::Bool, types),
        Some(Definition::Vector) => kind(Head::Vector, types),
        Some(Definition::Class(class)) => kind(Head::Class(class), types),
        Some(Definition::Method(method)) => method_applied(method, types),
        Some(Definition::Image) => NodeTree::Other,
        None => NodeTree::Other,
    }
}

fn kind(head: Head, types: Items<Tree>) -> NodeTree
    ensures { result ≡ kind_applied head types }
{
    NodeTree::Kind(TExpr::node(head, types))
}

// The method at its class, which is the first of the types, and its arguments.
fn method_applied(method: u16, mut types: Items<Tree>) -> NodeTree
    ensures { result ≡ method_applied method types }
{
    if types.is_empty() {
        return NodeTree::Other;
    }
    let class = types.remove(0);
    NodeTree::Method(MethodTree {
        method,
        class,
        args: types,
    })
}
