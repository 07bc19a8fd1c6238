// Feeding types to a hash function.
ghost use Rattle.std.specs.Prelude.{◌≡◌, fold, flat_map};
ghost use Rattle.rgctx_template.specs.Fed.{head_writes, tree_writes};

use std::hash::Hasher;
use type_tree::{Head, TExpr, TNode};

fn feed_head<H: Hasher>(head: Head, state: &mut H)
    ensures { state.new ≡ fold H.write state.old (head_writes head) }
{
    match head {
        Head::Int32 => state.write_u8(0),
        Head::Int64 => state.write_u8(1),
        Head::Bool => state.write_u8(2),
        Head::Vector => state.write_u8(3),
        Head::Class(number) => {
            state.write_u8(4);
            state.write_u16(number);
        }
    }
}

/// Feeds a type: its head, then its arguments.
#[cycle(feed)]
#[tactic(auto, using(rgctx_template::proofs::FedLemmas::fed_node, rgctx_template::proofs::FedLemmas::fed_class_var, rgctx_template::proofs::FedLemmas::fed_method_var))]
pub(crate) fn feed_tree<H: Hasher>(tree: &TExpr, state: &mut H)
    ensures { state.new ≡ fold H.write state.old (tree_writes tree.now) }
{
    match tree.top() {
        TNode::Node(head, parts) => {
            feed_head(*head, state);
            feed_trees(parts.as_slice(), state);
        }
        TNode::ClassVar(number) => {
            state.write_u8(5);
            state.write_u8(*number);
        }
        TNode::MethodVar(number) => {
            state.write_u8(6);
            state.write_u8(*number);
        }
    }
}

#[cycle(feed)]
fn feed_trees<H: Hasher>(trees: &[TExpr], state: &mut H)
    ensures { state.new ≡ fold H.write state.old (flat_map tree_writes trees.now) }
{
    for tree in trees {
        feed_tree(tree, state);
    }
}
