// Feeding types and entries to a hash function.
ghost use Rattle.std.specs.Prelude.{◌≡◌, fold, flat_map};
ghost use Rattle.rgctx_template.specs.Fed.{head_writes, tree_writes, entry_writes};

use il_model::Entry;
use std::hash::Hasher;
use type_tree::{Head, TExpr, TNode};

fn feed_head<H: Hasher>(head: Head, state: &mut H)
    ensures { state.new ≡ fold H.write state.old (head_writes head) }
{
    match head {
        Head::Int32 => state.write_u8(0),
        Head::Int64 => state.write_u8(1),
        Head::Bool => state.write_u8(2),
        Head::Vector => state.write_u8(3),
        Head::Class(number) => {
            state.write_u8(4);
            state.write_u16(number);
        }
    }
}

/// Feeds a type: a number for each head and variable, and the numbers in it, in order.
#[cycle(feed)]
#[tactic(auto, using(crate::proofs::FedLemmas::fed_node, crate::proofs::FedLemmas::fed_class_var, crate::proofs::FedLemmas::fed_method_var))]
pub fn feed_tree<H: Hasher>(tree: &TExpr, state: &mut H)
    ensures { state.new ≡ fold H.write state.old (tree_writes tree.now) }
{
    match tree.top() {
        TNode::Node(head, parts) => {
            feed_head(*head, state);
            feed_trees(parts.as_slice(), state);
        }
        TNode::ClassVar(number) => {
            state.write_u8(5);
            state.write_u8(*number);
        }
        TNode::MethodVar(number) => {
            state.write_u8(6);
            state.write_u8(*number);
        }
    }
}

#[cycle(feed)]
fn feed_trees<H: Hasher>(trees: &[TExpr], state: &mut H)
    ensures { state.new ≡ fold H.write state.old (flat_map tree_writes trees.now) }
{
    for tree in trees {
        feed_tree(tree, state);
    }
}

/// Feeds an entry: its variant, its numbers and its types.
pub(crate) fn feed_entry<H: Hasher>(entry: &Entry, state: &mut H)
    ensures { state.new ≡ fold H.write state.old (entry_writes entry.now) }
{
    match entry {
        Entry::Kind(kind) => {
            state.write_u8(0);
            feed_tree(kind, state);
        }
        Entry::Method(number, class, args) => {
            state.write_u8(1);
            state.write_u16(*number);
            feed_tree(class, state);
            feed_trees(args.as_slice(), state);
        }
        Entry::Size(kind) => {
            state.write_u8(2);
            feed_tree(kind, state);
        }
        Entry::Extent(kind) => {
            state.write_u8(3);
            feed_tree(kind, state);
        }
        Entry::Offset(class, place) => {
            state.write_u8(4);
            state.write_u16(*place);
            feed_tree(class, state);
        }
        Entry::Slot(number) => {
            state.write_u8(5);
            state.write_u16(*number);
        }
    }
}
