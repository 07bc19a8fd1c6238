// Node words that a service needs first.
ghost use Rattle.std.specs.Prelude.{◌≡◌, ℕ, IfOk};
ghost use Rattle.type_tree.specs.declared.tree.TExpr.{TExpr};
ghost use Rattle.rgctx_words.specs.Held.{Grows};
ghost use Rattle.rgctx_template.specs.declared.catalogue.Catalogue.{Catalogue};
ghost use Rattle.rgctx_template.specs.Catalogue.{data_of};
ghost use Rattle.rgctx_fill.specs.declared.spelled.NodeTree.{NodeTree};
ghost use Rattle.rgctx_fill.specs.declared.thread.Want.{Want};
ghost use Rattle.rgctx_fill.specs.ThreadStates.{ThreadData, Move};
ghost use Rattle.rgctx_fill.specs.NodeReadings.{is_type, is_type_word, with_type_node, with_tree, with_type_tree};
ghost use Rattle.rgctx_fill.specs.Moves.{Span, Within, IsMade};
ghost use Rattle.rt_service.specs.Numbers.{node_number};
ghost use Rattle.rt_service.specs.Readings.{IsRead, GoesOn, GoesOnWith, GoesOnType};

use mn_outside::NoMemory;
use rgctx_fill::laws::node_tree;
use rgctx_fill::{Fits, NodeTree};
use rgctx_template::Catalogue;
use rgctx_words::{Definition, NODES, NodeWord, Words};
use std::alloc::Global;
use type_tree::Tree;

// A node's word is one that the service takes, was answered as 0, or is another; or the number is no node's.
#[derive(Clone, Copy, Debug, PartialEq, Eq)]
pub(crate) enum Read {
    Passes,
    Unread(u16),
    Refused,
}

// The same with what the node spells.
#[derive(Drop)]
pub(crate) enum TreeRead {
    Spells(NodeTree),
    Unread(u16),
    Refused,
}

// The same with the type that it spells.
#[derive(Drop)]
pub(crate) enum TypeRead {
    Spells(Tree),
    Unread(u16),
    Refused,
}

// The node with a number, where there may be one.
pub(crate) fn node_number(number: u64) -> Option<u16>
    ensures { result ≡ node_number number }
{
    if number == 0 || number >= u64::from(NODES) {
        return None;
    }
    Some(number as u16)
}

fn is_type(definition: Option<Definition>) -> bool
    ensures { result ≡ is_type definition }
{
    match definition {
        Some(Definition::Int32 | Definition::Int64 | Definition::Bool) => true,
        Some(Definition::Vector | Definition::Class(_)) => true,
        Some(Definition::Image | Definition::Method(_)) | None => false,
    }
}

pub(crate) fn is_type_word(word: u64) -> bool
    ensures { result ≡ is_type_word word }
{
    is_type(Definition::of(NodeWord::of(word).definition))
}

// Whether a number is that of a type's node.
pub(crate) fn type_node<W: Words<Fits>>(words: &mut W, number: u64) -> Read
    ensures place { W.place words.new ≡ W.place words.old }
    ensures alone { W.alone words.new ≡ W.alone words.old }
    ensures claims { W.claims words.new ≡ W.claims words.old }
    ensures grows { Grows (W.held words.old) (W.held words.new) }
    ensures met { (cat : Catalogue) → W.meets cat words.old → W.meets cat words.new }
    ensures goes { (cat : Catalogue) → W.meets cat words.old → (h : Span) → Within h (W.held words.old) (W.held words.new) →
        (s : ThreadData) (next : Move) (said : Want) (new : ThreadData) → GoesOn (data_of cat) h s result next said new → IsMade (data_of cat) h s (with_type_node s number next) said new }
{
    let Some(node) = node_number(number) else {
        return Read::Refused;
    };
    let word = words.load(u32::from(node));
    if word == 0 {
        return Read::Unread(node);
    }
    if is_type_word(word) {
        Read::Passes
    } else {
        Read::Refused
    }
}

// What the node of a number spells.
pub(crate) fn tree_at<W: Words<Fits>>(
    alloc: Global,
    cat: &Catalogue,
    words: &mut W,
    number: u64,
) -> Result<TreeRead, NoMemory>
    requires met { W.meets cat.now words.old }
    ensures place { W.place words.new ≡ W.place words.old }
    ensures alone { W.alone words.new ≡ W.alone words.old }
    ensures claims { W.claims words.new ≡ W.claims words.old }
    ensures grows { Grows (W.held words.old) (W.held words.new) }
    ensures met { (under : Catalogue) → W.meets under words.old → W.meets under words.new }
    ensures read { IfOk result (λ found. IsRead (W.held words.new) number found) }
    ensures goes { IfOk result (λ found. (h : Span) → Within h (W.held words.old) (W.held words.new) →
        (s : ThreadData) (next : NodeTree → Move) (said : Want) (new : ThreadData) → GoesOnWith (data_of cat.now) h s found next said new → IsMade (data_of cat.now) h s (with_tree s number next) said new) }
{
    let Some(node) = node_number(number) else {
        return Ok(TreeRead::Refused);
    };
    match node_tree(alloc, cat, words, node)? {
        NodeTree::Zero(zero) => Ok(TreeRead::Unread(zero)),
        NodeTree::Kind(kind) => Ok(TreeRead::Spells(NodeTree::Kind(kind))),
        NodeTree::Method(method) => Ok(TreeRead::Spells(NodeTree::Method(method))),
        NodeTree::Other => Ok(TreeRead::Spells(NodeTree::Other)),
    }
}

// The type that the node of a number spells.
pub(crate) fn type_at<W: Words<Fits>>(
    alloc: Global,
    cat: &Catalogue,
    words: &mut W,
    number: u64,
) -> Result<TypeRead, NoMemory>
    requires met { W.meets cat.now words.old }
    ensures place { W.place words.new ≡ W.place words.old }
    ensures alone { W.alone words.new ≡ W.alone words.old }
    ensures claims { W.claims words.new ≡ W.claims words.old }
    ensures grows { Grows (W.held words.old) (W.held words.new) }
    ensures met { (under : Catalogue) → W.meets under words.old → W.meets under words.new }
    ensures goes { IfOk result (λ found. (h : Span) → Within h (W.held words.old) (W.held words.new) →
        (s : ThreadData) (next : TExpr → Move) (said : Want) (new : ThreadData) → GoesOnType (data_of cat.now) h s found next said new → IsMade (data_of cat.now) h s (with_type_tree s number next) said new) }
{
    match tree_at(alloc, cat, words, number)? {
        TreeRead::Spells(NodeTree::Kind(tree)) => Ok(TypeRead::Spells(tree)),
        TreeRead::Spells(NodeTree::Method(_) | NodeTree::Other | NodeTree::Zero(_)) => Ok(
            TypeRead::Refused,
        ),
        TreeRead::Unread(node) => Ok(TypeRead::Unread(node)),
        TreeRead::Refused => Ok(TypeRead::Refused),
    }
}
