// The reader of what a node spells.
ghost use Rattle.std.specs.Prelude.{◌≡◌, ◌≢◌, ℕ, ◌<◌, IfOk, OnOk, true, ◌++◌, ◌∷◌, []};
ghost use Rattle.rgctx_words.specs.Regions.{node_count};
ghost use Rattle.rgctx_words.specs.NodeWords.{node_read};
ghost use Rattle.rgctx_words.specs.Held.{Grows};
ghost use Rattle.rgctx_template.specs.declared.catalogue.Catalogue.{Catalogue};
ghost use Rattle.rgctx_template.specs.Catalogue.{data_of};
ghost use Rattle.rgctx_fill.specs.Spelled.{argument_fields};
ghost use Rattle.rgctx_fill.specs.Reading.{IsNodeTree, AreTypes};

use crate::applying::{applied, is_packed};
use crate::rule::Fits;
use crate::spelled::NodeTree;
use mn_outside::NoMemory;
use rgctx_template::Catalogue;
use rgctx_words::{NodeWord, Words};
use sqlite_items::Items;
use std::alloc::Global;
use type_tree::Tree;

// The types of a node's arguments, or what the reading stopped with.
#[derive(Drop)]
pub(crate) enum Types {
    Read(Items<Tree>),
    Stopped(NodeTree),
}

/// The type or the instantiated method that a node spells. Its word is loaded, then in the same way those of the
/// nodes that it names, a method's class first; the reading stops at the first load that answers 0, and names that
/// node. Where the words meet the rule only the node's own word can be 0, and no leaf's, no held word and none that
/// a held word names is. Then one word is loaded for each position of the type or method, a method being one.
#[cycle(reading)]
pub fn node_tree<W: Words<Fits>>(
    alloc: Global,
    cat: &Catalogue,
    words: &mut W,
    node: u16,
) -> Result<NodeTree, NoMemory>
    requires number { (0 < node) × (node < node_count) }
    ensures place { W.place words.new ≡ W.place words.old }
    ensures alone { W.alone words.new ≡ W.alone words.old }
    ensures claims { W.claims words.new ≡ W.claims words.old }

    ensures grows { Grows (W.held words.old) (W.held words.new) }
    ensures only { W.alone words.old ≡ true → (j : ℕ) → W.held words.new j ≡ W.held words.old j }
    ensures met { (under : Catalogue) → W.meets under words.old → W.meets under words.new }

    ensures tree { W.meets cat.now words.old → IfOk result (λ tree. IsNodeTree (data_of cat.now) (W.held words.old) (W.held words.new) node tree) }
{
    let word = words.load(u32::from(node));
    if word == 0 {
        return Ok(NodeTree::Zero(node));
    }
    let spelled = NodeWord::of(word);
    if !is_packed(spelled) {
        return Ok(NodeTree::Other);
    }
    let fields = [spelled.first, spelled.second, spelled.third];
    match argument_types(alloc, cat, words, node, &fields)? {
        Types::Read(types) => Ok(applied(spelled.definition, types)),
        Types::Stopped(tree) => Ok(tree),
    }
}

// The types of the arguments of a node whose word is held, up to the first 0.
#[cycle(reading)]
fn argument_types<W: Words<Fits>>(
    alloc: Global,
    cat: &Catalogue,
    words: &mut W,
    node: u16,
    fields: &[u16],
) -> Result<Types, NoMemory>
    requires number { (0 < node) × (node < node_count) }
    requires held { W.held words.old node ≢ 0 }
    requires fields { fields.now ≡ argument_fields (node_read (W.held words.old node)) }
    ensures place { W.place words.new ≡ W.place words.old }
    ensures alone { W.alone words.new ≡ W.alone words.old }
    ensures claims { W.claims words.new ≡ W.claims words.old }

    ensures grows { Grows (W.held words.old) (W.held words.new) }
    ensures only { W.alone words.old ≡ true → (j : ℕ) → W.held words.new j ≡ W.held words.old j }
    ensures met { (under : Catalogue) → W.meets under words.old → W.meets under words.new }

    ensures types { W.meets cat.now words.old → IfOk result (λ types. AreTypes (W.held words.new) node fields.now types) }
{
    let mut types = Items::new(alloc);
    for field in fields {
        if *field == 0 {
            return Ok(Types::Read(types));
        }
        if *field >= node {
            return Ok(Types::Stopped(NodeTree::Other));
        }
        match node_tree(alloc, cat, words, *field)? {
            NodeTree::Kind(tree) => put(&mut types, tree)?,
            NodeTree::Method(_) | NodeTree::Other => return Ok(Types::Stopped(NodeTree::Other)),
            NodeTree::Zero(zero) => return Ok(Types::Stopped(NodeTree::Zero(zero))),
        }
    }
    Ok(Types::Read(types))
}

fn put(types: &mut Items<Tree>, tree: Tree) -> Result<(), NoMemory>
    ensures { OnOk result (types.new ≡ types.old ++ tree ∷ []) }
{
    types.push(tree).map_err(|_| NoMemory)
}
