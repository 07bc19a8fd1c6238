// The reader of a node's template.
ghost use Rattle.std.specs.Prelude.{◌≡◌, ℕ, ◌<◌, IfOk, OnOk, true, ◌++◌, ◌∷◌, []};
ghost use Rattle.il_model.specs.Find.{class_number_of};
ghost use Rattle.il_model.specs.ClassRules.{EachClass, HasTypes, HasFewSlots};
ghost use Rattle.rgctx_words.specs.Regions.{node_count};
ghost use Rattle.rgctx_words.specs.Held.{Grows};
ghost use Rattle.rgctx_template.specs.declared.catalogue.Catalogue.{Catalogue};
ghost use Rattle.rgctx_template.specs.Catalogue.{data_of};
ghost use Rattle.rgctx_fill.specs.Templates.{type_template, tree_template};
ghost use Rattle.rgctx_fill.specs.Reading.{IsNodeTemplate};

use crate::reading::node_tree;
use crate::rule::Fits;
use crate::spelled::{NodeTemplate, NodeTree};
use il_model::{Def, Entry, Program};
use mn_outside::NoMemory;
use rgctx_template::{Catalogue, template};
use rgctx_words::Words;
use sqlite_items::Items;
use std::alloc::Global;
use type_inst::slots;
use type_tree::{Head, TNode, Tree, copy_all};

/// The template of a node: the closed entries for the image, else the entries of the method or the slots of the
/// class that it spells, over the variables of the definition; none for a scalar or a vector. The words are loaded
/// as `node_tree` loads them.
pub fn node_template<W: Words<Fits>>(
    alloc: Global,
    cat: &Catalogue,
    words: &mut W,
    node: u16,
) -> Result<NodeTemplate, NoMemory>
    requires number { (0 < node) × (node < node_count) }
    requires types { HasTypes cat.now.program.now }
    requires slots { EachClass HasFewSlots cat.now.program.now }
    ensures place { W.place words.new ≡ W.place words.old }
    ensures alone { W.alone words.new ≡ W.alone words.old }
    ensures claims { W.claims words.new ≡ W.claims words.old }

    ensures grows { Grows (W.held words.old) (W.held words.new) }
    ensures only { W.alone words.old ≡ true → (j : ℕ) → W.held words.new j ≡ W.held words.old j }
    ensures met { (under : Catalogue) → W.meets under words.old → W.meets under words.new }

    ensures template { W.meets cat.now words.old → IfOk result (λ template. IsNodeTemplate (data_of cat.now) (W.held words.old) (W.held words.new) node template) }
{
    let tree = node_tree(alloc, cat, words, node)?;
    if let NodeTree::Zero(zero) = tree {
        return Ok(NodeTemplate::Zero(zero));
    }
    let entries = tree_template(alloc, cat, &tree)?;
    Ok(NodeTemplate::Listed(entries))
}

/// The template of what a node spells, by what was read of it.
pub fn tree_template(
    alloc: Global,
    cat: &Catalogue,
    tree: &NodeTree,
) -> Result<Items<Entry>, NoMemory>
    requires types { HasTypes cat.now.program.now }
    requires slots { EachClass HasFewSlots cat.now.program.now }
    ensures { IfOk result (λ entries. entries ≡ tree_template (data_of cat.now) tree.now) }
{
    match tree {
        NodeTree::Kind(kind) => type_template(alloc, cat.program, kind),
        NodeTree::Method(method) => template(alloc, cat.program, Def::Method(method.method)),
        NodeTree::Other => copy_entries(alloc, cat.got.as_slice()),
        NodeTree::Zero(_) => Ok(Items::new(alloc)),
    }
}

// The slots of the class that a type names, if it names one of the program's.
fn type_template(alloc: Global, program: &Program, kind: &Tree) -> Result<Items<Entry>, NoMemory>
    requires types { HasTypes program.now }
    requires slots { EachClass HasFewSlots program.now }
    ensures { IfOk result (λ entries. entries ≡ type_template program.now kind.now (class_number_of kind.now)) }
{
    match kind.top() {
        TNode::Node(Head::Class(number), _) => {
            match program.classes.as_slice().get(*number as usize) {
                Some(_) => {
                    let count = slots(alloc, program, kind)?.len();
                    template(alloc, program, Def::Class(*number, count as u16))
                }
                None => Ok(Items::new(alloc)),
            }
        }
        TNode::Node(Head::Int32 | Head::Int64 | Head::Bool | Head::Vector, _) => Ok(Items::new(
            alloc,
        )),
        TNode::ClassVar(_) | TNode::MethodVar(_) => Ok(Items::new(alloc)),
    }
}

fn copy_entries(alloc: Global, entries: &[Entry]) -> Result<Items<Entry>, NoMemory>
    ensures { IfOk result (λ copies. copies ≡ entries.now) }
{
    let mut copies = Items::new(alloc);
    for entry in entries {
        let copy = copy_of(alloc, entry)?;
        put(&mut copies, copy)?;
    }
    Ok(copies)
}

fn put(entries: &mut Items<Entry>, entry: Entry) -> Result<(), NoMemory>
    ensures { OnOk result (entries.new ≡ entries.old ++ entry ∷ []) }
{
    entries.push(entry).map_err(|_| NoMemory)
}

fn copy_of(alloc: Global, entry: &Entry) -> Result<Entry, NoMemory>
    ensures { IfOk result (λ copy. copy ≡ entry.now) }
{
    match entry {
        Entry::Kind(kind) => Ok(Entry::Kind(kind.copy(alloc)?)),
        Entry::Method(number, class, args) => {
            let class = class.copy(alloc)?;
            let args = copy_all(alloc, args.as_slice())?;
            Ok(Entry::Method(*number, class, args))
        }
        Entry::Size(kind) => Ok(Entry::Size(kind.copy(alloc)?)),
        Entry::Extent(kind) => Ok(Entry::Extent(kind.copy(alloc)?)),
        Entry::Offset(class, place) => Ok(Entry::Offset(class.copy(alloc)?, *place)),
        Entry::Slot(number) => Ok(Entry::Slot(*number)),
    }
}
