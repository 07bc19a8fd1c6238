// What a node spells.
use il_model::{Entry, MethodTree};
use sqlite_items::Items;
use type_tree::Tree;

/// What is read of a node: the type or the instantiated method that it spells, something else, which is the
/// image, or the node whose word was read as 0.
#[derive(Drop)]
pub enum NodeTree {
    Kind(Tree),
    Method(MethodTree),
    Other,
    Zero(u16),
}

/// What is read of a node's template: its entries over the variables of its definition, in order, none where
/// the node has no template; or the node whose word was read as 0.
#[derive(Drop)]
pub enum NodeTemplate {
    Listed(Items<Entry>),
    Zero(u16),
}
