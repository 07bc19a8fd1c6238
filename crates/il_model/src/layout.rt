// What is known of a type: its fields' places, its slots, and the limit that it passes.
use sqlite_items::Items;
use type_tree::Tree;

/// The words of a value or an instance and where each field lies, base fields first; then the static
/// words of the class and where its own static fields lie. All counts are in words.
#[derive(Drop)]
pub struct Layout {
    pub words: u32,
    pub offsets: Items<u32>,
    pub fixed_words: u32,
    pub fixed_offsets: Items<u32>,
}

/// A method of a class, both with their type arguments.
#[derive(Drop)]
pub struct MethodTree {
    pub method: u16,
    pub class: Tree,
    pub args: Items<Tree>,
}

/// Which limit a type passes: 256 positions of a tree, or 16 words of a value.
#[derive(Clone, Copy, Debug, PartialEq, Eq)]
pub enum Limit {
    Positions,
    ValueWords,
}
