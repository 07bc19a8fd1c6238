// What a body or a class fetches from its runtime generic context.
use sqlite_items::Items;
use type_tree::TExpr;

/// One entry of a template, over the variables of its definition: a type; a method with its class and its
/// arguments; the size of a value of a type; the words of an instance; the place of a field of a class;
/// the method that stands in a slot.
#[derive(Drop)]
pub enum Entry {
    Kind(TExpr),
    Method(u16, TExpr, Items<TExpr>),
    Size(TExpr),
    Extent(TExpr),
    Offset(TExpr, u16),
    Slot(u16),
}

/// A definition that has a template: a class, with the number of its slots, or a method.
#[derive(Clone, Copy, Debug, PartialEq, Eq)]
pub enum Def {
    Class(u16, u16),
    Method(u16),
}
