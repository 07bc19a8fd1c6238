// What is looked up while contexts are filled.
use il_model::{BodyRow, Entry, Program};
use sqlite_items::Items;

/// A program with the compiled bodies and the closed entries of its image. It is lent to each call that
/// looks something up, and kept by none. The lists are in the order of the image.
#[derive(Clone, Copy)]
pub struct Catalogue<'a> {
    pub program: &'a Program,
    pub bodies: &'a Items<BodyRow>,
    pub got: &'a Items<Entry>,
}
