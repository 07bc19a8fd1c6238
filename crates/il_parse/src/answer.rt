// What a text gives that is a program.
use il_model::Program;
use il_text::Spot;
use sqlite_items::Items;

/// Where a definition stands in the text: `declared` is the place of the word `.class` or `.method`, and
/// `code` has the place of each instruction's first token, in order. Definitions of the library have line
/// 1 and column 1 in all of these.
#[derive(Drop)]
pub struct Spots {
    pub declared: Spot,
    pub code: Items<Spot>,
}

/// A program, and where its definitions stand: one item for each class and then one for each method, in
/// the program's order.
#[derive(Drop)]
pub struct Parsed {
    pub program: Program,
    pub spots: Items<Spots>,
}
