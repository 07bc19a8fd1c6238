// The flow of a body.
use sqlite_items::Items;

/// For each instruction of a body, how many values are on the stack before it, and whether some branch,
/// `switch` or `leave` names it as a target.
#[derive(Drop)]
pub struct Flow {
    pub depth: Items<u32>,
    pub targets: Items<bool>,
}
