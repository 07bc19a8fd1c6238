// Why the assembler refuses.

/// The label was placed before.
#[derive(Clone, Copy, Debug, PartialEq, Eq)]
pub struct Placed;

/// Why items have no code words: the fault of the first item that has one.
#[derive(Clone, Copy, Debug, PartialEq, Eq)]
pub enum AsmFault {
    /// The item goes to a label that was never placed.
    Unplaced {
        /// The label's number.
        label: u32,
    },
    /// The distance of a branch doesn't fit its immediate.
    FarBranch {
        /// The code word of the branch, counted from 0.
        from: u32,
        /// The code word of its label.
        to: u32,
    },
}
