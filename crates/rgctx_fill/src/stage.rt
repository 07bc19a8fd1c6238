// Where a fill stands, and what its turns give.

/// A node that a value needs: the number of its definition, and which nodes before it are its arguments, by their
/// places in the list of the nodes that are needed, counted from 1, or 0 where there is none.
#[derive(Clone, Copy, Debug, PartialEq, Eq)]
pub struct NodeStep {
    pub definition: u16,
    pub first: usize,
    pub second: usize,
    pub third: usize,
}

/// Where a fill stands.
#[derive(Clone, Copy, Debug, PartialEq, Eq)]
pub enum Stage {
    /// The next node is looked for, and this number comes next.
    Node(u16),
    /// The word with this number was answered as 0, and is claimed next.
    NodeClaim(u16),
    /// The root or link to the row of a depth is loaded next. The row before it has this number.
    Link(u16, u16),
    /// The row of a depth, behind a row, is looked for, and the directory word with this number comes next.
    Row(u16, u16, u16),
    /// The directory word with this number was answered as 0, and is claimed next.
    RowClaim(u16, u16, u16),
    /// The root or link to the row of a depth, behind a row, is claimed next, with the address of this row.
    Tie(u16, u16, u16),
    /// The entry in this row is claimed next.
    Entry(u16),
    /// The fill has answered this value.
    Done(u64),
}

/// A list of context words that fills scan: the node words 1 to 4,095, or the directory.
#[derive(Clone, Copy, Debug, PartialEq, Eq)]
pub enum Region {
    Nodes,
    Rows,
}

/// What the next turn of a fill does: it loads the word at an index, or claims it with a word. A list that is
/// full has no place for a word. Nothing comes after the value.
#[derive(Clone, Copy, Debug, PartialEq, Eq)]
pub enum FillNext {
    Load(u32),
    Claim(u32, u64),
    Full(Region, u64),
    Nothing,
}

/// What a turn of a fill gives: there is more to do, the value, which the entry now holds, or the list that has no
/// place for a word.
#[derive(Clone, Copy, Debug, PartialEq, Eq)]
pub enum FillStep {
    More,
    Value(u64),
    Full(Region, u64),
}
