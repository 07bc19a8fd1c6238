// Places that several layers name.

/// A region of the context words, as the one in which no place was left.
#[derive(Clone, Copy, Debug, PartialEq, Eq)]
pub enum Region {
    Nodes,
    Rows,
}

/// A label of code that is being assembled, by its number from 0. The assembler makes them.
#[derive(Clone, Copy, Debug, PartialEq, Eq)]
pub struct Label {
    pub number: u32,
}
