// Places as readers count them.

/// A place in a text. Lines and columns count from 1, and a column is one byte.
#[derive(Clone, Copy, Debug, PartialEq, Eq)]
pub struct Spot {
    pub line: u32,
    pub column: u32,
}
