// What is kept of a run.
use interaction::What;

/// A turn of a thread. Threads are numbered from 0.
#[derive(Clone, Copy, Debug, PartialEq, Eq)]
pub struct Turn {
    pub thread: u32,
    pub what: What,
}

/// An entry that a claim filled, which found 0 there: the node and the entry's number in its template, and the value.
#[derive(Clone, Copy, Debug, PartialEq, Eq)]
pub struct FillNote {
    pub node: u16,
    pub entry: u16,
    pub value: u64,
}
