// What a call is given, and what a call and a return answer.

/// What a call hands over, as the registers of the service CALL have it: the node of the method; the address
/// of the result's first word, or 0; the address of the list that has the address of each argument's first
/// word, in order; and the return pc, 0 where the caller is interpreted. Addresses count bytes.
#[derive(Clone, Copy, Debug, PartialEq, Eq)]
pub struct CallWords {
    pub node: u16,
    pub result: u64,
    pub list: u64,
    pub back: u64,
}

/// What goes on after a call: the machine at a pc; the interpreter; or nothing, since the thread has 1,024
/// frames.
#[derive(Clone, Copy, Debug, PartialEq, Eq)]
pub enum Entered {
    Machine(u64),
    Interp,
    Deep,
}

/// What goes on after a return: the machine at a pc; the interpreter; or nothing, since the first frame has
/// no caller.
#[derive(Clone, Copy, Debug, PartialEq, Eq)]
pub enum Left {
    Machine(u64),
    Interp,
    Last,
}
