// What is wrong with the flow of a body.

/// Why a body is refused: control goes where it may not, or an instruction finds too few values.
#[derive(Clone, Copy, Debug, PartialEq, Eq)]
pub enum FlowCause {
    BadFlow,
    Underflow,
}

/// The first fault of a body: the number of its instruction, from 0, and the cause.
#[derive(Clone, Copy, Debug, PartialEq, Eq)]
pub struct FlowFault {
    pub instr: u32,
    pub cause: FlowCause,
}
