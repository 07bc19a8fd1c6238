// Why a program is refused, and where.

/// The place of a refusal: a class or a method by its number in the program, or an instruction of a method, from 0.
#[derive(Clone, Copy, Debug, PartialEq, Eq)]
pub enum Where {
    Class(u16),
    Method(u16),
    Instr(u16, u32),
}

/// The causes, in the order in which they are judged at one place but for `BadMember`, which comes first at an instruction.
/// `NotBuilt` is judged of the whole program before all others.
#[derive(Clone, Copy, Debug, PartialEq, Eq)]
pub enum VerifyCause {
    NotBuilt,
    BadHierarchy,
    BadLayout,
    BadConstraint,
    MissingImplementation,
    TooManySlots,
    BadMember,
    TooManyClauses,
    BadFlow,
    Underflow,
    BadMerge,
    BadType,
    TooManyPlaces,
    TooManyEntries,
}

/// The first refusal of a program.
#[derive(Clone, Copy, Debug, PartialEq, Eq)]
pub struct VerifyFault {
    pub at: Where,
    pub cause: VerifyCause,
}

/// The first instruction of a body that is refused, by its number from 0.
#[derive(Clone, Copy, Debug, PartialEq, Eq)]
pub struct BodyFault {
    pub instr: u32,
    pub cause: VerifyCause,
}
