// Why a choice is refused, and where.

/// Why a line of a choice is refused. Of several causes the first of this list counts.
#[derive(Clone, Copy, Debug, PartialEq, Eq)]
pub enum ChoiceCause {
    /// The line has none of the forms, or a type in it names no class or has a wrong number of arguments.
    Syntax,
    /// The program has no such method.
    UnknownMethod,
    /// The method has no body, or the line adds one for the method in which started threads begin.
    NoBody,
    /// There are not as many keys as the class and the method have variables together.
    WrongArity,
    /// A type has a variable.
    NotClosed,
    /// Some but not all of the keys are `any`.
    MixedAny,
    /// A type is not admitted, or a bound is not met.
    NotAdmitted,
}

/// The first line of a choice that is refused, counted from 1, and why.
#[derive(Clone, Copy, Debug, PartialEq, Eq)]
pub struct ChoiceFault {
    pub line: u64,
    pub cause: ChoiceCause,
}
