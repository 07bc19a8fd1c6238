// The exceptions that instructions throw.
ghost use Rattle.std.specs.Prelude.{◌≡◌};
ghost use Rattle.unshared.specs.Faults.{the_fault};

/// A class of exceptions that instructions throw.
#[derive(Clone, Copy)]
pub(crate) enum Fault {
    DivideByZero,
    Overflow,
    NullReference,
    IndexOutOfRange,
    InvalidCast,
    ArrayTypeMismatch,
}

/// The number of its class in the library.
pub(crate) fn class_of_fault(fault: Fault) -> u16
    ensures { result ≡ the_fault fault }
{
    match fault {
        Fault::DivideByZero => 5,
        Fault::Overflow => 6,
        Fault::NullReference => 7,
        Fault::IndexOutOfRange => 8,
        Fault::InvalidCast => 9,
        Fault::ArrayTypeMismatch => 10,
    }
}
