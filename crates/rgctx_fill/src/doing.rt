// Who goes on in a thread.
use crate::fill::Fill;
use store_object::Cause;

/// An exception under way: the word that names its object or string, and the number of its exact type.
#[derive(Clone, Copy, Debug, PartialEq, Eq)]
pub struct Thrown {
    pub word: u64,
    pub kind: u32,
}

/// Who goes on in a thread: machine code at the core's pc; the service that x17 names, after ECALL; a fill that
/// the service FILL began; or the interpreter. `Throws` is a service whose request for an exception was answered,
/// and `Searches` the search for a clause. `Refuses` is a service whose request named nothing. `Stops` is a thread
/// that has come to a limit, `Finishes` one whose first frame has returned, and `Ended` one whose last request was
/// answered.
#[derive(Drop)]
pub enum Doing {
    Runs,
    Serves,
    Fills(Fill),
    Interprets,
    Throws(Thrown),
    Searches(Thrown),
    Refuses,
    Stops(Cause),
    Finishes,
    Ended,
}
