/// One request of one thread, with the reply that it got. A history is a list of these, oldest first.
#[derive(Clone, Copy, PartialEq, Eq, Debug)]
pub struct Event<R, Y> {
    /// The thread's number, counted from 0.
    pub thread: u32,
    pub request: R,
    pub reply: Y,
}
