//! The closed entries of an image, and the code that fetches them and calls through them.
#![tactic(auto)]

mod closing;
mod emitting;
mod exact;
mod fetching;
#[cfg(test)]
mod tests;

pub use closing::closed;
pub use fetching::{MOST_CLOSED, fetch, stub};
pub use il_model::Entry;
pub use rv_isa::Asm;
pub use share_canon::Choice;
