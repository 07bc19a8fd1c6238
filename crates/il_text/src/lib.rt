//! Assembly text as tokens with their places.
#![tactic(auto)]

mod bytes;
mod fault;
mod finding;
mod front;
mod lengths;
mod limits;
mod place;
mod scanning;
#[cfg(test)]
mod tests;
mod token;

pub use fault::{TextCause, TextFault};
pub use finding::spot;
pub use place::Spot;
pub use scanning::tokens;
pub use token::{Token, TokenKind};
