//! Keys of shared code, and which compiled body serves a method at given types.
#![tactic(auto)]

mod canonical;
mod choice;
mod closeness;
mod picking;
mod serving;
#[cfg(test)]
mod tests;

pub use canonical::canon;
pub use choice::Choice;
pub use il_model::{BodyRow, Key, KeyPart};
pub use picking::pick;
