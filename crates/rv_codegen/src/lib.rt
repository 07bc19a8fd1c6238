//! The code of a body's plain instructions.
#![tactic(auto)]

mod branches;
mod constants;
mod emitting;
mod entry;
mod forms;
mod laws;
mod moves;
mod numbers;
mod operations;
mod places;
mod printing;
mod returns;
mod switching;
#[cfg(test)]
mod tests;
mod view;
mod words;

pub use emitting::emit_plain;
pub use entry::emit_entry;
pub use laws::{
    arguments_are_carried, plain_instructions_are_carried, plain_instructions_are_short,
};
