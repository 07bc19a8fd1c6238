//! The top call: the command, the program of a text, its code words, the machine that runs them, and the lines.
#![tactic(auto)]

mod command;
mod compile;
#[cfg(test)]
mod depth_tests;
mod first;
mod first_form;
mod machine;
mod meant_lines;
mod places;
mod record;
mod refusal;
mod run;
#[cfg(test)]
mod sum;
#[cfg(test)]
mod tests;
mod top;
mod turns;
mod written;

pub use first::FirstOp;
pub use record::{Outcome, RunRecord, Turn};
pub use refusal::TextRefusal;
pub use top::aot_main;
