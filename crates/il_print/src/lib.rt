//! The canonical text of a program.
#![tactic(auto)]

mod bodies;
mod classes;
mod forms;
mod labels;
mod members;
mod methods;
mod operand;
mod operands;
mod params;
mod printing;
mod scope;
mod text;
mod types;

pub use printing::{canonical_length, print};
