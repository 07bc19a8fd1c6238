//! The plain run: the written meaning of a program, made to run over the store.
#![tactic(auto)]

mod arithmetic;
mod arrays;
mod boxes;
mod branches;
mod calls;
mod entries;
mod exact;
mod fault;
mod found;
mod frames;
mod groups;
mod instruction;
mod laws;
mod library;
mod members;
mod memory;
mod mention;
mod mentions;
mod numbers;
mod operands;
mod pause;
mod placing;
mod search;
mod thread;
mod trees;
mod types;
mod value;
mod whole;
mod words;

pub use laws::{
    lists_name_types, plain_runs_are_legal, plain_runs_end_surely, verified_runs_end_surely,
};
pub use whole::{Meant, mean};
