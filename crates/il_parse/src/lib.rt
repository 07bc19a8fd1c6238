//! Assembly text as a program, or the first place at which it is refused.
#![tactic(auto)]

mod answer;
mod body;
mod calls;
mod class_places;
mod classes;
mod cursor;
mod fault;
mod forms;
mod found;
mod gathering;
mod hashing;
mod labels;
mod laws;
mod library;
mod lines;
mod literal_table;
mod literals;
mod looking;
mod member_lists;
mod members;
mod met;
mod mnemonics;
mod named_bodies;
mod named_classes;
mod named_lines;
mod named_members;
mod named_methods;
mod named_ops;
mod named_params;
mod named_program;
mod named_types;
mod operands;
mod params;
mod parsing;
mod places;
mod placing;
mod scope;
mod signatures;
mod types;
mod variables;

pub use answer::{Parsed, Spots};
pub use fault::{ParseCause, ParseFault};
pub use laws::{names_give_one_program, texts_give_one_answer, written_texts_are_read};
pub use parsing::parse;
