//! What is asked of types, with and without variables: bases, interfaces, assignability, slots, layouts and limits.
#![tactic(auto)]

mod admission;
mod ascent;
mod assignability;
mod classes;
mod closure;
mod definitions;
mod equality;
mod fields;
mod hashing;
mod implementing;
mod known;
mod laying;
mod limited;
mod matching;
mod method_trees;
mod numbering;
mod opening;
mod placing;
mod signatures;
mod sizing;
mod slotting;
mod steps;

pub use admission::admitted;
pub use ascent::bases;
pub use assignability::{assignable, element_of};
pub use classes::{arguments_of, base_of, is_reference, with_args_of};
pub use equality::{is_among, is_same};
pub use il_model::{Layout, Limit, MethodTree};
pub use implementing::interfaces;
pub use known::{Kinds, place_of};
pub use laying::{layout, words_of};
pub use matching::{nearest_match, own_methods_of};
pub use numbering::implementation;
pub use placing::slots;
pub use sizing::capped_words;
pub use slotting::{SlotTable, virtual_slots};
pub use steps::{has_count, is_struct, is_value, steps_of};
