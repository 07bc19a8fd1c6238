//! The templates of methods and classes: what their code fetches from a runtime generic context, in order.
#![tactic(auto)]

mod catalogue;
mod closing;
mod collecting;
mod found;
mod hashing;
mod known;
mod members;
mod mention;
mod templating;
#[cfg(test)]
mod tests;

pub use catalogue::Catalogue;
pub use closing::closed_entry;
pub use collecting::{Entries, add};
pub use hashing::feed_tree;
pub use il_model::{Def, Entry};
pub use known::Known;
pub use templating::template;
