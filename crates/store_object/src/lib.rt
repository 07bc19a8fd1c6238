//! The store: one sequential object that answers the requests of all managed threads, with the history that it keeps.
#![tactic(auto)]

mod ending;
mod limits;
mod objects;
mod place;
mod reply;
mod request;
mod serving;
mod state;
mod statics;
#[cfg(test)]
mod tests;
mod world;

pub use ending::{Chooser, Ending};
pub use limits::{HEAP_LIMIT, INDEX_LIMIT, OBJECT_COST, THREAD_LIMIT};
pub use place::Place;
pub use reply::{Event, Reply};
pub use request::{Cause, Form, Request};
pub use world::World;
