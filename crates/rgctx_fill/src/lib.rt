//! Context words: what a node and an entry name, which words may stand together, the readers and the lazy fill; and
//! a thread's state and turn, as definitions.
#![tactic(auto)]

mod applying;
mod beginning;
mod doing;
mod fill;
mod image;
pub mod laws;
mod limits;
mod naming;
mod planning;
mod reading;
mod rule;
mod service;
mod spelled;
mod stage;
mod starting;
mod templating;
#[cfg(test)]
mod tests;
mod thread;
mod turning;
mod values;

pub use beginning::opening_words;
pub use doing::{Doing, Thrown};
pub use fill::Fill;
pub use image::{FrameCount, ImageView};
pub use rule::Fits;
pub use service::ServiceKind;
pub use spelled::{NodeTemplate, NodeTree};
pub use stage::{FillNext, FillStep, NodeStep, Region, Stage};
pub use starting::FillStart;
pub use thread::{ThreadState, Want};
