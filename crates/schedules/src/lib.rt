//! Schedules: the numbers by which a run chooses its next thread, which thread a number chooses, and how a run ends after which nobody lives.
#![tactic(auto)]

mod drawing;
mod ends;
mod started;

pub use drawing::Drawing;
pub use ends::ended_by;
pub use started::{Change, Started};
