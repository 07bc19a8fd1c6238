//! Processes that make requests, threads that take turns, and the histories of both.
#![tactic(auto)]

mod counter;
mod history;
mod turn;

pub use counter::counter_runs_soundly;
pub use history::Event;
pub use turn::What;
