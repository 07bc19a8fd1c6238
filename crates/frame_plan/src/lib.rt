//! The frame of a compiled body: how wide each of its places is, and where it lies.
#![tactic(auto)]

mod kinds;
mod laws;
mod laying;
mod passing;
mod planning;
mod stacks;
#[cfg(test)]
mod tests;
mod widths;

pub use cil_flow::Plan;
pub use laws::places_hold_values;
pub use planning::plan;
