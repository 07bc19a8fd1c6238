//! The flow of a method's body: how deep the stack is before each instruction, which instructions are targets, and the first fault.
#![tactic(auto)]

mod bad_places;
mod control;
mod effect;
mod fault;
mod judging;
mod marking;
mod meeting;
mod outcome;
mod pass;
mod plan;
mod region;
mod state;
#[cfg(test)]
mod tests;

pub use control::{Control, control_of, targets_of};
pub use effect::{Effect, effect_of};
pub use fault::{FlowCause, FlowFault};
pub use outcome::Flow;
pub use pass::flow;
pub use plan::Plan;
pub use region::Region;
pub use state::{StackType, State, States};
