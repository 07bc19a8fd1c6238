//! One instruction of RV64IM over a bus.
#![tactic(auto)]

mod arithmetic;
mod bus;
mod condition;
mod effect;
mod effects;
mod kind;
mod laws;
mod operation;
mod outcome;
mod registers;
mod size;
mod table;
mod turn;

pub use bus::Bus;
pub use effect::Effect;
pub use laws::distances_lead_to_labels;
pub use outcome::Step;
pub use registers::Core;
pub use size::Size;
pub use turn::step;

#[cfg(test)]
mod tests;
