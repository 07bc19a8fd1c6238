//! Calls and returns between bodies, in words of the frames alone.
#![tactic(auto)]

mod call;
mod copying;
mod entering;
mod leaving;
mod lying;
#[cfg(test)]
mod tests;

pub use call::{CallWords, Entered, Left};
pub use entering::enter;
pub use il_model::BodyRow;
pub use leaving::{has_caller, leave};
pub use lying::{are_listed, are_widths, lies};
pub use rgctx_words::Stack;
