//! Type trees: their positions, substitution for their variables, and their printed names.
#![tactic(auto)]

mod closing;
mod copying;
mod counting;
mod equality;
mod printing;
mod substitution;
#[cfg(test)]
mod tests;
mod tree;

pub use closing::is_closed;
pub use copying::copy_all;
pub use counting::positions;
pub use equality::same_all;
pub use printing::name_of;
pub use substitution::{MOST_POSITIONS, TooLarge, subst, subst_whole};
pub use tree::{Head, TExpr, TNode, Tree};
