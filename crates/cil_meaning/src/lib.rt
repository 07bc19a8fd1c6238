//! What a program means: the process of CIL, each instruction once, as a tree.
#![tactic(auto)]

mod small_programs;

pub use small_programs::small_programs_mean_so;
