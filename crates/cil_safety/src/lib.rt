//! A program of an accepted text that passed the verifier is never stuck.
#![tactic(auto)]

mod safety;

pub use safety::verified_programs_are_never_stuck;
