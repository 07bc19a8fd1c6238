//! Tests of compiled plain instructions, run on the machine.
#![tactic(auto)]

#[cfg(test)]
mod against_mean;
#[cfg(test)]
mod arguments;
#[cfg(test)]
mod branches;
#[cfg(test)]
mod compiling;
#[cfg(test)]
mod edges;
#[cfg(test)]
mod numbers;
#[cfg(test)]
mod places;
#[cfg(test)]
mod plans;
#[cfg(test)]
mod running;
#[cfg(test)]
mod strings;
#[cfg(test)]
mod texts;
