//! Tests of the parser and of types, on whole texts.
#![tactic(auto)]

#[cfg(test)]
mod layouts;
#[cfg(test)]
mod limits;
#[cfg(test)]
mod places;
#[cfg(test)]
mod printing;
#[cfg(test)]
mod programs;
#[cfg(test)]
mod refusals;
#[cfg(test)]
mod spellings;
#[cfg(test)]
mod types;
