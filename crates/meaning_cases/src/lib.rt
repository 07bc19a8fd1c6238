//! Tests of what programs mean, on whole texts.
#![tactic(auto)]

#[cfg(test)]
mod histories;
#[cfg(test)]
mod rows;
