//! Tests of whole commands on whole texts.
#![tactic(auto)]

#[cfg(test)]
mod checked;
#[cfg(test)]
mod limits;
#[cfg(test)]
mod verifying;
