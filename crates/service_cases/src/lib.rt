//! Tests of the services of the runtime over an image, turn by turn.
#![tactic(auto)]

#[cfg(test)]
mod answers;
#[cfg(test)]
mod calls;
#[cfg(test)]
mod fills;
#[cfg(test)]
mod images;
#[cfg(test)]
mod services;
#[cfg(test)]
mod stubs;
#[cfg(test)]
mod turns;
