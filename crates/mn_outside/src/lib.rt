//! What the product meets outside: files and a sink, real ones and ones in memory.
#![tactic(auto)]

mod calls;
mod entries;
mod files;
mod machine;
mod names;
mod outside;
mod places;
mod real;
mod sinks;

pub use files::{MemFiles, SureFiles};
pub use machine::{FaultCause, MachineFault};
pub use names::{Bytes, Name};
pub use outside::{Failed, Files, NoMemory, Refused, Sink};
pub use places::{Label, Region};
pub use real::{RealFiles, RealSink};
pub use sinks::{MemSink, SureSink};

#[cfg(test)]
mod tests;
