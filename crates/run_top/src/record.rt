// What the top call answers.
use cil_verify::Verified;
use interaction::What;
use store_object::{Ending, Event};
use unshared::Meant;

/// A turn of a thread. Threads are numbered from 0.
#[derive(Clone, Copy, Debug, PartialEq, Eq)]
pub struct Turn {
    pub thread: u32,
    pub what: What,
}

/// A run that came to an ending, with the accepted program and the image that it is of.
#[derive(Drop)]
pub struct RunRecord {
    pub program: Verified,
    /// The code words, of which word i stands at 65,536 + 4i.
    pub image: Vec<u32>,
    /// Each turn, in order.
    pub turns: Vec<Turn>,
    /// Each request with its reply, in order.
    pub history: Vec<Event>,
    pub ending: Ending,
}

/// A run of the written meaning of an accepted program.
#[derive(Drop)]
pub(crate) struct MeantRun {
    pub program: Verified,
    pub meant: Meant,
}

/// The status, and the run of an image where there was one.
#[derive(Drop)]
pub struct Outcome {
    pub status: u8,
    pub kept: Option<RunRecord>,
}
