// The state of a thread, and what its next turn is.
use crate::doing::Doing;
use interaction::What;
use mn_outside::{MachineFault, Region};
use rgctx_words::Stack;
use rv_machine::Core;
use std::marker::Model;
use store_object::Request;

/// What a turn did, or the request that it makes; or why there is no turn: the region of context words that is
/// full, with the key that has no place, or a fault.
#[derive(Clone, Copy, Debug, PartialEq, Eq)]
pub enum Want {
    Did(What),
    Ask(Request),
    Full(Region, u64),
    Fault(MachineFault),
}

/// The state of a thread: its core, its frames, and who goes on.
#[derive(Drop)]
pub struct ThreadState {
    pub core: Core,
    pub stack: Stack,
    pub doing: Doing,
}

impl Model for ThreadState {
    ghost use Rattle.rgctx_fill.specs.ThreadStates.{ThreadData};

    ghost Value = { ThreadData };

    ghost view = { λ s. record { core = s.core; stack = s.stack; doing = s.doing } };
}
