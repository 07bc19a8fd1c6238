// The store with its history.
ghost use Rattle.std.specs.Prelude.{◌≡◌, ◌+◌, ◌<◌, ◌≤◌, [], IfOk, OnOk, OnErr, IsOk};
ghost use Rattle.store_object.specs.Answer.{answer};
ghost use Rattle.store_object.specs.Replay.{replayed, Replays, noted};
ghost use Rattle.store_object.specs.World.{KeepsAll, IsAlloc};

use crate::state::State;
use crate::{Event, Reply, Request};
use mn_outside::NoMemory;
use std::alloc::Global;
use std::marker::Model;

/// The store, with the history of all that it was asked. Contracts see the history, which replays to the store, and for
/// how many events there is room besides.
#[derive(Drop)]
pub struct World {
    state: State,
    history: Vec<Event>,
}

impl Model for World {
    ghost use Rattle.store_object.specs.World.{Kept};

    ghost Value = { Kept };

    ghost use Rattle.store_object.specs.State.{IsKept, room_of};

    ghost view = { λ w. record { history = w.history.items; room = room_of w.state w.history } };

    ghost invariant = { λ w. IsKept w.state w.history.items };
}

impl World {
    /// A store without objects, whose static words are all 0, with thread 0 and an empty history.
    /// It takes the room for all threads that may start.
    pub fn new(alloc: Global) -> Result<World, NoMemory>
        ensures history { IfOk result (λ world. world.history ≡ []) }
    {
        match State::new(alloc) {
            Ok(state) => Ok(World {
                state,
                history: Vec::new(alloc),
            }),
            Err(_) => Err(NoMemory),
        }
    }

    /// Makes room for one event and one static word. Directly after it only an Alloc can want for memory.
    pub fn reserve(&mut self) -> Result<(), NoMemory>
        ensures room { OnOk result (0 < self.new.room) }
        ensures kept { KeepsAll self.old self.new }
    {
        match self.state.statics.reserve() {
            Ok(()) => match self.history.reserve(1) {
                Ok(()) => Ok(()),
                Err(_) => Err(NoMemory),
            },
            Err(_) => Err(NoMemory),
        }
    }

    /// Answers the request of a thread, numbered from 0, by the store that the history replays to, and notes it in the
    /// history. Halted and Improper are not noted and change nothing. It takes constant time on average.
    pub fn ask(&mut self, thread: u32, request: Request) -> Result<Reply, NoMemory>
        ensures reply { IfOk result (λ reply. reply ≡ (answer (replayed self.old.history) thread request).0) }
        ensures noted { IfOk result (λ reply. self.new.history ≡ noted self.old.history thread request reply) }
        ensures replays { Replays self.new.history }

        // Room that was reserved is enough for all but a new object, and a request takes the room of one event.
        ensures reserved { 0 < self.old.room → ¬ (IsAlloc request) → IsOk result }
        ensures room { self.old.room ≤ self.new.room + 1 }
        ensures err { OnErr result (KeepsAll self.old self.new) }
    {
        match self.state.answer(&mut self.history, thread, request) {
            Ok(reply) => Ok(reply),
            Err(_) => Err(NoMemory),
        }
    }

    /// The events so far, oldest first.
    pub fn history(&self) -> &[Event]
        ensures events { result.now ≡ self.now.history }
        ensures replays { Replays result.now }
    {
        &self.history
    }

    /// The events, oldest first.
    pub fn into_history(self) -> Vec<Event>
        ensures events { result.items ≡ self.history }
        ensures replays { Replays result.items }
    {
        self.history
    }
}
