// A run whose threads take turns as its caller chooses.
ghost use Rattle.std.specs.Prelude.{◌≡◌, ℕ, ◌++◌, ◌∷◌, [], Option, Some, None, false, true, IfOk};
ghost use Rattle.interaction.specs.Object.{is_active};
ghost use Rattle.rgctx_fill.specs.Serving.{IsServable};
ghost use Rattle.rgctx_fill.specs.ThreadStates.{image_of};
ghost use Rattle.schedules.specs.Living.{HasStarted};
ghost use Rattle.store_object.specs.Store.{Store};
ghost use Rattle.store_object.specs.Replay.{store};
ghost use Rattle.thread_core.specs.SoFar.{IsPlaceOf, StandsSo, HasTaken};

use crate::progress::Progress;
use crate::record::Turn;
use mn_outside::NoMemory;
use rgctx_fill::ImageView;
use schedules::{Started, ended_by};
use std::alloc::Global;
use store_object::{Ending, Event};

/// How the turn of a thread went: it was made, and a thread lives; the run is over, as its ending says; or the thread
/// does not live, so there was none.
#[derive(Clone, Copy, Debug, PartialEq, Eq)]
pub enum TurnEnd {
    Went,
    Over(Ending),
    NotLive,
}

/// A run so far: the words, the store, the threads, and what is noted of their turns. This project's own.
#[derive(Drop)]
pub struct RunSoFar {
    progress: Progress,
    ended: Option<Ending>,
}

// Whether a thread was started and lives.
fn lives(started: &Started, thread: u32) -> bool
    ensures { (s : Store) → HasStarted started.now s → result ≡ is_active store s thread }
{
    if started.is_over {
        return false;
    }
    match started.finished.as_slice().get(thread as usize) {
        Some(has_finished) => !*has_finished,
        None => false,
    }
}

// How many live threads are before a live one.
fn place_of(started: &Started, thread: u32) -> Option<u32>
    ensures { (s : Store) → HasStarted started.now s → IsPlaceOf s thread result }
{
    if !lives(started, thread) {
        return None;
    }
    let mut place: u32 = 0;
    for below in 0..thread {
        if lives(started, below) {
            place += 1;
        }
    }
    Some(place)
}

impl RunSoFar {
    /// The run of an image before its first turn: the opening words, an empty history, and thread 0 at the entry point.
    pub fn begin(alloc: Global, image: &ImageView) -> Result<RunSoFar, NoMemory>
        requires { IsServable (image_of image.now) }
        ensures begun { IfOk result (λ r. (r.ended ≡ None) × (r.progress.schedule.items ≡ []) × (r.progress.world.history ≡ [])) }
        ensures stands { IfOk result (StandsSo (image_of image.now)) }
    {
        let progress = Progress::opening(alloc, image)?;
        Ok(RunSoFar {
            progress,
            ended: None,
        })
    }

    /// The next turn of a thread, for which the number of live threads before it is noted as the schedule's. Where the
    /// thread does not live nothing changes, nor where the run is over. After want of memory the run is not to be used
    /// again. It looks at each started thread, and takes no memory but that of the notes.
    pub fn turn(
        &mut self,
        alloc: Global,
        image: &ImageView,
        thread: u32,
    ) -> Result<TurnEnd, NoMemory>
        requires image { IsServable (image_of image.now) }
        requires stands { StandsSo (image_of image.now) self.old }
        ensures turn { IfOk result (λ end. HasTaken (image_of image.now) thread self.old self.new end) }
        ensures stands { IfOk result (λ end. StandsSo (image_of image.now) self.new) }
    {
        let Some(place) = place_of(&self.progress.started, thread) else {
            return Ok(TurnEnd::NotLive);
        };
        if let Some(ending) = self.ended {
            return Ok(TurnEnd::Over(ending));
        }
        if let Some(ending) = self.progress.step(alloc, image, place)? {
            self.ended = Some(ending);
            return Ok(TurnEnd::Over(ending));
        }
        if let Some(ending) = self.progress.end()? {
            self.ended = Some(ending);
            return Ok(TurnEnd::Over(ending));
        }
        Ok(TurnEnd::Went)
    }

    /// A number for each turn, and for a chosen thread that had none: of the live threads, counted from 0, the one that
    /// took it. With these numbers as its schedule a run comes here.
    pub fn schedule(&self) -> &[u32]
        ensures { result.now ≡ self.now.progress.schedule.items }
    {
        self.progress.schedule.as_slice()
    }

    /// Each turn with its thread, in order.
    pub fn turns(&self) -> &[Turn]
        ensures { result.now ≡ self.now.progress.turns.items }
    {
        self.progress.turns.as_slice()
    }

    /// Each request with its reply, in order.
    pub fn history(&self) -> &[Event]
        ensures { result.now ≡ self.now.progress.world.history }
    {
        self.progress.world.history()
    }

    /// The 81,920 context words.
    pub fn words(&self) -> &[u64]
        ensures { result.now ≡ self.now.progress.words.words }
    {
        self.progress.words.words()
    }
}
