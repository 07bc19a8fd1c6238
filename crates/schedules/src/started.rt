// Which threads were started, and which of them live.
ghost use Rattle.std.specs.Prelude.{◌≡◌, ℕ, ◌++◌, [], ◌∷◌, Option, IfOk, OnOk, length, slice_get};
ghost use Rattle.store_object.specs.Replay.{store};
ghost use Rattle.store_object.specs.Store.{Store, opening};
ghost use Rattle.interaction.specs.Object.{is_active, live_threads};
ghost use Rattle.interaction.specs.Run.{chosen};
ghost use Rattle.schedules.specs.Living.{HasStarted, done_change, change_of, finished_after, over_after};

use mn_outside::NoMemory;
use std::alloc::Global;
use store_object::{Event, Reply, Request};

/// What an event changes of the threads.
#[derive(Clone, Copy)]
pub enum Change {
    Nothing,
    Ends,
    Finishes,
    Starts,
}

// What a request that was done changes.
fn done_change(request: Request) -> Change
    ensures { result ≡ done_change request }
{
    match request {
        Request::Finish => Change::Finishes,
        Request::Fall { .. } => Change::Ends,
        _ => Change::Nothing,
    }
}

// What a request with its reply changes.
fn change_of(request: Request, reply: Reply) -> Change
    ensures { result ≡ change_of request reply }
{
    match reply {
        Reply::Thread(_) => Change::Starts,
        Reply::Done => done_change(request),
        Reply::Stopped(_) => Change::Ends,
        _ => Change::Nothing,
    }
}

/// Whether each started thread has finished, and whether the history has ended for all of them.
#[derive(Drop)]
pub struct Started {
    pub finished: Vec<bool>,
    pub is_over: bool,
}

impl Started {
    /// Thread 0 alone.
    pub fn new(alloc: Global) -> Result<Started, NoMemory>
        ensures { IfOk result (λ started. HasStarted started opening) }
    {
        let mut finished = Vec::new(alloc);
        match finished.push(false) {
            Ok(()) => Ok(Started {
                finished,
                is_over: false,
            }),
            Err(_) => Err(NoMemory),
        }
    }

    // Whether a thread was started and lives.
    fn is_live(&self, thread: usize) -> bool
        ensures { (s : Store) → HasStarted self.now s → result ≡ is_active store s thread }
    {
        if self.is_over {
            return false;
        }
        match self.finished.as_slice().get(thread) {
            Some(has_finished) => !*has_finished,
            None => false,
        }
    }

    // How many threads live.
    #[tactic(auto, using(crate::proofs::LiveLemmas::count_one, crate::proofs::LiveLemmas::count_none))]
    fn count(&self) -> usize
        ensures { (s : Store) → HasStarted self.now s → result ≡ length (live_threads store s) }
    {
        let mut count = 0;
        for thread in 0..self.finished.len() {
            if self.is_live(thread) {
                count += 1;
            }
        }
        count
    }

    // The live thread that has so many live ones before it.
    #[tactic(auto, using(crate::proofs::LiveLemmas::count_one, crate::proofs::LiveLemmas::count_none))]
    fn live_at(&self, place: usize) -> Result<Option<u32>, NoMemory>
        ensures { IfOk result (λ (thread : Option ℕ). (s : Store) → HasStarted self.now s → thread ≡ slice_get (live_threads store s) place) }
    {
        let finished = self.finished.as_slice();
        let mut left = place;
        for thread in 0..finished.len() {
            if self.is_live(thread) {
                if left == 0 {
                    return match u32::try_from(thread) {
                        Ok(number) => Ok(Some(number)),
                        Err(_) => Err(NoMemory),
                    };
                }
                left -= 1;
            }
        }
        Ok(None)
    }

    /// The live thread that a number chooses: of the live ones, in rising order and counted from 0, the one at
    /// the number modulo their count. None where nobody lives. It looks at each started thread twice, and takes no
    /// memory; want of memory is answered for threads past the number 2^32 - 1 alone.
    pub fn chosen(&self, number: u32) -> Result<Option<u32>, NoMemory>
        ensures { IfOk result (λ (thread : Option ℕ). (s : Store) → HasStarted self.now s → thread ≡ chosen (live_threads store s) number) }
    {
        let count = self.count();
        if count == 0 {
            return Ok(None);
        }
        self.live_at(number as usize % count)
    }

    // The threads after a change by one of them.
    fn apply(&mut self, change: Change, thread: u32) -> Result<(), NoMemory>
        ensures finished { OnOk result (self.new.finished.items ≡ finished_after change thread self.old.finished.items) }
        ensures over { OnOk result (self.new.is_over ≡ over_after change self.old.is_over) }
    {
        match change {
            Change::Nothing => Ok(()),
            Change::Ends => {
                self.is_over = true;
                Ok(())
            }
            Change::Finishes => {
                let thread = thread as usize;
                if thread < self.finished.len() {
                    self.finished[thread] = true;
                }
                Ok(())
            }
            Change::Starts => match self.finished.push(false) {
                Ok(()) => Ok(()),
                Err(_) => Err(NoMemory),
            },
        }
    }

    /// After an event, which the store has answered.
    pub fn follow(&mut self, event: &Event) -> Result<(), NoMemory>
        ensures finished { OnOk result (self.new.finished.items ≡ finished_after (change_of event.now.request event.now.reply) event.now.thread self.old.finished.items) }
        ensures over { OnOk result (self.new.is_over ≡ over_after (change_of event.now.request event.now.reply) self.old.is_over) }
    {
        let change = change_of(event.request, event.reply);
        self.apply(change, event.thread)?;
        Ok(())
    }
}
