// A run so far, and its next turn.
ghost use Rattle.std.specs.Prelude.{◌≡◌, ◌≢◌, ◌<◌, ◌+◌, ◌++◌, ◌∷◌, [], ℕ, List, Option, Some, None, true, false, drop, vec_len, slice_get, slice_index, IfOk, OnOk};
ghost use Rattle.std.specs.List.{last_or};
ghost use Rattle.interaction.specs.Object.{is_active, live_threads};
ghost use Rattle.interaction.specs.Run.{chosen};
ghost use Rattle.rgctx_words.specs.Held.{AreFit};
ghost use Rattle.rgctx_template.specs.Catalogue.{data_of};
ghost use Rattle.rgctx_fill.specs.Fitting.{AreFitting};
ghost use Rattle.rgctx_fill.specs.Serving.{IsServable};
ghost use Rattle.rgctx_fill.specs.ThreadStates.{ImageData, ThreadData, image_of};
ghost use Rattle.schedules.specs.Living.{HasStarted};
ghost use Rattle.store_object.specs.Store.{Store};
ghost use Rattle.store_object.specs.Replay.{replayed, store};
ghost use Rattle.store_object.specs.declared.ending.Ending.{Ending as TheEnding};
ghost use Rattle.thread_core.specs.Listed.{IsListed};
ghost use Rattle.thread_core.specs.Runs.{improper_fault, refusal, last_ending, IsEndOf};
ghost use Rattle.thread_core.specs.Going.{has_ended};
ghost use Rattle.thread_core.specs.Reached.{AreFine, AreMet, IsReady, IsAt, HasEnded, GoesOnOrEnds, Turned, Replied, begun_of, begun_with, SpokeOrRefused, IsNoted, IsDrawn};
ghost use Rattle.thread_core.specs.Starts.{starts, object_by, object_started};

use crate::listed::ListedWords;
use crate::record::Turn;
use crate::starts::{main_state, started_state};
use crate::thread::next;
use interaction::What;
use mn_outside::{FaultCause, MachineFault, NoMemory};
use rgctx_fill::{ImageView, ThreadState, Want, opening_words};
use rt_service::answer;
use schedules::{Started, ended_by};
use std::alloc::Global;
use store_object::{Ending, Event, Reply, Request, World};

/// A run so far: the words, the store, the threads in the order of their start, and what is noted.
#[derive(Drop)]
pub(crate) struct Progress {
    pub(crate) words: ListedWords,
    pub(crate) world: World,
    pub(crate) started: Started,
    pub(crate) threads: Vec<ThreadState>,
    pub(crate) schedule: Vec<u32>,
    pub(crate) turns: Vec<Turn>,
}

fn put(threads: &mut Vec<ThreadState>, thread: ThreadState) -> Result<(), NoMemory>
    ensures { OnOk result (threads.new.items ≡ threads.old.items ++ thread ∷ []) }
{
    match threads.push(thread) {
        Ok(()) => Ok(()),
        Err(_) => Err(NoMemory),
    }
}

fn put_number(list: &mut Vec<u32>, number: u32) -> Result<(), NoMemory>
    ensures { OnOk result (list.new.items ≡ list.old.items ++ number ∷ []) }
{
    match list.push(number) {
        Ok(()) => Ok(()),
        Err(_) => Err(NoMemory),
    }
}

fn put_turn(turns: &mut Vec<Turn>, turn: Turn) -> Result<(), NoMemory>
    ensures { OnOk result (turns.new.items ≡ turns.old.items ++ turn ∷ []) }
{
    match turns.push(turn) {
        Ok(()) => Ok(()),
        Err(_) => Err(NoMemory),
    }
}

// The fault of a request that names what the store does not have.
fn improper_fault(state: &ThreadState) -> MachineFault
    ensures { result ≡ improper_fault state.now }
{
    MachineFault {
        pc: state.core.pc.saturating_sub(4),
        cause: FaultCause::Service(state.core.x[17]),
    }
}

// The next turn of the thread at a place.
fn turn_at(
    alloc: Global,
    image: &ImageView,
    threads: &mut Vec<ThreadState>,
    words: &mut ListedWords,
    thread: u32,
) -> Result<Want, NoMemory>
    requires image { IsServable (image_of image.now) }
    requires met { AreMet (data_of image.now.cat) words.old.words }
    requires fine { AreFine (data_of image.now.cat) words.old.words threads.old.items }
    requires inside { thread < vec_len threads.old }
    requires going { (s : ThreadData) → slice_get threads.old.items thread ≡ Some s → has_ended s.doing ≡ false }
    ensures { IfOk result (Turned (image_of image.now) thread threads.old.items threads.new.items words.old words.new) }
{
    words.listed();
    let state = &mut threads[thread as usize];
    let said = next(alloc, state, image, words)?;
    words.listed();
    Ok(said)
}

// The thread at a place takes a reply.
fn answer_at(threads: &mut Vec<ThreadState>, thread: u32, reply: Reply)
    requires { thread < vec_len threads.old }
    ensures { (im : ImageData) → Replied im thread threads.old.items threads.new.items reply }
{
    let state = &mut threads[thread as usize];
    answer(state, reply);
}

// The object, where the reply starts a thread.
fn object_by(object: u32, reply: Reply) -> Option<u32>
    ensures { result ≡ object_by object reply }
{
    match reply {
        Reply::Thread(_) => Some(object),
        _ => None,
    }
}

// The object of the thread that a request with its reply starts.
fn object_started(request: Request, reply: Reply) -> Option<u32>
    ensures { result ≡ object_started request reply }
{
    match request {
        Request::Start { object } => object_by(object, reply),
        _ => None,
    }
}

// A thread with this object is put behind the others.
fn put_started(
    alloc: Global,
    image: &ImageView,
    threads: &mut Vec<ThreadState>,
    object: Option<u32>,
) -> Result<(), NoMemory>
    requires { IsServable (image_of image.now) }
    ensures { OnOk result (threads.new.items ≡ threads.old.items ++ begun_with (image_of image.now) object) }
{
    match object {
        Some(object) => {
            let begun = started_state(alloc, image, object)?;
            put(threads, begun)?;
            Ok(())
        }
        None => Ok(()),
    }
}

// A thread that a reply starts is put behind the others.
#[tactic(auto, using(crate::proofs::ObjectLemmas::begun_so))]
fn start_by(
    alloc: Global,
    image: &ImageView,
    threads: &mut Vec<ThreadState>,
    request: Request,
    reply: Reply,
) -> Result<(), NoMemory>
    requires { IsServable (image_of image.now) }
    ensures { OnOk result (threads.new.items ≡ threads.old.items ++ begun_of (starts (image_of image.now) request reply)) }
{
    put_started(alloc, image, threads, object_started(request, reply))?;
    Ok(())
}

// How a reply ends the run, if it is no reply to a turn.
fn refusal(state: &ThreadState, reply: Reply) -> Option<Ending>
    ensures { result ≡ refusal state.now reply }
{
    match reply {
        Reply::Improper => Some(Ending::Fault {
            fault: improper_fault(state),
        }),
        Reply::Halted => Some(Ending::Done),
        _ => None,
    }
}

impl Progress {
    // The opening words, a new store, and thread 0 at the entry point.
    pub(crate) fn opening(alloc: Global, image: &ImageView) -> Result<Progress, NoMemory>
        requires { IsServable (image_of image.now) }
        ensures at { IfOk result (λ r. (ks : List ℕ) → IsAt (image_of image.now) ks 0 0 r) }
        ensures empty { IfOk result (λ r. r.world.history ≡ []) }
    {
        let opening = opening_words(alloc, image.cat.program)?;
        let words = ListedWords::of(alloc, opening)?;
        let world = World::new(alloc)?;
        let started = Started::new(alloc)?;
        let mut threads = Vec::new(alloc);
        let first = main_state(alloc, image)?;
        put(&mut threads, first)?;
        Ok(Progress {
            words,
            world,
            started,
            threads,
            schedule: Vec::new(alloc),
            turns: Vec::new(alloc),
        })
    }

    fn note(&mut self, thread: u32, what: What) -> Result<(), NoMemory>
        ensures { OnOk result (IsNoted thread what self.old self.new) }
    {
        put_turn(&mut self.turns, Turn { thread, what })?;
        Ok(())
    }

    fn note_number(&mut self, number: u32) -> Result<(), NoMemory>
        ensures { OnOk result (IsDrawn number self.old self.new) }
    {
        put_number(&mut self.schedule, number)?;
        Ok(())
    }

    // A request of a thread, and its reply.
    fn ask(
        &mut self,
        alloc: Global,
        image: &ImageView,
        thread: u32,
        request: Request,
    ) -> Result<Option<Ending>, NoMemory>
        requires image { IsServable (image_of image.now) }
        requires inside { thread < vec_len self.old.threads }
        ensures { IfOk result (SpokeOrRefused (image_of image.now) thread request self.old self.new) }
    {
        let reply = self.world.ask(thread, request)?;
        if let Some(ending) = refusal(&self.threads[thread as usize], reply) {
            return Ok(Some(ending));
        }
        answer_at(&mut self.threads, thread, reply);
        self.started.follow(&Event {
            thread,
            request,
            reply,
        })?;
        start_by(alloc, image, &mut self.threads, request, reply)?;
        self.note(thread, What::Action)?;
        Ok(None)
    }

    // The turn of a live thread, whose number is noted; or the end of a run in which it has none.
    fn turn(
        &mut self,
        alloc: Global,
        image: &ImageView,
        thread: u32,
    ) -> Result<Option<Ending>, NoMemory>
        requires image { IsServable (image_of image.now) }
        requires ready { IsReady (image_of image.now) self.old }
        requires inside { thread < vec_len self.old.threads }
        requires lives { is_active store (replayed self.old.world.history) thread ≡ true }
        ensures turn { IfOk result (λ (end : Option TheEnding). (ks : List ℕ) (made number : ℕ) → IsAt (image_of image.now) ks made (made + 1) self.old →
            drop made ks ≡ number ∷ drop (made + 1) ks → chosen (live_threads store (replayed self.old.world.history)) number ≡ Some thread →
            GoesOnOrEnds (image_of image.now) ks made self.new end) }
        ensures schedule { IfOk result (λ end. self.new.schedule.items ≡ self.old.schedule.items) }
    {
        match turn_at(alloc, image, &mut self.threads, &mut self.words, thread)? {
            Want::Did(what) => {
                self.note(thread, what)?;
                Ok(None)
            }
            Want::Ask(request) => {
                let ending = self.ask(alloc, image, thread, request)?;
                Ok(ending)
            }
            Want::Full(region, key) => Ok(Some(Ending::Full { region, key })),
            Want::Fault(fault) => Ok(Some(Ending::Fault { fault })),
        }
    }

    /// The turn of the live thread that a number chooses. The end, if the run ends here.
    pub(crate) fn step(
        &mut self,
        alloc: Global,
        image: &ImageView,
        number: u32,
    ) -> Result<Option<Ending>, NoMemory>
        requires image { IsServable (image_of image.now) }
        requires ready { IsReady (image_of image.now) self.old }
        ensures step { IfOk result (λ (end : Option TheEnding). (ks : List ℕ) (made : ℕ) → IsAt (image_of image.now) ks made made self.old →
            drop made ks ≡ number ∷ drop (made + 1) ks → GoesOnOrEnds (image_of image.now) ks made self.new end) }
        // The number is noted where it chooses a thread.
        ensures noted { IfOk result (λ (end : Option TheEnding). (u : ℕ) → chosen (live_threads store (replayed self.old.world.history)) number ≡ Some u →
            self.new.schedule.items ≡ self.old.schedule.items ++ number ∷ []) }
    {
        let Some(thread) = self.started.chosen(number)? else {
            return Ok(Some(ended_by(self.world.history())));
        };
        self.note_number(number)?;
        let ending = self.turn(alloc, image, thread)?;
        Ok(ending)
    }

    /// The end where nobody lives.
    pub(crate) fn end(&self) -> Result<Option<Ending>, NoMemory>
        ensures { IfOk result (λ (end : Option TheEnding). (s : Store) → HasStarted self.now.started s → IsEndOf self.now.world.history (live_threads store s) end) }
    {
        match self.started.chosen(0)? {
            None => Ok(Some(ended_by(self.world.history()))),
            Some(_) => Ok(None),
        }
    }

    /// The end where so many turns are made.
    pub(crate) fn last(&self) -> Result<Ending, NoMemory>
        ensures { IfOk result (λ ending. (s : Store) → HasStarted self.now.started s → ending ≡ last_ending self.now.world.history (live_threads store s)) }
    {
        match self.started.chosen(0)? {
            None => Ok(ended_by(self.world.history())),
            Some(_) => Ok(Ending::Turns),
        }
    }
}
