// The whole run.
ghost use Rattle.std.specs.Prelude.{◌≡◌, ◌≤◌, ◌<◌, ◌^◌, ◌+◌, ◌++◌, ◌∷◌, [], ℕ, List, Option, Some, drop, length, vec_len, IfOk, OnOk};
ghost use Rattle.store_object.specs.Store.{Store};
ghost use Rattle.schedules.specs.Living.{HasStarted};
ghost use Rattle.type_tree.specs.declared.tree.TExpr.{TExpr as TheType};
ghost use Rattle.interaction.specs.Object.{live_threads};
ghost use Rattle.interaction.specs.Run.{chosen};
ghost use Rattle.store_object.specs.Replay.{replayed, store};
ghost use Rattle.il_model.specs.ClassRules.{HasTypes, EachClass, HasFewSlots};
ghost use Rattle.type_inst.specs.Opening.{Extends};
ghost use Rattle.unshared.specs.Listed.{IsOnce, naming_of};
ghost use Rattle.store_object.specs.declared.ending.Ending.{Ending as TheEnding};
ghost use Rattle.unshared.specs.Reached.{AreFine, IsAt, IsReady, IsNoted, TurnedOrEnded, GoesOnOrEnds};
ghost use Rattle.unshared.specs.Took.{Moved};
ghost use Rattle.std.specs.List.{last_or};
ghost use Rattle.cil_verify.specs.Verifies.{IsVerified};
ghost use Rattle.schedules.specs.Numbers.{HasNumbers};
ghost use Rattle.il_model.specs.Accepted.{IsOfText};
ghost use Rattle.unshared.specs.Runs.{last_ending, IsMeant, IsSureEnding};

use crate::thread::{Thread, Turn, main_thread, started_thread};
use crate::trees::Trees;
use cil_verify::Verified;
use il_model::Program;
use mn_outside::{FaultCause, MachineFault, NoMemory};
use schedules::{Drawing, Started, ended_by};
use sqlite_items::Items;
use std::alloc::Global;
use store_object::{Chooser, Ending, Event, Reply, Request, World};
use type_tree::Tree;

/// A run of the plain meaning.
#[derive(Drop)]
pub struct Meant {
    /// The types that have numbers, each at its number.
    pub trees: Items<Tree>,
    /// The number drawn for each turn.
    pub schedule: Vec<u32>,
    /// The thread that took each turn.
    pub order: Vec<u32>,
    /// Each request with its reply, in order.
    pub history: Vec<Event>,
    pub ending: Ending,
}

// The end of a run that comes to a thread without a rule.
const NO_RULE: Ending = Ending::Fault {
    fault: MachineFault {
        pc: 0,
        cause: FaultCause::Break,
    },
};

fn note(list: &mut Vec<u32>, number: u32) -> Result<(), NoMemory>
    ensures { OnOk result (list.new.items ≡ list.old.items ++ number ∷ []) }
{
    match list.push(number) {
        Ok(()) => Ok(()),
        Err(_) => Err(NoMemory),
    }
}

fn put(threads: &mut Vec<Thread>, thread: Thread) -> Result<(), NoMemory>
    ensures { OnOk result (threads.new.items ≡ threads.old.items ++ thread ∷ []) }
{
    match threads.push(thread) {
        Ok(()) => Ok(()),
        Err(_) => Err(NoMemory),
    }
}

// A run so far.
#[derive(Drop)]
struct Run {
    trees: Trees,
    threads: Vec<Thread>,
    started: Started,
    world: World,
    schedule: Vec<u32>,
    order: Vec<u32>,
}

#[tactic(auto, using(crate::proofs::WholeLemmas::at_first))]
fn opening(alloc: Global, program: &Program) -> Result<Run, NoMemory>
    ensures { IfOk result (λ run. (ks : List ℕ) → IsAt program.now ks 0 run) }
{
    let mut threads = Vec::new(alloc);
    let thread = main_thread(alloc, program)?;
    put(&mut threads, thread)?;
    let started = Started::new(alloc)?;
    let world = World::new(alloc)?;
    Ok(Run {
        trees: Trees::new(alloc),
        threads,
        started,
        world,
        schedule: Vec::new(alloc),
        order: Vec::new(alloc),
    })
}

// One turn of the thread at a place.
fn turn_at(
    alloc: Global,
    program: &Program,
    threads: &mut Vec<Thread>,
    trees: &mut Trees,
    world: &mut World,
    thread: u32,
) -> Result<Turn, NoMemory>
    requires types { HasTypes program.now }
    requires slots { EachClass HasFewSlots program.now }
    requires once { IsOnce trees.old.kinds }
    requires fine { AreFine program.now threads.old.items trees.old.kinds }
    requires inside { thread < vec_len threads.old }
    ensures { IfOk result (Moved program.now thread threads.old.items threads.new.items trees.old.kinds trees.new.kinds world.old.history world.new.history) }
{
    let state = &mut threads[thread as usize];
    Ok(state.turn(alloc, program, trees, world, thread)?)
}

impl Run {
    // Notes a turn, with the number that was drawn for it and the thread that took it.
    fn note(&mut self, number: u32, thread: u32) -> Result<(), NoMemory>
        ensures { OnOk result (IsNoted number thread self.old self.new) }
    {
        note(&mut self.schedule, number)?;
        note(&mut self.order, thread)?;
        Ok(())
    }

    // One turn of a thread, which a number chose; whether it was one.
    fn turn(
        &mut self,
        alloc: Global,
        program: &Program,
        number: u32,
        thread: u32,
    ) -> Result<bool, NoMemory>
        requires types { HasTypes program.now }
        requires slots { EachClass HasFewSlots program.now }
        requires ready { IsReady program.now self.old }
        requires inside { thread < vec_len self.old.threads }
        ensures { IfOk result (λ made. (ks : List ℕ) (turns : ℕ) → IsAt program.now ks turns self.old →
            drop turns ks ≡ number ∷ drop (turns + 1) ks → chosen (live_threads store (replayed self.old.world.history)) number ≡ Some thread →
            TurnedOrEnded program.now ks turns self.new made) }
    {
        let turn = turn_at(
            alloc,
            program,
            &mut self.threads,
            &mut self.trees,
            &mut self.world,
            thread,
        )?;
        match turn {
            Turn::NoRule => Ok(false),
            Turn::Quiet => {
                self.note(number, thread)?;
                Ok(true)
            }
            Turn::Asked { event } => {
                self.started.follow(&event)?;
                self.note(number, thread)?;
                Ok(true)
            }
            Turn::Started { event, object } => {
                self.started.follow(&event)?;
                let begun = started_thread(alloc, program, object)?;
                put(&mut self.threads, begun)?;
                self.note(number, thread)?;
                Ok(true)
            }
        }
    }

    // The turn of the live thread that a number chooses. The end, if the run ends here.
    fn step(
        &mut self,
        alloc: Global,
        program: &Program,
        number: u32,
    ) -> Result<Option<Ending>, NoMemory>
        requires types { HasTypes program.now }
        requires slots { EachClass HasFewSlots program.now }
        requires ready { IsReady program.now self.old }
        ensures { IfOk result (λ (end : Option TheEnding). (ks : List ℕ) (turns : ℕ) → IsAt program.now ks turns self.old →
            drop turns ks ≡ number ∷ drop (turns + 1) ks → GoesOnOrEnds program.now ks turns self.new end) }
    {
        let Some(thread) = self.started.chosen(number)? else {
            return Ok(Some(ended_by(self.world.history())));
        };
        if self.turn(alloc, program, number, thread)? {
            Ok(None)
        } else {
            Ok(Some(NO_RULE))
        }
    }

    // The record, with this end.
    fn meant(self, alloc: Global, ending: Ending) -> Result<Meant, NoMemory>
        ensures trees { IfOk result (λ m. m.trees ≡ self.trees.kinds) }
        ensures few { IfOk result (λ m. length m.trees ≤ 2 ^ 32) }
        ensures schedule { IfOk result (λ m. m.schedule.items ≡ self.schedule.items) }
        ensures order { IfOk result (λ m. m.order.items ≡ self.order.items) }
        ensures history { IfOk result (λ m. m.history.items ≡ self.world.history) }
        ensures ending { IfOk result (λ m. m.ending ≡ ending) }
    {
        let Run {
            trees,
            threads: _,
            started: _,
            world,
            schedule,
            order,
        } = self;
        let trees = trees.into_items(alloc)?;
        Ok(Meant {
            trees,
            schedule,
            order,
            history: world.into_history(),
            ending,
        })
    }

    // The end where so many turns are made.
    #[tactic(auto, using(crate::proofs::LastLemmas::ends_none, crate::proofs::LastLemmas::ends_some))]
    fn last(&self) -> Result<Ending, NoMemory>
        ensures { IfOk result (λ ending. (s : Store) → HasStarted self.now.started s → ending ≡ last_ending self.now.world.history (live_threads store s)) }
    {
        match self.started.chosen(0)? {
            None => Ok(ended_by(self.world.history())),
            Some(_) => Ok(Ending::Turns),
        }
    }
}

// The run of a program whose types and slots are as they have to be.
fn runs(alloc: Global, program: &Program, chooser: &Chooser, turns: u32) -> Result<Meant, NoMemory>
    requires types { HasTypes program.now }
    requires slots { EachClass HasFewSlots program.now }
    requires enough { HasNumbers chooser.now turns }
    ensures { IfOk result (λ m. IsMeant program.now chooser.now turns m.trees m.schedule.items m.order.items m.history.items m.ending) }
{
    let mut run = opening(alloc, program)?;
    let mut drawing = Drawing::of(chooser);
    for _turn in 0..turns {
        let number = drawing.draw(chooser);
        if let Some(ending) = run.step(alloc, program, number)? {
            return Ok(run.meant(alloc, ending)?);
        }
    }
    let ending = run.last()?;
    Ok(run.meant(alloc, ending)?)
}

/// Runs a program by its written meaning: its processes take turns over the store, one for each number of the chooser,
/// until nobody lives or so many turns are made. A turn is one request with what is silent after it, or one
/// instruction that makes none. A list has at least as many numbers as there are turns. This project's own.
#[tactic(auto, using(crate::proofs::VerifiedLemmas::types_of, crate::proofs::VerifiedLemmas::slots_of))]
pub fn mean(
    alloc: Global,
    program: &Verified,
    chooser: Chooser,
    turns: u32,
) -> Result<Meant, NoMemory>
    requires verified { IsVerified program.now }
    requires enough { HasNumbers chooser turns }
    ensures meant { IfOk result (λ m. IsMeant program.now.program chooser turns m.trees m.schedule.items m.order.items m.history.items m.ending) }
    // A program that some text is accepted as never comes to a thread without a rule.
    ensures sure { IsOfText program.now.program → IfOk result (λ m. IsSureEnding m.ending) }
{
    Ok(runs(alloc, program.program(), &chooser, turns)?)
}
