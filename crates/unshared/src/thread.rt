// One thread: its frames, and the replies that its instruction got so far.
ghost use Rattle.std.specs.Prelude.{◌≡◌, ◌||◌, ◌++◌, [], ◌∷◌, List, map, IfOk, OnOk};
ghost use Rattle.store_object.specs.Replay.{is_halted, is_improper};
ghost use Rattle.type_tree.specs.declared.tree.TExpr.{TExpr as TheType};
ghost use Rattle.cil_meaning.specs.Threads.{owner_of, method_tree, main_frames, started_frames, frames_in};
ghost use Rattle.il_model.specs.Found.{method_at};
ghost use Rattle.type_inst.specs.Opening.{Extends};
ghost use Rattle.il_model.specs.ClassRules.{HasTypes, EachClass, HasFewSlots};
ghost use Rattle.unshared.specs.Standing.{Arrives};
ghost use Rattle.unshared.specs.Forms.{the_value};
ghost use Rattle.unshared.specs.Growing.{Grown, Grows};
ghost use Rattle.unshared.specs.Listed.{IsOnce, naming_of};
ghost use Rattle.unshared.specs.Standing.{Came, IsFine, Halts, doing, frames_or_none, stands};
ghost use Rattle.unshared.specs.declared.thread.Going.TheVariants as going;
ghost use Rattle.unshared.specs.Acts.{Halts as Left};
ghost use Rattle.unshared.specs.declared.pause.Halt.TheVariants as halt;
ghost use Rattle.unshared.specs.Took.{IsBegun, Took, object_begun, object_started, turn_of};

use crate::calls::alone_in;
use crate::found::method_at;
use crate::frames::Frames;
use crate::instruction::act;
use crate::pause::{Halt, Pause, Replies};
use crate::trees::Trees;
use crate::value::Value;
use il_model::{MethodTree, Program};
use mn_outside::NoMemory;
use sqlite_items::Items;
use std::alloc::Global;
use store_object::{Event, Reply, Request, World};
use type_tree::{Head, TExpr};

/// Whether a thread goes on, is over, or has come to where there is no rule.
#[derive(Clone, Copy)]
pub(crate) enum Going {
    On,
    Over,
    Stuck,
}

/// A thread. While it goes on it stands before an instruction, or before a request of one whose earlier requests got
/// these replies.
#[derive(Drop)]
pub(crate) struct Thread {
    frames: Option<Frames>,
    replies: Vec<Reply>,
    going: Going,
}

/// What a thread's turn came to.
#[derive(Clone, Copy)]
pub(crate) enum Turn {
    /// An instruction that makes no request.
    Quiet,
    /// A request, which starts no thread.
    Asked { event: Event },
    /// A request that started the next thread, which runs an object.
    Started { event: Event, object: u32 },
    /// It was none: there is no rule, or the store refuses the request.
    NoRule,
}

// The class in which the method with a number stands.
fn owner_of(program: &Program, number: u16) -> u16
    ensures { result ≡ owner_of (method_at program.now number) }
{
    match method_at(program, number) {
        Some(definition) => definition.owner,
        None => 0,
    }
}

// A method without type variables, in a class without any.
fn method_tree(alloc: Global, program: &Program, number: u16) -> MethodTree
    ensures { result ≡ method_tree program.now number }
{
    MethodTree {
        method: number,
        class: TExpr::plain(alloc, Head::Class(owner_of(program, number))),
        args: Items::new(alloc),
    }
}

// A thread that begins in a method with these arguments.
#[tactic(auto, using(crate::proofs::Arriving::begun_thread))]
fn thread_in(
    alloc: Global,
    program: &Program,
    number: u16,
    arguments: Vec<Value>,
) -> Result<Thread, NoMemory>
    ensures { IfOk result (λ thread. IsBegun program.now thread (frames_in program.now number (map the_value arguments.items))) }
{
    let method = method_tree(alloc, program, number);
    let frames = alone_in(alloc, program, method, arguments)?;
    Ok(Thread {
        frames,
        replies: Vec::new(alloc),
        going: Going::On,
    })
}

/// Thread 0 at its beginning, in Main.
pub(crate) fn main_thread(alloc: Global, program: &Program) -> Result<Thread, NoMemory>
    ensures { IfOk result (λ thread. IsBegun program.now thread (main_frames program.now)) }
{
    Ok(thread_in(alloc, program, program.main, Vec::new(alloc))?)
}

/// A started thread at its beginning, in the library's entry, with its object.
pub(crate) fn started_thread(
    alloc: Global,
    program: &Program,
    object: u32,
) -> Result<Thread, NoMemory>
    ensures { IfOk result (λ thread. IsBegun program.now thread (started_frames program.now object)) }
{
    let mut arguments = Vec::new(alloc);
    match arguments.push(Value::reference(u64::from(object))) {
        Ok(()) => {}
        Err(_) => return Err(NoMemory),
    }
    Ok(thread_in(alloc, program, 0, arguments)?)
}

// Whether the store refuses a request.
fn is_refused(reply: Reply) -> bool
    ensures { result ≡ (is_halted reply || is_improper reply) }
{
    match reply {
        Reply::Halted => true,
        Reply::Improper => true,
        _ => false,
    }
}

// The object of the thread that a start of it with this reply begins.
fn object_begun(object: u32, reply: Reply) -> Option<u32>
    ensures { result ≡ object_begun object reply }
{
    match reply {
        Reply::Thread(_) => Some(object),
        _ => None,
    }
}

// The object of the thread that a request with its reply begins, if it begins one.
fn object_started(request: Request, reply: Reply) -> Option<u32>
    ensures { result ≡ object_started request reply }
{
    match request {
        Request::Start { object } => object_begun(object, reply),
        _ => None,
    }
}

// The turn in which this was asked and answered.
fn turn_of(event: Event) -> Turn
    ensures { result ≡ turn_of event }
{
    match object_started(event.request, event.reply) {
        Some(object) => Turn::Started { event, object },
        None => Turn::Asked { event },
    }
}

impl Thread {
    // What is left of the instruction with the replies so far: it is done, or why not.
    #[tactic(auto, using(crate::proofs::Arriving::arrives_used, crate::proofs::Arriving::arrives_unused))]
    fn go_on(&mut self, alloc: Global, program: &Program, trees: &mut Trees) -> Result<(), Pause>
        requires types { HasTypes program.now }
        requires slots { EachClass HasFewSlots program.now }
        requires once { IsOnce trees.old.kinds }
        ensures grows { Grows trees.old.kinds trees.new.kinds result }
        ensures acts { (later : List TheType) → Extends trees.new.kinds later →
            Arrives (doing (naming_of later) program.now self.old.frames self.old.replies.items) (frames_or_none self.new.frames) result }
        ensures kept { Halts result self.old.frames self.new.frames }
        ensures replies { self.new.replies ≡ self.old.replies }
        ensures going { self.new.going ≡ self.old.going }
    {
        let Some(frames) = &mut self.frames else {
            return Err(Pause::Halts(Halt::Stuck));
        };
        let mut replies = Replies::of(self.replies.as_slice());
        act(alloc, program, trees, &mut replies, frames)?;
        if replies.are_used() {
            Ok(())
        } else {
            Err(Pause::Halts(Halt::Stuck))
        }
    }

    // The thread after its request got a reply: at the next instruction, before the next request, or over.
    #[tactic(auto, using(crate::proofs::TookLemmas::came_done))]
    fn take(
        &mut self,
        alloc: Global,
        program: &Program,
        trees: &mut Trees,
        reply: Reply,
    ) -> Result<(), NoMemory>
        requires types { HasTypes program.now }
        requires slots { EachClass HasFewSlots program.now }
        requires once { IsOnce trees.old.kinds }
        requires goes { self.old.going ≡ going.On }
        ensures grows { OnOk result (Grown trees.old.kinds trees.new.kinds) }
        ensures came { OnOk result ((later : List TheType) → Extends trees.new.kinds later →
            Came (naming_of later) program.now self.old.frames (self.old.replies.items ++ reply ∷ []) self.new) }
    {
        match self.replies.push(reply) {
            Ok(()) => {}
            Err(_) => return Err(NoMemory),
        }
        match self.go_on(alloc, program, trees) {
            Ok(()) => {
                self.replies.clear();
                Ok(())
            }
            Err(Pause::Halts(Halt::Asks(_))) => Ok(()),
            Err(Pause::Halts(Halt::Over)) => {
                self.going = Going::Over;
                Ok(())
            }
            Err(Pause::Halts(Halt::Stuck)) => {
                self.going = Going::Stuck;
                Ok(())
            }
            Err(Pause::Halts(Halt::Unnamed)) => Err(NoMemory),
            Err(Pause::NoMemory) => Err(NoMemory),
        }
    }

    // Makes the request before which the thread stands, and goes on with the reply.
    fn speak(
        &mut self,
        alloc: Global,
        program: &Program,
        trees: &mut Trees,
        world: &mut World,
        thread: u32,
        request: Request,
    ) -> Result<Turn, NoMemory>
        requires types { HasTypes program.now }
        requires slots { EachClass HasFewSlots program.now }
        requires once { IsOnce trees.old.kinds }
        requires goes { self.old.going ≡ going.On }
        requires fine { (later : List TheType) → Extends trees.old.kinds later → IsFine (naming_of later) program.now self.old }
        requires asks { (later : List TheType) → Extends trees.old.kinds later → Left (doing (naming_of later) program.now self.old.frames self.old.replies.items) (halt.Asks request) }
        ensures grows { OnOk result (Grown trees.old.kinds trees.new.kinds) }
        ensures fine { OnOk result ((later : List TheType) → Extends trees.new.kinds later → IsFine (naming_of later) program.now self.new) }
        ensures took { IfOk result (λ turn. (later : List TheType) → Extends trees.new.kinds later →
            Took (naming_of later) program.now thread world.old.history (stands (naming_of later) program.now self.old) (stands (naming_of later) program.now self.new) world.new.history turn) }
    {
        world.reserve()?;
        let reply = world.ask(thread, request)?;
        if is_refused(reply) {
            return Ok(Turn::NoRule);
        }
        self.take(alloc, program, trees, reply)?;
        Ok(turn_of(Event {
            thread,
            request,
            reply,
        }))
    }

    /// One turn of the thread with a number: a request, with what is silent after it, or an instruction that makes none.
    pub(crate) fn turn(
        &mut self,
        alloc: Global,
        program: &Program,
        trees: &mut Trees,
        world: &mut World,
        thread: u32,
    ) -> Result<Turn, NoMemory>
        requires types { HasTypes program.now }
        requires slots { EachClass HasFewSlots program.now }
        requires once { IsOnce trees.old.kinds }
        requires fine { (later : List TheType) → Extends trees.old.kinds later → IsFine (naming_of later) program.now self.old }
        ensures grows { OnOk result (Grown trees.old.kinds trees.new.kinds) }
        ensures fine { OnOk result ((later : List TheType) → Extends trees.new.kinds later → IsFine (naming_of later) program.now self.new) }
        ensures took { IfOk result (λ turn. (later : List TheType) → Extends trees.new.kinds later →
            Took (naming_of later) program.now thread world.old.history (stands (naming_of later) program.now self.old) (stands (naming_of later) program.now self.new) world.new.history turn) }
    {
        match self.going {
            Going::On => {}
            Going::Over => return Ok(Turn::NoRule),
            Going::Stuck => return Ok(Turn::NoRule),
        }
        match self.go_on(alloc, program, trees) {
            Ok(()) => Ok(Turn::Quiet),
            Err(Pause::Halts(Halt::Asks(request))) => {
                Ok(self.speak(alloc, program, trees, world, thread, request)?)
            }
            Err(Pause::Halts(Halt::Over)) => {
                self.going = Going::Over;
                Ok(Turn::NoRule)
            }
            Err(Pause::Halts(Halt::Stuck)) => {
                self.going = Going::Stuck;
                Ok(Turn::NoRule)
            }
            Err(Pause::Halts(Halt::Unnamed)) => Err(NoMemory),
            Err(Pause::NoMemory) => Err(NoMemory),
        }
    }
}
