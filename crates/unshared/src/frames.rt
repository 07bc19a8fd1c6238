// The frames of one thread, and beside them what their places hold. After ECMA-335, Partition I.
ghost use Rattle.std.specs.Prelude.{◌≡◌, ◌<◌, List, [], ◌∷◌, ◌++◌, ◌+◌, drop, length, option_map, slice_get, Some, IfOk, IfSome, IfNone, OnOk};
ghost use Rattle.cil_meaning.specs.Frames.{Frame as TheFrame, places_at, innermost, outer, with_innermost, with_held, with_fresh};
ghost use Rattle.cil_meaning.specs.Calls.{first_frame, waiting};
ghost use Rattle.unshared.specs.Forms.{the_value};
ghost use Rattle.unshared.specs.Held.{the_awaited, the_frame, the_frames, the_places, the_stack, awaited_of, frames_around, places_of, stack_of};
ghost use Rattle.unshared.specs.Going.{did, the_thrown, went, stack_with, goes_on, goes_at, pushed, Keeps};
ghost use Rattle.unshared.specs.Operands.{value_at};
ghost use Rattle.unshared.specs.Kept.{held_with, fresh_with};
ghost use Rattle.unshared.specs.Moved.{SameBut};
ghost use Rattle.unshared.specs.Searched.{handled, left_places};
ghost use Rattle.unshared.specs.Silent.{Gives, there};

use crate::fault::Fault;
use crate::pause::{Halt, Pause};
use crate::value::Value;
use il_model::MethodTree;
use mn_outside::NoMemory;
use std::alloc::Global;
use std::mem;

/// What a return to a frame puts on its stack.
#[derive(Clone, Copy)]
pub(crate) enum Awaited {
    /// No call is under way.
    Nothing,
    /// The callee's result, if it has one.
    Result,
    /// The object whose constructor was called, by its number.
    Object(u32),
    /// The struct that was built.
    Built,
}

/// A frame: its instantiated method, the number of its instruction, which stays at a call until the call returns, and its
/// stack, the top last.
#[derive(Drop)]
pub(crate) struct Frame {
    pub method: MethodTree,
    pub at: u32,
    pub stack: Vec<Value>,
    pub awaits: Awaited,
}

/// What stands in the places of a frame: its arguments, then its locals; and the words of the struct that is being built.
#[derive(Drop)]
pub(crate) struct Places {
    pub held: Vec<Value>,
    pub fresh: Vec<u64>,
}

impl Places {
    /// What a place holds.
    pub(crate) fn value(&self, place: usize) -> Result<&Value, Pause>
        ensures { Gives (λ value. the_value value.now) (there (slice_get (the_places self.now).held place)) result }
    {
        match self.held.as_slice().get(place) {
            Some(value) => Ok(value),
            None => Err(Pause::Halts(Halt::Stuck)),
        }
    }

    // Puts a value into a place, if there is one.
    #[tactic(auto, using(crate::proofs::FrameLemmas::set_held))]
    fn put(&mut self, place: usize, value: Value)
        ensures { the_places self.new ≡ with_held (the_places self.old) place (the_value value) }
    {
        if place < self.held.len() {
            self.held[place] = value;
        }
    }
}

/// The innermost frame with its places, and those around it, the first one at level 0.
#[derive(Drop)]
pub(crate) struct Frames {
    pub top: Frame,
    pub here: Places,
    pub around: Vec<Frame>,
    pub outer: Vec<Places>,
}

/// An exception under way: its object, and the number of its exact type.
#[derive(Clone, Copy)]
pub(crate) struct Thrown {
    pub object: u32,
    pub kind: u32,
}

/// What an instruction came to: it went on in the frames, throws a new exception, or throws an object.
#[derive(Clone, Copy)]
pub(crate) enum Done {
    Goes,
    Throws(Fault),
    Raises(Thrown),
}

/// The first frame of a method.
pub(crate) fn first_frame(alloc: Global, method: MethodTree) -> Frame
    ensures { the_frame result ≡ first_frame method }
{
    Frame {
        method,
        at: 0,
        stack: Vec::new(alloc),
        awaits: Awaited::Nothing,
    }
}

// Takes so many values from a stack.
#[tactic(auto, using(crate::proofs::StackLemmas::shortened))]
fn shorten(stack: &mut Vec<Value>, taken: usize)
    ensures { the_stack stack.new.items ≡ drop taken (the_stack stack.old.items) }
{
    let left = stack.len().saturating_sub(taken);
    stack.truncate(left);
}

// Puts a value, if there is one, on a stack.
#[tactic(auto, using(crate::proofs::StackLemmas::pushed_on))]
fn put_on(stack: &mut Vec<Value>, put: Option<Value>) -> Result<(), NoMemory>
    ensures { OnOk result (the_stack stack.new.items ≡ pushed put ++ the_stack stack.old.items) }
{
    match put {
        Some(value) => match stack.push(value) {
            Ok(()) => Ok(()),
            Err(_) => Err(NoMemory),
        },
        None => Ok(()),
    }
}

impl Frames {
    /// One frame alone.
    pub(crate) fn alone(alloc: Global, top: Frame, here: Places) -> Frames
        ensures { the_frames result ≡ record { frames = the_frame top ∷ []; places = the_places here ∷ [] } }
    {
        Frames {
            top,
            here,
            around: Vec::new(alloc),
            outer: Vec::new(alloc),
        }
    }

    /// The value so far below the top of the stack.
    pub(crate) fn value(&self, below: usize) -> Result<&Value, Pause>
        ensures { Gives (λ value. the_value value.now) (value_at self.now below) result }
    {
        let stack = self.top.stack.as_slice();
        if below < stack.len() {
            Ok(&stack[stack.len() - 1 - below])
        } else {
            Err(Pause::Halts(Halt::Stuck))
        }
    }

    /// The level of the innermost frame.
    pub(crate) fn level(&self) -> Result<u32, NoMemory>
        ensures { IfOk result (λ level. level ≡ length self.now.around.items) }
    {
        match u32::try_from(self.around.len()) {
            Ok(level) => Ok(level),
            Err(_) => Err(NoMemory),
        }
    }

    /// Goes on at an instruction, with so many values taken from the stack and then this one put on it.
    pub(crate) fn goes_to(
        &mut self,
        at: u32,
        taken: usize,
        put: Option<Value>,
    ) -> Result<(), NoMemory>
        ensures { OnOk result (the_frames self.new ≡ went self.old at (stack_with self.old taken (pushed put))) }
    {
        shorten(&mut self.top.stack, taken);
        put_on(&mut self.top.stack, put)?;
        self.top.at = at;
        self.top.awaits = Awaited::Nothing;
        Ok(())
    }

    /// Goes on at the next instruction.
    pub(crate) fn goes(&mut self, taken: usize, put: Option<Value>) -> Result<(), NoMemory>
        ensures { OnOk result (the_frames self.new ≡ went self.old (self.old.top.at + 1) (stack_with self.old taken (pushed put))) }
    {
        match self.top.at.checked_add(1) {
            Some(next) => self.goes_to(next, taken, put),
            None => Err(NoMemory),
        }
    }

    /// Goes on at the next instruction, with a value in place of so many.
    pub(crate) fn pushes(&mut self, taken: usize, value: Value) -> Result<Done, Pause>
        ensures acts { Gives (did self.new) (Ok (goes_on self.old taken (the_value value ∷ []))) result }
        ensures kept { Keeps result self.old self.new }
    {
        self.goes(taken, Some(value))?;
        Ok(Done::Goes)
    }

    /// Goes on at the next instruction, with so many values taken.
    pub(crate) fn drops(&mut self, taken: usize) -> Result<Done, Pause>
        ensures acts { Gives (did self.new) (Ok (goes_on self.old taken [])) result }
        ensures kept { Keeps result self.old self.new }
    {
        self.goes(taken, None)?;
        Ok(Done::Goes)
    }

    /// Goes on at an instruction, with so many values taken.
    pub(crate) fn jumps(&mut self, at: u32, taken: usize) -> Result<Done, Pause>
        ensures acts { Gives (did self.new) (Ok (goes_at self.old at taken)) result }
        ensures kept { Keeps result self.old self.new }
    {
        self.goes_to(at, taken, None)?;
        Ok(Done::Goes)
    }

    /// The frame around so many others.
    #[tactic(auto, using(crate::proofs::FrameLemmas::frame_around))]
    pub(crate) fn frame_past(&self, passed: usize) -> Option<&Frame>
        ensures some { IfSome result (λ frame. slice_get (the_frames self.now).frames passed ≡ Some (the_frame frame.now)) }
        ensures none { IfNone result (length self.now.around.items < passed) }
    {
        if passed == 0 {
            return Some(&self.top);
        }
        let around = self.around.as_slice();
        if passed <= around.len() {
            Some(&around[around.len() - passed])
        } else {
            None
        }
    }

    /// What the places of the frame at a level hold.
    #[tactic(auto, using(crate::proofs::FrameLemmas::at_top, crate::proofs::FrameLemmas::at_outer))]
    pub(crate) fn places_at(&self, level: u32) -> Result<&Places, Pause>
        ensures { Gives (λ places. the_places places.now) (there (places_at (places_of self.now) level)) result }
    {
        if level as usize == self.outer.len() {
            return Ok(&self.here);
        }
        match self.outer.as_slice().get(level as usize) {
            Some(places) => Ok(places),
            None => Err(Pause::Halts(Halt::Stuck)),
        }
    }

    /// Puts a value into a place of the frame at a level, which has the place.
    #[tactic(auto, using(crate::proofs::FrameLemmas::at_top, crate::proofs::FrameLemmas::at_outer, crate::proofs::FrameLemmas::with_top, crate::proofs::FrameLemmas::with_outer))]
    pub(crate) fn put_held(&mut self, level: u32, place: u32, value: Value)
        ensures places { places_of self.new ≡ held_with (places_of self.old) level place (the_value value) }
        ensures rest { SameBut self.old self.new }
    {
        if level as usize == self.outer.len() {
            self.here.put(place as usize, value);
        } else if (level as usize) < self.outer.len() {
            self.outer[level as usize].put(place as usize, value);
        }
    }

    /// Puts the words of the struct that the frame at a level builds.
    #[tactic(auto, using(crate::proofs::FrameLemmas::at_top, crate::proofs::FrameLemmas::at_outer, crate::proofs::FrameLemmas::with_top, crate::proofs::FrameLemmas::with_outer))]
    pub(crate) fn put_fresh(&mut self, level: u32, words: Vec<u64>)
        ensures places { places_of self.new ≡ fresh_with (places_of self.old) level words.items }
        ensures rest { SameBut self.old self.new }
    {
        if level as usize == self.outer.len() {
            self.here.fresh = words;
        } else if (level as usize) < self.outer.len() {
            self.outer[level as usize].fresh = words;
        }
    }

    /// Puts a value into a place of the innermost frame.
    pub(crate) fn hold(&mut self, place: usize, value: Value)
        ensures places { places_of self.new ≡ with_innermost (places_of self.old) (with_held (innermost (places_of self.old)) place (the_value value)) }
        ensures rest { SameBut self.old self.new }
    {
        self.here.put(place, value);
    }

    /// The innermost frame waits at its call, with so many values taken, and the words of a struct that is built.
    pub(crate) fn waits(&mut self, taken: usize, awaits: Awaited, fresh: Vec<u64>)
        ensures top { the_frame self.new.top ≡ waiting (the_frame self.old.top) (drop taken (stack_of self.old)) (the_awaited awaits) }
        ensures here { the_places self.new.here ≡ with_fresh (the_places self.old.here) fresh.items }
        ensures around { self.new.around ≡ self.old.around }
        ensures outer { self.new.outer ≡ self.old.outer }
    {
        shorten(&mut self.top.stack, taken);
        self.top.awaits = awaits;
        self.here.fresh = fresh;
    }

    /// Puts a frame inside the innermost one.
    #[tactic(auto, using(crate::proofs::StackLemmas::pushed_on))]
    pub(crate) fn enter(&mut self, frame: Frame, places: Places) -> Result<(), NoMemory>
        ensures { OnOk result (the_frames self.new ≡ record { frames = the_frame frame ∷ the_frame self.old.top ∷ frames_around self.old; places = the_places places ∷ places_of self.old }) }
    {
        let waiting = mem::replace(&mut self.top, frame);
        let outer = mem::replace(&mut self.here, places);
        match self.around.push(waiting) {
            Ok(()) => {}
            Err(_) => return Err(NoMemory),
        }
        match self.outer.push(outer) {
            Ok(()) => Ok(()),
            Err(_) => Err(NoMemory),
        }
    }

    /// What the frame around the innermost one waits for.
    pub(crate) fn awaited(&self) -> Option<Awaited>
        ensures { option_map the_awaited result ≡ awaited_of (frames_around self.now) }
    {
        let around = self.around.as_slice();
        if around.is_empty() {
            None
        } else {
            Some(around[around.len() - 1].awaits)
        }
    }

    /// Leaves the innermost frame for the one around it, if there is one.
    #[tactic(auto, using(crate::proofs::StackLemmas::pushed_on))]
    pub(crate) fn leave(&mut self) -> Result<(), NoMemory>
        ensures around { OnOk result (frames_around self.old ≡ the_frame self.new.top ∷ frames_around self.new) }
        ensures places { OnOk result (outer (places_of self.old) ≡ places_of self.new) }
    {
        let Some(frame) = self.around.pop() else {
            return Err(NoMemory);
        };
        let Some(places) = self.outer.pop() else {
            return Err(NoMemory);
        };
        self.top = frame;
        self.here = places;
        Ok(())
    }

    // The innermost frame goes on at a handler with an exception alone on its stack, and builds no struct.
    fn catches(&mut self, handler: u32, thrown: Thrown) -> Result<(), NoMemory>
        ensures { OnOk result (the_frames self.new ≡ handled (the_thrown thrown) (the_frame self.old.top) (frames_around self.old) (places_of self.old) handler) }
    {
        self.top.stack.clear();
        let object = Value::reference(u64::from(thrown.object));
        match self.top.stack.push(object) {
            Ok(()) => {}
            Err(_) => return Err(NoMemory),
        }
        self.top.at = handler;
        self.top.awaits = Awaited::Nothing;
        self.here.fresh.clear();
        Ok(())
    }

    /// Leaves so many frames, and the one around them goes on at a handler with the exception.
    pub(crate) fn handles(
        &mut self,
        passed: usize,
        handler: u32,
        thrown: Thrown,
    ) -> Result<(), NoMemory>
        ensures { (f : TheFrame) (fs : List TheFrame) → drop passed (the_frames self.old).frames ≡ f ∷ fs →
            OnOk result (the_frames self.new ≡ handled (the_thrown thrown) f fs (left_places passed (places_of self.old)) handler) }
    {
        for level in 0..passed {
            self.leave()?;
        }
        self.catches(handler, thrown)
    }
}
