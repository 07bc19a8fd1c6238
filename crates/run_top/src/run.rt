// A whole run of an image.
ghost use Rattle.std.specs.Prelude.{◌≡◌, ◌+◌, ◌*◌, ◌≤◌, ◌++◌, [], ◌∷◌, IfOk, OnOk, length};
ghost use Rattle.interaction.specs.History.{Legal};
ghost use Rattle.run_top.specs.WellFormed.{IsWellFormed};
ghost use Rattle.store_object.specs.Answer.{answer};
ghost use Rattle.store_object.specs.Replay.{noted, replayed, store};
ghost use Rattle.run_top.specs.Process.{begin, meaning, naming};
ghost use Rattle.run_top.specs.Machine.{start, stays_live};
ghost use Rattle.run_top.specs.Gives.{thread_of};
ghost use Rattle.run_top.specs.Code.{frame_words, image_of};
ghost use Rattle.run_top.specs.Run.{IsRegular, IsRun, image_run};
ghost use Rattle.run_top.specs.Executed.{AllExecuted, AllFirst, EndsSo};

use crate::compile::compile;
use crate::first::{FirstOp, deepest_stack};
use crate::machine::{Core, Gave, Mode};
use crate::record::{RunRecord, Turn};
use crate::turns::turn;
use cil_verify::Verified;
use interaction::What;
use mn_outside::NoMemory;
use std::alloc::{AllocError, Global};
use store_object::{Ending, Event, Request, World};

// What a run leaves.
#[derive(Drop)]
struct Kept {
    pub turns: Vec<Turn>,
    pub history: Vec<Event>,
    pub ending: Ending,
}

// Main's frame of so many words. At its head stand the caller's frame, the return address, the
// method's node, the result's address, the CIL instruction, the frame's length and two zeros.
fn main_frame(alloc: Global, words: usize) -> Result<Vec<u64>, AllocError>
    requires { 8 ≤ words }
    ensures { IfOk result (λ frame. frame.items ≡ (start words).frame) }
{
    let mut frame = vec![in alloc; 0; words]?;
    frame[2] = 20;
    frame[5] = words as u64;
    Ok(frame)
}

// Thread 0 at Main, whose frame stands at 0x40000000 and whose code begins at code word 1.
fn main_core() -> Core
    ensures pc { result.pc ≡ (start 24).pc }
    ensures x { result.x ≡ (start 24).x }
    ensures mode { result.mode ≡ (start 24).mode }
{
    let mut x = [0; 32];
    x[8] = 1073741824;
    Core {
        pc: 65540,
        x,
        mode: Mode::Code,
    }
}

// Whether a live thread is live after its request.
fn stays_live(request: &Request) -> bool
    ensures { result ≡ stays_live request.now }
{
    !matches!(request, Request::Finish)
}

// Notes a turn of thread 0.
fn note(turns: &mut Vec<Turn>, what: What) -> Result<(), NoMemory>
    ensures { OnOk result (turns.new.items ≡ turns.old.items ++ record { thread = 0; what = what } ∷ []) }
{
    match turns.push(Turn { thread: 0, what }) {
        Ok(()) => Ok(()),
        Err(_) => Err(NoMemory),
    }
}

// Makes a request of thread 0, whose turn it is.
fn ask(world: &mut World, turns: &mut Vec<Turn>, request: Request) -> Result<(), NoMemory>
    ensures history { OnOk result (world.new.history ≡ noted world.old.history 0 request (answer (replayed world.old.history) 0 request).0) }
    ensures turns { OnOk result (turns.new.items ≡ turns.old.items ++ record { thread = 0; what = What.Action } ∷ []) }
{
    world.reserve()?;
    world.ask(0, request)?;
    note(turns, What::Action)
}

// At most so many turns of the image, from Main on. Each turn takes memory for its notes alone.
fn run(alloc: Global, image: &[u32], words: usize, limit: u32) -> Result<Kept, NoMemory>
    requires words { 8 ≤ words }
    requires regular { IsRegular (image_run image.now words limit).ending }
    ensures { IfOk result (λ kept. IsRun (image_run image.now words limit) kept.turns.items kept.history.items kept.ending) }
{
    let mut core = main_core();
    let Ok(mut main) = main_frame(alloc, words) else {
        return Err(NoMemory);
    };
    let frame = main.as_mut_slice();
    let mut turns = Vec::new(alloc);
    let mut world = World::new(alloc)?;
    let mut live = true;
    for made in 0..limit {
        if !live {
            return Ok(Kept {
                turns,
                history: world.into_history(),
                ending: Ending::Done,
            });
        }
        match turn(image, &mut core, frame) {
            Gave::Did(what) => note(&mut turns, what)?,
            Gave::Asked(request) => {
                ask(&mut world, &mut turns, request)?;
                live = stays_live(&request);
            }
            Gave::Nothing => unreachable!(),
        }
    }
    let ending = if live { Ending::Turns } else { Ending::Done };
    Ok(Kept {
        turns,
        history: world.into_history(),
        ending,
    })
}

/// Compiles the instructions of a program of the first form and runs the image from Main on, under seed 0, for at
/// most `limit` turns. There is no machine fault: a run ends where its thread has finished or its turns are used up.
/// The only refusal is want of memory.
pub(crate) fn run_program(
    alloc: Global,
    program: Verified,
    ops: &[FirstOp],
    limit: u32,
) -> Result<RunRecord, NoMemory>
    requires program { IsWellFormed ops.now }
    ensures program { IfOk result (λ r. r.program ≡ program) }
    ensures image { IfOk result (λ r. r.image.items ≡ image_of ops.now) }

    // Turns, history and ending are those of the image's run.
    ensures run { IfOk result (λ r. IsRun (image_run r.image.items (frame_words ops.now) limit) r.turns.items r.history.items r.ending) }

    // The program's thread makes exactly these requests when it is given these replies, which the store gives.
    ensures legal { IfOk result (λ r. Legal store naming (meaning ops.now) begin r.history.items) }
    ensures requests { IfOk result (λ r. AllFirst r.history.items) }
    ensures executed { IfOk result (λ r. AllExecuted r.image.items r.turns.items) }
    ensures ends { IfOk result (λ r. EndsSo limit r.turns.items r.history.items r.ending) }
    ensures few { IfOk result (λ r. length r.turns.items ≤ 1024 * (length ops.now + 1)) }
{
    let words = 8 + deepest_stack(ops) + 16;
    let Ok(image) = compile(alloc, ops) else {
        return Err(NoMemory);
    };
    let kept = run(alloc, image.as_slice(), words, limit)?;
    Ok(RunRecord {
        program,
        image,
        turns: kept.turns,
        history: kept.history,
        ending: kept.ending,
    })
}
