// Where threads begin.
ghost use Rattle.std.specs.Prelude.{◌≡◌, ◌<◌, ◌≤◌, ◌^◌, [], IfOk, IfSome, length, slice_get};
ghost use Rattle.std.specs.Option.{option_copied};
ghost use Rattle.rgctx_words.specs.Stacks.{no_frames};
ghost use Rattle.crossings.specs.Calls.{IsBodyFrame, called, most_places};
ghost use Rattle.rgctx_template.specs.Catalogue.{data_of};
ghost use Rattle.rgctx_fill.specs.BestRows.{best_row};
ghost use Rattle.rgctx_fill.specs.CallServices.{count_in};
ghost use Rattle.rgctx_fill.specs.ThreadStates.{image_of};
ghost use Rattle.rgctx_fill.specs.Serving.{IsServable};
ghost use Rattle.thread_core.specs.Starts.{first_core, first_call, first_frame, in_body, interpreted, main_node, main_thread, started_thread};

use crossings::{BodyRow, CallWords, enter};
use mn_outside::NoMemory;
use rgctx_fill::{Doing, FrameCount, ImageView, ThreadState};
use rgctx_template::Catalogue;
use rgctx_words::{Stack, frame_address, place_offset};
use rv_machine::Core;
use share_canon::pick;
use std::alloc::Global;

// The nodes of the entry point and of the method in which a started thread begins, and that method's number.
const MAIN_NODE: u16 = 20;

const ENTRY_NODE: u16 = 19;

const ENTRY_METHOD: u16 = 0;

// A thread begins as behind the service CALL.
fn first_core(pc: u64) -> Core
    ensures { result ≡ first_core pc }
{
    let mut core = Core { pc, x: [0; 32] };
    core.x[17] = 1;
    core.x[8] = frame_address(0);
    core
}

// Nobody called.
fn first_call(node: u16) -> CallWords
    ensures { result ≡ first_call node }
{
    CallWords {
        node,
        result: 0,
        list: 0,
        back: 0,
    }
}

fn row_at(rows: &[BodyRow], place: u32) -> Option<&BodyRow>
    ensures { option_copied result ≡ slice_get rows.now place }
{
    rows.get(place as usize)
}

// The body that serves the entry point best.
#[tactic(auto, using(crate::proofs::RowLemmas::picked))]
fn main_row<'a>(cat: &Catalogue<'a>) -> Option<&'a BodyRow>
    requires { length cat.now.bodies.now < 2 ^ 32 }
    ensures { option_copied result ≡ best_row cat.now.program.now cat.now.bodies.now cat.now.program.now.main [] }
{
    let rows = cat.bodies.as_slice();
    match pick(cat.program, rows, cat.program.main, &[]) {
        Some(place) => row_at(rows, place),
        None => None,
    }
}

// The stack with the first frame alone.
#[tactic(auto, using(crate::proofs::StartLemmas::no_widths, crate::proofs::StartLemmas::no_listed, crate::proofs::StartLemmas::first_called))]
fn first_stack(
    alloc: Global,
    call: &CallWords,
    row: Option<&BodyRow>,
    places: u32,
    list: u32,
) -> Result<Stack, NoMemory>
    requires frame { IfSome (option_copied row) (λ r. IsBodyFrame r.frame) }
    requires places { places ≤ most_places }
    requires list { list ≤ most_places }
    ensures { IfOk result (λ stack. stack ≡ called no_frames call.now (option_copied row.entry) places list []) }
{
    let mut stack = Stack::new(alloc)?;
    enter(&mut stack, call, row, places, list, &[])?;
    Ok(stack)
}

// In a compiled body.
fn in_body(alloc: Global, node: u16, row: &BodyRow) -> Result<ThreadState, NoMemory>
    requires { IsBodyFrame row.now.frame }
    ensures { IfOk result (λ s. s ≡ in_body node row.now) }
{
    let call = first_call(node);
    let stack = first_stack(alloc, &call, Some(row), 0, 0)?;
    Ok(ThreadState {
        core: first_core(0x1_0000 + 4 * u64::from(row.entry)),
        stack,
        doing: Doing::Runs,
    })
}

// The counts of a method's interpreted frame.
fn count_of(image: &ImageView, method: u16) -> FrameCount
    ensures { result ≡ count_in (slice_get image.now.frames.now method) }
{
    match image.frames.get(usize::from(method)) {
        Some(count) => *count,
        None => FrameCount { places: 0, list: 0 },
    }
}

// The stack with the first frame of an interpreted method alone.
fn first_frame(alloc: Global, node: u16, count: FrameCount) -> Result<Stack, NoMemory>
    requires places { count.places ≤ most_places }
    requires list { count.list ≤ most_places }
    ensures { IfOk result (λ stack. stack ≡ first_frame node count) }
{
    let call = first_call(node);
    let stack = first_stack(alloc, &call, None, count.places, count.list)?;
    Ok(stack)
}

// The interpreter goes on.
fn interpreted(stack: Stack) -> ThreadState
    ensures { result ≡ interpreted stack }
{
    ThreadState {
        core: first_core(0),
        stack,
        doing: Doing::Interprets,
    }
}

/// The state of thread 0, in the entry point: in the compiled body that serves it best, or interpreted where none does.
/// This project's own.
#[tactic(auto, using(crate::proofs::StartLemmas::main_compiled, crate::proofs::StartLemmas::main_interpreted))]
pub fn main_state(alloc: Global, image: &ImageView) -> Result<ThreadState, NoMemory>
    requires { IsServable (image_of image.now) }
    ensures { IfOk result (λ s. s ≡ main_thread (image_of image.now)) }
{
    match main_row(&image.cat) {
        Some(row) => {
            let state = in_body(alloc, MAIN_NODE, row)?;
            Ok(state)
        }
        None => {
            let count = count_of(image, image.cat.program.main);
            let stack = first_frame(alloc, MAIN_NODE, count)?;
            Ok(interpreted(stack))
        }
    }
}

/// The state of a thread that is started with an object, whose number is its one argument. It is interpreted. This
/// project's own.
#[tactic(auto, using(crate::proofs::StartLemmas::started))]
pub fn started_state(alloc: Global, image: &ImageView, object: u32) -> Result<ThreadState, NoMemory>
    requires { IsServable (image_of image.now) }
    ensures { IfOk result (λ s. s ≡ started_thread (image_of image.now) object) }
{
    let count = count_of(image, ENTRY_METHOD);
    let mut stack = first_frame(alloc, ENTRY_NODE, count)?;
    stack.put(place_offset(0), u64::from(object));
    Ok(interpreted(stack))
}
