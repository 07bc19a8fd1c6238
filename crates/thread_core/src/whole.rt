// The run of an image.
ghost use Rattle.std.specs.Prelude.{◌≡◌, ◌<◌, ◌*◌, ◌^◌, ℕ, List, length, filter_map, slice_index, IfOk};
ghost use Rattle.rgctx_template.specs.Catalogue.{data_of};
ghost use Rattle.rgctx_fill.specs.Serving.{IsServable};
ghost use Rattle.rgctx_fill.specs.ThreadStates.{image_of};
ghost use Rattle.schedules.specs.Numbers.{numbers, HasNumbers};
ghost use Rattle.thread_core.specs.Listed.{IsListed};
ghost use Rattle.thread_core.specs.Reached.{AreMet};
ghost use Rattle.thread_core.specs.Runs.{image_run, note_at, IsRun};
ghost use Rattle.thread_core.specs.Sound.{IsFaithful};

use crate::fills::fills_in;
use crate::listed::ListedWords;
use crate::progress::Progress;
use crate::record::{FillNote, Turn};
use mn_outside::NoMemory;
use rgctx_fill::ImageView;
use schedules::Drawing;
use std::alloc::Global;
use store_object::{Chooser, Ending, Event};

/// What is kept of the run of an image.
#[derive(Drop)]
pub struct ImageRun {
    /// The number drawn for each turn, and the one for a chosen thread that had none.
    pub schedule: Vec<u32>,
    /// Each turn with its thread, in order.
    pub turns: Vec<Turn>,
    /// Each request with its reply, in order.
    pub history: Vec<Event>,
    /// Each entry that a claim filled, in order.
    pub fills: Vec<FillNote>,
    /// The 81,920 context words at the end.
    pub words: Vec<u64>,
    pub ending: Ending,
}

// The entries that the claims of a run filled.
fn filled(alloc: Global, words: &ListedWords, image: &ImageView) -> Result<Vec<FillNote>, NoMemory>
    requires { AreMet (data_of image.now.cat) words.now.words }
    ensures { IfOk result (λ notes. notes.items ≡ filter_map (note_at words.now.words) words.now.claimed) }
{
    words.listed();
    let notes = fills_in(alloc, words.words(), words.claimed())?;
    Ok(notes)
}

// The record, with this end.
fn finished(
    alloc: Global,
    image: &ImageView,
    progress: Progress,
    ending: Ending,
) -> Result<ImageRun, NoMemory>
    requires { AreMet (data_of image.now.cat) progress.words.words }
    ensures schedule { IfOk result (λ r. r.schedule.items ≡ progress.schedule.items) }
    ensures turns { IfOk result (λ r. r.turns.items ≡ progress.turns.items) }
    ensures history { IfOk result (λ r. r.history.items ≡ progress.world.history) }
    ensures fills { IfOk result (λ r. r.fills.items ≡ filter_map (note_at progress.words.words) progress.words.claimed) }
    ensures words { IfOk result (λ r. r.words.items ≡ progress.words.words) }
    ensures ending { IfOk result (λ r. r.ending ≡ ending) }
{
    let fills = filled(alloc, &progress.words, image)?;
    let Progress {
        words,
        world,
        started: _,
        threads: _,
        schedule,
        turns,
    } = progress;
    Ok(ImageRun {
        schedule,
        turns,
        history: world.into_history(),
        fills,
        words: words.into_words(),
        ending,
    })
}

/// Runs an image: its threads take turns, one for each number of the chooser, until nobody lives, so many turns are
/// made, or the chosen thread has no turn. A list has at least as many numbers as there are turns. This project's own.
pub fn run(
    alloc: Global,
    image: &ImageView,
    chooser: &Chooser,
    turns: u32,
) -> Result<ImageRun, NoMemory>
    requires image { IsServable (image_of image.now) }
    requires enough { HasNumbers chooser.now turns }
    ensures run { IfOk result (λ r. IsRun (image_of image.now) (numbers chooser.now turns) (image_run (image_of image.now) chooser.now turns)
        r.schedule.items r.turns.items r.history.items r.fills.items r.words.items r.ending) }
    // So it is a loose run with its last words; over a sound image its history is legal, and it ends in no fault.
    ensures faithful { IfOk result (λ r. IsFaithful (image_of image.now) turns (image_run (image_of image.now) chooser.now turns)) }
    // The last words fit, whatever the image's code is.
    ensures met { IfOk result (λ r. AreMet (data_of image.now.cat) r.words.items) }
{
    let mut progress = Progress::opening(alloc, image)?;
    let mut drawing = Drawing::of(chooser);
    for _turn in 0..turns {
        let number = drawing.draw(chooser);
        if let Some(ending) = progress.step(alloc, image, number)? {
            return Ok(finished(alloc, image, progress, ending)?);
        }
    }
    let ending = progress.last()?;
    Ok(finished(alloc, image, progress, ending)?)
}
