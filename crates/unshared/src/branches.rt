// Branches. ECMA-335, Partition III.
ghost use Rattle.std.specs.Prelude.{◌≡◌, [], length};
ghost use Rattle.cil_meaning.specs.Branches.{is_taken};
ghost use Rattle.unshared.specs.Forms.{the_comparison};
ghost use Rattle.unshared.specs.Branched.{jumps_if, jumps_where, jumps_by, chooses, leaves};
ghost use Rattle.unshared.specs.Going.{did, Keeps};
ghost use Rattle.unshared.specs.Silent.{Gives};

use crate::arithmetic::{compares, one_word};
use crate::frames::{Done, Frames};
use crate::numbers::Comparison;
use crate::operands::{is_int32, is_struct};
use crate::pause::{Halt, Pause};

// Goes to the target, or else on to the next instruction.
fn jumps_if(frames: &mut Frames, is_taken: bool, to: u32, taken: usize) -> Result<Done, Pause>
    ensures acts { Gives (did frames.new) (Ok (jumps_if frames.old is_taken to taken)) result }
    ensures kept { Keeps result frames.old frames.new }
{
    if is_taken {
        Ok(frames.jumps(to, taken)?)
    } else {
        Ok(frames.drops(taken)?)
    }
}

// Whether a word is true, or false: false is zero and null.
fn is_taken(is_true: bool, word: u64) -> bool
    ensures { result ≡ is_taken is_true word }
{
    if is_true { word != 0 } else { word == 0 }
}

/// Where the word on top is true, or false.
#[tactic(auto, unfolding(crate::specs::Branched::jumps_where))]
pub(crate) fn jumps_where(frames: &mut Frames, is_true: bool, to: u32) -> Result<Done, Pause>
    ensures acts { Gives (did frames.new) (jumps_where is_true to frames.old) result }
    ensures kept { Keeps result frames.old frames.new }
{
    let (kind, word) = one_word(frames)?;
    if is_struct(kind) {
        return Err(Pause::Halts(Halt::Stuck));
    }
    Ok(jumps_if(frames, is_taken(is_true, word), to, 1)?)
}

/// By a comparison.
#[tactic(auto, unfolding(crate::specs::Branched::jumps_by))]
pub(crate) fn jumps_by(frames: &mut Frames, form: Comparison, to: u32) -> Result<Done, Pause>
    ensures acts { Gives (did frames.new) (jumps_by (the_comparison form) to frames.old) result }
    ensures kept { Keeps result frames.old frames.new }
{
    let is_so = compares(frames, form)?;
    Ok(jumps_if(frames, is_so, to, 2)?)
}

/// To the target whose number is on top, as unsigned; past the table it goes on.
#[tactic(auto, unfolding(crate::specs::Branched::chooses))]
pub(crate) fn chooses(frames: &mut Frames, targets: &[u32]) -> Result<Done, Pause>
    ensures acts { Gives (did frames.new) (chooses targets.now frames.old) result }
    ensures kept { Keeps result frames.old frames.new }
{
    let (kind, word) = one_word(frames)?;
    if !is_int32(kind) {
        return Err(Pause::Halts(Halt::Stuck));
    }
    match targets.get(word as usize) {
        Some(to) => Ok(frames.jumps(*to, 1)?),
        None => Ok(frames.drops(1)?),
    }
}

/// Always, with an empty stack.
pub(crate) fn leaves(frames: &mut Frames, to: u32) -> Result<Done, Pause>
    ensures acts { Gives (did frames.new) (Ok (leaves to frames.old)) result }
    ensures kept { Keeps result frames.old frames.new }
{
    let depth = frames.top.stack.len();
    Ok(frames.jumps(to, depth)?)
}
