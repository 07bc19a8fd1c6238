// One turn of machine code.
ghost use Rattle.std.specs.Prelude.{◌≡◌, ℕ, Some};
ghost use Rattle.rgctx_words.specs.Held.{Grows};
ghost use Rattle.rgctx_template.specs.declared.catalogue.Catalogue.{Catalogue};
ghost use Rattle.rgctx_template.specs.Catalogue.{CatData, data_of};
ghost use Rattle.rv_machine.specs.Steps.{fetched};
ghost use Rattle.rgctx_fill.specs.ThreadStates.{image_of};
ghost use Rattle.rgctx_fill.specs.Moves.{Span, span, IsMade};
ghost use Rattle.rgctx_fill.specs.MachineTurns.{at_word, runs};
ghost use Rattle.rgctx_fill.specs.declared.doing.Doing.{Doing};
ghost use Rattle.rgctx_fill.specs.declared.doing.Doing.TheVariants.{Fills};
ghost use Rattle.rgctx_fill.specs.Turns.{FillData};
ghost use Rattle.thread_core.specs.Stepped.{told, doing_after, state_of};

use crate::memory::Memory;
use interaction::What;
use mn_outside::{FaultCause, MachineFault};
use rgctx_fill::{Doing, Fits, ImageView, ThreadState, Want};
use rgctx_words::Words;
use rv_machine::{Core, Step, step};

// The address of the first code word.
const CODE: u64 = 0x1_0000;

// The code word at an address.
fn fetch(pc: u64, code: &[u32]) -> Option<u32>
    ensures { result ≡ fetched code.now pc }
{
    if pc < CODE || pc % 4 != 0 {
        return None;
    }
    code.get(((pc - CODE) / 4) as usize).copied()
}

// One instruction over a thread's memory.
fn execute<W: Words<Fits>>(core: &mut Core, code: &[u32], memory: &mut Memory<W>) -> Step
    ensures same_stack { memory.new.stack.ghost_name ≡ memory.old.stack.ghost_name }
    ensures same_words { memory.new.words.ghost_name ≡ memory.old.words.ghost_name }
    ensures place { W.place memory.new.words.now ≡ W.place memory.old.words.now }
    ensures alone { W.alone memory.new.words.now ≡ W.alone memory.old.words.now }
    ensures grows { Grows (W.held memory.old.words.now) (W.held memory.new.words.now) }
    ensures met { (cat : Catalogue) → W.meets cat memory.old.words.now → W.meets cat memory.new.words.now }
    ensures turn { (cat : CatData) (doing : Doing) (word : ℕ) → fetched code.now core.old.pc ≡ Some word → IsMade cat (span (W.alone memory.old.words.now) (W.held memory.old.words.now) (W.held memory.new.words.now) (W.claims memory.old.words.now) (W.claims memory.new.words.now)) (state_of core.old memory.old.stack.now doing) (at_word (state_of core.old memory.old.stack.now doing) (Some word)) (told core.old.pc word result) (state_of core.new memory.new.stack.now (doing_after doing result)) }
{
    step(core, code, memory)
}

/// Makes the turn of a thread whose machine code goes on: one instruction, which is noted with its address and its code
/// word. A fault is no turn, and leaves the state. No memory is taken.
pub(crate) fn run_code<W: Words<Fits>>(
    state: &mut ThreadState,
    image: &ImageView,
    words: &mut W,
) -> Want
    ensures place { W.place words.new ≡ W.place words.old }
    ensures alone { W.alone words.new ≡ W.alone words.old }
    ensures grows { Grows (W.held words.old) (W.held words.new) }
    ensures met { (cat : Catalogue) → W.meets cat words.old → W.meets cat words.new }
    ensures quiet { (f : FillData) → state.new.doing ≡ Fills f → state.old.doing ≡ Fills f }
    ensures turn { IsMade (data_of image.now.cat) (span (W.alone words.old) (W.held words.old) (W.held words.new) (W.claims words.old) (W.claims words.new)) state.old (runs (image_of image.now) state.old) result state.new }
{
    let pc = state.core.pc;
    let Some(word) = fetch(pc, image.code) else {
        return Want::Fault(MachineFault {
            pc,
            cause: FaultCause::Fetch,
        });
    };
    let mut memory = Memory {
        stack: &mut state.stack,
        words,
    };
    match execute(&mut state.core, image.code, &mut memory) {
        Step::Went => Want::Did(What::Instr { pc, word }),
        Step::Call => {
            state.doing = Doing::Serves;
            Want::Did(What::Instr { pc, word })
        }
        Step::Fault(fault) => Want::Fault(fault),
    }
}
