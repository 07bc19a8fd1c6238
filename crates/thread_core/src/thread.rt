// The next turn of a thread.
ghost use Rattle.std.specs.Prelude.{◌≡◌, IfOk};
ghost use Rattle.mn_outside.specs.declared.machine.FaultCause.TheVariants.{Service};
ghost use Rattle.rgctx_words.specs.Held.{Grows};
ghost use Rattle.rgctx_template.specs.Catalogue.{data_of};
ghost use Rattle.rv_machine.specs.Registers.{register_of};
ghost use Rattle.rgctx_fill.specs.declared.doing.Doing.TheVariants.{Fills};
ghost use Rattle.rgctx_fill.specs.declared.thread.Want.TheVariants as answers;
ghost use Rattle.rgctx_fill.specs.ThreadStates.{image_of};
ghost use Rattle.rgctx_fill.specs.ThreadTurns.{next_move};
ghost use Rattle.rgctx_fill.specs.Moves.{span, IsMade};
ghost use Rattle.rgctx_fill.specs.Serving.{IsServable};
ghost use Rattle.rgctx_fill.specs.Turns.{FillData};
ghost use Rattle.rt_service.specs.Notes.{IsUnderWay};
ghost use Rattle.thread_core.specs.Going.{IsGoing};

use crate::machine::run_code;
use mn_outside::{FaultCause, MachineFault, NoMemory};
use rgctx_fill::{Doing, Fits, ImageView, ThreadState, Want};
use rgctx_words::Words;
use rt_service::serve;
use std::alloc::Global;

// The fault that a thread has in place of turns that are not built.
fn lack(state: &ThreadState) -> Want
    ensures { result ≡ answers.Fault (record { pc = state.now.core.pc; cause = Service (register_of state.now.core 17) }) }
{
    Want::Fault(MachineFault {
        pc: state.core.pc,
        cause: FaultCause::Service(state.core.x[17]),
    })
}

/// Makes the next turn of a thread that has not ended: one instruction of machine code, or a turn of a service. Did
/// says what the turn was, Ask the request that it makes, whose reply is still to come and which leaves the state.
/// Full and Fault are no turns, and leave the state too; where the interpreter or the search for a clause would go on,
/// which are not built, the fault is Service. After want of memory the state is not to be used again. This project's
/// own.
pub fn next<W: Words<Fits>>(
    alloc: Global,
    state: &mut ThreadState,
    image: &ImageView,
    words: &mut W,
) -> Result<Want, NoMemory>
    requires met { W.meets image.now.cat words.old }
    requires image { IsServable (image_of image.now) }
    requires going { IsGoing (data_of image.now.cat) (W.held words.old) state.old.doing }

    ensures place { W.place words.new ≡ W.place words.old }
    ensures alone { W.alone words.new ≡ W.alone words.old }
    ensures grows { Grows (W.held words.old) (W.held words.new) }
    ensures met { W.meets image.now.cat words.new }

    ensures turn { IfOk result (λ said. IsMade (data_of image.now.cat) (span (W.alone words.old) (W.held words.old) (W.held words.new) (W.claims words.old) (W.claims words.new)) state.old (next_move (image_of image.now) state.old) said state.new) }

    // A fill that is under way afterwards can make its next turn.
    ensures ready { (f : FillData) → IfOk result (λ said. state.new.doing ≡ Fills f → IsUnderWay (data_of image.now.cat) (W.held words.new) f) }
{
    match &state.doing {
        Doing::Runs => Ok(run_code(state, image, words)),
        Doing::Serves | Doing::Fills(_) | Doing::Throws(_) | Doing::Refuses => serve(
            alloc, state, image, words,
        ),
        Doing::Stops(_) | Doing::Finishes => serve(alloc, state, image, words),
        Doing::Interprets | Doing::Searches(_) => Ok(lack(state)),
        Doing::Ended => unreachable!(),
    }
}
