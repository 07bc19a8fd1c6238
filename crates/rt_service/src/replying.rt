// How a service ends.
ghost use Rattle.std.specs.Prelude.{◌≡◌, ◌<◌, length};
ghost use Rattle.rgctx_words.specs.Stacks.{with_word};
ghost use Rattle.interaction.specs.declared.turn.What.TheVariants as noted;
ghost use Rattle.rgctx_fill.specs.declared.thread.Want.TheVariants as answers;
ghost use Rattle.rgctx_fill.specs.declared.doing.Doing.TheVariants.{Runs};
ghost use Rattle.rgctx_fill.specs.ThreadStates.{with_stack, now_doing};
ghost use Rattle.rgctx_fill.specs.ServiceReplies.{given, word_of_flag};
ghost use Rattle.rt_service.specs.Refusals.{refused};

use interaction::What;
use mn_outside::{FaultCause, MachineFault};
use rgctx_fill::{Doing, ThreadState, Want};

// The fault of a service that refuses what it was given, at the address of its ECALL.
pub(crate) fn refuse(state: &ThreadState) -> Want
    ensures { result ≡ refused state.now }
{
    Want::Fault(MachineFault {
        pc: state.core.pc.saturating_sub(4),
        cause: FaultCause::Service(state.core.x[17]),
    })
}

// A node's word was answered as 0: the turn is its load, and the service is tried again.
pub(crate) fn unread(node: u16) -> Want
    ensures { result ≡ answers.Did (noted.Load node) }
{
    Want::Did(What::Load(u32::from(node)))
}

// The word stands in x10, and code goes on.
pub(crate) fn give(state: &mut ThreadState, word: u64)
    ensures { state.new ≡ given state.old word }
{
    state.core.x[10] = word;
    state.doing = Doing::Runs;
}

// Code goes on, and a word of the frames is another.
pub(crate) fn leave_word(state: &mut ThreadState, index: u32, word: u64)
    requires { index < length state.old.stack.words }
    ensures { state.new ≡ with_stack (now_doing state.old Runs) (with_word state.old.stack index word) }
{
    state.stack.put(index, word);
    state.doing = Doing::Runs;
}

// The same, and gives a word.
pub(crate) fn swap_word(state: &mut ThreadState, index: u32, gives: u64, leaves: u64)
    requires { index < length state.old.stack.words }
    ensures { state.new ≡ with_stack (given state.old gives) (with_word state.old.stack index leaves) }
{
    state.stack.put(index, leaves);
    give(state, gives);
}

pub(crate) fn word_of_flag(flag: bool) -> u64
    ensures { result ≡ word_of_flag flag }
{
    if flag { 1 } else { 0 }
}
