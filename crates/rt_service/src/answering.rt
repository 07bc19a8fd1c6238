// What a thread becomes by the reply to its request.
ghost use Rattle.std.specs.Prelude.{◌≡◌, Some};
ghost use Rattle.rgctx_fill.specs.ThreadStates.{ImageData};
ghost use Rattle.rgctx_fill.specs.Moves.{IsReplied};
ghost use Rattle.rgctx_fill.specs.Turns.{FillData};
ghost use Rattle.rgctx_fill.specs.declared.doing.Doing.TheVariants.{Fills};
ghost use Rattle.rgctx_fill.specs.ThreadTurns.{next_move};
ghost use Rattle.rv_machine.specs.Registers.{register_of};
ghost use Rattle.rgctx_fill.specs.ServiceTable.{service_of};
ghost use Rattle.rgctx_fill.specs.ServiceReplies.{answered};
ghost use Rattle.rgctx_fill.specs.ThrowServices.{on_raised, on_thrown};
ghost use Rattle.rt_service.specs.Replies.{raise_replied, throw_replied, service_replied, replied_to};

use crate::replying::{give, word_of_flag};
use crate::throwing::{NULL_REFERENCE, is_exception};
use rgctx_fill::{Doing, ServiceKind, ThreadState, Thrown};
use store_object::Reply;

/// Takes the reply to the request that the last turn made: the state becomes the one that the turn has for this reply,
/// whatever node words it read before. No fill begins by a reply: one that is under way afterwards was so before.
pub fn answer(state: &mut ThreadState, reply: Reply)
    ensures turn { (im : ImageData) → IsReplied (next_move im state.old) reply state.new }
    ensures fill { (f : FillData) → state.new.doing ≡ Fills f → state.old.doing ≡ Fills f }
{
    take_reply(state, reply);
}

fn take_reply(state: &mut ThreadState, reply: Reply)
    ensures { state.new ≡ replied_to state.old reply state.old.doing }
{
    match &state.doing {
        Doing::Serves => take_of_service(state, reply),
        Doing::Stops(_) | Doing::Finishes => state.doing = Doing::Ended,
        Doing::Runs | Doing::Fills(_) | Doing::Interprets => {}
        Doing::Throws(_) | Doing::Searches(_) | Doing::Refuses | Doing::Ended => {}
    }
}

fn take_of_service(state: &mut ThreadState, reply: Reply)
    ensures { state.new ≡ service_replied state.old reply (service_of (register_of state.old.core 17)) }
{
    let first = state.core.x[10];
    match ServiceKind::of(state.core.x[17]) {
        Some(ServiceKind::Raise) => take_raised(state, first, reply),
        Some(ServiceKind::Throw) => take_thrown(state, first, reply),
        Some(ServiceKind::Call | ServiceKind::Return | ServiceKind::Fill) => {}
        Some(ServiceKind::FindSlot | ServiceKind::Assignable | ServiceKind::Element) => {}
        Some(ServiceKind::Alloc | ServiceKind::TypeOf | ServiceKind::Length) => take_plain(
            state, reply,
        ),
        Some(ServiceKind::Load | ServiceKind::Save | ServiceKind::Exchange) => take_plain(
            state, reply,
        ),
        Some(ServiceKind::CompareExchange | ServiceKind::Add) => take_plain(state, reply),
        Some(ServiceKind::Print | ServiceKind::Start | ServiceKind::Ended) => take_plain(
            state, reply,
        ),
        None => {}
    }
}

// RAISE: the exception is allocated, with the exact type of that leaf.
fn take_raised(state: &mut ThreadState, leaf: u64, reply: Reply)
    ensures { state.new ≡ raise_replied state.old reply leaf }
{
    if !is_exception(leaf) {
        return;
    }
    match reply {
        Reply::Object(number) => {
            state.doing = Doing::Throws(Thrown {
                word: u64::from(number),
                kind: leaf as u32,
            });
        }
        Reply::Kind(_) | Reply::Word(_) | Reply::Thread(_) => take_plain(state, reply),
        Reply::Ended(_) | Reply::Unknown | Reply::Done => take_plain(state, reply),
        Reply::Stopped(_) | Reply::Halted | Reply::Improper => take_plain(state, reply),
    }
}

// THROW: the exact type of what is thrown is known. Of null it is RAISE.
fn take_thrown(state: &mut ThreadState, word: u64, reply: Reply)
    ensures { state.new ≡ throw_replied state.old reply word }
{
    if word == 0 {
        return take_raised(state, NULL_REFERENCE, reply);
    }
    match reply {
        Reply::Kind(kind) => state.doing = Doing::Throws(Thrown { word, kind }),
        Reply::Object(_) | Reply::Word(_) | Reply::Thread(_) => take_plain(state, reply),
        Reply::Ended(_) | Reply::Unknown | Reply::Done => take_plain(state, reply),
        Reply::Stopped(_) | Reply::Halted | Reply::Improper => take_plain(state, reply),
    }
}

// What the store gives stands in x10.
fn take_plain(state: &mut ThreadState, reply: Reply)
    ensures { state.new ≡ answered state.old reply }
{
    match reply {
        Reply::Object(number) | Reply::Kind(number) | Reply::Thread(number) => {
            give(state, u64::from(number));
        }
        Reply::Word(word) => give(state, word),
        Reply::Ended(has_finished) => give(state, word_of_flag(has_finished)),
        Reply::Unknown => give(state, 2),
        Reply::Done => state.doing = Doing::Runs,
        Reply::Stopped(_) => state.doing = Doing::Ended,
        Reply::Halted => {}
        Reply::Improper => state.doing = Doing::Refuses,
    }
}
