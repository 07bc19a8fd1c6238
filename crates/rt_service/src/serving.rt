// One turn of a service.
ghost use Rattle.std.specs.Prelude.{◌≡◌, IfOk};
ghost use Rattle.rgctx_words.specs.Held.{Grows};
ghost use Rattle.rgctx_template.specs.declared.catalogue.Catalogue.{Catalogue};
ghost use Rattle.rgctx_template.specs.Catalogue.{CatData, data_of};
ghost use Rattle.rgctx_fill.specs.ThreadStates.{image_of};
ghost use Rattle.rgctx_fill.specs.Moves.{Span, span, IsMade};
ghost use Rattle.rgctx_fill.specs.Serving.{IsServable, IsServing};
ghost use Rattle.rgctx_fill.specs.Services.{serves_as, serves};
ghost use Rattle.rgctx_fill.specs.ThreadTurns.{next_move};
ghost use Rattle.std.specs.Prelude.{true};
ghost use Rattle.rv_machine.specs.Registers.{register_of};
ghost use Rattle.rgctx_fill.specs.Turns.{FillData};
ghost use Rattle.rgctx_fill.specs.declared.doing.Doing.TheVariants.{Serves, Fills};
ghost use Rattle.rgctx_fill.specs.declared.service.ServiceKind.TheVariants as service;
ghost use Rattle.rt_service.specs.Requests.{is_request};
ghost use Rattle.rt_service.specs.Notes.{IsUnderWay};

use crate::calling::{call, give_back};
use crate::filling::{fill, fill_on};
use crate::replying::refuse;
use crate::storing::{
    add, allocate, compare_exchange, ended, exchange, length_of, load, print, save, start, type_of,
};
use crate::throwing::{raise, search, throw};
use crate::typing::{find_element, find_slot, judge_assignable};
use mn_outside::NoMemory;
use rgctx_fill::{Doing, Fits, ImageView, ServiceKind, ThreadState, Want};
use rgctx_words::Words;
use std::alloc::Global;
use store_object::Request;

// The turn of the service that code asked for.
fn serve_as<W: Words<Fits>>(
    alloc: Global,
    state: &mut ThreadState,
    image: &ImageView,
    words: &mut W,
    kind: ServiceKind,
) -> Result<Want, NoMemory>
    requires met { W.meets image.now.cat words.old }
    requires image { IsServable (image_of image.now) }
    ensures place { W.place words.new ≡ W.place words.old }
    ensures alone { W.alone words.new ≡ W.alone words.old }
    ensures grows { Grows (W.held words.old) (W.held words.new) }
    ensures met { (cat : Catalogue) → W.meets cat words.old → W.meets cat words.new }
    ensures turn { IfOk result (λ said. IsMade (data_of image.now.cat) (span (W.alone words.old) (W.held words.old) (W.held words.new) (W.claims words.old) (W.claims words.new)) state.old (serves_as (image_of image.now) state.old kind) said state.new) }
    ensures ready { (f : FillData) → kind ≡ service.Fill → state.old.doing ≡ Serves → state.new.doing ≡ Fills f → IsUnderWay (data_of image.now.cat) (W.held words.new) f }
{
    let first = state.core.x[10];
    let second = state.core.x[11];
    let third = state.core.x[12];
    match kind {
        ServiceKind::Call => {
            let want = call(alloc, state, image, words, first, second, third)?;
            Ok(want)
        }
        ServiceKind::Return => Ok(give_back(state)),
        ServiceKind::Raise => Ok(raise(state, image, words, first)),
        ServiceKind::Throw => Ok(throw(state, image, words, first)),
        ServiceKind::Fill => {
            let want = fill(alloc, state, image, words, first, second)?;
            Ok(want)
        }
        ServiceKind::FindSlot => {
            let want = find_slot(alloc, state, image, words, first, second, third)?;
            Ok(want)
        }
        ServiceKind::Assignable => {
            let want = judge_assignable(alloc, state, image, words, first, second)?;
            Ok(want)
        }
        ServiceKind::Element => Ok(find_element(state, image, words, first)),
        _ => Ok(serve_request(state, image, words, kind)),
    }
}

// The turn of a service that is a request, or takes its place.
fn serve_request<W: Words<Fits>>(
    state: &mut ThreadState,
    image: &ImageView,
    words: &mut W,
    kind: ServiceKind,
) -> Want
    requires met { W.meets image.now.cat words.old }
    requires kind { is_request kind ≡ true }
    ensures place { W.place words.new ≡ W.place words.old }
    ensures alone { W.alone words.new ≡ W.alone words.old }
    ensures grows { Grows (W.held words.old) (W.held words.new) }
    ensures met { (cat : Catalogue) → W.meets cat words.old → W.meets cat words.new }
    ensures turn { IsMade (data_of image.now.cat) (span (W.alone words.old) (W.held words.old) (W.held words.new) (W.claims words.old) (W.claims words.new)) state.old (serves_as (image_of image.now) state.old kind) result state.new }
{
    let first = state.core.x[10];
    let second = state.core.x[11];
    let third = state.core.x[12];
    match kind {
        ServiceKind::Alloc => allocate(state, image, words, first, second, third),
        ServiceKind::TypeOf => type_of(state, image, words, first),
        ServiceKind::Length => length_of(state, first),
        ServiceKind::Load => load(state, image, words, first),
        ServiceKind::Save => save(state, image, words, first, second),
        ServiceKind::Exchange => exchange(state, image, words, first, second),
        ServiceKind::CompareExchange => compare_exchange(state, image, words, first, second, third),
        ServiceKind::Add => add(state, image, words, first, second, third),
        ServiceKind::Print => print(state, image, words, first, second),
        ServiceKind::Start => start(state, first),
        ServiceKind::Ended => ended(state, first),
        _ => unreachable!(),
    }
}

// The turn of the service with the number in x17.
fn serve_number<W: Words<Fits>>(
    alloc: Global,
    state: &mut ThreadState,
    image: &ImageView,
    words: &mut W,
) -> Result<Want, NoMemory>
    requires met { W.meets image.now.cat words.old }
    requires image { IsServable (image_of image.now) }
    ensures place { W.place words.new ≡ W.place words.old }
    ensures alone { W.alone words.new ≡ W.alone words.old }
    ensures grows { Grows (W.held words.old) (W.held words.new) }
    ensures met { (cat : Catalogue) → W.meets cat words.old → W.meets cat words.new }
    ensures turn { IfOk result (λ said. IsMade (data_of image.now.cat) (span (W.alone words.old) (W.held words.old) (W.held words.new) (W.claims words.old) (W.claims words.new)) state.old (serves (image_of image.now) state.old (register_of state.old.core 17)) said state.new) }
    ensures ready { (f : FillData) → state.old.doing ≡ Serves → IfOk result (λ said. state.new.doing ≡ Fills f → IsUnderWay (data_of image.now.cat) (W.held words.new) f) }
{
    match ServiceKind::of(state.core.x[17]) {
        Some(kind) => serve_as(alloc, state, image, words, kind),
        None => Ok(refuse(state)),
    }
}

/// Makes the next turn of a thread in which a service goes on: the service that code has asked for by ECALL, or what
/// is left of one. Did says what the turn was, Ask the request that it makes, whose reply is still to come and
/// which leaves the state. Full and Fault are no turns, and leave the state too. After want of memory the state is not
/// to be used again. This project's own.
pub fn serve<W: Words<Fits>>(
    alloc: Global,
    state: &mut ThreadState,
    image: &ImageView,
    words: &mut W,
) -> Result<Want, NoMemory>
    requires met { W.meets image.now.cat words.old }
    requires image { IsServable (image_of image.now) }
    requires serves { IsServing (data_of image.now.cat) (W.held words.old) state.old.doing }

    ensures place { W.place words.new ≡ W.place words.old }
    ensures alone { W.alone words.new ≡ W.alone words.old }
    ensures grows { Grows (W.held words.old) (W.held words.new) }
    ensures met { W.meets image.now.cat words.new }

    ensures turn { IfOk result (λ said. IsMade (data_of image.now.cat) (span (W.alone words.old) (W.held words.old) (W.held words.new) (W.claims words.old) (W.claims words.new)) state.old (next_move (image_of image.now) state.old) said state.new) }

    // A fill that is under way afterwards can make its next turn.
    ensures ready { (f : FillData) → IfOk result (λ said. state.new.doing ≡ Fills f → IsUnderWay (data_of image.now.cat) (W.held words.new) f) }
{
    match &state.doing {
        Doing::Serves => serve_number(alloc, state, image, words),
        Doing::Fills(_) => Ok(fill_on(state, image, words)),
        Doing::Throws(thrown) => {
            let thrown = *thrown;
            Ok(search(state, thrown))
        }
        Doing::Refuses => Ok(refuse(state)),
        Doing::Stops(cause) => Ok(Want::Ask(Request::Stop { cause: *cause })),
        Doing::Finishes => Ok(Want::Ask(Request::Finish)),
        Doing::Runs | Doing::Interprets | Doing::Searches(_) | Doing::Ended => unreachable!(),
    }
}
