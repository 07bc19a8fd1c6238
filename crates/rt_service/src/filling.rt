// The service FILL.
ghost use Rattle.std.specs.Prelude.{◌≡◌, IfOk};
ghost use Rattle.rt_service.specs.Readings.{IsSpelled};
ghost use Rattle.rt_service.specs.Notes.{noted_as, IsUnderWay};
ghost use Rattle.rgctx_words.specs.Held.{Grows};
ghost use Rattle.rgctx_template.specs.declared.catalogue.Catalogue.{Catalogue};
ghost use Rattle.rgctx_template.specs.Catalogue.{CatData, data_of};
ghost use Rattle.rgctx_fill.specs.ThreadStates.{image_of};
ghost use Rattle.rgctx_fill.specs.Moves.{Span, span, IsMade};
ghost use Rattle.cil_meaning.specs.Mentions.{cause_of};
ghost use Rattle.rgctx_fill.specs.declared.doing.Doing.TheVariants.{Serves, Fills};
ghost use Rattle.rgctx_fill.specs.Turns.{FillData};
ghost use Rattle.rgctx_fill.specs.FillServices.{begins_at, fills, fills_on, region_of};
ghost use Rattle.rgctx_fill.specs.Serving.{IsServable, IsServing};

use crate::reading::{TreeRead, tree_at};
use crate::replying::{give, refuse, unread};
use il_model::Limit;
use interaction::What;
use mn_outside::NoMemory;
use rgctx_fill::laws::tree_template;
use rgctx_fill::{
    Doing, Fill, FillNext, FillStart, FillStep, Fits, ImageView, NodeTree, ThreadState, Want,
};
use rgctx_words::Words;
use std::alloc::Global;
use store_object::Cause;

fn cause_of(limit: Limit) -> Cause
    ensures { result ≡ cause_of limit }
{
    match limit {
        Limit::Positions => Cause::Positions,
        Limit::ValueWords => Cause::ValueWords,
    }
}

fn region_of(region: rgctx_fill::Region) -> mn_outside::Region
    ensures { result ≡ region_of region }
{
    match region {
        rgctx_fill::Region::Nodes => mn_outside::Region::Nodes,
        rgctx_fill::Region::Rows => mn_outside::Region::Rows,
    }
}

// FILL: the node, and the number of the entry in its template. One action begins the fill, or is to stop the run.
pub(crate) fn fill<W: Words<Fits>>(
    alloc: Global,
    state: &mut ThreadState,
    image: &ImageView,
    words: &mut W,
    number: u64,
    entry: u64,
) -> Result<Want, NoMemory>
    requires met { W.meets image.now.cat words.old }
    requires image { IsServable (image_of image.now) }
    ensures place { W.place words.new ≡ W.place words.old }
    ensures alone { W.alone words.new ≡ W.alone words.old }
    ensures grows { Grows (W.held words.old) (W.held words.new) }
    ensures met { (cat : Catalogue) → W.meets cat words.old → W.meets cat words.new }
    ensures ready { (f : FillData) → state.old.doing ≡ Serves → state.new.doing ≡ Fills f → IsUnderWay (data_of image.now.cat) (W.held words.new) f }
    ensures turn { IfOk result (λ said. IsMade (data_of image.now.cat) (span (W.alone words.old) (W.held words.old) (W.held words.new) (W.claims words.old) (W.claims words.new)) state.old (fills (image_of image.now) state.old number entry) said state.new) }
{
    match tree_at(alloc, &image.cat, words, number)? {
        TreeRead::Spells(tree) => {
            let node = number as u16;
            let want = fill_entry(alloc, state, image, words, &tree, node, entry)?;
            Ok(want)
        }
        TreeRead::Unread(node) => Ok(unread(node)),
        TreeRead::Refused => Ok(refuse(state)),
    }
}

// The same, once it is known what the node spells.
fn fill_entry<W: Words<Fits>>(
    alloc: Global,
    state: &mut ThreadState,
    image: &ImageView,
    words: &mut W,
    tree: &NodeTree,
    node: u16,
    entry: u64,
) -> Result<Want, NoMemory>
    requires met { W.meets image.now.cat words.old }
    requires image { IsServable (image_of image.now) }
    requires spelled { IsSpelled (W.held words.old) node tree.now }
    ensures place { W.place words.new ≡ W.place words.old }
    ensures alone { W.alone words.new ≡ W.alone words.old }
    ensures claims { W.claims words.new ≡ W.claims words.old }
    ensures grows { Grows (W.held words.old) (W.held words.new) }
    ensures met { (cat : Catalogue) → W.meets cat words.old → W.meets cat words.new }
    ensures ready { (f : FillData) → state.old.doing ≡ Serves → state.new.doing ≡ Fills f → IsUnderWay (data_of image.now.cat) (W.held words.new) f }
    ensures turn { IfOk result (λ said. (h : Span) → h.relisted ≡ h.listed → IsMade (data_of image.now.cat) h state.old (begins_at (image_of image.now) state.old node entry tree.now) said state.new) }
{
    let entries = tree_template(alloc, &image.cat, tree)?;
    if entry >= entries.as_slice().len() as u64 {
        return Ok(refuse(state));
    }
    let place = entry as u16;
    match Fill::start(alloc, &image.cat, words, node, place)? {
        FillStart::Ready(fill) => {
            state.doing = Doing::Fills(fill);
            Ok(Want::Did(What::Action))
        }
        FillStart::Refused(limit) => {
            state.doing = Doing::Stops(cause_of(limit));
            Ok(Want::Did(What::Action))
        }
    }
}

// What the next turn of a fill is noted as.
fn noted(next: FillNext) -> What
    ensures { result ≡ noted_as next }
{
    match next {
        FillNext::Load(index) => What::Load(index),
        FillNext::Claim(index, _) => What::Claim(index),
        FillNext::Full(_, _) | FillNext::Nothing => What::Action,
    }
}

// The next turn of a fill under way.
pub(crate) fn fill_on<W: Words<Fits>>(
    state: &mut ThreadState,
    image: &ImageView,
    words: &mut W,
) -> Want
    requires met { W.meets image.now.cat words.old }
    requires serves { IsServing (data_of image.now.cat) (W.held words.old) state.old.doing }
    ensures place { W.place words.new ≡ W.place words.old }
    ensures alone { W.alone words.new ≡ W.alone words.old }
    ensures grows { Grows (W.held words.old) (W.held words.new) }
    ensures met { W.meets image.now.cat words.new }
    ensures ready { (f : FillData) → state.new.doing ≡ Fills f → IsUnderWay (data_of image.now.cat) (W.held words.new) f }
    ensures turn { (f : FillData) → state.old.doing ≡ Fills f → IsMade (data_of image.now.cat) (span (W.alone words.old) (W.held words.old) (W.held words.new) (W.claims words.old) (W.claims words.new)) state.old (fills_on state.old f) result state.new }
{
    let Doing::Fills(fill) = &mut state.doing else {
        return refuse(state);
    };
    let what = noted(fill.next());
    match fill.turn(words) {
        FillStep::More => Want::Did(what),
        FillStep::Value(value) => {
            give(state, value);
            Want::Did(what)
        }
        FillStep::Full(region, key) => Want::Full(region_of(region), key),
    }
}
