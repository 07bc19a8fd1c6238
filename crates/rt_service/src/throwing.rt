// RAISE and THROW, up to the search for a clause.
ghost use Rattle.std.specs.Prelude.{◌≡◌};
ghost use Rattle.rgctx_words.specs.Held.{Grows};
ghost use Rattle.rgctx_template.specs.declared.catalogue.Catalogue.{Catalogue};
ghost use Rattle.rgctx_template.specs.Catalogue.{CatData, data_of};
ghost use Rattle.rgctx_fill.specs.ThreadStates.{image_of};
ghost use Rattle.rgctx_fill.specs.Moves.{Span, span, IsMade};
ghost use Rattle.rgctx_fill.specs.ThrowServices.{is_exception, raises, throws_word, searches};

use crate::reading::{Read, node_number};
use crate::replying::{refuse, unread};
use crate::storing::{object, string};
use interaction::What;
use rgctx_fill::{Doing, Fits, ImageView, ThreadState, Thrown, Want};
use rgctx_words::Words;
use store_object::Request;

pub(crate) const NULL_REFERENCE: u64 = 12;

const STRINGS: u64 = 0x1_0000_0000;

const STRING_LEAF: u32 = 6;

// Whether a number is that of the leaf of a class of exceptions.
pub(crate) fn is_exception(number: u64) -> bool
    ensures { result ≡ is_exception number }
{
    7 <= number && number <= 15
}

// RAISE: the leaf of a class of exceptions.
pub(crate) fn raise<W: Words<Fits>>(
    state: &mut ThreadState,
    image: &ImageView,
    words: &mut W,
    number: u64,
) -> Want
    requires met { W.meets image.now.cat words.old }
    ensures place { W.place words.new ≡ W.place words.old }
    ensures alone { W.alone words.new ≡ W.alone words.old }
    ensures grows { Grows (W.held words.old) (W.held words.new) }
    ensures met { (cat : Catalogue) → W.meets cat words.old → W.meets cat words.new }
    ensures turn { IsMade (data_of image.now.cat) (span (W.alone words.old) (W.held words.old) (W.held words.new) (W.claims words.old) (W.claims words.new)) state.old (raises state.old number) result state.new }
{
    let Some(node) = node_number(number) else {
        return refuse(state);
    };
    if words.load(u32::from(node)) == 0 {
        return unread(node);
    }
    if !is_exception(number) {
        return refuse(state);
    }
    Want::Ask(Request::Alloc {
        kind: u32::from(node),
        length: 0,
        words: 0,
    })
}

// The action behind the request, after which the search goes on.
pub(crate) fn search(state: &mut ThreadState, thrown: Thrown) -> Want
    ensures { (cat : CatData) (h : Span) → h.relisted ≡ h.listed → IsMade cat h state.old (searches state.old thrown) result state.new }
{
    state.doing = Doing::Searches(thrown);
    Want::Did(What::Action)
}

// THROW: a reference.
pub(crate) fn throw<W: Words<Fits>>(
    state: &mut ThreadState,
    image: &ImageView,
    words: &mut W,
    word: u64,
) -> Want
    requires met { W.meets image.now.cat words.old }
    ensures place { W.place words.new ≡ W.place words.old }
    ensures alone { W.alone words.new ≡ W.alone words.old }
    ensures grows { Grows (W.held words.old) (W.held words.new) }
    ensures met { (cat : Catalogue) → W.meets cat words.old → W.meets cat words.new }
    ensures turn { IsMade (data_of image.now.cat) (span (W.alone words.old) (W.held words.old) (W.held words.new) (W.claims words.old) (W.claims words.new)) state.old (throws_word state.old (image_of image.now) word) result state.new }
{
    if word == 0 {
        return raise(state, image, words, NULL_REFERENCE);
    }
    if word < STRINGS {
        return match object(word) {
            Some(object) => Want::Ask(Request::TypeOf { object }),
            None => refuse(state),
        };
    }
    match string(image, words, word) {
        Read::Passes => search(
            state,
            Thrown {
                word,
                kind: STRING_LEAF,
            },
        ),
        Read::Unread(node) => unread(node),
        Read::Refused => refuse(state),
    }
}
