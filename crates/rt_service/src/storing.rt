// The services that are one request each, or one action on a word of the frames or a string.
ghost use Rattle.std.specs.Prelude.{◌≡◌, ◌==◌, if◌then◌else◌};
ghost use Rattle.rgctx_words.specs.Held.{Grows};
ghost use Rattle.rgctx_template.specs.declared.catalogue.Catalogue.{Catalogue};
ghost use Rattle.rgctx_template.specs.Catalogue.{CatData, data_of};
ghost use Rattle.rgctx_fill.specs.ThreadStates.{image_of};
ghost use Rattle.rgctx_fill.specs.Moves.{Span, span, IsMade};
ghost use Rattle.rgctx_fill.specs.ThreadStates.{ImageData};
ghost use Rattle.rgctx_fill.specs.StoreServices.{with_string, prints_string, prints, allocates, types_of, measures, starts, ends, loads, saves, exchanges, compares, adds_at, adds};
ghost use Rattle.rgctx_fill.specs.ThreadStates.{ThreadData, Move};
ghost use Rattle.rgctx_fill.specs.declared.thread.Want.{Want};
ghost use Rattle.rgctx_fill.specs.Moves.{Within};
ghost use Rattle.store_object.specs.Store.{summed};
ghost use Rattle.rt_service.specs.Numbers.{object_of};
ghost use Rattle.rt_service.specs.Readings.{GoesOn};

use crate::pointing::{Target, target_of};
use crate::reading::{Read, node_number, type_node};
use crate::replying::{give, leave_word, refuse, swap_word, unread};
use interaction::What;
use rgctx_fill::{Fits, ImageView, ThreadState, Want};
use rgctx_words::Words;
use store_object::{Form, Request};

const STRINGS: u64 = 0x1_0000_0000;

const NAMES: u64 = 0x2_0000_0000;

const STRING_LEAF: u64 = 6;

// Whether a word past the objects names a literal or a type.
pub(crate) fn string<W: Words<Fits>>(image: &ImageView, words: &mut W, word: u64) -> Read
    ensures place { W.place words.new ≡ W.place words.old }
    ensures alone { W.alone words.new ≡ W.alone words.old }
    ensures grows { Grows (W.held words.old) (W.held words.new) }
    ensures met { (cat : Catalogue) → W.meets cat words.old → W.meets cat words.new }
    ensures claims { W.claims words.new ≡ W.claims words.old }
    ensures goes { W.meets image.now.cat words.old → (h : Span) → Within h (W.held words.old) (W.held words.new) →
        (s : ThreadData) (next : Move) (said : Want) (new : ThreadData) → GoesOn (data_of image.now.cat) h s result next said new → IsMade (data_of image.now.cat) h s (with_string (image_of image.now) s word next) said new }
{
    if word >= NAMES {
        return type_node(words, word - NAMES);
    }
    if word >= STRINGS && word - STRINGS < image.cat.program.literals.len() as u64 {
        Read::Passes
    } else {
        Read::Refused
    }
}

// The object with a number, where a word may name one.
pub(crate) fn object(word: u64) -> Option<u32>
    ensures { result ≡ object_of word }
{
    if word == 0 || word >= STRINGS {
        return None;
    }
    Some(word as u32)
}

// A string is null, a literal, or the name of a type.
pub(crate) fn print_string<W: Words<Fits>>(
    state: &mut ThreadState,
    image: &ImageView,
    words: &mut W,
    word: u64,
) -> Want
    requires met { W.meets image.now.cat words.old }
    ensures place { W.place words.new ≡ W.place words.old }
    ensures alone { W.alone words.new ≡ W.alone words.old }
    ensures grows { Grows (W.held words.old) (W.held words.new) }
    ensures met { (cat : Catalogue) → W.meets cat words.old → W.meets cat words.new }
    ensures turn { IsMade (data_of image.now.cat) (span (W.alone words.old) (W.held words.old) (W.held words.new) (W.claims words.old) (W.claims words.new)) state.old (prints_string (image_of image.now) state.old word) result state.new }
{
    let request = Request::Print {
        form: Form::String,
        word,
    };
    if word == 0 {
        return Want::Ask(request);
    }
    match string(image, words, word) {
        Read::Passes => Want::Ask(request),
        Read::Unread(node) => unread(node),
        Read::Refused => refuse(state),
    }
}

// PRINT: the word, and 0 for a number or 1 for a string.
pub(crate) fn print<W: Words<Fits>>(
    state: &mut ThreadState,
    image: &ImageView,
    words: &mut W,
    word: u64,
    form: u64,
) -> Want
    requires met { W.meets image.now.cat words.old }
    ensures place { W.place words.new ≡ W.place words.old }
    ensures alone { W.alone words.new ≡ W.alone words.old }
    ensures grows { Grows (W.held words.old) (W.held words.new) }
    ensures met { (cat : Catalogue) → W.meets cat words.old → W.meets cat words.new }
    ensures turn { IsMade (data_of image.now.cat) (span (W.alone words.old) (W.held words.old) (W.held words.new) (W.claims words.old) (W.claims words.new)) state.old (prints (image_of image.now) state.old word form) result state.new }
{
    match form {
        0 => Want::Ask(Request::Print {
            form: Form::Number,
            word,
        }),
        1 => print_string(state, image, words, word),
        _ => refuse(state),
    }
}

// ALLOC: the type's node, the length, the words.
pub(crate) fn allocate<W: Words<Fits>>(
    state: &mut ThreadState,
    image: &ImageView,
    words: &mut W,
    number: u64,
    length: u64,
    count: u64,
) -> Want
    requires met { W.meets image.now.cat words.old }
    ensures place { W.place words.new ≡ W.place words.old }
    ensures alone { W.alone words.new ≡ W.alone words.old }
    ensures grows { Grows (W.held words.old) (W.held words.new) }
    ensures met { (cat : Catalogue) → W.meets cat words.old → W.meets cat words.new }
    ensures turn { IsMade (data_of image.now.cat) (span (W.alone words.old) (W.held words.old) (W.held words.new) (W.claims words.old) (W.claims words.new)) state.old (allocates (image_of image.now) state.old number length count) result state.new }
{
    if length >= 0x1_0000_0000 {
        return refuse(state);
    }
    let Some(node) = node_number(number) else {
        return refuse(state);
    };
    match type_node(words, number) {
        Read::Passes => Want::Ask(Request::Alloc {
            kind: u32::from(node),
            length: length as u32,
            words: count,
        }),
        Read::Unread(node) => unread(node),
        Read::Refused => refuse(state),
    }
}

// TYPEOF: a reference. Of a string it is the string's class.
pub(crate) fn type_of<W: Words<Fits>>(
    state: &mut ThreadState,
    image: &ImageView,
    words: &mut W,
    word: u64,
) -> Want
    requires met { W.meets image.now.cat words.old }
    ensures place { W.place words.new ≡ W.place words.old }
    ensures alone { W.alone words.new ≡ W.alone words.old }
    ensures grows { Grows (W.held words.old) (W.held words.new) }
    ensures met { (cat : Catalogue) → W.meets cat words.old → W.meets cat words.new }
    ensures turn { IsMade (data_of image.now.cat) (span (W.alone words.old) (W.held words.old) (W.held words.new) (W.claims words.old) (W.claims words.new)) state.old (types_of (image_of image.now) state.old word) result state.new }
{
    if word < STRINGS {
        return match object(word) {
            Some(object) => Want::Ask(Request::TypeOf { object }),
            None => refuse(state),
        };
    }
    match string(image, words, word) {
        Read::Passes => {
            give(state, STRING_LEAF);
            Want::Did(What::Action)
        }
        Read::Unread(node) => unread(node),
        Read::Refused => refuse(state),
    }
}

// LENGTH: an object.
pub(crate) fn length_of(state: &mut ThreadState, word: u64) -> Want
    ensures { (cat : CatData) (im : ImageData) (h : Span) → h.relisted ≡ h.listed → IsMade cat h state.old (measures im state.old word) result state.new }
{
    match object(word) {
        Some(object) => Want::Ask(Request::Length { object }),
        None => refuse(state),
    }
}

// START: an object.
pub(crate) fn start(state: &mut ThreadState, word: u64) -> Want
    ensures { (cat : CatData) (im : ImageData) (h : Span) → h.relisted ≡ h.listed → IsMade cat h state.old (starts im state.old word) result state.new }
{
    match object(word) {
        Some(object) => Want::Ask(Request::Start { object }),
        None => refuse(state),
    }
}

// ENDED: a thread, by the low 32 bits.
pub(crate) fn ended(state: &mut ThreadState, word: u64) -> Want
    ensures { (cat : CatData) (im : ImageData) (h : Span) → h.relisted ≡ h.listed → IsMade cat h state.old (ends im state.old word) result state.new }
{
    Want::Ask(Request::Ended {
        thread: (word % 0x1_0000_0000) as u32,
    })
}

// LOAD: the pointer.
pub(crate) fn load<W: Words<Fits>>(
    state: &mut ThreadState,
    image: &ImageView,
    words: &mut W,
    pointer: u64,
) -> Want
    requires met { W.meets image.now.cat words.old }
    ensures place { W.place words.new ≡ W.place words.old }
    ensures alone { W.alone words.new ≡ W.alone words.old }
    ensures grows { Grows (W.held words.old) (W.held words.new) }
    ensures met { (cat : Catalogue) → W.meets cat words.old → W.meets cat words.new }
    ensures turn { IsMade (data_of image.now.cat) (span (W.alone words.old) (W.held words.old) (W.held words.new) (W.claims words.old) (W.claims words.new)) state.old (loads (image_of image.now) state.old pointer) result state.new }
{
    match target_of(state, words, pointer) {
        Target::Frame(index) => {
            let word = state.stack.word(index);
            give(state, word);
            Want::Did(What::Action)
        }
        Target::Store(place) => Want::Ask(Request::Load { place }),
        Target::Unread(node) => unread(node),
        Target::Refused => refuse(state),
    }
}

// SAVE: the pointer and the word.
pub(crate) fn save<W: Words<Fits>>(
    state: &mut ThreadState,
    image: &ImageView,
    words: &mut W,
    pointer: u64,
    word: u64,
) -> Want
    requires met { W.meets image.now.cat words.old }
    ensures place { W.place words.new ≡ W.place words.old }
    ensures alone { W.alone words.new ≡ W.alone words.old }
    ensures grows { Grows (W.held words.old) (W.held words.new) }
    ensures met { (cat : Catalogue) → W.meets cat words.old → W.meets cat words.new }
    ensures turn { IsMade (data_of image.now.cat) (span (W.alone words.old) (W.held words.old) (W.held words.new) (W.claims words.old) (W.claims words.new)) state.old (saves (image_of image.now) state.old pointer word) result state.new }
{
    match target_of(state, words, pointer) {
        Target::Frame(index) => {
            leave_word(state, index, word);
            Want::Did(What::Action)
        }
        Target::Store(place) => Want::Ask(Request::Save { place, word }),
        Target::Unread(node) => unread(node),
        Target::Refused => refuse(state),
    }
}

// EXCHANGE: the same, and gives the old word.
pub(crate) fn exchange<W: Words<Fits>>(
    state: &mut ThreadState,
    image: &ImageView,
    words: &mut W,
    pointer: u64,
    word: u64,
) -> Want
    requires met { W.meets image.now.cat words.old }
    ensures place { W.place words.new ≡ W.place words.old }
    ensures alone { W.alone words.new ≡ W.alone words.old }
    ensures grows { Grows (W.held words.old) (W.held words.new) }
    ensures met { (cat : Catalogue) → W.meets cat words.old → W.meets cat words.new }
    ensures turn { IsMade (data_of image.now.cat) (span (W.alone words.old) (W.held words.old) (W.held words.new) (W.claims words.old) (W.claims words.new)) state.old (exchanges (image_of image.now) state.old pointer word) result state.new }
{
    match target_of(state, words, pointer) {
        Target::Frame(index) => {
            let old = state.stack.word(index);
            swap_word(state, index, old, word);
            Want::Did(What::Action)
        }
        Target::Store(place) => Want::Ask(Request::Exchange { place, word }),
        Target::Unread(node) => unread(node),
        Target::Refused => refuse(state),
    }
}

// The word that a compare-and-exchange leaves.
fn left_by(old: u64, comparand: u64, word: u64) -> u64
    ensures { result ≡ (if old == comparand then word else old) }
{
    if old == comparand { word } else { old }
}

// COMPAREEXCHANGE: the same, with the comparand.
pub(crate) fn compare_exchange<W: Words<Fits>>(
    state: &mut ThreadState,
    image: &ImageView,
    words: &mut W,
    pointer: u64,
    word: u64,
    comparand: u64,
) -> Want
    requires met { W.meets image.now.cat words.old }
    ensures place { W.place words.new ≡ W.place words.old }
    ensures alone { W.alone words.new ≡ W.alone words.old }
    ensures grows { Grows (W.held words.old) (W.held words.new) }
    ensures met { (cat : Catalogue) → W.meets cat words.old → W.meets cat words.new }
    ensures turn { IsMade (data_of image.now.cat) (span (W.alone words.old) (W.held words.old) (W.held words.new) (W.claims words.old) (W.claims words.new)) state.old (compares (image_of image.now) state.old pointer word comparand) result state.new }
{
    match target_of(state, words, pointer) {
        Target::Frame(index) => {
            let old = state.stack.word(index);
            let left = left_by(old, comparand, word);
            swap_word(state, index, old, left);
            Want::Did(What::Action)
        }
        Target::Store(place) => Want::Ask(Request::CompareExchange {
            place,
            word,
            comparand,
        }),
        Target::Unread(node) => unread(node),
        Target::Refused => refuse(state),
    }
}

// The sum of two words, at 32 bits where it is narrow, and else at 64.
fn summed(narrow: bool, old: u64, word: u64) -> u64
    ensures { result ≡ summed narrow old word }
{
    let sum = old.wrapping_add(word);
    if !narrow {
        return sum;
    }
    let low = sum % 0x1_0000_0000;
    if low < 0x8000_0000 {
        low
    } else {
        low + 0xFFFF_FFFF_0000_0000
    }
}

// ADD at 32 or 64 bits.
pub(crate) fn add_at<W: Words<Fits>>(
    state: &mut ThreadState,
    image: &ImageView,
    words: &mut W,
    pointer: u64,
    word: u64,
    narrow: bool,
) -> Want
    requires met { W.meets image.now.cat words.old }
    ensures place { W.place words.new ≡ W.place words.old }
    ensures alone { W.alone words.new ≡ W.alone words.old }
    ensures grows { Grows (W.held words.old) (W.held words.new) }
    ensures met { (cat : Catalogue) → W.meets cat words.old → W.meets cat words.new }
    ensures turn { IsMade (data_of image.now.cat) (span (W.alone words.old) (W.held words.old) (W.held words.new) (W.claims words.old) (W.claims words.new)) state.old (adds_at (image_of image.now) state.old narrow pointer word) result state.new }
{
    match target_of(state, words, pointer) {
        Target::Frame(index) => {
            let old = state.stack.word(index);
            let sum = summed(narrow, old, word);
            swap_word(state, index, sum, sum);
            Want::Did(What::Action)
        }
        Target::Store(place) => Want::Ask(Request::Add {
            place,
            word,
            narrow,
        }),
        Target::Unread(node) => unread(node),
        Target::Refused => refuse(state),
    }
}

// ADD: the pointer, the word, and 32 or 64.
pub(crate) fn add<W: Words<Fits>>(
    state: &mut ThreadState,
    image: &ImageView,
    words: &mut W,
    pointer: u64,
    word: u64,
    bits: u64,
) -> Want
    requires met { W.meets image.now.cat words.old }
    ensures place { W.place words.new ≡ W.place words.old }
    ensures alone { W.alone words.new ≡ W.alone words.old }
    ensures grows { Grows (W.held words.old) (W.held words.new) }
    ensures met { (cat : Catalogue) → W.meets cat words.old → W.meets cat words.new }
    ensures turn { IsMade (data_of image.now.cat) (span (W.alone words.old) (W.held words.old) (W.held words.new) (W.claims words.old) (W.claims words.new)) state.old (adds (image_of image.now) state.old pointer word bits) result state.new }
{
    match bits {
        32 => add_at(state, image, words, pointer, word, true),
        64 => add_at(state, image, words, pointer, word, false),
        _ => refuse(state),
    }
}
