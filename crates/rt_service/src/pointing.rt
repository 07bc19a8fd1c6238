// Where a pointer leads.
ghost use Rattle.std.specs.Prelude.{◌≡◌, ℕ, ◌<◌, ◌^◌, length};
ghost use Rattle.store_object.specs.declared.place.Place.{Place};
ghost use Rattle.rgctx_words.specs.Held.{Grows};
ghost use Rattle.rgctx_template.specs.declared.catalogue.Catalogue.{Catalogue};
ghost use Rattle.rgctx_template.specs.Catalogue.{data_of};
ghost use Rattle.rgctx_fill.specs.declared.thread.Want.{Want};
ghost use Rattle.rgctx_fill.specs.ThreadStates.{ImageData, ThreadData, Move};
ghost use Rattle.rgctx_words.specs.Frames.{frame_index};
ghost use Rattle.rgctx_words.specs.Stacks.{StackWords};
ghost use Rattle.rgctx_fill.specs.StoreServices.{with_pointer, in_statics};
ghost use Rattle.rt_service.specs.Targets.{frame_target, object_target, IsInside};
ghost use Rattle.rgctx_fill.specs.Moves.{Span, Within, IsMade};
ghost use Rattle.rt_service.specs.Readings.{GoesTo};

use crate::reading::{Read, node_number, type_node};
use rgctx_fill::{Fits, ThreadState};
use rgctx_words::{Stack, Words};
use store_object::Place;

// A pointer leads to a word of the frames, by its index, or to a place of the store; a node's word was answered as
// 0; or it leads nowhere.
#[derive(Clone, Copy, Debug, PartialEq, Eq)]
pub(crate) enum Target {
    Frame(u32),
    Store(Place),
    Unread(u16),
    Refused,
}

const OBJECTS: u64 = 0x4000_0000_0000_0000;

const STATICS: u64 = 0x8000_0000_0000_0000;

// A pointer below those into objects is the address of a frame word.
fn frame_target(stack: &Stack, pointer: u64) -> Target
    ensures { result ≡ frame_target (frame_index (length stack.now.words) pointer) }
{
    match stack.index_at(pointer) {
        Some(index) => Target::Frame(index),
        None => Target::Refused,
    }
}

// The object's number in a pointer has up to 38 bits; one past 32 bits names no object.
fn object_target(low: u64) -> Target
    requires { low < 2 ^ 62 }
    ensures { result ≡ object_target low }
{
    let number = low / 0x100_0000;
    if number == 0 || number >= 0x1_0000_0000 {
        return Target::Refused;
    }
    Target::Store(Place::Object {
        object: number as u32,
        index: (low % 0x100_0000) as u32,
    })
}

// The pointer to a static word has the node of its type.
fn static_target<W: Words<Fits>>(words: &mut W, low: u64) -> Target
    requires { low < 2 ^ 63 }
    ensures place { W.place words.new ≡ W.place words.old }
    ensures alone { W.alone words.new ≡ W.alone words.old }
    ensures claims { W.claims words.new ≡ W.claims words.old }
    ensures grows { Grows (W.held words.old) (W.held words.new) }
    ensures met { (cat : Catalogue) → W.meets cat words.old → W.meets cat words.new }
    ensures inside { (stack : StackWords) → IsInside stack result }
    ensures goes { (cat : Catalogue) → W.meets cat words.old → (h : Span) → Within h (W.held words.old) (W.held words.new) →
        (im : ImageData) (s : ThreadData) (frame : ℕ → Move) (store : Place → Move) (said : Want) (new : ThreadData) →
        GoesTo (data_of cat) h s result frame store said new → IsMade (data_of cat) h s (in_statics im s low store) said new }
{
    let number = low / 0x100_0000;
    let Some(kind) = node_number(number) else {
        return Target::Refused;
    };
    match type_node(words, number) {
        Read::Passes => Target::Store(Place::Fixed {
            kind: u32::from(kind),
            index: (low % 0x100_0000) as u32,
        }),
        Read::Unread(node) => Target::Unread(node),
        Read::Refused => Target::Refused,
    }
}

// Where a pointer leads.
pub(crate) fn target_of<W: Words<Fits>>(state: &ThreadState, words: &mut W, pointer: u64) -> Target
    ensures place { W.place words.new ≡ W.place words.old }
    ensures alone { W.alone words.new ≡ W.alone words.old }
    ensures claims { W.claims words.new ≡ W.claims words.old }
    ensures grows { Grows (W.held words.old) (W.held words.new) }
    ensures met { (cat : Catalogue) → W.meets cat words.old → W.meets cat words.new }
    ensures inside { IsInside state.now.stack result }
    ensures goes { (cat : Catalogue) → W.meets cat words.old → (h : Span) → Within h (W.held words.old) (W.held words.new) →
        (im : ImageData) (frame : ℕ → Move) (store : Place → Move) (said : Want) (new : ThreadData) →
        GoesTo (data_of cat) h state.now result frame store said new → IsMade (data_of cat) h state.now (with_pointer im state.now pointer frame store) said new }
{
    if pointer < OBJECTS {
        frame_target(&state.stack, pointer)
    } else if pointer < STATICS {
        object_target(pointer - OBJECTS)
    } else {
        static_target(words, pointer - STATICS)
    }
}
