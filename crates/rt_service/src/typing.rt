// The services that ask of types.
ghost use Rattle.std.specs.Prelude.{◌≡◌, IfOk};
ghost use Rattle.rgctx_words.specs.Held.{Grows};
ghost use Rattle.rgctx_template.specs.declared.catalogue.Catalogue.{Catalogue};
ghost use Rattle.rgctx_template.specs.Catalogue.{CatData, data_of};
ghost use Rattle.rgctx_fill.specs.ThreadStates.{image_of};
ghost use Rattle.rgctx_fill.specs.Moves.{Span, span, IsMade};
ghost use Rattle.rgctx_fill.specs.Serving.{IsServable};
ghost use Rattle.type_tree.specs.declared.tree.TExpr.{TExpr};
ghost use Rattle.il_model.specs.Slots.{is_interface};
ghost use Rattle.il_model.specs.Assignable.{is_object};
ghost use Rattle.il_model.specs.ClassRules.{EachClass, HasTypes, HasFewSlots};
ghost use Rattle.cil_meaning.specs.Types.{passes_as};
ghost use Rattle.rgctx_fill.specs.declared.thread.Want.{Want};
ghost use Rattle.rgctx_fill.specs.ThreadStates.{ImageData, ThreadData, Move};
ghost use Rattle.rgctx_fill.specs.Moves.{Within};
ghost use Rattle.rgctx_fill.specs.NodeReadings.{with_type_tree};
ghost use Rattle.rgctx_fill.specs.TypeServices.{is_vector, with_two_types, slot_found, finds_slot, judges_assignable, finds_element};
ghost use Rattle.rt_service.specs.Readings.{GoesOnPair};

use crate::reading::{TypeRead, node_number, type_at};
use crate::replying::{give, refuse, unread, word_of_flag};
use il_model::{ClassKind, Program, class_of};
use interaction::What;
use mn_outside::NoMemory;
use rgctx_fill::{Fits, ImageView, ThreadState, Want};
use rgctx_words::{Definition, NodeWord, Words};
use std::alloc::Global;
use type_inst::{assignable, implementation, is_same, is_value, own_methods_of};
use type_tree::{Head, TExpr, Tree};

// What is read of two nodes: the types that they spell; the node whose word was answered as 0; or something else.
#[derive(Drop)]
pub(crate) enum Pair {
    Types(Tree, Tree),
    Unread(u16),
    Refused,
}

// The types that two nodes spell. Both numbers are judged before a word is read.
fn two_types<W: Words<Fits>>(
    alloc: Global,
    image: &ImageView,
    words: &mut W,
    number: u64,
    other: u64,
) -> Result<Pair, NoMemory>
    requires met { W.meets image.now.cat words.old }
    ensures place { W.place words.new ≡ W.place words.old }
    ensures alone { W.alone words.new ≡ W.alone words.old }
    ensures grows { Grows (W.held words.old) (W.held words.new) }
    ensures met { (cat : Catalogue) → W.meets cat words.old → W.meets cat words.new }
    ensures claims { W.claims words.new ≡ W.claims words.old }
    ensures goes { IfOk result (λ pair. (h : Span) → Within h (W.held words.old) (W.held words.new) →
        (im : ImageData) (s : ThreadData) (next : TExpr → TExpr → Move) (said : Want) (new : ThreadData) → GoesOnPair (data_of image.now.cat) h s pair next said new → IsMade (data_of image.now.cat) h s (with_two_types im s number other next) said new) }
{
    if node_number(number).is_none() {
        return Ok(Pair::Refused);
    }
    if node_number(other).is_none() {
        return Ok(Pair::Refused);
    }
    match type_at(alloc, &image.cat, words, number)? {
        TypeRead::Spells(first) => {
            let pair = type_beside(alloc, image, words, first, other)?;
            Ok(pair)
        }
        TypeRead::Unread(node) => Ok(Pair::Unread(node)),
        TypeRead::Refused => Ok(Pair::Refused),
    }
}

// A type, and the one that a node spells.
fn type_beside<W: Words<Fits>>(
    alloc: Global,
    image: &ImageView,
    words: &mut W,
    first: Tree,
    other: u64,
) -> Result<Pair, NoMemory>
    requires met { W.meets image.now.cat words.old }
    ensures place { W.place words.new ≡ W.place words.old }
    ensures alone { W.alone words.new ≡ W.alone words.old }
    ensures grows { Grows (W.held words.old) (W.held words.new) }
    ensures met { (cat : Catalogue) → W.meets cat words.old → W.meets cat words.new }
    ensures claims { W.claims words.new ≡ W.claims words.old }
    ensures goes { IfOk result (λ pair. (h : Span) → Within h (W.held words.old) (W.held words.new) →
        (s : ThreadData) (next : TExpr → TExpr → Move) (said : Want) (new : ThreadData) → GoesOnPair (data_of image.now.cat) h s pair next said new → IsMade (data_of image.now.cat) h s (with_type_tree s other (next first)) said new) }
{
    match type_at(alloc, &image.cat, words, other)? {
        TypeRead::Spells(second) => Ok(Pair::Types(first, second)),
        TypeRead::Unread(node) => Ok(Pair::Unread(node)),
        TypeRead::Refused => Ok(Pair::Refused),
    }
}

// The slot in which a type has a method of an interface, by the method's place among the interface's own.
fn slot_of(
    alloc: Global,
    program: &Program,
    exact: &Tree,
    interface: &Tree,
    ordinal: u64,
) -> Result<Option<u16>, NoMemory>
    requires types { HasTypes program.now }
    requires few { EachClass HasFewSlots program.now }
    ensures { IfOk result (λ slot. slot ≡ slot_found program.now exact.now interface.now ordinal) }
{
    if !is_interface(program, interface) {
        return Ok(None);
    }
    if ordinal >= own_methods_of(program, interface).len() as u64 {
        return Ok(None);
    }
    match u16::try_from(ordinal) {
        Ok(ordinal) => implementation(alloc, program, exact, interface, ordinal),
        // No type has slots for an interface with so many methods.
        Err(_) => Ok(None),
    }
}

fn is_interface(program: &Program, kind: &Tree) -> bool
    ensures { result ≡ is_interface program.now kind.now }
{
    match class_of(program, kind) {
        Some(class) => match class.kind {
            ClassKind::Interface => true,
            ClassKind::Plain | ClassKind::Abstract => false,
            ClassKind::Struct | ClassKind::Delegate => false,
        },
        None => false,
    }
}

// FINDSLOT: the node of the exact type, that of the interface, and the place of the method among the interface's own.
pub(crate) fn find_slot<W: Words<Fits>>(
    alloc: Global,
    state: &mut ThreadState,
    image: &ImageView,
    words: &mut W,
    number: u64,
    other: u64,
    ordinal: u64,
) -> Result<Want, NoMemory>
    requires met { W.meets image.now.cat words.old }
    requires image { IsServable (image_of image.now) }
    ensures place { W.place words.new ≡ W.place words.old }
    ensures alone { W.alone words.new ≡ W.alone words.old }
    ensures grows { Grows (W.held words.old) (W.held words.new) }
    ensures met { (cat : Catalogue) → W.meets cat words.old → W.meets cat words.new }
    ensures turn { IfOk result (λ said. IsMade (data_of image.now.cat) (span (W.alone words.old) (W.held words.old) (W.held words.new) (W.claims words.old) (W.claims words.new)) state.old (finds_slot (image_of image.now) state.old number other ordinal) said state.new) }
{
    match two_types(alloc, image, words, number, other)? {
        Pair::Types(exact, interface) => {
            match slot_of(alloc, image.cat.program, &exact, &interface, ordinal)? {
                Some(slot) => {
                    give(state, u64::from(slot));
                    Ok(Want::Did(What::Action))
                }
                None => Ok(refuse(state)),
            }
        }
        Pair::Unread(node) => Ok(unread(node)),
        Pair::Refused => Ok(refuse(state)),
    }
}

// Whether an object of the exact type passes where the other is asked for. A box passes as `object`.
fn passes_as(alloc: Global, program: &Program, exact: &Tree, asked: &Tree) -> Result<bool, NoMemory>
    requires { HasTypes program.now }
    ensures { IfOk result (λ passes. passes ≡ passes_as program.now exact.now asked.now) }
{
    if assignable(alloc, program, exact, asked)? {
        return Ok(true);
    }
    if !is_value(program, exact) {
        return Ok(false);
    }
    Ok(is_object(alloc, asked))
}

// Whether the type is `object`.
fn is_object(alloc: Global, kind: &Tree) -> bool
    ensures { result ≡ is_object kind.now }
{
    let object = TExpr::plain(alloc, Head::Class(0));
    is_same(kind, &object)
}

// ASSIGNABLE: the node of the exact type, and that of the one asked for.
pub(crate) fn judge_assignable<W: Words<Fits>>(
    alloc: Global,
    state: &mut ThreadState,
    image: &ImageView,
    words: &mut W,
    number: u64,
    other: u64,
) -> Result<Want, NoMemory>
    requires met { W.meets image.now.cat words.old }
    requires image { IsServable (image_of image.now) }
    ensures place { W.place words.new ≡ W.place words.old }
    ensures alone { W.alone words.new ≡ W.alone words.old }
    ensures grows { Grows (W.held words.old) (W.held words.new) }
    ensures met { (cat : Catalogue) → W.meets cat words.old → W.meets cat words.new }
    ensures turn { IfOk result (λ said. IsMade (data_of image.now.cat) (span (W.alone words.old) (W.held words.old) (W.held words.new) (W.claims words.old) (W.claims words.new)) state.old (judges_assignable (image_of image.now) state.old number other) said state.new) }
{
    match two_types(alloc, image, words, number, other)? {
        Pair::Types(exact, asked) => {
            let passes = passes_as(alloc, image.cat.program, &exact, &asked)?;
            give(state, word_of_flag(passes));
            Ok(Want::Did(What::Action))
        }
        Pair::Unread(node) => Ok(unread(node)),
        Pair::Refused => Ok(refuse(state)),
    }
}

fn is_vector(definition: Option<Definition>) -> bool
    ensures { result ≡ is_vector definition }
{
    match definition {
        Some(Definition::Vector) => true,
        Some(Definition::Int32 | Definition::Int64 | Definition::Bool) => false,
        Some(Definition::Class(_) | Definition::Image | Definition::Method(_)) | None => false,
    }
}

// ELEMENT: the node of a vector.
pub(crate) fn find_element<W: Words<Fits>>(
    state: &mut ThreadState,
    image: &ImageView,
    words: &mut W,
    number: u64,
) -> Want
    requires met { W.meets image.now.cat words.old }
    ensures place { W.place words.new ≡ W.place words.old }
    ensures alone { W.alone words.new ≡ W.alone words.old }
    ensures grows { Grows (W.held words.old) (W.held words.new) }
    ensures met { (cat : Catalogue) → W.meets cat words.old → W.meets cat words.new }
    ensures turn { IsMade (data_of image.now.cat) (span (W.alone words.old) (W.held words.old) (W.held words.new) (W.claims words.old) (W.claims words.new)) state.old (finds_element (image_of image.now) state.old number) result state.new }
{
    let Some(node) = node_number(number) else {
        return refuse(state);
    };
    let word = words.load(u32::from(node));
    if word == 0 {
        return unread(node);
    }
    let spelled = NodeWord::of(word);
    if !is_vector(Definition::of(spelled.definition)) {
        return refuse(state);
    }
    give(state, u64::from(spelled.first));
    Want::Did(What::Action)
}
