// Where the places of a body's frame lie.
ghost use Rattle.std.specs.Prelude.{◌≡◌, ◌<◌, ◌≤◌, ◌+◌, ◌-◌, length, slice_get, slice_index};
ghost use Rattle.std.specs.Option.{option_copied};
ghost use Rattle.cil_meaning.specs.Types.{is_bool};
ghost use Rattle.cil_meaning.specs.Groups.{Argument};
ghost use Rattle.cil_flow.specs.FramePlans.{IsPlan};
ghost use Rattle.rv_codegen.specs.PlainItems as spec;
ghost use Rattle.rv_codegen.specs.PlainItems.{argument_count, held_count, place_number};
ghost use Rattle.rv_codegen.specs.Forms.{slot_of};
ghost use Rattle.rv_codegen.specs.Emitted.{data_of};

use crate::forms::Slot;
use crate::view::BodyParts;
use cil_flow::{Plan, StackType};
use il_model::{Body, MethodDef, PType, Shape};
use mn_outside::Label;
use type_tree::{Head, TExpr, TNode};

// The offset of a place, in words.
#[tactic(auto, using(crate::proofs::PlanLemmas::offset_low))]
fn offset_of(plan: &Plan, place: usize) -> u16
    requires { IsPlan plan.now }
    ensures value { result ≡ slice_index plan.now.offsets place }
    ensures low { result < 4096 }
{
    match plan.offsets.as_slice().get(place) {
        Some(offset) => match u16::try_from(*offset) {
            Ok(offset) => offset,
            Err(_) => unreachable!(),
        },
        None => 0,
    }
}

fn takes_object(shape: Shape) -> usize
    ensures value { result ≡ spec.object_count shape }
    ensures small { result ≤ 1 }
{
    match shape {
        Shape::Fixed => 0,
        Shape::Instance | Shape::Virtual | Shape::NewSlot | Shape::Abstract => 1,
    }
}

fn locals(body: &Option<Body>) -> &[PType]
    ensures { result.now ≡ spec.locals_in body.now }
{
    match body {
        Some(body) => body.locals.as_slice(),
        None => &[],
    }
}

/// How many arguments a body has, the object included.
pub(crate) fn argument_count(body: &BodyParts) -> usize
    requires { held_count (data_of body.now) ≤ 120 }
    ensures { result ≡ argument_count (data_of body.now) }
{
    takes_object(body.method.shape) + body.method.params.as_slice().len()
}

/// How many arguments and locals a body has.
pub(crate) fn held_count(body: &BodyParts) -> usize
    requires { held_count (data_of body.now) ≤ 120 }
    ensures { result ≡ held_count (data_of body.now) }
{
    argument_count(body) + locals(&body.method.body).len()
}

// How many words a place has.
#[tactic(auto, using(crate::proofs::PlanLemmas::width_low))]
fn width_of(plan: &Plan, place: usize) -> u16
    requires { IsPlan plan.now }
    ensures value { result ≡ slice_index plan.now.widths place }
{
    match plan.widths.as_slice().get(place) {
        Some(width) => match u16::try_from(*width) {
            Ok(width) => width,
            Err(_) => unreachable!(),
        },
        None => 0,
    }
}

/// Where a place lies in the frame, and how many words it has.
#[derive(Clone, Copy)]
pub(crate) struct Spot {
    pub(crate) offset: u16,
    pub(crate) width: u16,
}

/// The place so many behind another.
#[tactic(auto, using(crate::proofs::PlanLemmas::offset_past, crate::proofs::PlanLemmas::width_past, crate::proofs::PlanLemmas::place_low, crate::proofs::PlanLemmas::offset_roomy))]
pub(crate) fn spot_of(plan: &Plan, first: usize, number: u64) -> Spot
    requires legal { IsPlan plan.now }
    requires small { first ≤ 120 }
    ensures offset { result.offset ≡ slice_index plan.now.offsets (first + number) }
    ensures width { result.width ≡ slice_index plan.now.widths (first + number) }
    ensures low { result.offset + result.width ≤ 4096 }
    ensures roomy { result.offset ≤ 4080 }
{
    if number >= plan.offsets.as_slice().len() as u64 {
        return Spot {
            offset: 0,
            width: 0,
        };
    }
    let place = first + number as usize;
    Spot {
        offset: offset_of(plan, place),
        width: width_of(plan, place),
    }
}

/// The place of an argument or a local.
pub(crate) fn spot_of_slot(body: &BodyParts, slot: Slot) -> Spot
    requires legal { IsPlan body.now.plan.now }
    requires small { held_count (data_of body.now) ≤ 120 }
    ensures offset { result.offset ≡ spec.offset_of (data_of body.now) (place_number (data_of body.now) (slot_of slot)) }
    ensures width { result.width ≡ spec.width_of (data_of body.now) (place_number (data_of body.now) (slot_of slot)) }
    ensures low { result.offset + result.width ≤ 4096 }
    ensures roomy { result.offset ≤ 4080 }
{
    match slot {
        Slot::Argument(number) => spot_of(body.plan, 0, number),
        Slot::Local(number) => spot_of(body.plan, argument_count(body), number),
    }
}

/// The place of the value so many below the top, counted from 1.
pub(crate) fn spot_from_top(body: &BodyParts, types: &[StackType], number: usize) -> Spot
    requires legal { IsPlan body.now.plan.now }
    requires small { held_count (data_of body.now) ≤ 120 }
    ensures offset { result.offset ≡ spec.offset_of (data_of body.now) (spec.from_top (data_of body.now) 0 types.now number) }
    ensures width { result.width ≡ spec.width_of (data_of body.now) (spec.from_top (data_of body.now) 0 types.now number) }
    ensures low { result.offset + result.width ≤ 4096 }
    ensures roomy { result.offset ≤ 4080 }
{
    spot_of(
        body.plan,
        held_count(body),
        types.len().saturating_sub(number) as u64,
    )
}

/// The next place of the stack.
pub(crate) fn next_spot(body: &BodyParts, types: &[StackType]) -> Spot
    requires legal { IsPlan body.now.plan.now }
    requires small { held_count (data_of body.now) ≤ 120 }
    ensures offset { result.offset ≡ spec.offset_of (data_of body.now) (spec.next_place (data_of body.now) 0 types.now) }
    ensures width { result.width ≡ spec.width_of (data_of body.now) (spec.next_place (data_of body.now) 0 types.now) }
    ensures low { result.offset + result.width ≤ 4096 }
    ensures roomy { result.offset ≤ 4080 }
{
    spot_of(body.plan, held_count(body), types.len() as u64)
}

/// The type of the value so many below the top, counted from 1, where there is one.
fn type_from_top(types: &[StackType], number: usize) -> Option<&StackType>
    ensures { option_copied result ≡ slice_get types.now (length types.now - number) }
{
    types.get(types.len().saturating_sub(number))
}

fn is_int32(kind: Option<&StackType>) -> bool
    ensures { result ≡ spec.is_int32 (option_copied kind.entry) }
{
    match kind {
        Some(StackType::Int32) => true,
        None
        | Some(
            StackType::Int64
            | StackType::Native
            | StackType::Null
            | StackType::Kind(_)
            | StackType::Boxed(_)
            | StackType::Pointer(_),
        ) => false,
    }
}

/// Whether the value so many below the top, counted from 1, is an int32.
pub(crate) fn is_int32_from_top(types: &[StackType], number: usize) -> bool
    ensures { result ≡ spec.is_int32 (slice_get types.now (length types.now - number)) }
{
    is_int32(type_from_top(types, number))
}

/// Whether a type is bool.
pub(crate) fn is_bool(kind: &TExpr) -> bool
    ensures { result ≡ is_bool kind.now }
{
    match kind.top() {
        TNode::Node(Head::Bool, _) => true,
        TNode::Node(Head::Int32 | Head::Int64 | Head::Vector | Head::Class(_), _)
        | TNode::ClassVar(_)
        | TNode::MethodVar(_) => false,
    }
}

fn is_bool_place(place: Option<&PType>) -> bool
    ensures { result ≡ spec.is_bool_place (option_copied place.entry) }
{
    match place {
        Some(PType::Value(kind)) => is_bool(kind),
        None | Some(PType::Pointer(_) | PType::Native) => false,
    }
}

// The type of an argument, the object aside.
fn argument_type<'a>(body: &'a BodyParts, number: u64) -> Option<&'a PType>
    ensures { option_copied result ≡ spec.place_type (data_of body.now) (Argument number) }
{
    let params = body.method.params.as_slice();
    if takes_object(body.method.shape) == 0 {
        return params.get(number as usize);
    }
    if number == 0 {
        return None;
    }
    params.get(number as usize - 1)
}

/// Whether an argument's or a local's place is one for a bool.
pub(crate) fn is_bool_slot(body: &BodyParts, slot: Slot) -> bool
    ensures { result ≡ spec.is_bool_place (spec.place_type (data_of body.now) (slot_of slot)) }
{
    match slot {
        Slot::Argument(number) => is_bool_place(argument_type(body, number)),
        Slot::Local(number) => is_bool_place(locals(&body.method.body).get(number as usize)),
    }
}

/// The label of an instruction.
pub(crate) fn label_of(body: &BodyParts, number: usize) -> Label
    ensures { result ≡ spec.label_of (data_of body.now) number }
{
    match body.labels.get(number) {
        Some(label) => *label,
        None => Label { number: 0 },
    }
}
