// One instruction of a thread, with the replies that it got so far.
ghost use Rattle.std.specs.Prelude.{◌≡◌, List, slice_get};
ghost use Rattle.type_tree.specs.declared.tree.TExpr.{TExpr as TheType};
ghost use Rattle.il_model.specs.ClassRules.{HasTypes, EachClass, HasFewSlots};
ghost use Rattle.cil_meaning.specs.Meaning.{meaning};
ghost use Rattle.type_inst.specs.Opening.{Extends};
ghost use Rattle.cil_meaning.specs.Words.{int32_word};
ghost use Rattle.unshared.specs.Acted.{on_place, calculates, branches, calls_it, calls_virtually, calls_constrained, creates, on_call, on_member, on_array, on_box, raises, throws_object, on_library, does};
ghost use Rattle.unshared.specs.Named.{the_field, field_here};
ghost use Rattle.unshared.specs.Stacked.{stacks};
ghost use Rattle.unshared.specs.Acts.{Ends};
ghost use Rattle.unshared.specs.Going.{did, Keeps};
ghost use Rattle.unshared.specs.Grouped.{the_stack_form, the_place_form, the_number_form, the_branch_form, the_call_form, the_member_form, the_array_form, the_box_form, the_library_form, the_group};
ghost use Rattle.unshared.specs.Growing.{Grows};
ghost use Rattle.unshared.specs.Held.{the_frames};
ghost use Rattle.unshared.specs.Listed.{IsOnce, naming_of};
ghost use Rattle.unshared.specs.Moved.{Halted};
ghost use Rattle.unshared.specs.Silent.{Gives, there};
ghost use Rattle.unshared.specs.Starting.{op_here};
ghost use Rattle.unshared.specs.Talk.{Talks};

use crate::arithmetic::{checks, compared, converts, divides, shifts, turns, wraps};
use crate::arrays::{allocate, measure, read_element, write_element};
use crate::boxes::{cast, pointer_at, put_in_box, reference_at, take_from_box, test};
use crate::branches::{chooses, jumps_by, jumps_where, leaves};
use crate::calls::{
    allocates, builds, callee, calls_named, calls_object, calls_plainly, constrained, returns,
};
use crate::entries::entries_of;
use crate::exact::{Exact, types};
use crate::fault::Fault;
use crate::found::{field_named, has_slot, method_named, method_there};
use crate::frames::{Done, Frames, Thrown};
use crate::groups::{
    ArrayForm, BoxForm, BranchForm, CallForm, Group, LibraryForm, MemberForm, NumberForm,
    PlaceForm, StackForm, group_of,
};
use crate::library::{join, name, print, start, swap};
use crate::members::{
    FieldHere, clear_at, point_field, point_static, read_at, read_field, read_static, write_at,
    write_field, write_static,
};
use crate::mentions::settle_all;
use crate::operands::as_object;
use crate::pause::{Halt, Pause, Replies};
use crate::placing::{point, read, write};
use crate::search::{searches, throws};
use crate::trees::Trees;
use crate::types::put_type;
use crate::value::{Kind, Value};
use il_model::{FRef, MRef, MethodDef, Op, Program};
use std::alloc::Global;
use type_inst::{is_value, with_args_of};
use type_tree::TExpr;

fn int32_word(number: i32) -> u64
    ensures { result ≡ int32_word number }
{
    i64::from(number).cast_unsigned()
}

// Values on the stack alone.
fn stacks(alloc: Global, frames: &mut Frames, form: StackForm) -> Result<Done, Pause>
    ensures acts { Gives (did frames.new) (stacks (the_stack_form form) frames.old) result }
    ensures kept { Keeps result frames.old frames.new }
{
    match form {
        StackForm::Rests => Ok(frames.drops(0)?),
        StackForm::Copies => {
            let value = frames.value(0)?;
            let copy = value.copied(alloc)?;
            Ok(frames.pushes(0, copy)?)
        }
        StackForm::Drops => {
            frames.value(0)?;
            Ok(frames.drops(1)?)
        }
        StackForm::PushesInt32(number) => {
            Ok(frames.pushes(0, Value::int32(int32_word(number)))?)
        }
        StackForm::PushesInt64(number) => {
            let word = number.cast_unsigned();
            Ok(frames.pushes(0, Value::Word(Kind::Int64, word))?)
        }
        StackForm::PushesNull => Ok(frames.pushes(0, Value::reference(0))?),
        StackForm::PushesLiteral(number) => {
            let word = 4294967296 + u64::from(number);
            Ok(frames.pushes(0, Value::reference(word))?)
        }
    }
}

fn on_place(
    alloc: Global,
    program: &Program,
    frames: &mut Frames,
    definition: &MethodDef,
    form: PlaceForm,
) -> Result<Done, Pause>
    ensures acts { Gives (did frames.new) (on_place program.now definition.now (the_place_form form) frames.old) result }
    ensures kept { Keeps result frames.old frames.new }
{
    match form {
        PlaceForm::Reads(slot) => Ok(read(alloc, program, frames, definition, slot)?),
        PlaceForm::Points(slot) => Ok(point(alloc, program, frames, definition, slot)?),
        PlaceForm::Writes(slot) => Ok(write(alloc, program, frames, definition, slot)?),
    }
}

fn calculates(frames: &mut Frames, form: NumberForm) -> Result<Done, Pause>
    ensures acts { Gives (did frames.new) (calculates (the_number_form form) frames.old) result }
    ensures kept { Keeps result frames.old frames.new }
{
    match form {
        NumberForm::Wraps(form) => Ok(wraps(frames, form)?),
        NumberForm::Checks(form, is_signed) => Ok(checks(frames, form, is_signed)?),
        NumberForm::Divides(form, is_signed) => Ok(divides(frames, form, is_signed)?),
        NumberForm::Shifts(form) => Ok(shifts(frames, form)?),
        NumberForm::Turns(form) => Ok(turns(frames, form)?),
        NumberForm::Converts(form) => Ok(converts(frames, form)?),
        NumberForm::Compares(form) => Ok(compared(frames, form)?),
    }
}

fn branches(frames: &mut Frames, form: BranchForm<'_>) -> Result<Done, Pause>
    ensures acts { Gives (did frames.new) (branches (the_branch_form form.entry) frames.old) result }
    ensures kept { Keeps result frames.old frames.new }
{
    match form {
        BranchForm::Jumps(to) => Ok(frames.jumps(to, 0)?),
        BranchForm::JumpsWhere(is_true, to) => Ok(jumps_where(frames, is_true, to)?),
        BranchForm::JumpsBy(form, to) => Ok(jumps_by(frames, form, to)?),
        BranchForm::Chooses(targets) => Ok(chooses(frames, targets)?),
        BranchForm::Leaves(to) => Ok(leaves(frames, to)?),
    }
}

// The number of a type that an instruction names first, or second.
fn number_at(numbers: &[u32], at: usize) -> Result<u32, Pause>
    ensures { Gives (λ number. number) (there (slice_get numbers.now at)) result }
{
    match numbers.get(at) {
        Some(number) => Ok(*number),
        None => Err(Pause::Halts(Halt::Stuck)),
    }
}

// A field as an instruction of the innermost frame's method names it.
#[tactic(auto, unfolding(crate::specs::Named::field_here))]
fn field_here(
    alloc: Global,
    program: &Program,
    frames: &Frames,
    named: &FRef,
) -> Result<FieldHere, Pause>
    ensures { Gives the_field (field_here program.now frames.now named.now) result }
{
    let place = field_named(program, named)?;
    let method = &frames.top.method;
    let class = put_type(alloc, method, &named.class)?;
    let open = with_args_of(alloc, &named.class, &named.kind)?;
    let kind = put_type(alloc, method, &open)?;
    Ok(FieldHere { class, kind, place })
}

fn on_member(
    alloc: Global,
    program: &Program,
    replies: &mut Replies<'_>,
    frames: &mut Frames,
    numbers: &[u32],
    form: MemberForm<'_>,
) -> Result<Done, Pause>
    ensures acts { Talks (did frames.new) (on_member program.now numbers.now (the_member_form form.entry) frames.old replies.old) result replies.new }
    ensures kept { Keeps result frames.old frames.new }
{
    match form {
        MemberForm::ReadsField(named) => {
            let field = field_here(alloc, program, frames, named)?;
            Ok(read_field(alloc, program, replies, frames, &field)?)
        }
        MemberForm::WritesField(named) => {
            let field = field_here(alloc, program, frames, named)?;
            Ok(write_field(alloc, program, replies, frames, &field)?)
        }
        MemberForm::PointsField(named) => {
            let field = field_here(alloc, program, frames, named)?;
            Ok(point_field(alloc, program, replies, frames, &field)?)
        }
        MemberForm::ReadsStatic(named) => {
            let number = number_at(numbers, 0)?;
            let field = field_here(alloc, program, frames, named)?;
            Ok(read_static(alloc, program, replies, frames, &field, number)?)
        }
        MemberForm::WritesStatic(named) => {
            let number = number_at(numbers, 0)?;
            let field = field_here(alloc, program, frames, named)?;
            Ok(write_static(alloc, program, replies, frames, &field, number)?)
        }
        MemberForm::PointsStatic(named) => {
            let number = number_at(numbers, 0)?;
            let field = field_here(alloc, program, frames, named)?;
            Ok(point_static(alloc, program, replies, frames, &field, number)?)
        }
        MemberForm::ReadsAt(kind) => {
            let kind = put_type(alloc, &frames.top.method, kind)?;
            Ok(read_at(alloc, program, replies, frames, &kind)?)
        }
        MemberForm::WritesAt(kind) => {
            let kind = put_type(alloc, &frames.top.method, kind)?;
            Ok(write_at(alloc, program, replies, frames, &kind)?)
        }
        MemberForm::ClearsAt(kind) => {
            let kind = put_type(alloc, &frames.top.method, kind)?;
            Ok(clear_at(alloc, program, replies, frames, &kind)?)
        }
    }
}

fn on_array(
    alloc: Global,
    program: &Program,
    trees: &Trees,
    replies: &mut Replies<'_>,
    frames: &mut Frames,
    numbers: &[u32],
    form: ArrayForm<'_>,
) -> Result<Done, Pause>
    requires { HasTypes program.now }
    ensures acts { Talks (did frames.new) (on_array program.now trees.now.kinds numbers.now (the_array_form form.entry) frames.old replies.old) result replies.new }
    ensures kept { Keeps result frames.old frames.new }
{
    match form {
        ArrayForm::Allocates(kind) => {
            let number = number_at(numbers, 0)?;
            let kind = put_type(alloc, &frames.top.method, kind)?;
            Ok(allocate(alloc, program, replies, frames, number, &kind)?)
        }
        ArrayForm::Measures => Ok(measure(replies, frames)?),
        ArrayForm::ReadsElement(kind) => {
            let kind = put_type(alloc, &frames.top.method, kind)?;
            Ok(read_element(alloc, program, replies, frames, &kind)?)
        }
        ArrayForm::WritesElement(kind) => {
            let kind = put_type(alloc, &frames.top.method, kind)?;
            Ok(write_element(alloc, program, trees, replies, frames, &kind)?)
        }
    }
}

fn on_box(
    alloc: Global,
    program: &Program,
    trees: &Trees,
    replies: &mut Replies<'_>,
    frames: &mut Frames,
    numbers: &[u32],
    form: BoxForm<'_>,
) -> Result<Done, Pause>
    requires { HasTypes program.now }
    ensures acts { Talks (did frames.new) (on_box program.now trees.now.kinds numbers.now (the_box_form form.entry) frames.old replies.old) result replies.new }
    ensures kept { Keeps result frames.old frames.new }
{
    match form {
        BoxForm::Boxes(kind) => {
            let number = number_at(numbers, 0)?;
            let kind = put_type(alloc, &frames.top.method, kind)?;
            Ok(put_in_box(alloc, program, replies, frames, number, &kind)?)
        }
        BoxForm::Unboxes(kind) => {
            let number = number_at(numbers, 0)?;
            let kind = put_type(alloc, &frames.top.method, kind)?;
            Ok(take_from_box(alloc, program, trees, replies, frames, number, &kind)?)
        }
        BoxForm::Casts(kind) => {
            let kind = put_type(alloc, &frames.top.method, kind)?;
            Ok(cast(alloc, program, trees, replies, frames, &kind)?)
        }
        BoxForm::Tests(kind) => {
            let kind = put_type(alloc, &frames.top.method, kind)?;
            Ok(test(alloc, program, trees, replies, frames, &kind)?)
        }
    }
}

fn on_library(
    alloc: Global,
    program: &Program,
    trees: &Trees,
    replies: &mut Replies<'_>,
    frames: &mut Frames,
    numbers: &[u32],
    form: LibraryForm,
) -> Result<Done, Pause>
    ensures acts { Talks (did frames.new) (on_library program.now trees.now.kinds numbers.now (the_library_form form) frames.old replies.old) result replies.new }
    ensures kept { Keeps result frames.old frames.new }
{
    match form {
        LibraryForm::Prints(form, kind) => {
            Ok(print(program, trees, replies, frames, form, kind)?)
        }
        LibraryForm::Swaps(form, kind) => Ok(swap(alloc, replies, frames, form, kind)?),
        LibraryForm::Names => {
            let number = number_at(numbers, 0)?;
            Ok(name(frames, number)?)
        }
        LibraryForm::Starts => Ok(start(replies, frames)?),
        LibraryForm::Joins => Ok(join(replies, frames)?),
    }
}

// A throw of an object that isn't null; no string is an exception.
#[tactic(auto, unfolding(crate::specs::Acted::raises))]
fn raises(
    program: &Program,
    trees: &Trees,
    replies: &mut Replies<'_>,
    frames: &Frames,
    word: u64,
) -> Result<Done, Pause>
    ensures { Talks (did frames.now) (raises program.now trees.now.kinds word replies.old) result replies.new }
{
    match types(program, trees, replies, word)? {
        Exact::Text => Err(Pause::Halts(Halt::Stuck)),
        Exact::Numbered(kind) => {
            let object = as_object(word)?;
            Ok(Done::Raises(Thrown { object, kind }))
        }
    }
}

#[tactic(auto, unfolding(crate::specs::Acted::throws_object))]
fn throws_object(
    program: &Program,
    trees: &Trees,
    replies: &mut Replies<'_>,
    frames: &Frames,
) -> Result<Done, Pause>
    ensures { Talks (did frames.now) (throws_object program.now trees.now.kinds frames.now replies.old) result replies.new }
{
    let word = reference_at(frames, 0)?;
    if word == 0 {
        return Ok(Done::Throws(Fault::NullReference));
    }
    Ok(raises(program, trees, replies, frames, word)?)
}

#[tactic(auto, unfolding(crate::specs::Acted::calls_it))]
fn call(
    alloc: Global,
    program: &Program,
    replies: &mut Replies<'_>,
    frames: &mut Frames,
    named: &MRef,
) -> Result<Done, Pause>
    ensures acts { Talks (did frames.new) (calls_it program.now named.now frames.old replies.old) result replies.new }
    ensures kept { Keeps result frames.old frames.new }
{
    let number = method_named(program, named)?;
    let definition = method_there(program, number)?;
    let method = callee(alloc, &frames.top.method, named, number)?;
    Ok(calls_named(alloc, program, replies, frames, method, definition)?)
}

#[tactic(auto, unfolding(crate::specs::Acted::calls_virtually))]
fn call_virtual(
    alloc: Global,
    program: &Program,
    trees: &Trees,
    replies: &mut Replies<'_>,
    frames: &mut Frames,
    named: &MRef,
) -> Result<Done, Pause>
    requires types { HasTypes program.now }
    requires slots { EachClass HasFewSlots program.now }
    ensures acts { Talks (did frames.new) (calls_virtually program.now trees.now.kinds named.now frames.old replies.old) result replies.new }
    ensures kept { Keeps result frames.old frames.new }
{
    let number = method_named(program, named)?;
    let definition = method_there(program, number)?;
    let given = definition.params.len();
    let word = reference_at(frames, given)?;
    if has_slot(definition.shape) {
        let class = put_type(alloc, &frames.top.method, &named.class)?;
        return Ok(calls_object(
            alloc, program, trees, replies, frames, &class, number, word, given,
        )?);
    }
    let method = callee(alloc, &frames.top.method, named, number)?;
    Ok(calls_plainly(alloc, program, replies, frames, method, word, given)?)
}

#[tactic(auto, unfolding(crate::specs::Acted::calls_constrained))]
fn call_constrained(
    alloc: Global,
    program: &Program,
    trees: &Trees,
    replies: &mut Replies<'_>,
    frames: &mut Frames,
    numbers: &[u32],
    kind: &TExpr,
    named: &MRef,
) -> Result<Done, Pause>
    requires types { HasTypes program.now }
    requires slots { EachClass HasFewSlots program.now }
    ensures acts { Talks (did frames.new) (calls_constrained program.now trees.now.kinds numbers.now kind.now named.now frames.old replies.old) result replies.new }
    ensures kept { Keeps result frames.old frames.new }
{
    let number = method_named(program, named)?;
    let definition = method_there(program, number)?;
    let given = definition.params.len();
    let pointer = pointer_at(frames, given)?;
    let kind = put_type(alloc, &frames.top.method, kind)?;
    let class = put_type(alloc, &frames.top.method, &named.class)?;
    Ok(constrained(
        alloc, program, trees, replies, frames, numbers, &kind, &class, number, pointer, given,
    )?)
}

#[tactic(auto, unfolding(crate::specs::Acted::creates))]
fn create(
    alloc: Global,
    program: &Program,
    replies: &mut Replies<'_>,
    frames: &mut Frames,
    numbers: &[u32],
    named: &MRef,
) -> Result<Done, Pause>
    ensures acts { Talks (did frames.new) (creates program.now numbers.now named.now frames.old replies.old) result replies.new }
    ensures kept { Keeps result frames.old frames.new }
{
    let number = method_named(program, named)?;
    let definition = method_there(program, number)?;
    let given = definition.params.len();
    let method = callee(alloc, &frames.top.method, named, number)?;
    if is_value(program, &method.class) {
        return Ok(builds(alloc, program, replies, frames, method, given)?);
    }
    let kind = number_at(numbers, 1)?;
    Ok(allocates(alloc, program, replies, frames, method, kind, given)?)
}

fn on_call(
    alloc: Global,
    program: &Program,
    trees: &Trees,
    replies: &mut Replies<'_>,
    frames: &mut Frames,
    definition: &MethodDef,
    numbers: &[u32],
    form: CallForm<'_>,
) -> Result<Done, Pause>
    requires types { HasTypes program.now }
    requires slots { EachClass HasFewSlots program.now }
    ensures acts { Talks (did frames.new) (on_call program.now trees.now.kinds definition.now numbers.now (the_call_form form.entry) frames.old replies.old) result replies.new }
    ensures kept { Keeps result frames.old frames.new }
{
    match form {
        CallForm::Calls(named) => Ok(call(alloc, program, replies, frames, named)?),
        CallForm::CallsSlot(named) => Ok(call_virtual(
            alloc, program, trees, replies, frames, named,
        )?),
        CallForm::CallsConstrained(kind, named) => Ok(call_constrained(
            alloc, program, trees, replies, frames, numbers, kind, named,
        )?),
        CallForm::Creates(named) => { Ok(create(alloc, program, replies, frames, numbers, named)?) }
        CallForm::Returns => Ok(returns(alloc, program, replies, frames, definition)?),
    }
}

// What an instruction does once its entries are settled, from their numbers.
fn does(
    alloc: Global,
    program: &Program,
    trees: &Trees,
    replies: &mut Replies<'_>,
    frames: &mut Frames,
    definition: &MethodDef,
    numbers: &[u32],
    group: Group<'_>,
) -> Result<Done, Pause>
    requires types { HasTypes program.now }
    requires slots { EachClass HasFewSlots program.now }
    ensures acts { Talks (did frames.new) (does program.now trees.now.kinds definition.now numbers.now (the_group group.entry) frames.old replies.old) result replies.new }
    ensures kept { Keeps result frames.old frames.new }
{
    match group {
        Group::OnStack(form) => Ok(stacks(alloc, frames, form)?),
        Group::OnPlaces(form) => Ok(on_place(alloc, program, frames, definition, form)?),
        Group::OnNumbers(form) => Ok(calculates(frames, form)?),
        Group::OnBranches(form) => Ok(branches(frames, form)?),
        Group::OnCalls(form) => Ok(on_call(
            alloc, program, trees, replies, frames, definition, numbers, form,
        )?),
        Group::OnMembers(form) => Ok(on_member(alloc, program, replies, frames, numbers, form)?),
        Group::OnArrays(form) => Ok(on_array(
            alloc, program, trees, replies, frames, numbers, form,
        )?),
        Group::OnBoxes(form) => Ok(on_box(alloc, program, trees, replies, frames, numbers, form)?),
        Group::OnThrow => Ok(throws_object(program, trees, replies, frames)?),
        Group::OnLibrary(form) => Ok(on_library(
            alloc, program, trees, replies, frames, numbers, form,
        )?),
        Group::Excluded => Err(Pause::Halts(Halt::Stuck)),
    }
}

// The instruction at which the innermost frame stands, with the definition of its method.
#[tactic(auto, unfolding(crate::specs::Starting::op_here))]
fn op_at<'a>(program: &'a Program, frames: &Frames) -> Result<(&'a MethodDef, &'a Op), Pause>
    ensures { Gives (λ r. (r.0.now, r.1.now)) (op_here program.now frames.now) result }
{
    let definition = method_there(program, frames.top.method.method)?;
    let Some(body) = &definition.body else {
        return Err(Pause::Halts(Halt::Stuck));
    };
    match body.code.as_slice().get(frames.top.at as usize) {
        Some(op) => Ok((definition, op)),
        None => Err(Pause::Halts(Halt::Stuck)),
    }
}

/// Does the instruction at which the innermost frame stands, when it gets these replies. Where it makes a request that
/// isn't among them, the frames stay as they are.
pub(crate) fn act(
    alloc: Global,
    program: &Program,
    trees: &mut Trees,
    replies: &mut Replies<'_>,
    frames: &mut Frames,
) -> Result<(), Pause>
    requires types { HasTypes program.now }
    requires slots { EachClass HasFewSlots program.now }
    requires once { IsOnce trees.old.kinds }
    ensures grows { Grows trees.old.kinds trees.new.kinds result }
    ensures acts { (later : List TheType) → Extends trees.new.kinds later →
        Ends (naming_of later) replies.old replies.new (meaning program.now (the_frames frames.old)) (the_frames frames.new) result }
    ensures kept { Halted result frames.old frames.new }
{
    let (definition, op) = op_at(program, frames)?;
    let entries = entries_of(alloc, program, op)?;
    let numbers = settle_all(
        alloc,
        program,
        trees,
        replies,
        &frames.top.method,
        entries.as_slice(),
    )?;
    let done = does(
        alloc,
        program,
        trees,
        replies,
        frames,
        definition,
        numbers.as_slice(),
        group_of(op),
    )?;
    match done {
        Done::Goes => Ok(()),
        Done::Throws(fault) => throws(alloc, program, trees, replies, frames, fault),
        Done::Raises(thrown) => searches(alloc, program, trees, replies, frames, thrown),
    }
}
