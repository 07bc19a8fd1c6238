// What a run asks of types: the kind and the words of a value, what a place keeps of it, and what casts pass.
ghost use Rattle.std.specs.Prelude.{◌≡◌, ◌%◌, [], ◌∷◌, map, replicate, IfOk};
ghost use Rattle.il_model.specs.Find.{takes_object};
ghost use Rattle.cil_meaning.specs.Naming.{put_type};
ghost use Rattle.cil_meaning.specs.Types.{kind_of, is_bool, passes_as, kept, zero_of, put_place, object_place};
ghost use Rattle.cil_meaning.specs.Values.{Plain as MeantPlain};
ghost use Rattle.il_model.specs.ClassRules.{HasTypes};
ghost use Rattle.il_model.specs.Assignable.{is_object};
ghost use Rattle.unshared.specs.Forms.{the_kind, the_value};
ghost use Rattle.unshared.specs.Kept.{words_kept, value_kept, native_kept, pointer_kept, place_kept};
ghost use Rattle.unshared.specs.Silent.{Gives};
ghost use Rattle.il_model.specs.Layouts.{words_of as meant_words};

use crate::memory::words_in;
use crate::operands::{as_pointer, as_word, is_native, same_kind};
use crate::pause::{Halt, Pause};
use crate::value::{Kind, Pointer, Value, value_of};
use il_model::{MethodTree, PType, Program, Shape};
use mn_outside::NoMemory;
use std::alloc::Global;
use type_inst::{arguments_of, assignable, is_same, is_value, words_of};
use type_tree::{Head, TExpr, TNode, subst_whole};

/// A type over the variables of an instantiated method's definition, with its arguments put.
pub(crate) fn put_type(alloc: Global, method: &MethodTree, kind: &TExpr) -> Result<TExpr, NoMemory>
    ensures { IfOk result (λ closed. closed ≡ put_type method.now kind.now) }
{
    subst_whole(
        alloc,
        kind,
        arguments_of(&method.class),
        method.args.as_slice(),
    )
}

/// The kind of a value of a type without variables.
pub(crate) fn kind_of(program: &Program, kind: &TExpr) -> Kind
    ensures { the_kind result ≡ kind_of program.now kind.now }
{
    match kind.top() {
        TNode::Node(Head::Int32, _) => Kind::Int32,
        TNode::Node(Head::Int64, _) => Kind::Int64,
        TNode::Node(Head::Bool, _) => Kind::Int32,
        TNode::Node(Head::Vector, _) => Kind::Reference,
        TNode::Node(Head::Class(_), _) => {
            if is_value(program, kind) {
                Kind::Struct
            } else {
                Kind::Reference
            }
        }
        TNode::ClassVar(_) => Kind::Struct,
        TNode::MethodVar(_) => Kind::Struct,
    }
}

fn is_bool(kind: &TExpr) -> bool
    ensures { result ≡ is_bool kind.now }
{
    match kind.top() {
        TNode::Node(Head::Bool, _) => true,
        TNode::Node(_, _) => false,
        TNode::ClassVar(_) | TNode::MethodVar(_) => false,
    }
}

// Whether the type is `object`.
fn is_object(alloc: Global, kind: &TExpr) -> bool
    ensures { result ≡ is_object kind.now }
{
    let object = TExpr::plain(alloc, Head::Class(0));
    is_same(kind, &object)
}

/// Whether an object of the exact type passes where the other is asked for. Boxes pass as object.
pub(crate) fn passes_as(
    alloc: Global,
    program: &Program,
    exact: &TExpr,
    asked: &TExpr,
) -> Result<bool, NoMemory>
    requires { HasTypes program.now }
    ensures { IfOk result (λ passes. passes ≡ passes_as program.now exact.now asked.now) }
{
    if assignable(alloc, program, exact, asked)? {
        return Ok(true);
    }
    if !is_value(program, exact) {
        return Ok(false);
    }
    Ok(is_object(alloc, asked))
}

/// So many zeros.
pub(crate) fn zeros(alloc: Global, count: u32) -> Result<Vec<u64>, NoMemory>
    ensures { IfOk result (λ zeros. zeros.items ≡ replicate count 0) }
{
    match vec![in alloc; 0; count as usize] {
        Ok(zeros) => Ok(zeros),
        Err(_) => Err(NoMemory),
    }
}

// A zero of a type.
fn zero_value(alloc: Global, program: &Program, kind: &TExpr) -> Result<Value, NoMemory>
    ensures { IfOk result (λ zero. the_value zero ≡ MeantPlain (kind_of program.now kind.now) (replicate (meant_words program.now kind.now) 0)) }
{
    let words = words_of(alloc, program, kind)?;
    let zeros = zeros(alloc, words)?;
    Ok(value_of(kind_of(program, kind), zeros))
}

/// A parameter's or a local's type with the arguments of the instantiated method put.
pub(crate) fn put_place(
    alloc: Global,
    method: &MethodTree,
    place: &PType,
) -> Result<PType, NoMemory>
    ensures { IfOk result (λ closed. closed ≡ put_place method.now place.now) }
{
    match place {
        PType::Value(kind) => Ok(PType::Value(put_type(alloc, method, kind)?)),
        PType::Pointer(kind) => Ok(PType::Pointer(put_type(alloc, method, kind)?)),
        PType::Native => Ok(PType::Native),
    }
}

/// The type of the place of a method's object: a struct's takes a pointer to it.
pub(crate) fn object_place(
    alloc: Global,
    program: &Program,
    class: &TExpr,
) -> Result<PType, NoMemory>
    ensures { IfOk result (λ place. place ≡ object_place program.now class.now) }
{
    let copy = copied(alloc, class)?;
    if is_value(program, class) {
        Ok(PType::Pointer(copy))
    } else {
        Ok(PType::Value(copy))
    }
}

/// A copy of a type.
pub(crate) fn copied(alloc: Global, kind: &TExpr) -> Result<TExpr, NoMemory>
    ensures { IfOk result (λ copy. copy ≡ kind.now) }
{
    match kind.copy(alloc) {
        Ok(copy) => Ok(copy),
        Err(_) => Err(NoMemory),
    }
}

/// A zero of a place's type, with which it begins. A pointer begins as null.
pub(crate) fn zero_of(alloc: Global, program: &Program, place: &PType) -> Result<Value, NoMemory>
    ensures { IfOk result (λ zero. the_value zero ≡ zero_of program.now place.now) }
{
    match place {
        PType::Value(kind) => Ok(zero_value(alloc, program, kind)?),
        PType::Pointer(_) => Ok(Value::Managed(Pointer::Null)),
        PType::Native => Ok(Value::Word(Kind::Native, 0)),
    }
}

// The low eight bits of each word.
fn low_bytes(alloc: Global, words: &[u64]) -> Result<Vec<u64>, NoMemory>
    ensures { IfOk result (λ all. all.items ≡ map (λ w. w % 256) words.now) }
{
    let mut all = Vec::new(alloc);
    for word in words {
        match all.push(*word % 256) {
            Ok(()) => {}
            Err(_) => return Err(NoMemory),
        }
    }
    Ok(all)
}

// The words that a place keeps of words: of a bool the low eight bits.
fn kept(alloc: Global, kind: &TExpr, words: Vec<u64>) -> Result<Vec<u64>, NoMemory>
    ensures { IfOk result (λ all. all.items ≡ kept kind.now words.items) }
{
    if is_bool(kind) {
        Ok(low_bytes(alloc, words.as_slice())?)
    } else {
        Ok(words)
    }
}

/// The words that a place of a type keeps of a value that fits it.
#[tactic(auto, unfolding(crate::specs::Kept::words_kept))]
pub(crate) fn keeps(
    alloc: Global,
    program: &Program,
    kind: &TExpr,
    value: &Value,
) -> Result<Vec<u64>, Pause>
    ensures { Gives (λ words. words.items) (words_kept program.now kind.now (the_value value.now)) result }
{
    let words = words_in(alloc, value)?;
    if !same_kind(value.kind(), kind_of(program, kind)) {
        return Err(Pause::Halts(Halt::Stuck));
    }
    let count = words_of(alloc, program, kind)?;
    if words.len() != count as usize {
        return Err(Pause::Halts(Halt::Stuck));
    }
    Ok(kept(alloc, kind, words)?)
}

/// The value that it keeps.
#[tactic(auto, unfolding(crate::specs::Kept::value_kept))]
pub(crate) fn value_kept(
    alloc: Global,
    program: &Program,
    kind: &TExpr,
    value: &Value,
) -> Result<Value, Pause>
    ensures { Gives the_value (value_kept program.now kind.now (the_value value.now)) result }
{
    let words = keeps(alloc, program, kind, value)?;
    Ok(value_of(kind_of(program, kind), words))
}

// What a place for a native int keeps.
#[tactic(auto, unfolding(crate::specs::Kept::native_kept))]
fn native_kept(value: &Value) -> Result<Value, Pause>
    ensures { Gives the_value (native_kept (the_value value.now)) result }
{
    let (kind, word) = as_word(value)?;
    if is_native(kind) {
        Ok(Value::Word(Kind::Native, word))
    } else {
        Err(Pause::Halts(Halt::Stuck))
    }
}

// What a place for a pointer keeps.
#[tactic(auto, unfolding(crate::specs::Kept::pointer_kept))]
fn pointer_kept(value: &Value) -> Result<Value, Pause>
    ensures { Gives the_value (pointer_kept (the_value value.now)) result }
{
    let pointer = as_pointer(value)?;
    Ok(Value::Managed(pointer))
}

/// What a parameter or a local keeps of a value that fits it.
pub(crate) fn fits_place(
    alloc: Global,
    program: &Program,
    place: &PType,
    value: &Value,
) -> Result<Value, Pause>
    ensures { Gives the_value (place_kept program.now place.now (the_value value.now)) result }
{
    match place {
        PType::Value(kind) => Ok(value_kept(alloc, program, kind, value)?),
        PType::Pointer(_) => Ok(pointer_kept(value)?),
        PType::Native => Ok(native_kept(value)?),
    }
}

/// Whether a method of this shape takes an object.
pub(crate) fn takes_object(shape: Shape) -> bool
    ensures { result ≡ takes_object shape }
{
    match shape {
        Shape::Fixed => false,
        Shape::Instance | Shape::Virtual | Shape::NewSlot | Shape::Abstract => true,
    }
}
