// Which types are assignable to which.
ghost use Rattle.std.specs.Prelude.{◌≡◌, IfOk};
ghost use Rattle.std.specs.Option.{option_copied};
ghost use Rattle.il_model.specs.Assignable.{element_of, only_of, is_object, is_assignable_flat, is_assignable};
ghost use Rattle.il_model.specs.ClassRules.{HasTypes};

use crate::ascent::bases;
use crate::classes::is_reference;
use crate::equality::{is_among, is_same};
use crate::implementing::interfaces;
use il_model::Program;
use mn_outside::NoMemory;
use std::alloc::Global;
use type_tree::{Head, TExpr, TNode, Tree};

/// Whether the first type is assignable to the second: they are equal, the second is a base or an
/// interface of the first, the second is `object` and the first a reference type, or both are vectors of
/// reference types of which one is assignable to the other. A variable is assignable to itself alone.
pub fn assignable(
    alloc: Global,
    program: &Program,
    from: &Tree,
    to: &Tree,
) -> Result<bool, NoMemory>
    requires { HasTypes program.now }
    ensures { IfOk result (λ answer. answer ≡ is_assignable program.now from.now to.now) }
{
    if is_assignable_flat(alloc, program, from, to)? {
        return Ok(true);
    }
    let Some(element) = element_of(from) else {
        return Ok(false);
    };
    let Some(other) = element_of(to) else {
        return Ok(false);
    };
    if !is_reference(program, element) {
        return Ok(false);
    }
    if !is_reference(program, other) {
        return Ok(false);
    }
    assignable(alloc, program, element, other)
}

// The same, vectors of different elements aside.
fn is_assignable_flat(
    alloc: Global,
    program: &Program,
    from: &TExpr,
    to: &TExpr,
) -> Result<bool, NoMemory>
    requires { HasTypes program.now }
    ensures { IfOk result (λ answer. answer ≡ is_assignable_flat program.now from.now to.now) }
{
    if is_among(bases(alloc, program, from)?.as_slice(), to) {
        return Ok(true);
    }
    if is_object(alloc, to) {
        if is_reference(program, from) {
            return Ok(true);
        }
    }
    Ok(is_among(interfaces(alloc, program, from)?.as_slice(), to))
}

// Whether the type is `object`.
fn is_object(alloc: Global, kind: &TExpr) -> bool
    ensures { result ≡ is_object kind.now }
{
    let object = TExpr::plain(alloc, Head::Class(0));
    is_same(kind, &object)
}

/// The type of a vector's elements.
pub fn element_of(kind: &TExpr) -> Option<&TExpr>
    ensures { option_copied result ≡ element_of kind.now }
{
    match kind.top() {
        TNode::Node(Head::Vector, parts) => only_of(parts.as_slice()),
        TNode::Node(Head::Int32 | Head::Int64 | Head::Bool | Head::Class(_), _) => None,
        TNode::ClassVar(_) | TNode::MethodVar(_) => None,
    }
}

// The one type of a list.
fn only_of(kinds: &[TExpr]) -> Option<&TExpr>
    ensures { option_copied result ≡ only_of kinds.now }
{
    match kinds {
        [kind] => Some(kind),
        _ => None,
    }
}
