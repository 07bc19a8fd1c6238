// The types of members as an instruction that names them sees them: the arguments put for the variables.
ghost use Rattle.std.specs.Prelude.{◌≡◌, IfOk};
ghost use Rattle.il_model.specs.Entries.{arguments_of, field_type, vector_of};
ghost use Rattle.cil_verify.specs.Members.{type_at, place_at, result_at};

use il_model::{FRef, MRef, PType};
use mn_outside::NoMemory;
use sqlite_items::Items;
use std::alloc::Global;
use type_tree::{Head, TExpr, TNode, subst_whole};

// The arguments of a type; a variable has none.
fn arguments_of(kind: &TExpr) -> &[TExpr]
    ensures { result.now ≡ arguments_of kind.now }
{
    match kind.top() {
        TNode::Node(_, parts) => parts.as_slice(),
        TNode::ClassVar(_) | TNode::MethodVar(_) => &[],
    }
}

/// A type of a method's definition, with the arguments that its class and it are named with.
pub(crate) fn type_at(alloc: Global, named: &MRef, kind: &TExpr) -> Result<TExpr, NoMemory>
    ensures { IfOk result (λ whole. whole ≡ type_at named.now kind.now) }
{
    subst_whole(
        alloc,
        kind,
        arguments_of(&named.class),
        named.args.as_slice(),
    )
}

/// The same of a parameter.
pub(crate) fn place_at(alloc: Global, named: &MRef, place: &PType) -> Result<PType, NoMemory>
    ensures { IfOk result (λ whole. whole ≡ place_at named.now place.now) }
{
    match place {
        PType::Value(kind) => Ok(PType::Value(type_at(alloc, named, kind)?)),
        PType::Pointer(kind) => Ok(PType::Pointer(type_at(alloc, named, kind)?)),
        PType::Native => Ok(PType::Native),
    }
}

/// The same of the result, if there is one.
pub(crate) fn result_at(alloc: Global, named: &MRef) -> Result<Option<TExpr>, NoMemory>
    ensures { IfOk result (λ whole. whole ≡ result_at named.now) }
{
    match &named.result {
        Some(kind) => Ok(Some(type_at(alloc, named, kind)?)),
        None => Ok(None),
    }
}

/// The type of a field, with the arguments of its class.
pub(crate) fn field_type(alloc: Global, field: &FRef) -> Result<TExpr, NoMemory>
    ensures { IfOk result (λ whole. whole ≡ field_type field.now) }
{
    subst_whole(alloc, &field.kind, arguments_of(&field.class), &[])
}

/// The vector type with these elements.
pub(crate) fn vector_of(alloc: Global, kind: &TExpr) -> Result<TExpr, NoMemory>
    ensures { IfOk result (λ vector. vector ≡ vector_of kind.now) }
{
    let mut parts = Items::new(alloc);
    let Ok(()) = parts.push(kind.copy(alloc)?) else {
        return Err(NoMemory);
    };
    Ok(TExpr::node(Head::Vector, parts))
}
