// What a type's class says of it, with the type's arguments put for the class's variables.
ghost use Rattle.std.specs.Prelude.{◌≡◌, IfOk, Option};
ghost use Rattle.il_model.specs.Entries.{arguments_of};
ghost use Rattle.il_model.specs.Kinds.{is_reference_kind, is_reference};
ghost use Rattle.il_model.specs.Bases.{with_args_of, base_of};

use il_model::{ClassKind, Program, class_of};
use mn_outside::NoMemory;
use std::alloc::Global;
use type_tree::{Head, TExpr, TNode, subst_whole};

/// The arguments of a type; a variable has none.
pub fn arguments_of(kind: &TExpr) -> &[TExpr]
    ensures { result.now ≡ arguments_of kind.now }
{
    match kind.top() {
        TNode::Node(_, parts) => parts.as_slice(),
        TNode::ClassVar(_) | TNode::MethodVar(_) => &[],
    }
}

/// A type of a class's definition, with the arguments of this type of the class put for the class's
/// variables.
pub fn with_args_of(alloc: Global, kind: &TExpr, part: &TExpr) -> Result<TExpr, NoMemory>
    ensures { IfOk result (λ whole. whole ≡ with_args_of kind.now part.now) }
{
    subst_whole(alloc, part, arguments_of(kind), &[])
}

/// The base of a type: that of its class, with the type's arguments put.
pub fn base_of(alloc: Global, program: &Program, kind: &TExpr) -> Result<Option<TExpr>, NoMemory>
    ensures { IfOk result (λ base. base ≡ base_of program.now kind.now) }
{
    let Some(class) = class_of(program, kind) else {
        return Ok(None);
    };
    match &class.base {
        Some(base) => Ok(Some(with_args_of(alloc, kind, base)?)),
        None => Ok(None),
    }
}

// Whether the objects of a class of this kind go by reference.
fn is_reference_kind(kind: ClassKind) -> bool
    ensures { result ≡ is_reference_kind kind }
{
    match kind {
        ClassKind::Struct => false,
        ClassKind::Plain | ClassKind::Abstract | ClassKind::Interface | ClassKind::Delegate => true,
    }
}

/// Whether a type is a reference type: a vector, or a class of the program that is no struct.
pub fn is_reference(program: &Program, kind: &TExpr) -> bool
    ensures { result ≡ is_reference program.now kind.now }
{
    match kind.top() {
        TNode::Node(Head::Vector, _) => true,
        TNode::Node(Head::Class(_), _) => match class_of(program, kind) {
            Some(class) => is_reference_kind(class.kind),
            None => false,
        },
        TNode::Node(Head::Int32 | Head::Int64 | Head::Bool, _) => false,
        TNode::ClassVar(_) | TNode::MethodVar(_) => false,
    }
}
