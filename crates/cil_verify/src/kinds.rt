// What a type is, and what stands on the stack for it.
ghost use Rattle.std.specs.Prelude.{◌≡◌, IfOk};
ghost use Rattle.il_model.specs.Kinds.{is_reference_kind, is_reference};
ghost use Rattle.il_model.specs.Find.{class_of};
ghost use Rattle.cil_verify.specs.Places.{stack_of};

use cil_flow::StackType;
use il_model::{ClassKind, Program, class_of};
use mn_outside::NoMemory;
use std::alloc::Global;
use type_tree::{Head, TExpr, TNode};

// Whether the objects of a class of this kind go by reference.
fn is_reference_kind(kind: ClassKind) -> bool
    ensures { result ≡ is_reference_kind kind }
{
    match kind {
        ClassKind::Struct => false,
        ClassKind::Plain | ClassKind::Abstract | ClassKind::Interface | ClassKind::Delegate => true,
    }
}

// Whether a type is a reference type.
pub(crate) fn is_reference(program: &Program, kind: &TExpr) -> bool
    ensures { result ≡ is_reference program.now kind.now }
{
    match kind.top() {
        TNode::Node(Head::Vector, _) => true,
        TNode::Node(Head::Class(_), _) => match class_of(program, kind) {
            Some(class) => is_reference_kind(class.kind),
            None => false,
        },
        TNode::Node(Head::Int32 | Head::Int64 | Head::Bool, _) => false,
        TNode::ClassVar(_) | TNode::MethodVar(_) => false,
    }
}

/// How a value of a type stands on the stack. `bool` counts as `int32`.
pub fn stack_of(alloc: Global, kind: &TExpr) -> Result<StackType, NoMemory>
    ensures { IfOk result (λ found. found ≡ stack_of kind.now) }
{
    match kind.top() {
        TNode::Node(Head::Int32 | Head::Bool, _) => Ok(StackType::Int32),
        TNode::Node(Head::Int64, _) => Ok(StackType::Int64),
        TNode::Node(Head::Vector | Head::Class(_), _) => Ok(StackType::Kind(kind.copy(alloc)?)),
        TNode::ClassVar(_) | TNode::MethodVar(_) => Ok(StackType::Kind(kind.copy(alloc)?)),
    }
}
