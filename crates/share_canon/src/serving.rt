// Which types a key serves.
ghost use Rattle.std.specs.Prelude.{◌≡◌, ◌↔◌, IsTrue};
ghost use Rattle.il_model.specs.Kinds.{is_reference, is_reference_kind};
ghost use Rattle.share_canon.specs.Keys.{ServesPart, Serves};

use il_model::{ClassKind, KeyPart, Program};
use type_tree::{Head, TNode, Tree};

/// Whether the key of these parts serves the types.
pub(crate) fn serves(program: &Program, key: &[KeyPart], args: &[Tree]) -> bool
    ensures { IsTrue result ↔ Serves program.now key.now args.now }
{
    if key.len() != args.len() {
        return false;
    }
    for i in 0..key.len() {
        if !serves_part(program, &key[i], &args[i]) {
            return false;
        }
    }
    true
}

fn serves_part(program: &Program, part: &KeyPart, arg: &Tree) -> bool
    ensures { IsTrue result ↔ ServesPart program.now part.now arg.now }
{
    match part {
        KeyPart::Ref => is_reference(program, arg),
        KeyPart::Any => true,
        KeyPart::Exact(tree) => arg.same(tree),
    }
}

/// Whether the type is a reference type.
pub(crate) fn is_reference(program: &Program, kind: &Tree) -> bool
    ensures { result ≡ is_reference program.now kind.now }
{
    match kind.top() {
        TNode::Node(Head::Vector, _) => true,
        TNode::Node(Head::Class(number), _) => {
            match program.classes.as_slice().get(*number as usize) {
                Some(class) => is_reference_kind(class.kind),
                None => false,
            }
        }
        TNode::Node(Head::Int32 | Head::Int64 | Head::Bool, _) => false,
        TNode::ClassVar(_) | TNode::MethodVar(_) => false,
    }
}

fn is_reference_kind(kind: ClassKind) -> bool
    ensures { result ≡ is_reference_kind kind }
{
    match kind {
        ClassKind::Plain | ClassKind::Abstract | ClassKind::Interface | ClassKind::Delegate => true,
        ClassKind::Struct => false,
    }
}
