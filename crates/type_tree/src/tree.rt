ghost use Rattle.std.specs.Prelude.{◌≡◌, []};
ghost use Rattle.type_tree.specs.Tree.{top_of, node, class_var, method_var};

use sqlite_items::Items;
use std::alloc::Global;

/// What stands at the head of a type. A class goes by its number in the program, from 0.
#[derive(Clone, Copy, Debug, PartialEq, Eq)]
pub enum Head {
    Int32,
    Int64,
    Bool,
    /// A vector, whose one argument is the type of its elements.
    Vector,
    Class(u16),
}

/// A type expression: a variable, or a head and the list of its arguments. Contracts see it as plain
/// data, which `top_of` opens one level at a time. It is as deep as its arguments nest, and a call that
/// goes down it needs as many levels of the stack.
#[derive(Drop)]
pub struct TExpr {
    node: TNode<TExpr>,
}

/// One level of a type expression, with a `T` for each argument.
#[derive(Drop)]
pub enum TNode<T> {
    Node(Head, Items<T>),
    /// A type variable of the class, from 0.
    ClassVar(u8),
    /// A type variable of the method, from 0.
    MethodVar(u8),
}

/// A type expression without variables.
pub type Tree = TExpr;

impl TExpr {
    /// The type of this head with these arguments.
    pub fn node(head: Head, parts: Items<TExpr>) -> TExpr
        ensures { result ≡ node head parts }
    {
        TExpr {
            node: TNode::Node(head, parts),
        }
    }

    /// The type of this head without arguments. No memory is taken.
    pub fn plain(alloc: Global, head: Head) -> TExpr
        ensures { result ≡ node head [] }
    {
        TExpr::node(head, Items::new(alloc))
    }

    /// The type variable of the class with this number.
    pub fn class_var(number: u8) -> TExpr
        ensures { result ≡ class_var number }
    {
        TExpr {
            node: TNode::ClassVar(number),
        }
    }

    /// The type variable of the method with this number.
    pub fn method_var(number: u8) -> TExpr
        ensures { result ≡ method_var number }
    {
        TExpr {
            node: TNode::MethodVar(number),
        }
    }

    /// The top level, to be matched on.
    pub fn top(&self) -> &TNode<TExpr>
        ensures { result.now ≡ top_of self.now }
    {
        &self.node
    }
}
