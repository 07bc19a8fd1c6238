// Methods and their bodies.
use crate::class::VarDef;
use crate::op::Op;
use mn_outside::Name;
use sqlite_items::Items;
use type_tree::TExpr;

/// How a method is called: `Fixed` is static; `Virtual` takes the slot of the base's method of its name
/// and signature; `NewSlot` and `Abstract` take a new one. After ECMA-335, Partition II.
#[derive(Clone, Copy, Debug, PartialEq, Eq)]
pub enum Shape {
    Fixed,
    Instance,
    Virtual,
    NewSlot,
    Abstract,
}

/// The type of a parameter or a local: a value, a managed pointer to one, or a native int.
#[derive(Drop)]
pub enum PType {
    Value(TExpr),
    Pointer(TExpr),
    Native,
}

/// What a clause does: it catches exceptions of a type, or is run on each way out.
#[derive(Drop)]
pub enum Sort {
    Catch(TExpr),
    Finally,
}

/// A clause of a body. Its try holds the instructions from `from` up to but not including `to`, and its
/// handler those from `handler` up to but not including `end`; instructions are counted from 0.
#[derive(Drop)]
pub struct Clause {
    pub from: u32,
    pub to: u32,
    pub sort: Sort,
    pub handler: u32,
    pub end: u32,
}

/// What a method does: its locals, its instructions and its clauses, each list in order of the text.
#[derive(Drop)]
pub struct Body {
    pub locals: Items<PType>,
    pub code: Items<Op>,
    pub clauses: Items<Clause>,
}

/// A method as it is defined. `owner` is the number of its class; a method without `result` is void, and
/// one without a body is abstract.
#[derive(Drop)]
pub struct MethodDef {
    pub owner: u16,
    pub name: Name,
    pub shape: Shape,
    pub vars: Items<VarDef>,
    pub params: Items<PType>,
    pub result: Option<TExpr>,
    pub body: Option<Body>,
}
