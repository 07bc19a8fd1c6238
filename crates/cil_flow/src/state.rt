// The stack before each instruction, as a list of types. The rules are this project's own, after ECMA-335, Partition III.
use sqlite_items::Items;
use type_tree::TExpr;

/// The type of a value on the stack. `Int32` stands for bool too, `Native` is what `ldlen` leaves and `Null`
/// what `ldnull` does. `Kind` is a reference type, a struct or a type variable. `Boxed` is the reference that
/// `box`, `castclass` or `isinst` leaves for a value type or a variable, `Pointer` a managed pointer.
#[derive(Drop)]
pub enum StackType {
    Int32,
    Int64,
    Native,
    Null,
    Kind(TExpr),
    Boxed(TExpr),
    Pointer(TExpr),
}

/// The stack before an instruction, from its deepest place up.
#[derive(Drop)]
pub struct State {
    pub stack: Items<StackType>,
}

/// One state for each instruction of a body.
#[derive(Drop)]
pub struct States {
    pub states: Items<State>,
}
