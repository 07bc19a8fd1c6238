// Methods and fields as an instruction names them.
use crate::method::PType;
use mn_outside::Name;
use sqlite_items::Items;
use type_tree::TExpr;

/// A method as it is named: the class with its arguments, the name, the method's own type arguments, and
/// the result and the parameters as the definition has them, with its own variables.
#[derive(Drop)]
pub struct MRef {
    pub instance: bool,
    pub result: Option<TExpr>,
    pub class: TExpr,
    pub name: Name,
    pub args: Items<TExpr>,
    pub params: Items<PType>,
}

/// A field as it is named: its type as the definition has it, the class with its arguments, and the name.
#[derive(Drop)]
pub struct FRef {
    pub kind: TExpr,
    pub class: TExpr,
    pub name: Name,
}
