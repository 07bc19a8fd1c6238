// Classes, their type variables and their fields.
use mn_outside::Name;
use sqlite_items::Items;
use type_tree::TExpr;

/// What a class is. The kinds are those of ECMA-335, Partition II; a text gives the first four.
#[derive(Clone, Copy, Debug, PartialEq, Eq)]
pub enum ClassKind {
    Plain,
    Abstract,
    Interface,
    Struct,
    Delegate,
}

/// A type variable of a class or a method, with the types that an argument for it has to meet.
#[derive(Drop)]
pub struct VarDef {
    pub name: Name,
    pub bounds: Items<TExpr>,
}

/// A field. It is `fixed` where it is static: one place for the class, and none in its objects.
#[derive(Drop)]
pub struct FieldDef {
    pub name: Name,
    pub fixed: bool,
    pub kind: TExpr,
}

/// A class as it is defined, over its own variables. `methods` has the numbers of its methods among
/// those of the program, in order of the text.
#[derive(Drop)]
pub struct ClassDef {
    pub name: Name,
    pub kind: ClassKind,
    pub vars: Items<VarDef>,
    pub base: Option<TExpr>,
    pub interfaces: Items<TExpr>,
    pub fields: Items<FieldDef>,
    pub methods: Items<u16>,
}
