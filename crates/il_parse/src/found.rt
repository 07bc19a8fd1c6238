// What the look-up has found so far.
use crate::member_lists::{Fields, Methods};
use crate::met::MetNames;
use il_model::{ClassDef, MethodDef};
use sqlite_items::Items;

/// What was found of a class's members, and whether an entry point was met in the text.
#[derive(Drop)]
pub(crate) struct Found {
    pub(crate) fields: Fields,
    pub(crate) methods: Methods,
    pub(crate) begun: bool,
}

/// What was found of a text's classes: their names in plain spelling, and those of the library, the last
/// first; the classes and their methods; and whether an entry point was met.
#[derive(Drop)]
pub(crate) struct Gathered {
    pub(crate) names: MetNames,
    pub(crate) classes: Items<ClassDef>,
    pub(crate) methods: Items<MethodDef>,
    pub(crate) begun: bool,
}
