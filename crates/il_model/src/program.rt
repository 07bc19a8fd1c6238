// Whole programs.
use crate::class::ClassDef;
use crate::method::MethodDef;
use mn_outside::Bytes;
use sqlite_items::Items;

/// A program. Classes and methods are counted from 0, the predefined ones first, then those of the text
/// in its order. Literals are different from one another, in order of first use. `main` is the number
/// of the method with the entry point.
#[derive(Drop)]
pub struct Program {
    pub classes: Items<ClassDef>,
    pub methods: Items<MethodDef>,
    pub literals: Items<Bytes>,
    pub main: u16,
}
