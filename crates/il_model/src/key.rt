// Which instantiations a compiled body serves.
use sqlite_items::Items;
use type_tree::Tree;

/// What a body asks of one type argument: a reference type, any type, or just this one.
#[derive(Drop)]
pub enum KeyPart {
    Ref,
    Any,
    Exact(Tree),
}

/// A part for each type variable, those of the class first.
#[derive(Drop)]
pub struct Key {
    pub parts: Items<KeyPart>,
}

/// A compiled body: the method's number, the arguments that it serves, the number of its first code word,
/// the words of its frame, and for each clause the number of the handler's code word.
#[derive(Drop)]
pub struct BodyRow {
    pub method: u16,
    pub key: Key,
    pub entry: u32,
    pub frame: u32,
    pub handlers: Items<u32>,
}
