// Values and managed pointers, as a thread's frames hold them.
ghost use Rattle.std.specs.Prelude.{◌≡◌, ◌+◌, [], ◌∷◌, IfOk, IfSome};
ghost use Rattle.cil_meaning.specs.Values.{Int32, Reference, Plain as MeantPlain, shifted};
ghost use Rattle.unshared.specs.Forms.{the_kind, the_pointer, the_value};
ghost use Rattle.unshared.specs.Kept.{kind_in};

use mn_outside::NoMemory;
use std::alloc::Global;

/// What an instruction sees of a value's type. Bool is an int32 on the stack. After ECMA-335, Partition I.
#[derive(Clone, Copy, PartialEq, Eq)]
pub(crate) enum Kind {
    Int32,
    Int64,
    Native,
    Reference,
    Struct,
}

/// A managed pointer: null; a word of a place of the frame at a level; a word of the struct that the frame at a level has
/// built; a word of an object; a static word of the type with a number.
#[derive(Clone, Copy, PartialEq, Eq)]
pub(crate) enum Pointer {
    Null,
    InFrame { level: u32, place: u32, word: u32 },
    InFresh { level: u32, word: u32 },
    InObject { object: u32, index: u32 },
    InStatic { kind: u32, index: u32 },
}

/// A value: one word or many, with their kind, or a managed pointer.
#[derive(Drop)]
pub(crate) enum Value {
    Word(Kind, u64),
    Words(Kind, Vec<u64>),
    Managed(Pointer),
}

impl Value {
    pub(crate) fn int32(word: u64) -> Value
        ensures { the_value result ≡ MeantPlain Int32 (word ∷ []) }
    {
        Value::Word(Kind::Int32, word)
    }

    pub(crate) fn reference(word: u64) -> Value
        ensures { the_value result ≡ MeantPlain Reference (word ∷ []) }
    {
        Value::Word(Kind::Reference, word)
    }

    /// Its kind; of a pointer that of a struct, which nobody asks for.
    pub(crate) fn kind(&self) -> Kind
        ensures { the_kind result ≡ kind_in (the_value self.now) }
    {
        match self {
            Value::Word(kind, _) => *kind,
            Value::Words(kind, _) => *kind,
            Value::Managed(_) => Kind::Struct,
        }
    }

    /// A copy.
    pub(crate) fn copied(&self, alloc: Global) -> Result<Value, NoMemory>
        ensures { IfOk result (λ copy. the_value copy ≡ the_value self.now) }
    {
        match self {
            Value::Word(kind, word) => Ok(Value::Word(*kind, *word)),
            Value::Words(kind, words) => match words.as_slice().to_vec(alloc) {
                Ok(copy) => Ok(Value::Words(*kind, copy)),
                Err(_) => Err(NoMemory),
            },
            Value::Managed(pointer) => Ok(Value::Managed(*pointer)),
        }
    }
}

// The one word of a list that has one.
fn single(words: &[u64]) -> Option<u64>
    ensures { IfSome result (λ word. words.now ≡ word ∷ []) }
{
    match words {
        [word] => Some(*word),
        _ => None,
    }
}

/// A value of a kind with these words.
pub(crate) fn value_of(kind: Kind, words: Vec<u64>) -> Value
    ensures { the_value result ≡ MeantPlain (the_kind kind) words.items }
{
    match single(words.as_slice()) {
        Some(word) => Value::Word(kind, word),
        None => Value::Words(kind, words),
    }
}

/// The pointer so many words on.
pub(crate) fn shifted(pointer: Pointer, words: u32) -> Result<Pointer, NoMemory>
    ensures { IfOk result (λ after. the_pointer after ≡ shifted (the_pointer pointer) words) }
{
    match pointer {
        Pointer::Null => Ok(Pointer::Null),
        Pointer::InFrame { level, place, word } => Ok(Pointer::InFrame {
            level,
            place,
            word: sum(word, words)?,
        }),
        Pointer::InFresh { level, word } => Ok(Pointer::InFresh {
            level,
            word: sum(word, words)?,
        }),
        Pointer::InObject { object, index } => Ok(Pointer::InObject {
            object,
            index: sum(index, words)?,
        }),
        Pointer::InStatic { kind, index } => Ok(Pointer::InStatic {
            kind,
            index: sum(index, words)?,
        }),
    }
}

/// The sum of two numbers of words. What passes 32 bits is want of memory.
pub(crate) fn sum(first: u32, second: u32) -> Result<u32, NoMemory>
    ensures { IfOk result (λ sum. sum ≡ first + second) }
{
    match first.checked_add(second) {
        Some(sum) => Ok(sum),
        None => Err(NoMemory),
    }
}
