// Values as the words, references and pointers that instructions want.
ghost use Rattle.std.specs.Prelude.{◌≡◌};
ghost use Rattle.cil_meaning.specs.Values.{is_int32, is_int64, is_native, is_reference_word, is_struct, same_kind};
ghost use Rattle.unshared.specs.Forms.{the_kind, the_pointer, the_value};
ghost use Rattle.unshared.specs.Operands.{only, word_of, reference_of, word_in_kind, pointer_of, object_of};
ghost use Rattle.unshared.specs.Silent.{Gives};

use crate::pause::{Halt, Pause};
use crate::value::{Kind, Pointer, Value};

pub(crate) fn is_int32(kind: Kind) -> bool
    ensures { result ≡ is_int32 (the_kind kind) }
{
    match kind {
        Kind::Int32 => true,
        Kind::Int64 | Kind::Native | Kind::Reference | Kind::Struct => false,
    }
}

pub(crate) fn is_int64(kind: Kind) -> bool
    ensures { result ≡ is_int64 (the_kind kind) }
{
    match kind {
        Kind::Int64 => true,
        Kind::Int32 | Kind::Native | Kind::Reference | Kind::Struct => false,
    }
}

pub(crate) fn is_native(kind: Kind) -> bool
    ensures { result ≡ is_native (the_kind kind) }
{
    match kind {
        Kind::Native => true,
        Kind::Int32 | Kind::Int64 | Kind::Reference | Kind::Struct => false,
    }
}

pub(crate) fn is_reference_word(kind: Kind) -> bool
    ensures { result ≡ is_reference_word (the_kind kind) }
{
    match kind {
        Kind::Reference => true,
        Kind::Int32 | Kind::Int64 | Kind::Native | Kind::Struct => false,
    }
}

pub(crate) fn is_struct(kind: Kind) -> bool
    ensures { result ≡ is_struct (the_kind kind) }
{
    match kind {
        Kind::Struct => true,
        Kind::Int32 | Kind::Int64 | Kind::Native | Kind::Reference => false,
    }
}

pub(crate) fn same_kind(first: Kind, second: Kind) -> bool
    ensures { result ≡ same_kind (the_kind first) (the_kind second) }
{
    match first {
        Kind::Int32 => is_int32(second),
        Kind::Int64 => is_int64(second),
        Kind::Native => is_native(second),
        Kind::Reference => is_reference_word(second),
        Kind::Struct => is_struct(second),
    }
}

/// The one word of a list.
pub(crate) fn only(words: &[u64]) -> Result<u64, Pause>
    ensures { Gives (λ word. word) (only words.now) result }
{
    match words {
        [word] => Ok(*word),
        _ => Err(Pause::Halts(Halt::Stuck)),
    }
}

/// The one word of a value, with its kind.
#[tactic(auto, unfolding(crate::specs::Operands::word_of))]
pub(crate) fn as_word(value: &Value) -> Result<(Kind, u64), Pause>
    ensures { Gives (λ r. (the_kind r.0, r.1)) (word_of (the_value value.now)) result }
{
    match value {
        Value::Word(kind, word) => Ok((*kind, *word)),
        Value::Words(kind, words) => Ok((*kind, only(words.as_slice())?)),
        Value::Managed(_) => Err(Pause::Halts(Halt::Stuck)),
    }
}

/// The word of a reference.
#[tactic(auto, unfolding(crate::specs::Operands::reference_of))]
pub(crate) fn as_reference(value: &Value) -> Result<u64, Pause>
    ensures { Gives (λ word. word) (reference_of (the_value value.now)) result }
{
    let (kind, word) = as_word(value)?;
    if is_reference_word(kind) {
        Ok(word)
    } else {
        Err(Pause::Halts(Halt::Stuck))
    }
}

/// The pointer that a value is.
#[tactic(auto, unfolding(crate::specs::Operands::pointer_of))]
pub(crate) fn as_pointer(value: &Value) -> Result<Pointer, Pause>
    ensures { Gives the_pointer (pointer_of (the_value value.now)) result }
{
    match value {
        Value::Managed(pointer) => Ok(*pointer),
        Value::Word(_, _) | Value::Words(_, _) => Err(Pause::Halts(Halt::Stuck)),
    }
}

/// The word of a value of a kind.
#[tactic(auto, unfolding(crate::specs::Operands::word_in_kind))]
pub(crate) fn word_of_kind(kind: Kind, value: &Value) -> Result<u64, Pause>
    ensures { Gives (λ word. word) (word_in_kind (the_kind kind) (the_value value.now)) result }
{
    let (other, word) = as_word(value)?;
    if same_kind(kind, other) {
        Ok(word)
    } else {
        Err(Pause::Halts(Halt::Stuck))
    }
}

/// The number of an object that a reference refers to.
#[tactic(auto, unfolding(crate::specs::Operands::object_of))]
pub(crate) fn as_object(word: u64) -> Result<u32, Pause>
    ensures { Gives (λ object. object) (object_of word) result }
{
    match u32::try_from(word) {
        Ok(object) => Ok(object),
        Err(_) => Err(Pause::Halts(Halt::Stuck)),
    }
}
