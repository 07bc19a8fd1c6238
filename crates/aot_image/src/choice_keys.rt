// The keys in a line.
ghost use Rattle.std.specs.Prelude.{◌≡◌, ◌++◌, ◌∷◌, [], ◌&&◌, ◌||◌, ◌+◌, List, Option, option_map, IfOk, OnOk};
ghost use Rattle.il_model.specs.declared.key.KeyPart.{KeyPart};
ghost use Rattle.il_model.specs.declared.key.KeyPart.TheVariants.{Exact};
ghost use Rattle.aot_image.specs.ChoosingKeys as spec;
ghost use Rattle.aot_image.specs.ChoosingTypes.{type_of};
ghost use Rattle.aot_image.specs.ChoosingParts.{words_of};
ghost use Rattle.aot_image.specs.ChoosingNames.{AreTablesOf};
ghost use Rattle.aot_image.specs.ChoosingSizes.{IsWord, IsLargeKey, StandFor, AreSome, AreKeys};

use crate::choice_bounds::is_closed_part;
use crate::choice_names::Tables;
use crate::choice_parts::part_len;
use crate::choice_read_error::ReadError;
use crate::choice_sizes::measured;
use crate::choice_types::read_type;
use crate::decoding_bodies::is_any;
use il_model::{KeyPart, Program};
use mn_outside::NoMemory;
use sqlite_items::Items;
use std::alloc::Global;

/// What a word is as a key: a part; a type of too many positions, which has no variable or has some; or no key.
#[derive(Drop)]
pub(crate) enum Word {
    Part(KeyPart),
    Large(bool),
    Malformed,
}

/// The keys of a line: the parts in order, unless some are types of too many positions, and what is asked of all.
#[derive(Drop)]
pub(crate) struct Keys {
    pub(crate) parts: Items<KeyPart>,
    /// How many keys there are.
    pub(crate) count: usize,
    /// None of their types has a variable.
    pub(crate) closed: bool,
    pub(crate) some_any: bool,
    pub(crate) all_any: bool,
    /// None of their types has too many positions.
    pub(crate) small: bool,
}

// The type that a word is.
fn built(alloc: Global, program: &Program, tables: &Tables, word: &[u8]) -> Result<Word, NoMemory>
    requires { AreTablesOf program.now tables.now }
    ensures { IfOk result (λ found. IsWord (option_map Exact (type_of program.now word.now)) found) }
{
    match read_type(alloc, program, tables, word) {
        Ok(kind) => Ok(Word::Part(KeyPart::Exact(kind))),
        Err(ReadError::Malformed) => Ok(Word::Malformed),
        Err(ReadError::Memory) => Err(NoMemory),
    }
}

// The type that a word is, which is built where it has not too many positions.
#[tactic(auto, using(crate::proofs::ChoosingKeyLemmas::no_room))]
fn key_of_type(
    alloc: Global,
    program: &Program,
    tables: &Tables,
    word: &[u8],
) -> Result<Word, NoMemory>
    requires { AreTablesOf program.now tables.now }
    ensures { IfOk result (λ found. IsWord (option_map Exact (type_of program.now word.now)) found) }
{
    match measured(alloc, program, tables, word) {
        Ok(extent) => {
            if extent.room == 0 {
                return Ok(Word::Large(extent.closed));
            }
            built(alloc, program, tables, word)
        }
        Err(ReadError::Malformed) => Ok(Word::Malformed),
        Err(ReadError::Memory) => Err(NoMemory),
    }
}

// What a word is as a key.
fn key_of(alloc: Global, program: &Program, tables: &Tables, word: &[u8]) -> Result<Word, NoMemory>
    requires { AreTablesOf program.now tables.now }
    ensures { IfOk result (λ found. IsWord (spec.key_of program.now word.now) found) }
{
    if b"ref".as_slice() == word {
        return Ok(Word::Part(KeyPart::Ref));
    }
    if b"any".as_slice() == word {
        return Ok(Word::Part(KeyPart::Any));
    }
    key_of_type(alloc, program, tables, word)
}

fn both(first: bool, second: bool) -> bool
    ensures { result ≡ (first && second) }
{
    first && second
}

fn either(first: bool, second: bool) -> bool
    ensures { result ≡ (first || second) }
{
    first || second
}

// One more. No count passes what a number holds.
fn one_more(count: usize) -> Result<usize, NoMemory>
    ensures { IfOk result (λ more. more ≡ count + 1) }
{
    match count.checked_add(1) {
        Some(more) => Ok(more),
        None => Err(NoMemory),
    }
}

fn put(parts: &mut Items<KeyPart>, part: KeyPart) -> Result<(), NoMemory>
    ensures { OnOk result (parts.new ≡ parts.old ++ part ∷ []) }
{
    parts.push(part).map_err(|_| NoMemory)
}

/// No keys.
pub(crate) fn no_keys(alloc: Global) -> Keys
    ensures { StandFor result [] }
{
    Keys {
        parts: Items::new(alloc),
        count: 0,
        closed: true,
        some_any: false,
        all_any: true,
        small: true,
    }
}

// The keys with one more that is not too large.
#[tactic(auto, using(crate::proofs::ChoosingKeyLemmas::part_stands))]
fn with_part(keys: Keys, part: KeyPart) -> Result<Keys, NoMemory>
    ensures { IfOk result (λ more. (before : List KeyPart) → StandFor keys before → StandFor more (before ++ part ∷ [])) }
{
    let any = is_any(&part);
    let closed = both(keys.closed, is_closed_part(&part));
    let some_any = either(keys.some_any, any);
    let all_any = both(keys.all_any, any);
    let count = one_more(keys.count)?;
    let small = keys.small;
    let Keys { mut parts, .. } = keys;
    put(&mut parts, part)?;
    Ok(Keys {
        parts,
        count,
        closed,
        some_any,
        all_any,
        small,
    })
}

// The keys with one more that is a type of too many positions.
#[tactic(auto, using(crate::proofs::ChoosingKeyLemmas::large_stands))]
fn with_large(keys: Keys, closed: bool) -> Result<Keys, NoMemory>
    ensures { IfOk result (λ more. (before : List KeyPart) (key : Option KeyPart) → StandFor keys before → IsLargeKey key closed → AreSome (spec.with_key before key) more) }
{
    let closed = both(keys.closed, closed);
    let count = one_more(keys.count)?;
    Ok(Keys {
        parts: keys.parts,
        count,
        closed,
        some_any: keys.some_any,
        all_any: false,
        small: false,
    })
}

// The keys with one more; None where it is none.
#[tactic(auto, using(crate::proofs::ChoosingKeyLemmas::word_part, crate::proofs::ChoosingKeyLemmas::word_none))]
fn with_word(keys: Keys, word: Word) -> Result<Option<Keys>, NoMemory>
    ensures { IfOk result (λ more. (before : List KeyPart) (key : Option KeyPart) → StandFor keys before → IsWord key word → AreKeys (spec.with_key before key) more) }
{
    match word {
        Word::Part(part) => Ok(Some(with_part(keys, part)?)),
        Word::Large(closed) => Ok(Some(with_large(keys, closed)?)),
        Word::Malformed => Ok(None),
    }
}

/// The keys that the words of a text are, with a single space between each two; None where a word is no key.
#[tactic(auto, using(crate::proofs::ChoosingKeyLemmas::words_first, crate::proofs::ChoosingKeyLemmas::words_none, crate::proofs::ChoosingKeyLemmas::words_go, crate::proofs::ChoosingKeyLemmas::words_end))]
pub(crate) fn keys_of(
    alloc: Global,
    program: &Program,
    tables: &Tables,
    text: &[u8],
) -> Result<Option<Keys>, NoMemory>
    requires { AreTablesOf program.now tables.now }
    ensures { IfOk result (λ keys. AreKeys (spec.keys_of program.now (words_of text.now)) keys) }
{
    let mut keys = no_keys(alloc);
    let mut rest = text;
    'words: loop {
        let (word, behind) = rest.split_at(part_len(rest, b' '));
        let Some(more) = with_word(keys, key_of(alloc, program, tables, word)?)? else {
            return Ok(None);
        };
        keys = more;
        match behind.split_first() {
            Some((_, next)) => rest = next,
            None => return Ok(Some(keys)),
        }
    }
}
