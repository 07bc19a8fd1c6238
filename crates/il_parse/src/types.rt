// Types as they are written.
ghost use Rattle.std.specs.Prelude.{◌≡◌, ◌<◌, [], IfOk};
ghost use Rattle.il_parse.specs.declared.fault.ReadError.TheVariants as error;
ghost use Rattle.il_parse.specs.Reading.{Reads};
ghost use Rattle.il_parse.specs.Types as spec;
ghost use Rattle.il_parse.specs.Heads.{head_view, head_of_kind, no_head_fault, inner};

use crate::cursor::Cursor;
use crate::fault::{ParseCause, ReadError};
use il_model::{WrittenName, WrittenType};
use il_text::TokenKind;
use sqlite_items::{Boxed, Items};
use std::alloc::{AllocError, Global};

// A written type has at most so many positions.
const MOST_POSITIONS: usize = 256;

/// How a type begins: by a token that is a type, or by the name of a class.
#[derive(Drop)]
pub(crate) enum Start {
    Whole(WrittenType),
    ClassName(WrittenName),
    NoType,
}

/// A type.
#[tactic(auto, unfolding(crate::specs::Types::read_type))]
pub(crate) fn read_type(alloc: Global, cursor: &mut Cursor<'_>) -> Result<WrittenType, ReadError>
    ensures { Reads (spec.read_type cursor.old) result cursor.new }
{
    let (kind, _) = read_type_within(alloc, cursor, MOST_POSITIONS, MOST_POSITIONS)?;
    Ok(kind)
}

// The type that a word is by itself.
#[tactic(auto, unfolding(crate::specs::Types::keyword_type))]
fn keyword_type(word: &[u8]) -> Option<WrittenType>
    ensures { result ≡ spec.keyword_type word.now }
{
    if b"int32".as_slice() == word {
        return Some(WrittenType::Int32);
    }
    if b"int64".as_slice() == word {
        return Some(WrittenType::Int64);
    }
    if b"bool".as_slice() == word {
        return Some(WrittenType::Bool);
    }
    if b"object".as_slice() == word {
        return Some(WrittenType::Object);
    }
    if b"string".as_slice() == word {
        return Some(WrittenType::String);
    }
    None
}

// How a name of this kind begins a type.
fn start_of_kind(name: WrittenName, kind: TokenKind) -> Start
    ensures { head_view result ≡ head_of_kind name kind }
{
    match kind {
        TokenKind::Word => Start::ClassName(name),
        TokenKind::Variable => Start::Whole(WrittenType::Variable(name)),
        TokenKind::Number | TokenKind::Text | TokenKind::Mark => Start::NoType,
    }
}

// What the first token is at the front of a type.
#[tactic(auto, using(crate::proofs::TypeLemmas::head_whole, crate::proofs::TypeLemmas::head_named, crate::proofs::TypeLemmas::head_none))]
fn start_of(alloc: Global, cursor: &Cursor<'_>) -> Result<Start, AllocError>
    ensures { IfOk result (λ start. head_view start ≡ spec.head_of cursor.now) }
{
    if let Some(kind) = keyword_type(cursor.bytes()) {
        return Ok(Start::Whole(kind));
    }
    match cursor.first(alloc)? {
        Some((kind, name)) => Ok(start_of_kind(name, kind)),
        None => Ok(Start::NoType),
    }
}

// Why no type begins where none may come any more.
fn no_head(cursor: &Cursor<'_>, start: &Start) -> ReadError
    ensures { result ≡ error.Fault (no_head_fault (head_view start.now) cursor.now) }
{
    match start {
        Start::NoType => cursor.stuck(),
        Start::Whole(_) | Start::ClassName(_) => cursor.stop(ParseCause::TooMany),
    }
}

// A type of at most so many positions that nests so deep at most, and how many may come behind it.
#[cycle(types)]
fn read_type_within(
    alloc: Global,
    cursor: &mut Cursor<'_>,
    depth: usize,
    left: usize,
) -> Result<(WrittenType, usize), ReadError>
    ensures { Reads (spec.read_type_within depth left cursor.old) result cursor.new }
{
    let start = start_of(alloc, cursor)?;
    if depth == 0 {
        return Err(no_head(cursor, &start));
    }
    if left == 0 {
        return Err(no_head(cursor, &start));
    }
    match start {
        Start::NoType => Err(cursor.stuck()),
        Start::Whole(kind) => {
            cursor.advance();
            read_vectors(alloc, cursor, kind, left - 1)
        }
        Start::ClassName(name) => {
            cursor.advance();
            read_applied(alloc, cursor, depth, name, left - 1)
        }
    }
}

// What follows the name of a class in a type.
#[cycle(types)]
#[tactic(auto, unfolding(crate::specs::Types::read_applied))]
fn read_applied(
    alloc: Global,
    cursor: &mut Cursor<'_>,
    depth: usize,
    name: WrittenName,
    left: usize,
) -> Result<(WrittenType, usize), ReadError>
    requires { 0 < depth }
    ensures { Reads (spec.read_applied (inner depth) depth name left cursor.old) result cursor.new }
{
    if !cursor.eat(b"<") {
        let none = Items::new(alloc);
        return read_vectors(alloc, cursor, WrittenType::Named(name, none), left);
    }
    let (args, left) = inner_types(alloc, cursor, depth, left)?;
    cursor.expect(b">")?;
    read_vectors(alloc, cursor, WrittenType::Named(name, args), left)
}

// The arguments of a class in a type, and how many positions may come behind them.
#[cycle(types)]
fn inner_types(
    alloc: Global,
    cursor: &mut Cursor<'_>,
    depth: usize,
    most: usize,
) -> Result<(Items<WrittenType>, usize), ReadError>
    requires { 0 < depth }
    ensures { Reads (spec.inner_types_from (inner depth) depth [] most cursor.old) result cursor.new }
{
    let mut found = Items::new(alloc);
    let mut left = most;
    for _turn in 0..depth {
        let (kind, after) = read_type_within(alloc, cursor, depth - 1, left)?;
        found.push(kind)?;
        left = after;
        if !cursor.eat(b",") {
            return Ok((found, left));
        }
    }
    Err(cursor.stuck())
}

// The type with each `[]` that follows it, and how many positions may come behind it.
#[tactic(auto, using(crate::proofs::TypeLemmas::vectors_go, crate::proofs::TypeLemmas::vectors_end))]
fn read_vectors(
    alloc: Global,
    cursor: &mut Cursor<'_>,
    element: WrittenType,
    most: usize,
) -> Result<(WrittenType, usize), ReadError>
    ensures { Reads (spec.read_vectors element most cursor.old) result cursor.new }
{
    let mut kind = element;
    let mut left = most;
    while cursor.sees(b"[]") {
        if left == 0 {
            return Err(cursor.stop(ParseCause::TooMany));
        }
        cursor.advance();
        kind = WrittenType::Vector(Boxed::new(alloc, kind)?);
        left -= 1;
    }
    Ok((kind, left))
}

/// One type or several, with a mark between each two.
#[tactic(auto, unfolding(crate::specs::Types::read_types))]
pub(crate) fn read_types(
    alloc: Global,
    cursor: &mut Cursor<'_>,
    mark: &[u8],
) -> Result<Items<WrittenType>, ReadError>
    ensures { Reads (spec.read_types mark.now cursor.old) result cursor.new }
{
    let mut found = Items::new(alloc);
    for _turn in 0..cursor.left() {
        found.push(read_type(alloc, cursor)?)?;
        if !cursor.eat(mark) {
            return Ok(found);
        }
    }
    Err(cursor.stuck())
}
