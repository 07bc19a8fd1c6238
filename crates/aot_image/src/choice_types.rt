// The types of keys as they are written.
ghost use Rattle.std.specs.Prelude.{◌≡◌, ◌<◌, ◌-◌, [], ◌∷◌, IfOk, IfErr};
ghost use Rattle.type_tree.specs.Tree.{node};
ghost use Rattle.type_tree.specs.declared.tree.Head.TheVariants as head;
ghost use Rattle.aot_image.specs.declared.choice_read_error.ReadError.TheVariants as error;
ghost use Rattle.aot_image.specs.ChoosingTypes as spec;
ghost use Rattle.aot_image.specs.ChoosingTypes.{Reads, read_within};
ghost use Rattle.aot_image.specs.ChoosingNames.{AreTablesOf};
ghost use Rattle.aot_image.specs.ChoosingSizes.{Gives};

use crate::choice_cursor::Cursor;
use crate::choice_names::Tables;
use crate::choice_read_error::ReadError;
use crate::choice_start::{Start, start_of};
use il_model::Program;
use sqlite_items::Items;
use std::alloc::Global;
use type_tree::{Head, TExpr};

// The vector type with these elements.
fn vector_of(alloc: Global, element: TExpr) -> Result<TExpr, ReadError>
    ensures ok { IfOk result (λ t. t ≡ node head.Vector (element ∷ [])) }
    ensures memory { IfErr result (λ e. e ≡ error.Memory) }
{
    let mut parts = Items::new(alloc);
    parts.push(element)?;
    Ok(TExpr::node(Head::Vector, parts))
}

// The type with each `[]` that follows it.
#[tactic(auto, using(crate::proofs::ChoosingTypeLemmas::vectors_go, crate::proofs::ChoosingTypeLemmas::vectors_end, crate::proofs::ChoosingTypeLemmas::fewer_behind))]
fn read_vectors(alloc: Global, cursor: &mut Cursor<'_>, element: TExpr) -> Result<TExpr, ReadError>
    ensures { Reads (spec.read_vectors element cursor.old) result cursor.new }
{
    let mut kind = element;
    'vectors: while cursor.eat_brackets() {
        kind = vector_of(alloc, kind)?;
    }
    Ok(kind)
}

/// The mark behind an argument, where so many more follow.
pub(crate) fn mark_before(more: usize) -> u8
    ensures { result ≡ spec.mark_before more }
{
    if more == 0 {
        return b'>';
    }
    b','
}

// A type in which types stand in one another so deep at most.
#[cycle(types)]
fn read_within(
    alloc: Global,
    program: &Program,
    tables: &Tables,
    cursor: &mut Cursor<'_>,
    depth: usize,
) -> Result<TExpr, ReadError>
    requires { AreTablesOf program.now tables.now }
    ensures { Reads (read_within program.now depth cursor.old) result cursor.new }
{
    if depth == 0 {
        return Err(ReadError::Malformed);
    }
    let word = cursor.take_word();
    match start_of(program, tables, word) {
        Start::NoType => Err(ReadError::Malformed),
        Start::Scalar(head) => read_vectors(alloc, cursor, TExpr::plain(alloc, head)),
        Start::Variable => read_vectors(alloc, cursor, TExpr::class_var(0)),
        Start::Class(number, arity) => {
            read_class(alloc, program, tables, cursor, depth, number, arity)
        }
    }
}

// What follows the name of a class in a type.
#[cycle(types)]
#[tactic(auto, using(crate::proofs::ChoosingTypeLemmas::class_bare, crate::proofs::ChoosingTypeLemmas::class_applied))]
fn read_class(
    alloc: Global,
    program: &Program,
    tables: &Tables,
    cursor: &mut Cursor<'_>,
    depth: usize,
    number: u16,
    arity: usize,
) -> Result<TExpr, ReadError>
    requires depth { 0 < depth }
    requires tables { AreTablesOf program.now tables.now }
    ensures { Reads (spec.read_class (read_within program.now (depth - 1)) number arity cursor.old) result cursor.new }
{
    if arity == 0 {
        return read_vectors(alloc, cursor, TExpr::plain(alloc, Head::Class(number)));
    }
    cursor.expect(b'<')?;
    let args = read_arguments(alloc, program, tables, cursor, depth, arity)?;
    read_vectors(alloc, cursor, TExpr::node(Head::Class(number), args))
}

// So many arguments of a class with the marks behind them.
#[cycle(types)]
fn read_arguments(
    alloc: Global,
    program: &Program,
    tables: &Tables,
    cursor: &mut Cursor<'_>,
    depth: usize,
    arity: usize,
) -> Result<Items<TExpr>, ReadError>
    requires depth { 0 < depth }
    requires tables { AreTablesOf program.now tables.now }
    ensures { Reads (spec.arguments_from (read_within program.now (depth - 1)) arity [] cursor.old) result cursor.new }
{
    let mut found = Items::new(alloc);
    for turn in 0..arity {
        let kind = read_within(alloc, program, tables, cursor, depth - 1)?;
        cursor.expect(mark_before(arity - turn - 1))?;
        found.push(kind)?;
    }
    Ok(found)
}

/// The type that these bytes write. It is built whole: the bytes are to write one of few positions.
#[tactic(auto, unfolding(crate::specs::ChoosingTypes::type_of))]
pub(crate) fn read_type(
    alloc: Global,
    program: &Program,
    tables: &Tables,
    bytes: &[u8],
) -> Result<TExpr, ReadError>
    requires { AreTablesOf program.now tables.now }
    ensures { Gives (spec.type_of program.now bytes.now) result }
{
    let mut cursor = Cursor::new(bytes);
    let kind = read_within(alloc, program, tables, &mut cursor, bytes.len() + 1)?;
    if cursor.is_at_end() {
        Ok(kind)
    } else {
        Err(ReadError::Malformed)
    }
}
