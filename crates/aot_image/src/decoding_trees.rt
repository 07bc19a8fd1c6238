// Trees as they are read.
ghost use Rattle.std.specs.Prelude.{◌≡◌, ◌<◌, [], option_map, slice_get};
ghost use Rattle.aot_image.specs.ImageReading.{Reads, read_tree, read_tree_within, read_trees_from, read_defined, head_of_number, class_head, inner_trees};

use crate::decoding_cursor::{Cursor, bad_table};
use crate::image::{FIRST_CLASS, ReadError};
use il_model::Program;
use sqlite_items::Items;
use std::alloc::Global;
use type_tree::{Head, TExpr};

/// A tree of at most so many levels and positions, in the row that begins at `row`.
#[tactic(auto, unfolding(crate::specs::ImageReading::read_tree))]
pub(crate) fn read_tree(
    alloc: Global,
    program: &Program,
    cursor: &mut Cursor<'_>,
    row: u64,
    levels: usize,
    most: usize,
) -> Result<TExpr, ReadError>
    ensures { Reads (read_tree program.now row levels most cursor.old) result cursor.new }
{
    let (tree, _) = read_tree_within(alloc, program, cursor, row, levels, most)?;
    Ok(tree)
}

// A tree of at most so many levels, where so many positions may still come; with the positions that may
// come behind it.
#[cycle(trees)]
fn read_tree_within(
    alloc: Global,
    program: &Program,
    cursor: &mut Cursor<'_>,
    row: u64,
    levels: usize,
    most: usize,
) -> Result<(TExpr, usize), ReadError>
    ensures { Reads (read_tree_within program.now row levels most cursor.old) result cursor.new }
{
    let number = cursor.half()?;
    if levels == 0 {
        return Err(bad_table(row));
    }
    read_defined(alloc, program, cursor, row, levels, most, number)
}

// What follows the number of a definition.
#[cycle(trees)]
#[tactic(auto, unfolding(crate::specs::ImageReading::read_defined))]
fn read_defined(
    alloc: Global,
    program: &Program,
    cursor: &mut Cursor<'_>,
    row: u64,
    levels: usize,
    most: usize,
    number: u16,
) -> Result<(TExpr, usize), ReadError>
    requires { 0 < levels }
    ensures { Reads (read_defined (inner_trees program.now row levels) program.now row most number cursor.old) result cursor.new }
{
    if most == 0 {
        return Err(bad_table(row));
    }
    let Some((head, count)) = head_of_number(program, number) else {
        return Err(bad_table(row));
    };
    let (parts, left) = read_trees(alloc, program, cursor, row, levels, count, most - 1)?;
    Ok((TExpr::node(head, parts), left))
}

// So many trees below one of this many levels.
#[cycle(trees)]
fn read_trees(
    alloc: Global,
    program: &Program,
    cursor: &mut Cursor<'_>,
    row: u64,
    levels: usize,
    count: usize,
    most: usize,
) -> Result<(Items<TExpr>, usize), ReadError>
    requires { 0 < levels }
    ensures { Reads (read_trees_from (inner_trees program.now row levels) count [] most cursor.old) result cursor.new }
{
    let mut found = Items::new(alloc);
    let mut left = most;
    for _turn in 0..count {
        let (tree, after) = read_tree_within(alloc, program, cursor, row, levels - 1, left)?;
        found.push(tree)?;
        left = after;
    }
    Ok((found, left))
}

// What a definition's number stands for, with the number of arguments that it wants.
#[tactic(auto, unfolding(crate::specs::ImageReading::head_of_number))]
fn head_of_number(program: &Program, number: u16) -> Option<(Head, usize)>
    ensures { result ≡ head_of_number program.now number }
{
    if number == 1 {
        return Some((Head::Int32, 0));
    }
    if number == 2 {
        return Some((Head::Int64, 0));
    }
    if number == 3 {
        return Some((Head::Bool, 0));
    }
    if number == 4 {
        return Some((Head::Vector, 1));
    }
    if number < FIRST_CLASS {
        return None;
    }
    class_head(program, number - FIRST_CLASS)
}

fn class_head(program: &Program, number: u16) -> Option<(Head, usize)>
    ensures { result ≡ option_map (class_head number) (slice_get program.now.classes number) }
{
    match program.classes.as_slice().get(number as usize) {
        Some(class) => Some((Head::Class(number), class.vars.len())),
        None => None,
    }
}
