// How many classes the longest way up from a class has.
ghost use Rattle.std.specs.Prelude.{◌≡◌, [], ◌∷◌, max, nat_le, slice_get, slice_set, filter_map, option_to_list, unwrap_or, Some, None, if◌then◌else◌};
ghost use Rattle.std.specs.Option.{option_copied};
ghost use Rattle.il_model.specs.Find.{class_number_of};
ghost use Rattle.il_model.specs.ClassRules.{meets_no_cycle, uppers_in};
ghost use Rattle.cil_verify.specs.Heights.{AreHeights, EndsAt};

use il_model::{ClassDef, Program};
use type_tree::{Head, TExpr, TNode};

/// Whether no way up from a class meets a cycle. The heights that are known, by numbers of classes, 0 where
/// none is, grow by those that were needed; so each class is walked once.
pub(crate) fn meets_no_cycle(program: &Program, heights: &mut [usize], number: u16) -> bool
    requires { AreHeights program.now heights.old }
    ensures known { AreHeights program.now heights.new }
    ensures value { result ≡ meets_no_cycle program.now number }
{
    height_of(program, heights, number, program.classes.len()).is_some()
}

// The height of a class; None where a way up from it has more than so many classes.
#[cycle(height_of)]
fn height_of(program: &Program, heights: &mut [usize], number: u16, levels: usize) -> Option<usize>
    requires { AreHeights program.now heights.old }
    ensures known { AreHeights program.now heights.new }
    ensures value { EndsAt program.now levels (number ∷ []) result }
{
    if levels == 0 {
        return None;
    }
    let known = known_height(heights, number);
    if known > 0 {
        return within(known, levels);
    }
    let Some(class) = class_at(program, number) else {
        return Some(1);
    };
    let above = height_above(program, heights, class, levels - 1)?;
    let height = above + 1;
    keep_height(heights, number, height);
    Some(height)
}

// The height of the classes that a class names as its base and its interfaces; 0 where it names none.
#[cycle(height_of)]
fn height_above(
    program: &Program,
    heights: &mut [usize],
    class: &ClassDef,
    levels: usize,
) -> Option<usize>
    requires { AreHeights program.now heights.old }
    ensures known { AreHeights program.now heights.new }
    ensures value { EndsAt program.now levels (uppers_in (Some class.now)) result }
{
    let base = height_of_base(program, heights, class, levels)?;
    let interfaces = height_of_all(program, heights, class.interfaces.as_slice(), levels)?;
    Some(higher(base, interfaces))
}

#[cycle(height_of)]
fn height_of_base(
    program: &Program,
    heights: &mut [usize],
    class: &ClassDef,
    levels: usize,
) -> Option<usize>
    requires { AreHeights program.now heights.old }
    ensures known { AreHeights program.now heights.new }
    ensures value { EndsAt program.now levels (filter_map class_number_of (option_to_list class.now.base)) result }
{
    match &class.base {
        Some(base) => height_of_type(program, heights, base, levels),
        None => Some(0),
    }
}

#[cycle(height_of)]
fn height_of_all(
    program: &Program,
    heights: &mut [usize],
    kinds: &[TExpr],
    levels: usize,
) -> Option<usize>
    requires { AreHeights program.now heights.old }
    ensures known { AreHeights program.now heights.new }
    ensures value { EndsAt program.now levels (filter_map class_number_of kinds.now) result }
{
    let mut top = 0;
    for each in kinds {
        let height = height_of_type(program, heights, each, levels)?;
        top = higher(top, height);
    }
    Some(top)
}

// The height of the class that a type names; 0 where it names none.
#[cycle(height_of)]
fn height_of_type(
    program: &Program,
    heights: &mut [usize],
    kind: &TExpr,
    levels: usize,
) -> Option<usize>
    requires { AreHeights program.now heights.old }
    ensures known { AreHeights program.now heights.new }
    ensures value { EndsAt program.now levels (option_to_list (class_number_of kind.now)) result }
{
    match class_number(kind) {
        Some(number) => height_of(program, heights, number, levels),
        None => Some(0),
    }
}

fn higher(first: usize, second: usize) -> usize
    ensures { result ≡ max first second }
{
    if first < second { second } else { first }
}

// The height, if it is no more than so many levels.
fn within(height: usize, levels: usize) -> Option<usize>
    ensures { result ≡ (if nat_le height levels then Some height else None) }
{
    if height <= levels { Some(height) } else { None }
}

fn known_height(heights: &[usize], number: u16) -> usize
    ensures { result ≡ unwrap_or (slice_get heights.now number) 0 }
{
    match heights.get(number as usize) {
        Some(height) => *height,
        None => 0,
    }
}

fn keep_height(heights: &mut [usize], number: u16, height: usize)
    ensures { heights.new ≡ slice_set heights.old number height }
{
    let place = number as usize;
    if place < heights.len() {
        heights[place] = height;
    }
}

// The class with this number.
pub(crate) fn class_at(program: &Program, number: u16) -> Option<&ClassDef>
    ensures { option_copied result ≡ slice_get program.now.classes number }
{
    program.classes.as_slice().get(number as usize)
}

// The number of the class that a type names.
pub(crate) fn class_number(kind: &TExpr) -> Option<u16>
    ensures { result ≡ class_number_of kind.now }
{
    match kind.top() {
        TNode::Node(Head::Class(number), _) => Some(*number),
        TNode::Node(Head::Int32 | Head::Int64 | Head::Bool | Head::Vector, _) => None,
        TNode::ClassVar(_) | TNode::MethodVar(_) => None,
    }
}
