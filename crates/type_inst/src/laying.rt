// Where the fields of a type lie.
ghost use Rattle.std.specs.Prelude.{◌≡◌, ◌+◌, IfOk, map, nat_eq, sum, sum_by};
ghost use Rattle.std.specs.List.{list_any};
ghost use Rattle.il_model.specs.declared.program.Program.{Program};
ghost use Rattle.il_model.specs.Layouts.{words_of, instance_kinds_of, instance_words_of, offsets_from, layout_of};

use crate::fields::{instance_kinds_of, static_kinds_of};
use crate::sizing::{capped_words, put_word};
use crate::steps::{is_struct, put};
use il_model::{Layout, Program};
use mn_outside::NoMemory;
use sqlite_items::Items;
use std::alloc::Global;
use type_tree::{Head, TExpr, TNode, Tree};

/// The words of an instance of a type and the places of its fields, base fields first; then the words of
/// the class's own static fields, with their places. A scalar has one word and a vector none. This
/// project's own. No admitted type comes near 4,294,967,295 words; a layout of so many is want of memory.
pub fn layout(alloc: Global, program: &Program, tree: &Tree) -> Result<Layout, NoMemory>
    ensures { IfOk result (λ layout. layout ≡ layout_of program.now tree.now) }
{
    let instance = instance_kinds_of(alloc, program, tree)?;
    let fields = stretch_of(alloc, program, instance.as_slice())?;
    let own = static_kinds_of(alloc, program, tree)?;
    let fixed = stretch_of(alloc, program, own.as_slice())?;
    Ok(Layout {
        words: instance_words(tree, fields.words),
        offsets: fields.offsets,
        fixed_words: fixed.words,
        fixed_offsets: fixed.offsets,
    })
}

// Fields one behind the other: their words together, and where each begins.
#[derive(Drop)]
struct Stretch {
    words: u32,
    offsets: Items<u32>,
}

// Fields of these types.
fn stretch_of(alloc: Global, program: &Program, kinds: &[TExpr]) -> Result<Stretch, NoMemory>
    ensures words { IfOk result (λ s. s.words ≡ sum_by (words_of program.now) kinds.now) }
    ensures offsets { IfOk result (λ s. s.offsets ≡ offsets_from 0 (map (words_of program.now) kinds.now)) }
{
    let words = exact_words(alloc, program, kinds)?;
    let stretch = placed(alloc, words.as_slice())?;
    Ok(stretch)
}

/// The words of a value of a type: one for a scalar or a reference, and for a struct those of its fields. No admitted
/// type comes near 4,294,967,295 words; a type of so many is want of memory. This project's own.
#[tactic(auto, using(crate::proofs::LayingLemmas::one_word))]
pub fn words_of(alloc: Global, program: &Program, kind: &TExpr) -> Result<u32, NoMemory>
    ensures { IfOk result (λ words. words ≡ words_of program.now kind.now) }
{
    if !is_struct(program, kind) {
        return Ok(1);
    }
    let mut kinds: Items<TExpr> = Items::new(alloc);
    put(&mut kinds, kind.copy(alloc)?)?;
    let words = exact_words(alloc, program, kinds.as_slice())?;
    match words.as_slice() {
        [words] => Ok(*words),
        _ => Err(NoMemory),
    }
}

// The words of a value of each of these types.
fn exact_words(alloc: Global, program: &Program, kinds: &[TExpr]) -> Result<Items<u32>, NoMemory>
    ensures { IfOk result (λ words. words ≡ map (words_of program.now) kinds.now) }
{
    let words = capped_words(alloc, program, kinds, u32::MAX)?;
    if is_cut(words.as_slice(), u32::MAX) {
        return Err(NoMemory);
    }
    Ok(words)
}

// Whether one of these numbers is the cap.
fn is_cut(words: &[u32], most: u32) -> bool
    ensures { result ≡ list_any (nat_eq most) words.now }
{
    for word in words {
        if most == *word {
            return true;
        }
    }
    false
}

// Fields of so many words each.
fn placed(alloc: Global, words: &[u32]) -> Result<Stretch, NoMemory>
    ensures words { IfOk result (λ s. s.words ≡ sum words.now) }
    ensures offsets { IfOk result (λ s. s.offsets ≡ offsets_from 0 words.now) }
{
    let mut at: u32 = 0;
    let mut offsets: Items<u32> = Items::new(alloc);
    for word in words {
        put_word(&mut offsets, at)?;
        at = add(at, *word)?;
    }
    Ok(Stretch { words: at, offsets })
}

fn add(at: u32, more: u32) -> Result<u32, NoMemory>
    ensures { IfOk result (λ sum. sum ≡ at + more) }
{
    match at.checked_add(more) {
        Some(sum) => Ok(sum),
        None => Err(NoMemory),
    }
}

// The words of an instance, from those of its fields.
fn instance_words(tree: &TExpr, words: u32) -> u32
    ensures { (program : Program) → words ≡ sum_by (words_of program) (instance_kinds_of program tree.now) →
        result ≡ instance_words_of program tree.now }
{
    match tree.top() {
        TNode::Node(Head::Int32 | Head::Int64 | Head::Bool, _) => 1,
        TNode::Node(Head::Vector, _) => 0,
        TNode::Node(Head::Class(_), _) => words,
        TNode::ClassVar(_) | TNode::MethodVar(_) => 1,
    }
}
