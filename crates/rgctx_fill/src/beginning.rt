// The words with which each run begins.
ghost use Rattle.std.specs.Prelude.{◌≡◌, ◌<◌, ◌≤◌, ◌+◌, ◌-◌, ℕ, ◌∷◌, ◌++◌, IfOk, length, replicate, slice_index};
ghost use Rattle.il_model.specs.declared.program.Program.{Program};
ghost use Rattle.il_model.specs.Accepted.{IsOfText};
ghost use Rattle.rgctx_words.specs.Regions.{word_count};
ghost use Rattle.rgctx_words.specs.NodeWords.{IsNumbered};
ghost use Rattle.rgctx_words.specs.Held.{AreFit};
ghost use Rattle.rgctx_template.specs.declared.catalogue.Catalogue.{Catalogue};
ghost use Rattle.rgctx_template.specs.Catalogue.{HasMain, data_of};
ghost use Rattle.rgctx_fill.specs.Leaves.{word_with, word_alone, main_class, leaf_words, opening};
ghost use Rattle.rgctx_fill.specs.Predefined.{HasLeaves};
ghost use Rattle.rgctx_fill.specs.Fitting.{AreFitting};

use il_model::Program;
use mn_outside::NoMemory;
use rgctx_words::{Definition, NodeWord, PlainWords, WORDS};
use std::alloc::Global;

/// The context words with which each run of a program begins: the leaves, which are the nodes 1 to 20, and zeros.
/// They fit under each catalogue of the program.
pub fn opening_words(alloc: Global, program: &Program) -> Result<PlainWords, NoMemory>
    requires text { IsOfText program.now }
    requires main { HasMain program.now }
    ensures leaves { HasLeaves program.now }
    ensures words { IfOk result (λ words. (i : ℕ) → slice_index words i ≡ opening program.now i) }
    ensures count { IfOk result (λ words. length words ≡ word_count) }
    ensures fit { (cat : Catalogue) → cat.program.now ≡ program.now → IfOk result (λ words. AreFit (λ ws. AreFitting (data_of cat) (λ i. slice_index ws i)) words) }
{
    let owner = main_class(program);
    let leaves = leaf_words(program.main, owner);
    let words = padded(alloc, &leaves)?;
    Ok(PlainWords::of(words))
}

// The number of the class of the entry point.
fn main_class(program: &Program) -> u16
    requires { HasLeaves program.now }
    ensures { result ≡ main_class program.now }
{
    program.methods.as_slice()[program.main as usize].owner
}

// The words of the leaves, where the entry point is this method of this class, behind the word of the number 0, which
// names no node.
pub(crate) fn leaf_words(main: u16, owner: u16) -> [u64; 21]
    requires main { main < 0x8000 }
    requires owner { 16 + owner < 0x8000 }
    ensures { (program : Program) → program.main ≡ main → main_class program ≡ owner → result ≡ 0 ∷ leaf_words program }
{
    [
        0,
        alone(Definition::Image),
        alone(Definition::Int32),
        alone(Definition::Int64),
        alone(Definition::Bool),
        alone(Definition::Class(0)),
        alone(Definition::Class(1)),
        alone(Definition::Class(2)),
        alone(Definition::Class(3)),
        alone(Definition::Class(4)),
        alone(Definition::Class(5)),
        alone(Definition::Class(6)),
        alone(Definition::Class(7)),
        alone(Definition::Class(8)),
        alone(Definition::Class(9)),
        alone(Definition::Class(10)),
        alone(Definition::Class(11)),
        alone(Definition::Class(12)),
        alone(Definition::Class(owner)),
        with(Definition::Method(0), 17),
        with(Definition::Method(main), 18),
    ]
}

fn alone(definition: Definition) -> u64
    requires { IsNumbered definition }
    ensures { result ≡ word_alone definition }
{
    with(definition, 0)
}

// The word of a definition with its first argument.
fn with(definition: Definition, first: u16) -> u64
    requires { IsNumbered definition }
    ensures { result ≡ word_with definition first }
{
    NodeWord {
        definition: definition.number(),
        first,
        second: 0,
        third: 0,
    }
    .word()
}

// These words, and zeros up to the count of context words.
fn padded(alloc: Global, first: &[u64]) -> Result<Vec<u64>, NoMemory>
    requires { length first.now < word_count }
    ensures count { IfOk result (λ words. length words.items ≡ word_count) }
    ensures words { IfOk result (λ words. (i : ℕ) → slice_index words.items i ≡ slice_index first.now i) }
{
    let words = lengthened(alloc, first, WORDS as usize)?;
    Ok(words)
}

// These words, and zeros up to a count.
fn lengthened(alloc: Global, first: &[u64], count: usize) -> Result<Vec<u64>, NoMemory>
    requires { length first.now ≤ count }
    ensures count { IfOk result (λ words. length words.items ≡ count) }
    ensures words { IfOk result (λ words. words.items ≡ first.now ++ replicate (count - length first.now) 0) }
{
    let mut words = Vec::new(alloc);
    if words.extend_from_slice(first).is_err() {
        return Err(NoMemory);
    }
    if words.resize(count, 0).is_err() {
        return Err(NoMemory);
    }
    Ok(words)
}
