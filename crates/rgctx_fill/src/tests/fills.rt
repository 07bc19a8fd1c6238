// Turns on both kinds of words, and fills on words that are written by hand: the example of the documents, two fills interleaved at every pair of turns,
// all node words in use, and a deep type.
ghost use Rattle.std.specs.Prelude.{◌<◌, slice_index};
ghost use Rattle.rgctx_words.specs.Regions.{node_count};
ghost use Rattle.rgctx_words.specs.Held.{AreFit, Within};
ghost use Rattle.rgctx_template.specs.declared.catalogue.Catalogue.{Catalogue};
ghost use Rattle.rgctx_template.specs.Catalogue.{data_of};
ghost use Rattle.rgctx_fill.specs.Fitting.{AreFitting};
ghost use Rattle.rgctx_fill.specs.Ready.{IsOn, IsReady};

use crate::fill::Fill;
use crate::planning::type_steps;
use crate::stage::{FillNext, FillStep, NodeStep, Region};
use crate::tests::forgetful::Forgetful;
use mn_outside::NoMemory;
use rgctx_words::PlainWords;
use sqlite_items::Items;
use std::alloc::Global;
use std::test::Fail;
use type_tree::{Head, TExpr};

#[rattlefmt::skip]
const NODES: [u64; 23] = [
    0x000F_0000_0000_0000, 0x0001_0000_0000_0000, 0x0002_0000_0000_0000, 0x0003_0000_0000_0000, 0x0010_0000_0000_0000,
    0x0011_0000_0000_0000, 0x0012_0000_0000_0000, 0x0013_0000_0000_0000, 0x0014_0000_0000_0000, 0x0015_0000_0000_0000,
    0x0016_0000_0000_0000, 0x0017_0000_0000_0000, 0x0018_0000_0000_0000, 0x0019_0000_0000_0000, 0x001A_0000_0000_0000,
    0x001B_0000_0000_0000, 0x001C_0000_0000_0000, 0x001E_0000_0000_0000, 0x8000_0011_0000_0000, 0x800C_0012_0000_0000,
    0x0004_0005_0000_0000, 0x001D_0006_0000_0000, 0x801E_0016_0000_0000,
];

// What the fill of the example leaves: the index and the word.
#[rattlefmt::skip]
const LEFT: [(usize, u64); 7] = [
    (24, 0x0004_0006_0000_0000), (4_096, 5_888), (4_097, 5_889), (12_311, 0x2002_0000), (16_384, 0x2002_0040),
    (16_392, 0), (16_393, 24),
];

// One turn on words that are alone.
#[allow(dead_code)]
fn on_plain(fill: &mut Fill, words: &mut PlainWords) -> FillStep
    requires on { IsOn fill.old.stage }
    requires ready { (cat : Catalogue) × AreFit (λ ws. AreFitting (data_of cat) (λ i. slice_index ws i)) words.old × IsReady (data_of cat) (λ i. slice_index words.old i) fill.old }
{
    fill.turn(words)
}

// One turn on words that hold only what was answered or put.
#[allow(dead_code)]
fn on_forgetful(fill: &mut Fill, words: &mut Forgetful) -> FillStep
    requires on { IsOn fill.old.stage }
    requires ready { (cat : Catalogue) × (AreFit (λ ws. AreFitting (data_of cat) (λ i. slice_index ws i)) words.old.0 × Within (λ j. slice_index words.old.1 j) words.old.0) × IsReady (data_of cat) (λ i. slice_index words.old.1 i) fill.old }
{
    fill.turn(words)
}

fn words(alloc: Global) -> Result<Vec<u64>, Fail> {
    let mut words = PlainWords::new(alloc)?.into_words();
    for i in 0..NODES.len() {
        let _ = claim(words.as_mut_slice(), i as u32 + 1, NODES[i]);
    }
    Ok(words)
}

fn load(words: &[u64], i: u32) -> u64 {
    match words.get(i as usize) {
        Some(word) => *word,
        None => 0,
    }
}

fn claim(words: &mut [u64], i: u32, new: u64) -> u64 {
    let old = load(words, i);
    if old == 0 && (i as usize) < words.len() {
        words[i as usize] = new;
    }
    old
}

// One turn on these words.
fn step(fill: &mut Fill, words: &mut [u64]) -> FillStep {
    match fill.next() {
        FillNext::Load(index) => {
            let answer = load(words, index);
            fill.take(answer);
            fill.given()
        }
        FillNext::Claim(index, word) => {
            let answer = claim(words, index, word);
            fill.take(answer);
            fill.given()
        }
        FillNext::Full(region, key) => FillStep::Full(region, key),
        FillNext::Nothing => FillStep::More,
    }
}

// At most so many turns: how many were made, and what the last gave.
fn run(fill: &mut Fill, words: &mut [u64], most: u32) -> (u32, FillStep) {
    let mut gave = FillStep::More;
    for turn in 0..most {
        gave = step(fill, words);
        if gave != FillStep::More {
            return (turn + 1, gave);
        }
    }
    (most, gave)
}

fn alone(alloc: Global, definition: u16) -> Result<Vec<NodeStep>, Fail> {
    let mut steps = Vec::new(alloc);
    steps.push(NodeStep {
        definition,
        first: 0,
        second: 0,
        third: 0,
    })?;
    Ok(steps)
}

// The fill of entry 7 of node 23, which names `string[]`.
fn example(alloc: Global) -> Result<Fill, Fail> {
    let mut steps = alone(alloc, 17)?;
    steps.push(NodeStep {
        definition: 4,
        first: 1,
        second: 0,
        third: 0,
    })?;
    Ok(Fill::begun(alloc, 23, 7, steps, 0)?)
}

#[test]
fn example_is_filled_as_told(rt: HostRuntime) -> Result<(), Fail> {
    let alloc = rt.alloc();
    let mut words = words(alloc)?;
    let mut first = example(alloc)?;
    assert_eq!(rt;
        run(&mut first, words.as_mut_slice(), 1_000),
        (41, FillStep::Value(24))
    );
    for (i, word) in LEFT {
        assert_eq!(rt; words.get(i).copied(), Some(word));
    }
    let mut second = example(alloc)?;
    assert_eq!(rt;
        run(&mut second, words.as_mut_slice(), 1_000),
        (33, FillStep::Value(24))
    );
    Ok(())
}

// Puts the words back that the fill of the example leaves.
fn clear(words: &mut [u64]) {
    for (i, _) in LEFT {
        if i < words.len() {
            words[i] = 0;
        }
    }
}

#[test]
fn fills_interleave_at_every_pair_of_turns(rt: HostRuntime) -> Result<(), Fail> {
    let alloc = rt.alloc();
    let mut words = words(alloc)?;
    for before in 0..42 {
        for between in 0..42 {
            clear(words.as_mut_slice());
            let mut first = example(alloc)?;
            let mut second = example(alloc)?;
            let (_, early) = run(&mut first, words.as_mut_slice(), before);
            let (_, other_early) = run(&mut second, words.as_mut_slice(), between);
            let (_, late) = run(&mut first, words.as_mut_slice(), 100);
            let (_, other_late) = run(&mut second, words.as_mut_slice(), 100);
            assert!(rt; early == FillStep::Value(24) || late == FillStep::Value(24));
            assert!(rt; other_early == FillStep::Value(24) || other_late == FillStep::Value(24));
            for (i, word) in LEFT {
                assert_eq!(rt; words.get(i).copied(), Some(word));
            }
        }
    }
    Ok(())
}

// The word of a class without arguments, another one for each node.
fn plain(node: u16) -> u64
    requires { node < node_count }
{
    (1_000 + u64::from(node)) * 0x1_0000_0000_0000
}

// Fills take one node word after the other, until all are in use.
#[test]
fn all_nodes_are_used_and_then_there_is_no_place(rt: HostRuntime) -> Result<(), Fail> {
    let alloc = rt.alloc();
    let mut words = words(alloc)?;
    for node in 24..4_096 {
        let mut fill = Fill::begun(alloc, node, 0, alone(alloc, 1_000 + node)?, 0)?;
        let (_, gave) = run(&mut fill, words.as_mut_slice(), 10_000);
        assert_eq!(rt; gave, FillStep::Value(u64::from(node)));
        assert_eq!(rt; load(words.as_slice(), u32::from(node)), plain(node));
    }
    let mut late = Fill::begun(alloc, 23, 1, alone(alloc, 9_999)?, 0)?;
    let (turns, gave) = run(&mut late, words.as_mut_slice(), 10_000);
    assert_eq!(rt; turns, 4_096);
    assert_eq!(rt; gave, FillStep::Full(Region::Nodes, 0x270F_0000_0000_0000));
    let again = run(&mut late, words.as_mut_slice(), 10_000);
    assert_eq!(rt;
        again,
        (1, FillStep::Full(Region::Nodes, 0x270F_0000_0000_0000))
    );
    Ok(())
}

// `int32` with so many brackets.
fn nested(alloc: Global, depth: usize) -> Result<TExpr, NoMemory> {
    let mut kind = TExpr::plain(alloc, Head::Int32);
    for _ in 0..depth {
        let mut parts = Items::new(alloc);
        parts.push(kind).map_err(|_| NoMemory)?;
        kind = TExpr::node(Head::Vector, parts);
    }
    Ok(kind)
}

#[test]
fn deep_types_are_filled(rt: HostRuntime) -> Result<(), Fail> {
    let alloc = rt.alloc();
    let mut words = words(alloc)?;
    let kind = nested(alloc, 255)?;
    let steps = type_steps(alloc, &kind)?;
    assert_eq!(rt; steps.len(), 256);
    let mut fill = Fill::begun(alloc, 23, 0, steps, 0)?;
    let (_, gave) = run(&mut fill, words.as_mut_slice(), 1_000_000);
    assert_eq!(rt; gave, FillStep::Value(278));
    assert_eq!(rt; load(words.as_slice(), 278), 0x0004_0115_0000_0000);
    Ok(())
}
