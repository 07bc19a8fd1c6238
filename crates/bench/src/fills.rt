// Fills of entries while many nodes are in use.
use mn_outside::NoMemory;
use rgctx_fill::{Fill, FillNext, FillStep, NodeStep};
use rgctx_words::PlainWords;
use std::alloc::Global;

/// The most turns that a fill of one node and one row takes.
const MOST_TURNS: u32 = 16_384;

/// What the fills came to.
#[derive(Clone, Copy, Debug, PartialEq, Eq)]
pub struct Filled {
    /// How many gave a value.
    pub values: u32,
    /// The turns of all of them.
    pub turns: u64,
}

// The definition of a node, each another.
fn definition_of(node: u16) -> u16 {
    node.wrapping_add(16)
}

// Words in which so many nodes are in use.
fn words_of(alloc: Global, nodes: u16) -> Result<Vec<u64>, NoMemory> {
    let mut words = PlainWords::new(alloc)?.into_words();
    for before in 0..nodes {
        let node = before.wrapping_add(1);
        if let Some(word) = words.get_mut(node as usize) {
            *word = u64::from(definition_of(node)) << 48;
        }
    }
    Ok(words)
}

fn load(words: &[u64], index: u32) -> u64 {
    words.get(index as usize).copied().unwrap_or(1)
}

fn claim(words: &mut [u64], index: u32, new: u64) -> u64 {
    match words.get_mut(index as usize) {
        Some(word) => {
            let old = *word;
            if old == 0 {
                *word = new;
            }
            old
        }
        None => 1,
    }
}

// One turn on these words.
fn turn(fill: &mut Fill, words: &mut [u64]) -> FillStep {
    match fill.next() {
        FillNext::Load(index) => {
            let answer = load(words, index);
            fill.take(answer);
            fill.given()
        }
        FillNext::Claim(index, word) => {
            let answer = claim(words, index, word);
            fill.take(answer);
            fill.given()
        }
        FillNext::Full(region, key) => FillStep::Full(region, key),
        FillNext::Nothing => FillStep::More,
    }
}

// Makes the turns of one fill.
fn run_fill(fill: &mut Fill, words: &mut [u64], so_far: Filled) -> Filled {
    let mut filled = so_far;
    for _ in 0..MOST_TURNS {
        match turn(fill, words) {
            FillStep::More => filled.turns = filled.turns.wrapping_add(1),
            FillStep::Value(_) => {
                filled.turns = filled.turns.wrapping_add(1);
                filled.values = filled.values.wrapping_add(1);
                return filled;
            }
            FillStep::Full(_, _) => return filled,
        }
    }
    filled
}

// A fill of entry 0 of node 1, which names the type of the node in use with this number.
fn fill_of(alloc: Global, node: u16) -> Result<Fill, NoMemory> {
    let Ok(mut steps) = Vec::with_capacity(alloc, 1) else {
        return Err(NoMemory);
    };
    let step = NodeStep {
        definition: definition_of(node),
        first: 0,
        second: 0,
        third: 0,
    };
    if steps.push(step).is_err() {
        return Err(NoMemory);
    }
    Fill::begun(alloc, 1, 0, steps, 0)
}

/// Makes so many fills of one entry while so many nodes are in use, up to 4,095, where each looks for the last of
/// these nodes.
pub fn fills_of(alloc: Global, nodes: u16, fills: u32) -> Result<Filled, NoMemory> {
    let mut words = words_of(alloc, nodes)?;
    let mut done = Filled {
        values: 0,
        turns: 0,
    };
    for _ in 0..fills {
        let mut fill = fill_of(alloc, nodes)?;
        done = run_fill(&mut fill, words.as_mut_slice(), done);
    }
    Ok(done)
}
