// A fill under way, and what its next turn does.
ghost use Rattle.std.specs.Prelude.{◌≡◌, ◌≤◌, ◌<◌, ◌^◌, IfOk, Some, length};
ghost use Rattle.rgctx_words.specs.Regions.{node_count, row_count};
ghost use Rattle.rgctx_words.specs.Places.{depth_of};
ghost use Rattle.rgctx_fill.specs.declared.stage.Stage.TheVariants as stage;
ghost use Rattle.rgctx_fill.specs.Turns.{IsFill, IsAt, HasPlace, node_for, word_for, node_key, row_key, link_index, value_of, next_of, with_stage, with_node, at_row, row_or_first, taken_at, taken, given_at, begun};

use crate::stage::{FillNext, FillStep, NodeStep, Region, Stage};
use mn_outside::NoMemory;
use rgctx_words::{
    ContextPlace, DirectoryWord, NODES, NodeWord, ROWS, depth_of, row_address, row_at, slot_of,
};
use std::alloc::Global;
use std::marker::Model;

/// A fill of one entry of a node, under way: the nodes that the value needs, those of them that are found, and where
/// the fill stands. Contracts see it as `FillData`.
#[derive(Drop)]
pub struct Fill {
    node: u16,
    entry: u16,
    base: u64,
    steps: Vec<NodeStep>,
    found: Vec<u16>,
    stage: Stage,
}

impl Model for Fill {
    ghost use Rattle.std.specs.Prelude.{◌≤◌, vec_len, vec_capacity};
    ghost use Rattle.rgctx_fill.specs.Turns.{FillData, IsFill};

    ghost Value = { FillData };

    ghost view = { λ f. record { node = f.node; entry = f.entry; base = f.base; steps = f.steps.items; found = f.found.items; stage = f.stage } };

    ghost invariant = { λ f. IsFill (record { node = f.node; entry = f.entry; base = f.base; steps = f.steps.items; found = f.found.items; stage = f.stage }) × (vec_len f.steps ≤ vec_capacity f.found) };
}

impl Fill {
    /// A fill of an entry of a node of which no node is found yet: the nodes that its value needs, and what is added
    /// to the number of the last to give the value. `start` makes it of words and a catalogue.
    pub fn begun(
        alloc: Global,
        node: u16,
        entry: u16,
        steps: Vec<NodeStep>,
        base: u64,
    ) -> Result<Fill, NoMemory>
        requires number { (0 < node) × (node < node_count) }
        requires depths { depth_of entry < 256 }
        requires small { base < 2 ^ 63 }
        ensures { IfOk result (λ fill. fill ≡ begun node entry steps.items base) }
    {
        let Ok(found) = Vec::with_capacity(alloc, steps.len()) else {
            return Err(NoMemory);
        };
        let stage = if 0 < steps.len() {
            Stage::Node(1)
        } else {
            Stage::Link(0, 0)
        };
        Ok(Fill {
            node,
            entry,
            base,
            steps,
            found,
            stage,
        })
    }

    /// What the next turn does: the index that it loads, or the index and the word that it claims.
    pub fn next(&self) -> FillNext
        ensures { result ≡ next_of self.now }
    {
        match self.stage {
            Stage::Node(place) => {
                if u32::from(place) < NODES {
                    FillNext::Load(u32::from(place))
                } else {
                    FillNext::Full(Region::Nodes, self.node_key())
                }
            }
            Stage::NodeClaim(place) => FillNext::Claim(u32::from(place), self.node_key()),
            Stage::Link(depth, row) => FillNext::Load(self.link_index(depth, row)),
            Stage::Row(depth, _, place) => {
                if u32::from(place) < ROWS {
                    FillNext::Load(ContextPlace::Directory(place).index())
                } else {
                    FillNext::Full(Region::Rows, self.row_key(depth))
                }
            }
            Stage::RowClaim(depth, _, place) => FillNext::Claim(
                ContextPlace::Directory(place).index(),
                self.row_key(depth),
            ),
            Stage::Tie(depth, row, found) => FillNext::Claim(
                self.link_index(depth, row),
                row_address(found),
            ),
            Stage::Entry(row) => FillNext::Claim(
                ContextPlace::Entry(row, slot_of(self.entry)).index(),
                self.value(),
            ),
            Stage::Done(_) => FillNext::Nothing,
        }
    }

    /// What the turn that leads here gives.
    pub fn given(&self) -> FillStep
        ensures { result ≡ given_at self.now.stage }
    {
        match self.stage {
            Stage::Done(value) => FillStep::Value(value),
            Stage::Node(_)
            | Stage::NodeClaim(_)
            | Stage::Link(_, _)
            | Stage::Row(_, _, _)
            | Stage::RowClaim(_, _, _)
            | Stage::Tie(_, _, _)
            | Stage::Entry(_) => FillStep::More,
        }
    }

    /// Takes the answer to what `next` says: the word that was loaded, or the one that a claim found. `turn` makes both
    /// steps.
    pub fn take(&mut self, answer: u64)
        requires { HasPlace self.old.stage }
        ensures { self.new ≡ taken self.old answer }
    {
        match self.stage {
            Stage::Node(place) => self.take_node(place, answer),
            Stage::NodeClaim(place) => self.take_claim(place, answer),
            Stage::Link(depth, row) => self.take_link(depth, row, answer),
            Stage::Row(depth, row, place) => self.take_row(depth, row, place, answer),
            Stage::RowClaim(depth, row, place) => self.take_row_claim(depth, row, place, answer),
            Stage::Tie(depth, _, found) => self.stand_at_row(depth, found),
            Stage::Entry(_) => {
                let value = if answer == 0 { self.value() } else { answer };
                self.stand(Stage::Done(value));
            }
            Stage::Done(_) => {}
        }
    }

    // The word of a node was loaded.
    fn take_node(&mut self, place: u16, answer: u64)
        requires at { IsAt self.old (stage.Node place) }
        requires low { place < node_count }
        ensures { self.new ≡ taken_at self.old (stage.Node place) answer }
    {
        if answer == self.node_key() {
            self.put_node(place);
        } else if answer == 0 {
            self.stand(Stage::NodeClaim(place));
        } else {
            self.stand(Stage::Node(place + 1));
        }
    }

    // The word of a node was claimed.
    fn take_claim(&mut self, place: u16, answer: u64)
        requires { IsAt self.old (stage.NodeClaim place) }
        ensures { self.new ≡ taken_at self.old (stage.NodeClaim place) answer }
    {
        if answer == 0 || answer == self.node_key() {
            self.put_node(place);
        } else {
            self.stand(Stage::Node(place + 1));
        }
    }

    // A root or link was loaded.
    fn take_link(&mut self, depth: u16, row: u16, answer: u64)
        requires { IsAt self.old (stage.Link depth row) }
        ensures { self.new ≡ taken_at self.old (stage.Link depth row) answer }
    {
        if answer == 0 {
            self.stand(Stage::Row(depth, row, 0));
        } else {
            self.stand_at_row(depth, row_or_first(row_at(answer)));
        }
    }

    // A directory word was loaded.
    fn take_row(&mut self, depth: u16, row: u16, place: u16, answer: u64)
        requires at { IsAt self.old (stage.Row depth row place) }
        requires low { place < row_count }
        ensures { self.new ≡ taken_at self.old (stage.Row depth row place) answer }
    {
        if answer == self.row_key(depth) {
            self.stand(Stage::Tie(depth, row, place));
        } else if answer == 0 {
            self.stand(Stage::RowClaim(depth, row, place));
        } else {
            self.stand(Stage::Row(depth, row, place + 1));
        }
    }

    // A directory word was claimed.
    fn take_row_claim(&mut self, depth: u16, row: u16, place: u16, answer: u64)
        requires { IsAt self.old (stage.RowClaim depth row place) }
        ensures { self.new ≡ taken_at self.old (stage.RowClaim depth row place) answer }
    {
        if answer == 0 || answer == self.row_key(depth) {
            self.stand(Stage::Tie(depth, row, place));
        } else {
            self.stand(Stage::Row(depth, row, place + 1));
        }
    }

    // The row of a depth is known.
    fn stand_at_row(&mut self, depth: u16, row: u16)
        requires depth { depth ≤ depth_of self.old.entry }
        requires row { row < row_count }
        ensures { self.new ≡ with_stage self.old (at_row self.old depth row) }
    {
        if depth == depth_of(self.entry) {
            self.stand(Stage::Entry(row));
        } else {
            self.stand(Stage::Link(depth + 1, row));
        }
    }

    fn stand(&mut self, stage: Stage)
        requires { IsAt self.old stage }
        ensures { self.new ≡ with_stage self.old stage }
    {
        self.stage = stage;
    }

    // The next node is found.
    fn put_node(&mut self, number: u16)
        requires { length self.old.found < length self.old.steps }
        ensures { self.new ≡ with_node self.old number }
    {
        self.found.push_reserved(number);
        self.stage = if self.found.len() < self.steps.len() {
            Stage::Node(1)
        } else {
            Stage::Link(0, 0)
        };
    }

    // The word of the next node.
    fn node_key(&self) -> u64
        ensures { result ≡ node_key self.now }
    {
        match self.steps.as_slice().get(self.found.len()) {
            Some(step) => word_for(self.found.as_slice(), *step),
            None => 0,
        }
    }

    // The directory word of the node's row of a depth.
    fn row_key(&self, depth: u16) -> u64
        requires { depth ≤ depth_of self.now.entry }
        ensures { result ≡ row_key self.now depth }
    {
        DirectoryWord {
            node: self.node,
            depth: depth as u8,
        }
        .word()
    }

    // The index of the root, or of the link of the row before that of a depth.
    fn link_index(&self, depth: u16, row: u16) -> u32
        requires { row < row_count }
        ensures { result ≡ link_index self.now depth row }
    {
        if depth == 0 {
            ContextPlace::Root(self.node).index()
        } else {
            ContextPlace::Link(row).index()
        }
    }

    // The value that the entry is claimed with.
    fn value(&self) -> u64
        ensures { result ≡ value_of self.now }
    {
        self.base + u64::from(node_for(self.found.as_slice(), self.found.len()))
    }
}

fn row_or_first(row: Option<u16>) -> u16
    ensures { result ≡ row_or_first row }
{
    match row {
        Some(row) => row,
        None => 0,
    }
}

// The node found for a place, counted from 1; 0 for none.
fn node_for(found: &[u16], place: usize) -> u16
    ensures { result ≡ node_for found.now place }
{
    if place == 0 {
        return 0;
    }
    match found.get(place - 1) {
        Some(node) => *node,
        None => 0,
    }
}

fn word_for(found: &[u16], step: NodeStep) -> u64
    ensures { result ≡ word_for found.now (Some step) }
{
    NodeWord {
        definition: step.definition,
        first: node_for(found, step.first),
        second: node_for(found, step.second),
        third: node_for(found, step.third),
    }
    .word()
}
