// The start of a fill.
ghost use Rattle.std.specs.Prelude.{◌≡◌, ℕ, ◌<◌, true, IfOk, length};
ghost use Rattle.rgctx_words.specs.Regions.{node_count};
ghost use Rattle.rgctx_words.specs.Held.{Grows};
ghost use Rattle.rgctx_template.specs.declared.catalogue.Catalogue.{Catalogue};
ghost use Rattle.rgctx_template.specs.Catalogue.{data_of};
ghost use Rattle.rgctx_fill.specs.Templates.{template_at};
ghost use Rattle.rgctx_fill.specs.Claims.{IsSure, Shows};
ghost use Rattle.rgctx_fill.specs.Starting.{Starts};
ghost use Rattle.rgctx_fill.specs.ImageCatalogues.{IsImageCatalogue};

use crate::fill::Fill;
use crate::naming::{Planned, entry_at, plan_of};
use crate::reading::node_tree;
use crate::rule::Fits;
use crate::templating::tree_template;
use il_model::Limit;
use mn_outside::NoMemory;
use rgctx_template::Catalogue;
use rgctx_words::Words;
use std::alloc::Global;

/// What the start of a fill gives: the fill, or the limit that what its entry names passes.
#[derive(Drop)]
pub enum FillStart {
    Ready(Fill),
    Refused(Limit),
}

impl Fill {
    /// Starts the fill of an entry of a node, both counted from 0: it reads what the node spells, and finds what the
    /// entry names and whether this is admitted. Refused comes exactly where it isn't, with the limit that it
    /// passes. Words are loaded as `node_tree` loads them, and none is claimed. The catalogue is that of an image.
    pub fn start<W: Words<Fits>>(
        alloc: Global,
        cat: &Catalogue,
        words: &mut W,
        node: u16,
        entry: u16,
    ) -> Result<FillStart, NoMemory>
        requires number { (0 < node) × (node < node_count) }
        requires image { IsImageCatalogue (data_of cat.now) }
        requires met { W.meets cat.now words.old }
        requires shown { Shows (data_of cat.now) (W.held words.old) node }
        requires entry { IsSure (data_of cat.now) (W.held words.old) (λ at. entry < length (template_at (data_of cat.now) at node)) }
        ensures place { W.place words.new ≡ W.place words.old }
        ensures alone { W.alone words.new ≡ W.alone words.old }
        ensures claims { W.claims words.new ≡ W.claims words.old }

        ensures grows { Grows (W.held words.old) (W.held words.new) }
        ensures only { W.alone words.old ≡ true → (j : ℕ) → W.held words.new j ≡ W.held words.old j }
        ensures met { (under : Catalogue) → W.meets under words.old → W.meets under words.new }

        ensures starts { IfOk result (λ start. Starts (data_of cat.now) (W.held words.new) node entry start) }
    {
        let tree = node_tree(alloc, cat, words, node)?;
        let entries = tree_template(alloc, cat, &tree)?;
        match entries.as_slice().get(entry as usize) {
            Some(named) => {
                let own = entry_at(alloc, &tree, named)?;
                match plan_of(alloc, cat, &tree, &own)? {
                    Planned::Plan(steps, base) => {
                        let fill = Fill::begun(alloc, node, entry, steps, base)?;
                        Ok(FillStart::Ready(fill))
                    }
                    Planned::Refused(limit) => Ok(FillStart::Refused(limit)),
                }
            }
            None => unreachable!(),
        }
    }
}
