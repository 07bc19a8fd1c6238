//! What the layers above may use of nodes, rows and fills: the readers, the laws of `proofs/NodeLaws.antt` and
//! `proofs/Opening.antt`, and the law on fills. No crate above takes a node word apart.
ghost use Rattle.std.specs.Prelude.{◌≡◌, ℕ, List, Option, Some, true, slice_get};
ghost use Rattle.rgctx_words.specs.Held.{Grows};
ghost use Rattle.rgctx_template.specs.Catalogue.{CatData};
ghost use Rattle.rgctx_fill.specs.declared.stage.FillStep.{FillStep};
ghost use Rattle.rgctx_fill.specs.declared.stage.Stage.TheVariants as stage;
ghost use Rattle.rgctx_fill.specs.Fitting.{AreFitting};
ghost use Rattle.rgctx_fill.specs.Turns.{FillData};
ghost use Rattle.rgctx_fill.specs.Ready.{IsTurn, IsFilled};
ghost use Rattle.rgctx_fill.specs.Starting.{IsFillable};
ghost use Rattle.rgctx_fill.specs.ImageCatalogues.{IsImageCatalogue};
ghost use Rattle.rgctx_fill.specs.Interleaved.{Shared, interleaved, IsTurned, AreUnderWay};

pub use crate::reading::node_tree;
pub use crate::templating::{node_template, tree_template};

/// All fills of one entry answer one value. `held` says it of fills that have answered, by whatever each holds of
/// words that fit; `one` of fills that take their turns on the same words in any order, which stay under way by
/// `stays`. These turns are those of `Fill::turn` on words that nobody else writes, by `turn`. A law alone: it does
/// nothing.
pub fn fills_of_an_entry_answer_one_value()
    ensures held { (cat : CatData) (at one other : ℕ → ℕ) → AreFitting cat at → Grows one at → Grows other at → (node entry v w : ℕ)
        → IsFilled cat one node entry v → IsFilled cat other node entry w → v ≡ w }
    ensures turn { (before after : ℕ → ℕ) (listed relisted : Option (List (ℕ × ℕ))) (f new : FillData) (gives : FillStep)
        → IsTurn true before after listed relisted f new gives → IsTurned before after f new }
    ensures stays { (cat : CatData) (s : Shared) (ks : List ℕ) → AreUnderWay cat s → AreUnderWay cat (interleaved s ks) }
    ensures one { (cat : CatData) (s : Shared) (ks : List ℕ) → AreUnderWay cat s → (i j : ℕ) (f g : FillData) (v w : ℕ)
        → slice_get (interleaved s ks).fills i ≡ Some f → slice_get (interleaved s ks).fills j ≡ Some g
        → f.node ≡ g.node → f.entry ≡ g.entry → f.stage ≡ stage.Done v → g.stage ≡ stage.Done w → v ≡ w }
{}

/// A fill may start over the catalogue of every image: each entry of whatever may have a node is whole, once the
/// arguments of the node are put. A law alone: it does nothing.
pub fn image_catalogues_are_fillable()
    ensures { (cat : CatData) → IsImageCatalogue cat → IsFillable cat }
{}
