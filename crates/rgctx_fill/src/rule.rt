// The rule of the context words.
use rgctx_template::Catalogue;
use rgctx_words::WordsRule;

/// The product's rule for the context words, read under a catalogue: which words fit, and what may be claimed. It
/// speaks of held words through a function from indexes, so the same definitions serve words that others write.
pub struct Fits;

impl WordsRule for Fits {
    ghost use Rattle.std.specs.Prelude.{slice_index};
    ghost use Rattle.rgctx_template.specs.Catalogue.{data_of};
    ghost use Rattle.rgctx_fill.specs.Fitting.{AreFitting};
    ghost use Rattle.rgctx_fill.specs.Claims as claims;
    ghost use Rattle.rgctx_fill.specs.ClaimLaws as laws;
    ghost use Rattle.rgctx_fill.specs.LeafLaws.{leaf-used};

    type Cat = Catalogue<'static>;

    ghost fits = { λ cat words. AreFitting (data_of cat) (λ i. slice_index words i) };

    ghost allows = { λ cat held i word. claims.Allows (data_of cat) held i word };

    ghost always = { claims.Always };

    ghost names = { λ cat held i. claims.Shows (data_of cat) held i };

    ghost claim_fits = { λ cat words held i word count fits within low nonzero small was may. laws.claim_fits (data_of cat) words held i word count fits within low was may };

    ghost always_there = { λ cat words i fits leaf. leaf-used (data_of cat) (λ k. slice_index words k) i fits leaf };

    ghost named_there = { λ cat words held i count fits within shown. shown (λ k. slice_index words k) fits within };
}
