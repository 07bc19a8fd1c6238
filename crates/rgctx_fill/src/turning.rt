// The turns of a fill.
ghost use Rattle.std.specs.Prelude.{◌≡◌};
ghost use Rattle.rgctx_words.specs.Held.{Grows};
ghost use Rattle.rgctx_template.specs.declared.catalogue.Catalogue.{Catalogue};
ghost use Rattle.rgctx_template.specs.Catalogue.{data_of};
ghost use Rattle.rgctx_fill.specs.Ready.{IsOn, IsReady, IsTurn, Comes};

use crate::fill::Fill;
use crate::rule::Fits;
use crate::stage::{FillNext, FillStep};
use rgctx_words::Words;

impl Fill {
    /// Makes the next turn, which loads or claims one word. More comes where the fill goes on, and Value with the
    /// turn that puts the value into its entry or finds it there. Full is no turn: the list of words has no place for
    /// this one, nothing changes, and the fill can be tried again. No memory is taken.
    pub fn turn<W: Words<Fits>>(&mut self, words: &mut W) -> FillStep
        requires on { IsOn self.old.stage }
        requires ready { (cat : Catalogue) × W.meets cat words.old × IsReady (data_of cat) (W.held words.old) self.old }
        ensures place { W.place words.new ≡ W.place words.old }
        ensures alone { W.alone words.new ≡ W.alone words.old }
        ensures grows { Grows (W.held words.old) (W.held words.new) }
        ensures turn { IsTurn (W.alone words.old) (W.held words.old) (W.held words.new) (W.claims words.old) (W.claims words.new) self.old self.new result }

        // Under each catalogue under which the fill was ready it is ready again.
        ensures met { (cat : Catalogue) → W.meets cat words.old → IsReady (data_of cat) (W.held words.old) self.old → W.meets cat words.new }
        ensures comes { (cat : Catalogue) → W.meets cat words.old → IsReady (data_of cat) (W.held words.old) self.old → Comes (data_of cat) (W.held words.new) self.new result }
    {
        match self.next() {
            FillNext::Load(index) => {
                let answer = words.load(index);
                self.take(answer);
                self.given()
            }
            FillNext::Claim(index, word) => {
                let answer = words.claim(index, word);
                self.take(answer);
                self.given()
            }
            FillNext::Full(region, key) => FillStep::Full(region, key),
            FillNext::Nothing => unreachable!(),
        }
    }
}
