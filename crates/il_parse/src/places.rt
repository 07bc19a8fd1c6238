// Lines and columns of a text's places.
ghost use Rattle.std.specs.Prelude.{◌≡◌, ◌≤◌, length, take};
ghost use Rattle.il_text.specs.Places.{spot_after};
ghost use Rattle.il_parse.specs.Answer.{spot_of};

use il_text::Spot;
use std::marker::Model;

/// A text, and one place of it with its line and column. A look at a later place goes on from there, so
/// rising places take one pass over the text. Contracts see the text.
#[derive(Drop)]
pub(crate) struct Places<'a> {
    text: &'a [u8],
    at: usize,
    spot: Spot,
}

impl<'a> Model for Places<'a> {
    ghost use Rattle.std.specs.Prelude.{List, ℕ};
    ghost use Rattle.il_parse.specs.Places.{IsPlace};

    ghost Value = { List ℕ };

    ghost view = { λ p. p.text.now };

    ghost invariant = { λ p. IsPlace p.text.now p.at p.spot };
}

impl<'a> Places<'a> {
    /// The places of a text, from its first byte on.
    pub(crate) fn new(text: &'a [u8]) -> Places<'a>
        requires { length text.now ≤ 4194304 }
        ensures { result ≡ text.now }
    {
        Places {
            text,
            at: 0,
            spot: Spot { line: 1, column: 1 },
        }
    }

    /// The line and the column of the byte at this offset; behind the text they are those of its end.
    pub(crate) fn spot(&mut self, offset: u32) -> Spot
        ensures spot { result ≡ spot_of self.old offset }
        ensures same { self.new ≡ self.old }
    {
        let to = within(self.text, offset);
        let spot = if to < self.at {
            behind(self.text, 0, Spot { line: 1, column: 1 }, to)
        } else {
            behind(self.text, self.at, self.spot, to)
        };
        self.at = to;
        self.spot = spot;
        spot
    }
}

// The offset, or the end of the text where it lies behind it.
fn within(text: &[u8], offset: u32) -> usize
    ensures inside { result ≤ length text.now }
    ensures same { take result text.now ≡ take offset text.now }
{
    let offset = offset as usize;
    if offset <= text.len() {
        offset
    } else {
        text.len()
    }
}

// The place behind the bytes up to an offset, from the place behind the bytes up to an earlier one.
fn behind(text: &[u8], from: usize, spot: Spot, to: usize) -> Spot
    requires short { length text.now ≤ 4194304 }
    requires order { from ≤ to }
    requires inside { to ≤ length text.now }
    requires begins { spot ≡ spot_after (take from text.now) }
    ensures { result ≡ spot_after (take to text.now) }
{
    let mut line = spot.line;
    let mut column = spot.column;
    for at in from..to {
        if text[at] == b'\n' {
            line += 1;
            column = 1;
        } else {
            column += 1;
        }
    }
    Spot { line, column }
}
