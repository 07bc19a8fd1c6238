// Lines and columns.
ghost use Rattle.std.specs.Prelude.{◌≡◌, ◌≤◌, length, take};
ghost use Rattle.il_text.specs.Places.{spot_after};

use crate::place::Spot;

/// The place of a byte of a text, or of its end: the line and the column of the byte at this offset.
pub fn spot(text: &[u8], offset: u32) -> Spot
    requires inside { offset ≤ length text.now }
    requires short { offset ≤ 4194304 }
    ensures { result ≡ spot_after (take offset text.now) }
{
    let (before, _) = text.split_at(offset as usize);
    let mut line = 1;
    let mut column = 1;
    for b in before {
        if *b == b'\n' {
            line += 1;
            column = 1;
        } else {
            column += 1;
        }
    }
    Spot { line, column }
}
