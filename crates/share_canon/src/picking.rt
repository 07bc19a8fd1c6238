// Which compiled body serves a method at given types.
ghost use Rattle.std.specs.Prelude.{◌≡◌, ◌+◌, ◌<◌, ◌^◌, ◌↔◌, IsTrue, length, Option, ℕ};
ghost use Rattle.share_canon.specs.Rows.{ServesAt, Picks};

use crate::closeness::is_closer;
use crate::serving::serves;
use il_model::{BodyRow, Program};
use type_tree::Tree;

/// The place of the row that serves the method at these types: of the rows of the method whose keys serve
/// them the one with most Exact parts, then most Ref parts, then the first. None exactly where no row
/// serves. Whether a class is a struct is the program's to say. No memory is taken.
pub fn pick(program: &Program, rows: &[BodyRow], method: u16, args: &[Tree]) -> Option<u32>
    requires { length rows.now < 2 ^ 32 }
    ensures best { Picks program.now rows.now method args.now (length rows.now) result }
    ensures only { (other : Option ℕ) → Picks program.now rows.now method args.now (length rows.now) other → other ≡ result }
{
    let mut best = None;
    for i in 0..rows.len() {
        best = better(program, rows, method, args, best, i as u32);
    }
    best
}

// The best match among the rows to this one, from that among the rows before it.
fn better(
    program: &Program,
    rows: &[BodyRow],
    method: u16,
    args: &[Tree],
    best: Option<u32>,
    place: u32,
) -> Option<u32>
    requires within { place < length rows.now }
    requires best { Picks program.now rows.now method args.now place best }
    ensures { Picks program.now rows.now method args.now (place + 1) result }
{
    let row = &rows[place as usize];
    if !serves_at(program, method, args, row) {
        return best;
    }
    match best {
        None => Some(place),
        Some(other) => {
            let known = &rows[other as usize];
            if is_closer(row.key.parts.as_slice(), known.key.parts.as_slice()) {
                return Some(place);
            }
            best
        }
    }
}

fn serves_at(program: &Program, method: u16, args: &[Tree], row: &BodyRow) -> bool
    ensures { IsTrue result ↔ ServesAt program.now method args.now row.now }
{
    row.method == method && serves(program, row.key.parts.as_slice(), args)
}
