// Which words lie in the frames of a thread.
ghost use Rattle.std.specs.Prelude.{◌≡◌, ◌↔◌, ◌≤◌, IsTrue, length};
ghost use Rattle.crossings.specs.Calls.{Lies, AreListed, AreWidths, most_places};
ghost use Rattle.crossings.specs.Copies.{index_at};

use rgctx_words::Stack;

/// The index of the frame word that begins at an address; 0 where none does.
pub(crate) fn index_at(stack: &Stack, address: u64) -> u32
    ensures { result ≡ index_at stack.now.words address }
{
    match stack.index_at(address) {
        Some(index) => index,
        None => 0,
    }
}

// The same as `lies`, where the frames have `end` words.
fn lie_before(stack: &Stack, end: u32, address: u64, count: u32) -> bool
    requires { end ≡ length stack.now.words }
    ensures { IsTrue result ↔ Lies stack.now.words address count }
{
    if count == 0 {
        return true;
    }
    match stack.index_at(address) {
        Some(index) => count <= end - index,
        None => false,
    }
}

/// Whether so many words lie in the frames from an address on. Where there are none, any address will do.
/// This project's own.
pub fn lies(stack: &Stack, address: u64, count: u32) -> bool
    ensures { IsTrue result ↔ Lies stack.now.words address count }
{
    lie_before(stack, stack.end(), address, count)
}

/// Whether the list at an address has the address of each argument, and each has as many words there as its
/// width says: at most 120 arguments. This project's own.
pub fn are_listed(stack: &Stack, list: u64, widths: &[u32]) -> bool
    requires { length widths.now ≤ most_places }
    ensures { IsTrue result ↔ AreListed stack.now.words list widths.now }
{
    let count = widths.len() as u32;
    let end = stack.end();
    if !lie_before(stack, end, list, count) {
        return false;
    }
    let first = index_at(stack, list);
    for number in 0..count {
        let address = stack.word(first + number);
        if !lie_before(stack, end, address, widths[number as usize]) {
            return false;
        }
    }
    true
}

/// Whether arguments of these widths fit a callee with so many places: no more arguments than places, each of
/// at most 16 words. This project's own.
pub fn are_widths(widths: &[u32], places: u32) -> bool
    ensures { IsTrue result ↔ AreWidths widths.now places }
{
    if widths.len() > places as usize {
        return false;
    }
    widths.iter().all(|width| *width <= 16)
}
