// Where the values of a compiled body lie.
use sqlite_items::Items;

/// The frame of a body, in words of 64 bits: for each place (arguments, locals, then the places of the
/// stack) its offset in the frame and its width, the offsets of the scratch words and of the list of
/// argument addresses, and the length of the frame.
#[derive(Drop)]
pub struct Plan {
    pub offsets: Items<u32>,
    pub widths: Items<u32>,
    pub scratch: u32,
    pub list: u32,
    pub frame: u32,
}
