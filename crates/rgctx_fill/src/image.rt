// What turns are taken over.
use rgctx_template::Catalogue;

/// How many places the interpreter's frame of a method has, and how many words its list of argument addresses.
#[derive(Clone, Copy, Debug, PartialEq, Eq)]
pub struct FrameCount {
    pub places: u32,
    pub list: u32,
}

/// What turns are taken over: a catalogue, the code words of its bodies, and the counts for an interpreted frame of
/// each method, by its number.
#[derive(Clone, Copy)]
pub struct ImageView<'a> {
    pub cat: Catalogue<'a>,
    pub code: &'a [u32],
    pub frames: &'a [FrameCount],
}
