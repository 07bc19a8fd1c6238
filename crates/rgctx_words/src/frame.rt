// Frames in words: where they lie, and what a new one begins with.
ghost use Rattle.std.specs.Prelude.{◌≡◌, ◌<◌, ◌≤◌, ℕ, Some};
ghost use Rattle.rgctx_words.specs.Frames.{frame_address, frame_index, place_offset, interpreted_length, header_count, most_words};

/// The words of a frame's header, by number: the caller's frame or 0, the return pc or 0 where the caller is
/// interpreted, the method's node, the address of the result or 0, the CIL instruction, the frame's length.
pub const CALLER: u32 = 0;

pub const BACK: u32 = 1;

pub const METHOD: u32 = 2;

pub const RESULT: u32 = 3;

pub const INSTR: u32 = 4;

pub const LENGTH: u32 = 5;

/// The words of a frame's header. The last two are zero.
pub const HEADER_WORDS: u32 = 8;

/// The most words that a frame has.
pub const MOST_FRAME_WORDS: u32 = 2_064;

/// The most frames that a thread has.
pub const MOST_FRAMES: u32 = 1_024;

/// What a new frame begins with, besides its caller: the return pc or 0, the method's node, the address of the
/// result or 0, and its length in words.
#[derive(Clone, Copy, Debug, PartialEq, Eq)]
pub struct NewFrame {
    pub back: u64,
    pub node: u16,
    pub target: u64,
    pub words: u32,
}

/// The address of a frame word, in bytes.
#[tactic(auto, unfolding(crate::specs::Frames::frames_at))]
pub fn frame_address(index: u32) -> u64
    ensures address { result ≡ frame_address index }
    ensures read { (end : ℕ) → index < end → frame_index end result ≡ Some index }
{
    0x4000_0000 + 8 * u64::from(index)
}

/// The word at which a place of an interpreted frame begins, from the frame's beginning.
pub fn place_offset(place: u32) -> u32
    requires { place < 120 }
    ensures { result ≡ place_offset place }
{
    8 + 16 * place
}

/// The length in words of an interpreted frame with so many places and so long a list of argument addresses.
pub fn interpreted_length(places: u32, list: u32) -> u32
    requires places { places ≤ 120 }
    requires list { list ≤ 120 }
    ensures words { result ≡ interpreted_length places list }
    ensures limits { (header_count ≤ result) × (result ≤ most_words) }
{
    8 + 16 * places + 16 + list
}
