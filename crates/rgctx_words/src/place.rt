// What stands at each index of the context words.
ghost use Rattle.std.specs.Prelude.{◌≡◌, ◌<◌, ◌/◌, ◌%◌};
ghost use Rattle.rgctx_words.specs.Regions.{word_count};
ghost use Rattle.rgctx_words.specs.Places.{index_of, place_of, IsPlace, in_row, depth_of, slot_of, entry_of};

/// What stands at an index of the context words.
#[derive(Clone, Copy, Debug, PartialEq, Eq)]
pub enum ContextPlace {
    /// The word of a node, by its number below 4,096.
    Node(u16),
    /// The directory word of a row, by its number below 8,192.
    Directory(u16),
    /// The address of the first row of a node.
    Root(u16),
    /// The address of the row after a row.
    Link(u16),
    /// A word of a row that holds an entry, from 1 to 7.
    Entry(u16, u8),
}

impl ContextPlace {
    /// What stands at an index.
    pub fn at(index: u32) -> ContextPlace
        requires { index < word_count }
        ensures place { result ≡ place_of index }
        ensures inside { IsPlace result }
        ensures back { index_of result ≡ index }
    {
        if index < 4_096 {
            ContextPlace::Node(index as u16)
        } else if index < 12_288 {
            ContextPlace::Directory((index - 4_096) as u16)
        } else if index < 16_384 {
            ContextPlace::Root((index - 12_288) as u16)
        } else {
            in_row(index - 16_384)
        }
    }

    /// The index at which it stands.
    pub fn index(self) -> u32
        requires { IsPlace self }
        ensures index { result ≡ index_of self }
        ensures inside { result < word_count }
        ensures back { place_of result ≡ self }
    {
        match self {
            ContextPlace::Node(node) => u32::from(node),
            ContextPlace::Directory(row) => 4_096 + u32::from(row),
            ContextPlace::Root(node) => 12_288 + u32::from(node),
            ContextPlace::Link(row) => 16_384 + 8 * u32::from(row),
            ContextPlace::Entry(row, slot) => 16_384 + 8 * u32::from(row) + u32::from(slot),
        }
    }
}

// The word of a row, counted from the first word of row 0.
fn in_row(offset: u32) -> ContextPlace
    requires { offset < 65536 }
    ensures { result ≡ in_row (offset / 8) (offset % 8) }
{
    let row = (offset / 8) as u16;
    let slot = (offset % 8) as u8;
    if slot == 0 {
        ContextPlace::Link(row)
    } else {
        ContextPlace::Entry(row, slot)
    }
}

/// The depth of the row in which an entry of a template stands: rows hold seven entries each, from depth 0.
pub fn depth_of(entry: u16) -> u16
    ensures { result ≡ depth_of entry }
{
    entry / 7
}

/// The word of its row at which an entry of a template stands, from 1 to 7.
pub fn slot_of(entry: u16) -> u8
    ensures slot { result ≡ slot_of entry }
    ensures inside { (0 < result) × (result < 8) }
    ensures back { entry_of (depth_of entry) result ≡ entry }
{
    (entry % 7) as u8 + 1
}
