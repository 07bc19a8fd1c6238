// How many bytes an access has.
ghost use Rattle.std.specs.Prelude.{◌≡◌, ◌≢◌, ◌%◌, ◌<◌, ◌*◌, ◌^◌, ◌↔◌, IsTrue};
ghost use Rattle.rv_machine.specs.Access.{IsSize};
ghost use Rattle.rv_machine.specs.Steps.{bytes_of, stored};

/// The size of an access in bytes.
#[derive(Clone, Copy, Debug, PartialEq, Eq)]
pub enum Size {
    One,
    Two,
    Four,
    Eight,
}

// The number of bytes.
#[inline]
pub(crate) fn bytes(size: Size) -> u8
    ensures value { result ≡ bytes_of size }
    ensures size { IsSize result }
{
    match size {
        Size::One => 1,
        Size::Two => 2,
        Size::Four => 4,
        Size::Eight => 8,
    }
}

// The low bytes of a word.
#[inline]
pub(crate) fn cut(size: Size, word: u64) -> u64
    ensures value { result ≡ stored size word }
    ensures fits { result < 2 ^ (8 * bytes_of size) }
{
    match size {
        Size::One => word % 256,
        Size::Two => word % 65536,
        Size::Four => word % 4294967296,
        Size::Eight => word,
    }
}

// Whether an address isn't a multiple of a size.
#[inline]
pub(crate) fn is_misaligned(size: Size, address: u64) -> bool
    ensures { IsTrue result ↔ (address % bytes_of size ≢ 0) }
{
    match size {
        Size::One => false,
        Size::Two => address % 2 != 0,
        Size::Four => address % 4 != 0,
        Size::Eight => address % 8 != 0,
    }
}
