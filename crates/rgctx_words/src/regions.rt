// Where the context words lie in memory.
ghost use Rattle.std.specs.Prelude.{◌≡◌, ◌+◌, ◌*◌, ◌<◌, Some, IfSome};
ghost use Rattle.rgctx_words.specs.Regions.{word_count, row_count, context_address, context_index, row_address, row_at, row_index, unit_at};

/// How many context words there are.
pub const WORDS: u32 = 81_920;

/// How many numbers of nodes there are; 0 names none.
pub const NODES: u32 = 4_096;

/// How many rows there are.
pub const ROWS: u32 = 8_192;

/// The address of a context word, in bytes. A word has eight.
pub fn context_address(index: u32) -> u64
    requires { index < word_count }
    ensures address { result ≡ context_address index }
    ensures read { context_index result ≡ Some index }
{
    0x2000_0000 + 8 * u64::from(index)
}

/// The index of the context word that begins at this address; None where none does.
pub fn context_index(address: u64) -> Option<u32>
    ensures index { result ≡ context_index address }
    ensures back { IfSome result (λ i. (i < word_count) × (context_address i ≡ address)) }
{
    match unit_at(0x2000_0000, 8, 81_920, address) {
        Some(index) => Some(index as u32),
        None => None,
    }
}

/// The address of a row, in bytes: that of its word 0.
pub fn row_address(row: u16) -> u64
    requires { row < row_count }
    ensures address { result ≡ row_address row }
    ensures read { row_at result ≡ Some row }
    ensures word { context_index result ≡ Some (row_index row 0) }
{
    0x2002_0000 + 64 * u64::from(row)
}

/// The row that begins at this address; None where none does.
pub fn row_at(address: u64) -> Option<u16>
    ensures row { result ≡ row_at address }
    ensures back { IfSome result (λ r. (r < row_count) × (row_address r ≡ address)) }
{
    match unit_at(0x2002_0000, 64, 8_192, address) {
        Some(row) => Some(row as u16),
        None => None,
    }
}

/// The unit that begins at an address, of so many from a start on with so many bytes each.
pub(crate) fn unit_at(start: u64, bytes: u64, many: u64, address: u64) -> Option<u64>
    requires { 0 < bytes }
    ensures unit { result ≡ unit_at start bytes many address }
    ensures back { IfSome result (λ n. (n < many) × (start + bytes * n ≡ address)) }
{
    if address < start {
        return None;
    }
    let offset = address - start;
    if offset / bytes >= many {
        return None;
    }
    if offset % bytes != 0 {
        return None;
    }
    Some(offset / bytes)
}
