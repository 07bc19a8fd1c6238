// Texts in parts.
ghost use Rattle.std.specs.Prelude.{◌≡◌, ◌==◌, ◌≤◌, length};
ghost use Rattle.std.specs.List.{position_or_len};

/// How many bytes stand before the first that is this mark.
pub(crate) fn part_len(bytes: &[u8], mark: u8) -> usize
    ensures value { result ≡ position_or_len (λ b. b == mark) bytes.now }
    ensures within { result ≤ length bytes.now }
{
    for (i, byte) in bytes.iter().enumerate() {
        if *byte == mark {
            return i;
        }
    }
    bytes.len()
}
