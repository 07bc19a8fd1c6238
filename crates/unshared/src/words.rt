// Words of 64 bits and the numbers that they are. An int32 stands sign-extended.
ghost use Rattle.std.specs.Prelude.{◌≡◌};
ghost use Rattle.cil_meaning.specs.Words.{low_32, narrow};

/// The low 32 bits of a word, filled with zeros.
pub(crate) fn low_32(word: u64) -> u64
    ensures { result ≡ low_32 word }
{
    word % 4294967296
}

/// The int32 that the low 32 bits of a word are, as a word.
pub(crate) fn narrow(word: u64) -> u64
    ensures { result ≡ narrow word }
{
    let low = low_32(word);
    if low < 2147483648 {
        low
    } else {
        low + 18446744069414584320
    }
}
