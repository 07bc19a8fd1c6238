// Directory words: for which node, and at which depth, a row is in use.
ghost use Rattle.std.specs.Prelude.{◌≡◌, ◌*◌, ◌<◌, ◌^◌};
ghost use Rattle.rgctx_words.specs.Directory.{directory_word, directory_read};

/// For which node, and at which depth from 0, a row is in use.
#[derive(Clone, Copy, Debug, PartialEq, Eq)]
pub struct DirectoryWord {
    pub node: u16,
    pub depth: u8,
}

impl DirectoryWord {
    /// What a directory word says.
    pub fn of(word: u64) -> DirectoryWord
        requires { word < 256 * 2 ^ 16 }
        ensures row { result ≡ directory_read word }
        ensures back { directory_word result ≡ word }
    {
        DirectoryWord {
            node: (word / 256) as u16,
            depth: (word % 256) as u8,
        }
    }

    /// The directory word.
    pub fn word(self) -> u64
        ensures word { result ≡ directory_word self }
        ensures below { result < 256 * 2 ^ 16 }
        ensures back { directory_read result ≡ self }
    {
        256 * u64::from(self.node) + u64::from(self.depth)
    }
}
