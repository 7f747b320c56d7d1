//! How far the chunk of a space is.
ghost use Rattle.std.specs.Prelude.{◌≡◌, ◌≤◌, length};
ghost use Rattle.backup_lines.specs.Views.{copies_of};

/// A chain of archives, each built on the one before it.
#[derive(Clone, Copy, Debug, PartialEq, Eq)]
pub struct Chain {
    /// How many they are, 1 to 3.
    pub len: u8,
    /// Their copy ids in order of level, 0 past the length.
    pub copies: [u64; 3],
}

impl Chain {
    /// The copy ids, in order of level.
    pub fn as_slice(&self) -> &[u64]
        ensures copies { result.now ≡ copies_of self.now }
        ensures few { length result.now ≤ 3 }
    {
        let copies = &self.copies[..];
        copies.get(..usize::from(self.len)).unwrap_or(copies)
    }
}

/// What the mark of a lane says of its pages.
#[derive(Clone, Copy, Debug, PartialEq, Eq)]
pub enum LaneState {
    /// They hold the commits in effect up to a position, and of the next one the first `part` Writes into this space.
    At {
        upto: u64,
        part: u32,
    },
    /// They were emptied for a restore.
    Blank {
        restore: u64,
    },
    /// The images before one are merged, and of that one the first `entries` pages.
    Image {
        restore: u64,
        chain: Chain,
        image: u8,
        entries: u32,
    },
    /// All images are merged, and the log up to a position, as in `At`.
    Replay {
        restore: u64,
        chain: Chain,
        upto: u64,
        part: u32,
    },
}
