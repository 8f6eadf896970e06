//! The digest of a file that is read block by block.
ghost use Rattle.std.specs.Prelude.{◌≡◌, ℕ, List, [], ◌++◌, take};
ghost use Rattle.sha2.specs.Sha256.{sha256};
ghost use Rattle.ecp_cluster.specs.Reading.{HasTaken};

use sha2::{Digest, Sha256};

/// The SHA-256 of a file, over its bytes as they come. What the last block has past the file's end is not in it.
#[derive(Drop)]
pub(crate) struct FileSum {
    pub(crate) hasher: Sha256,
    /// How many of the file's bytes are still to come.
    pub(crate) left: usize,
}

impl FileSum {
    /// That of a file of this length, of which no byte came yet.
    pub(crate) fn new(len: u32) -> FileSum
        ensures { HasTaken len result [] }
    {
        FileSum {
            hasher: Sha256::new(),
            left: len as usize,
        }
    }

    /// Takes the next block.
    pub(crate) fn add(&mut self, block: &[u8])
        ensures { (len : ℕ) (bytes : List ℕ) → HasTaken len self.old bytes → HasTaken len self.new (bytes ++ block.now) }
    {
        let more = &block[..self.left.min(block.len())];
        self.hasher.update(more);
        self.left -= more.len();
    }

    /// The digest of the file, once all its blocks came.
    pub(crate) fn finish(self) -> [u8; 32]
        ensures { (len : ℕ) (bytes : List ℕ) → HasTaken len self bytes → result ≡ sha256 (take len bytes) }
    {
        self.hasher.finalize()
    }
}
