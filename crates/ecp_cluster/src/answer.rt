ghost use Rattle.std.specs.Prelude.{◌≡◌, [], true};
ghost use Rattle.ecp_cluster.specs.Summed.{digest_of};

use ecp_entry::Act;
use ecp_store::Block;
use sha2::{Digest, Sha256};
use std::alloc::Global;

/// What a call came to that asks for bytes.
#[derive(Drop)]
pub struct Answer {
    /// The act of the call's entry.
    pub act: Act,
    /// The bytes of the block where a read has data, else none.
    pub bytes: Block,
    /// Whether it is a sum's: it has the digest of the block in place of the bytes.
    pub by_digest: bool,
    /// The SHA-256 of the block, where a sum has data, or of the file that was read whole; else zero.
    pub digest: [u8; 32],
    /// How many bytes the file has that was opened to be read whole; else 0.
    pub len: u32,
    /// How the part ended that broke the reading of a file off; else the act of the call's entry.
    pub cause: Act,
}

impl Answer {
    /// This answer by the digest of its bytes, which it does not give.
    pub(crate) fn digested(self, alloc: Global) -> Answer
        ensures act { result.act ≡ self.act }
        ensures none { result.bytes ≡ [] }
        ensures by_digest { result.by_digest ≡ true }
        ensures digest { result.digest ≡ digest_of self.act self.bytes }
    {
        Answer {
            act: self.act,
            by_digest: true,
            digest: digest_for(self.act, self.bytes.bytes()),
            bytes: Block::new(Vec::new(alloc)),
            len: 0,
            cause: self.act,
        }
    }
}

// The digest of what an answer with this act has: of these bytes where that is data, else zero.
fn digest_for(act: Act, bytes: &[u8]) -> [u8; 32]
    ensures { result ≡ digest_of act bytes.now }
{
    if let Act::Data = act {
        Sha256::digest(bytes)
    } else {
        [0; 32]
    }
}
