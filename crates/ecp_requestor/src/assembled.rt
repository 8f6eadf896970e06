ghost use Rattle.std.specs.Prelude.{◌≡◌};
ghost use Rattle.ecp_requestor.specs.Blocks.{IsAssembled};

use ecp_book::{Names, Tag};
use std::marker::Model;

/// A block whose slices are all there. Contracts see its stripe and row, the front of the plan by which it was made, and
/// its bytes: where payloads are told, the block of this stripe and row in the table that the front tells.
#[derive(Drop)]
pub struct Assembled<N: Names> {
    pub(crate) stripe: u32,
    pub(crate) row: u8,
    pub(crate) front: Tag<N>,
    pub(crate) bytes: Vec<u8>,
}

impl<N: Names> Model for Assembled<N> {
    ghost use Rattle.ecp_requestor.specs.Blocks.{AssembledState};
    ghost use Rattle.ecp_requestor.specs.BlockParts.{block_seen, IsBlockKept};

    ghost Value = { AssembledState };

    ghost view = { block_seen };

    ghost invariant = { IsBlockKept N.shape N.told };
}

impl<N: Names> Assembled<N> {
    /// The bytes of the block.
    pub fn bytes(&self) -> &[u8]
        ensures bytes { result.now ≡ self.now.bytes }
        ensures block { IsAssembled N.shape N.told self.now }
    {
        &self.bytes
    }

    /// Its bytes, which are not copied.
    pub fn into_bytes(self) -> Vec<u8>
        ensures { result.items ≡ self.bytes }
    {
        let Assembled { bytes, .. } = self;
        bytes
    }
}
