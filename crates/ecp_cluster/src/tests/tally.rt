//! A store that counts its blocks.
use ecp_store::{Failed, KeepFault, Key, Store};

/// It tells nothing, and holds no bytes: it counts the blocks that it was given less those that it was asked to remove.
#[derive(Drop)]
pub(super) struct Tally {
    pub(super) blocks: u64,
    served: u64,
}

impl Tally {
    pub(super) fn new() -> Tally {
        Tally {
            blocks: 0,
            served: 0,
        }
    }
}

/// How many blocks these stores have together.
pub(super) fn kept(stores: &[Tally]) -> u64 {
    stores
        .iter()
        .fold(0, |sum, store| sum.saturating_add(store.blocks))
}

impl Store for Tally {
    ghost use Rattle.std.specs.Prelude.{false, None};
    ghost use Rattle.std.proofs.Common.{rules};

    ghost tells = { false };

    ghost held = { λ _ _. None };

    ghost faults = { λ _. 0 };

    ghost served = { λ store. store.served };

    ghost faultless = { λ _. false };

    fn keep(&mut self, _key: Key, _bytes: &[u8]) -> Result<(), KeepFault> {
        self.blocks = self.blocks.saturating_add(1);
        Ok(())
    }

    fn read(&mut self, _key: Key, _off: u32, buf: &mut [u8]) -> Result<(), Failed> {
        self.served = self.served.saturating_add(buf.len() as u64);
        Ok(())
    }

    fn remove(&mut self, _key: Key) -> Result<(), Failed> {
        self.blocks = self.blocks.saturating_sub(1);
        Ok(())
    }

    fn served(&self) -> u64 {
        self.served
    }

    ghost faultless_tells = { λ _ sure. Prim.search rules };

    ghost faultless_counts = { λ _ sure. Prim.search rules };
}
