ghost use Rattle.std.specs.Prelude.{◌≡◌, ◌↔◌, refl, true, [], length, Some, None, if◌then◌else◌, is_ok, IsErr, IsErrOf, IfOk, OnOk, OnErr};
ghost use Rattle.ecp_store.specs.Calls.{no_calls, IsListed, after_success, after_failure};
ghost use Rattle.ecp_store.specs.MemStores.{MemStoreState, block_at, no_call_fails, no_call_fails_counts, after_keep};
ghost use Rattle.ecp_store.specs.Stores.{Puts, HasPart, IsPart, and_served};

use crate::failing_calls::FailingCalls;
use crate::{Block, Failed, KeepFault, Key, NoMemory, Store};
use std::alloc::Global;
use std::collections::HashMap;
use std::marker::Model;

// The number of blocks that there is room for at the making.
const FIRST_ROOM: usize = 16;

/// A store that keeps its blocks in memory, and tells everything.
///
/// Each call finds its block in constant time. The calls whose numbers were listed at its making fail, and no
/// others; all calls but [`Store::served`] are counted together. It holds the bytes, and some 100 bytes more for each block.
#[derive(Drop)]
pub struct MemStore {
    blocks: HashMap<Key, Block>,
    served: u64,
    calls: FailingCalls,
    alloc: Global,
}

impl Model for MemStore {
    ghost Value = { MemStoreState };

    ghost view = { λ store. record { blocks = store.blocks.entries; served = store.served; calls = store.calls } };
}

impl MemStore {
    /// An empty store. `fail` has the numbers of the calls that fail, counted from 0. Want of memory is the only
    /// error.
    pub fn new(alloc: Global, fail: Vec<u64>) -> Result<Self, NoMemory>
        ensures { IfOk result (λ store. store ≡ record { blocks = []; served = 0; calls = no_calls fail.items }) }
    {
        Ok(MemStore {
            blocks: HashMap::with_capacity(alloc, FIRST_ROOM)?,
            served: 0,
            calls: FailingCalls::new(fail),
            alloc,
        })
    }
}

// So many bytes at `off` of those under the key.
fn part_of<'a>(blocks: &'a HashMap<Key, Block>, key: &Key, off: usize, len: usize) -> &'a [u8]
    requires { HasPart (block_at blocks.now.entries key.now) off len }
    ensures part { IsPart (block_at blocks.now.entries key.now) off result.now }
    ensures len { length result.now ≡ len }
{
    let block = blocks.get(key).unwrap();
    &block.bytes()[off..off + len]
}

impl Store for MemStore {
    ghost tells = { true };

    ghost held = { λ store. block_at store.blocks };

    ghost faults = { λ store. store.calls.faults };

    ghost served = { λ store. store.served };

    ghost faultless = { λ store. no_call_fails store.calls };

    fn keep(&mut self, key: Key, bytes: &[u8]) -> Result<(), KeepFault>
        ensures fails { IsErrOf result KeepFault.Failed ↔ IsListed self.old.calls }
        ensures ok { OnOk result (Puts key (Some bytes.now) (block_at self.old.blocks) (block_at self.new.blocks)) }
        ensures err { OnErr result (self.new.blocks ≡ self.old.blocks) }
        ensures served { self.new.served ≡ self.old.served }
        ensures calls { self.new.calls ≡ after_keep result self.old.calls }
    {
        self.calls.begin()?;
        let block = Block::new(bytes.to_vec(self.alloc)?);
        self.blocks.insert(key, block)?;
        Ok(())
    }

    fn read(&mut self, key: Key, off: u32, buf: &mut [u8]) -> Result<(), Failed>
        requires { HasPart (block_at self.old.blocks key) off (length buf.old) }

        ensures fails { IsErr result ↔ IsListed self.old.calls }
        ensures bytes { OnOk result (IsPart (block_at self.old.blocks key) off buf.new) }
        ensures ok { OnOk result (self.new ≡ record self.old { served = and_served self.old.served (length buf.new); calls = after_success self.old.calls }) }
        ensures err { OnErr result (self.new ≡ record self.old { calls = after_failure self.old.calls }) }
    {
        self.calls.begin()?;
        buf.copy_from_slice(part_of(&self.blocks, &key, off as usize, buf.len()));
        self.served = self.served.saturating_add(buf.len() as u64);
        Ok(())
    }

    fn remove(&mut self, key: Key) -> Result<(), Failed>
        ensures fails { IsErr result ↔ IsListed self.old.calls }
        ensures ok { OnOk result (Puts key None (block_at self.old.blocks) (block_at self.new.blocks)) }
        ensures err { OnErr result (self.new.blocks ≡ self.old.blocks) }
        ensures served { self.new.served ≡ self.old.served }
        ensures calls { self.new.calls ≡ (if is_ok result then after_success self.old.calls else after_failure self.old.calls) }
    {
        self.calls.begin()?;
        let _ = self.blocks.remove(&key);
        Ok(())
    }

    fn served(&self) -> u64
        ensures { result ≡ self.now.served }
    {
        self.served
    }

    ghost faultless_tells = { λ _ _. refl };

    ghost faultless_counts = { λ store sure. no_call_fails_counts store.calls sure };
}
