ghost use Rattle.std.specs.Prelude.{◌≡◌, IfOk, vec_len};
ghost use Rattle.ecp_shape.specs.declared.limits.TheConstants.{MAX_NODES};

use ecp_shape::limits::MAX_NODES;
use ecp_store::{MemStore, NoMemory};
use std::alloc::Global;

/// An empty store in memory for each node that there may be, of which no call fails. Want of memory is the only error.
pub fn stores_in_memory(alloc: Global) -> Result<Vec<MemStore>, NoMemory>
    ensures { IfOk result (λ stores. vec_len stores ≡ MAX_NODES) }
{
    let mut stores = Vec::with_capacity(alloc, MAX_NODES as usize)?;
    for _node in 0..MAX_NODES {
        stores.push_reserved(MemStore::new(alloc, Vec::new(alloc))?);
    }
    Ok(stores)
}
