ghost use Rattle.std.specs.Prelude.{◌≡◌, [], length, IfOk};
ghost use Rattle.std.specs.VecDeque.{deque_capacity};

use ecp_book::Names;
use ecp_slice::SliceMsg;
use ecp_store::NoMemory;
use std::alloc::Global;
use std::collections::VecDeque;

/// All the memory that a helper has: for the messages that it holds, the oldest first, and for a slice that is read.
#[derive(Drop)]
pub(crate) struct Room<N: Names> {
    /// Those whose slice was added here.
    pub(crate) added: VecDeque<SliceMsg<N>>,
    /// Those that wait for that.
    pub(crate) waiting: VecDeque<SliceMsg<N>>,
    pub(crate) buffer: Vec<u8>,
}

impl<N: Names> Room<N> {
    /// Room for so many messages of each kind, and for a block of so many bytes.
    pub(crate) fn new(alloc: Global, holds: usize, block: u32) -> Result<Room<N>, NoMemory>
        ensures added { IfOk result (λ r. r.added.items ≡ []) }
        ensures waiting { IfOk result (λ r. r.waiting.items ≡ []) }
        ensures room_added { IfOk result (λ r. deque_capacity r.added ≡ holds) }
        ensures room_waiting { IfOk result (λ r. deque_capacity r.waiting ≡ holds) }
        ensures block { IfOk result (λ r. length r.buffer.items ≡ block) }
    {
        Ok(Room {
            added: VecDeque::with_capacity(alloc, holds)?,
            waiting: VecDeque::with_capacity(alloc, holds)?,
            buffer: vec![in alloc; 0; block as usize]?,
        })
    }
}
