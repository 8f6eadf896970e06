//! The plain form of a link: one queue for all senders, in which each item is marked with its sender.
//!
//! It is the reference for the links of this crate, and may wait. Its capacity is that of all senders together.
ghost use Rattle.std.specs.Prelude.{◌≡◌, ◌≤◌, IfOk};
ghost use Rattle.ecp_link.specs.Queued.{IsNew};

mod rule;
mod sender;
mod taker;
#[cfg(test)]
mod tests;
mod view;

use crate::NoMemory;
use crate::limits::{MOST_CAPACITY, MOST_SENDERS};
use rule::Queue;
pub use sender::Sender;
use std::alloc::Global;
use std::sync::Arc;
pub use taker::Taker;

/// A link of `senders` senders, numbered from 0, that holds at most `capacity` items in all.
///
/// Want of memory is the only error, and drops what was made.
pub fn link<T: Drop>(
    alloc: Global,
    senders: u32,
    capacity: u32,
) -> Result<(Vec<Sender<T>>, Taker<T>), NoMemory>
    requires some { 1 ≤ senders }
    requires most { senders ≤ MOST_SENDERS }
    requires room { 1 ≤ capacity }
    requires most_room { capacity ≤ MOST_CAPACITY }
    ensures { IfOk result (λ r. IsNew senders capacity r.0.items r.1) }
{
    let (queue, pass) = Queue::ruled(alloc, capacity as usize)?;
    let mut taker = Taker::new(Arc::new(alloc, queue)?, pass);
    let mut ends = Vec::with_capacity(alloc, senders as usize)?;
    for number in 0..senders {
        ends.push(taker.next_sender(number)?)?;
    }
    Ok((ends, taker))
}
