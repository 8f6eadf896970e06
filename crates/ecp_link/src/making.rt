//! How a link is made.
ghost use Rattle.std.specs.Prelude.{◌≡◌, ◌≤◌, IfOk};
ghost use Rattle.ecp_link.specs.Links.{IsNew, IsPair};

use crate::NoMemory;
use crate::limits::{MOST_CAPACITY, MOST_SENDERS};
use crate::ring::{Parts, Ring, WORDS};
use crate::sender::Sender;
use crate::taker::Taker;
use crate::taker_end::TakerEnd;
use atomic_table::Table;
use std::alloc::Global;
use std::sync::Arc;

/// A link of `senders` senders, numbered from 0, that holds at most `capacity` items of each.
///
/// Want of memory is the only error, and drops what was made.
pub fn link<T: Drop>(
    alloc: Global,
    senders: u32,
    capacity: u32,
) -> Result<(Vec<Sender<T>>, Taker<T>), NoMemory>
    requires some { 1 ≤ senders }
    requires most { senders ≤ MOST_SENDERS }
    requires room { 1 ≤ capacity }
    requires most_room { capacity ≤ MOST_CAPACITY }
    ensures { IfOk result (λ r. IsNew senders capacity r.0.items r.1) }
{
    let mut starts = Vec::with_capacity(alloc, senders as usize)?;
    let mut ends = Vec::with_capacity(alloc, senders as usize)?;
    for number in 0..senders {
        let (start, end) = pair(alloc, number, capacity as usize)?;
        starts.push(start)?;
        ends.push(end)?;
    }
    Ok((starts, Taker { ends, next: 0 }))
}

// A ring of so many places, by its two ends.
fn pair<T: Drop>(
    alloc: Global,
    number: u32,
    capacity: usize,
) -> Result<(Sender<T>, TakerEnd<T>), NoMemory>
    requires { 1 ≤ capacity }
    ensures { IfOk result (λ r. IsPair number capacity r.0 r.1) }
{
    let (table, mut seat) = Table::vacant(alloc, &[0; WORDS], capacity, &())?;
    let ring = Arc::new(alloc, Ring { table, capacity })?;
    let sender = Sender {
        ring: Arc::try_clone(&ring)?,
        seat: ring.table.shared.split_seat::<Parts>(&mut seat),
        number,
        pushed: 0,
        place: 0,
    };
    let end = TakerEnd {
        ring,
        seat,
        taken: 0,
        place: 0,
    };
    Ok((sender, end))
}
