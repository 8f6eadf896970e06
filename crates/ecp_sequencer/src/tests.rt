ghost use Rattle.std.specs.Prelude.{◌≡◌, ◌≤◌, ◌*◌, IfOk, vec_len};
ghost use Rattle.ecp_book.specs.Logs.{logs_of, empty_log, history_log};
ghost use Rattle.ecp_sequencer.specs.Hands.{hands_of};
ghost use Rattle.ecp_sequencer.specs.Sequencers.{AreTies};

mod calls;
mod lent;
mod spine;

use super::*;
use ecp_book::{Blank, Book, Keeper, Names};
use std::alloc::Global;

/// How many callers the tests have, and how many spare hands each.
const CALLERS: u8 = 2;

const SPARE: u8 = 1;

/// How many nodes there are.
const NODES: u32 = 2;

/// How many logs that takes: the history's, those of the nodes, and two for each hand.
const LOGS: u32 = 11;

/// A book, the keeper of its history, and those of its ties.
fn opened<N: Names>(
    alloc: Global,
    blank: Blank,
) -> Result<(Book<N>, Keeper<N>, Vec<Keeper<N>>), NoMemory>
    requires book { (blank ≡ N.book) × (logs_of blank ≡ LOGS) }
    requires nodes { N.shape.nodes ≡ NODES }
    ensures history { IfOk result (λ r. r.1 ≡ empty_log history_log) }
    ensures ties { IfOk result (λ r. AreTies N.shape.nodes 0 r.2.items) }
    ensures count { IfOk result (λ r. vec_len r.2 ≡ 2 * hands_of CALLERS SPARE) }
{
    let (book, mut keepers) = Book::<N>::open(alloc, blank)?;
    let ties = keepers.split_off(1 + NODES as usize)?;
    let history = keepers.swap_remove(0);
    Ok((book, history, ties))
}
