//! How a sequencer and the passes of its callers are made.
ghost use Rattle.std.specs.Prelude.{◌≡◌, ℕ, ◌+◌, ◌*◌, ◌^◌, ◌<◌, ◌≤◌, [], IfOk, OnOk, vec_len};
ghost use Rattle.std.specs.Vec.Iter.{into_iter_items, into_iter_len};
ghost use Rattle.ecp_book.specs.Logs.{empty_log, history_log};
ghost use Rattle.ecp_sequencer.specs.Hands.{hands_of, own_hand};
ghost use Rattle.ecp_sequencer.specs.Passes.{first_pass, first_passes};
ghost use Rattle.ecp_sequencer.specs.Sequencers.{AreTies, at_start, new_desks};

use crate::NoMemory;
use crate::desk::Desk;
use crate::hand::Hand;
use crate::pass::Pass;
use crate::sequencer::Sequencer;
use crate::tie::Tie;
use ecp_book::{Book, Keeper, Names, Tag};
use ecp_history::Journal;
use ecp_shape::limits::{MAX_SESSIONS, MAX_WORKERS};
use std::alloc::Global;
use std::vec::IntoIter;

impl<N: Names> Sequencer<N> {
    /// A sequencer of an empty history, and a pass for each caller, in rising order, with all its spare hands.
    ///
    /// `ties` are the keepers of the logs behind those of the nodes, in their order, two for each hand. Want of memory is
    /// the only error, and drops them.
    pub fn new(
        alloc: Global,
        book: &Book<N>,
        mut history: Keeper<N>,
        ties: Vec<Keeper<N>>,
        callers: u8,
        spare: u8,
    ) -> Result<(Sequencer<N>, Vec<Pass<N>>), NoMemory>
        requires history { history ≡ empty_log history_log }
        requires callers { (callers ≡ N.callers) × (callers ≤ MAX_SESSIONS) }
        requires spare { (spare ≡ N.spare_hands) × (spare ≤ MAX_WORKERS) }
        requires ties { AreTies N.shape.nodes 0 ties.items }
        requires count { vec_len ties ≡ 2 * hands_of callers spare }
        ensures sequencer { IfOk result (λ r. r.0 ≡ at_start (hands_of callers spare)) }
        ensures passes { IfOk result (λ r. r.1.items ≡ first_passes spare callers) }
    {
        let mut keepers = ties.into_iter();
        let mut desks = Vec::new(alloc);
        let mut passes = Vec::new(alloc);
        for caller in 0..callers {
            let front = book.tag(&mut history);
            let pass = next_pass(alloc, book, &mut keepers, &mut desks, front, caller, spare)?;
            passes.push(pass)?;
        }
        let sequencer = Sequencer {
            keeper: history,
            journal: Journal::new(alloc),
            desks,
            taken: 0,
        };
        Ok((sequencer, passes))
    }
}

// The pass of the next caller, with its hands.
fn next_pass<N: Names>(
    alloc: Global,
    book: &Book<N>,
    keepers: &mut IntoIter<Keeper<N>, Global>,
    desks: &mut Vec<Desk<N>>,
    front: Tag<N>,
    caller: u8,
    spare: u8,
) -> Result<Pass<N>, NoMemory>
    requires front { front ≡ empty_log history_log }
    requires caller { (caller < N.callers) × (caller < MAX_SESSIONS) }
    requires spare { (spare ≡ N.spare_hands) × (spare ≤ MAX_WORKERS) }
    requires desks { desks.old.items ≡ new_desks (own_hand spare caller) }
    requires ties { AreTies N.shape.nodes (own_hand spare caller) (into_iter_items keepers.old) }
    requires count { 2 * (1 + spare) ≤ into_iter_len keepers.old }
    ensures pass { IfOk result (λ p. p ≡ first_pass spare caller) }
    ensures desks { OnOk result (desks.new.items ≡ new_desks (own_hand spare caller + (1 + spare))) }
    ensures ties { OnOk result (AreTies N.shape.nodes (own_hand spare caller + (1 + spare)) (into_iter_items keepers.new)) }
    ensures count { OnOk result (into_iter_len keepers.new + 2 * (1 + spare) ≡ into_iter_len keepers.old) }
{
    let hand = next_hand(book, keepers, desks)?;
    let mut held = Vec::with_capacity(alloc, usize::from(spare))?;
    for _ in 0..spare {
        let next = next_hand(book, keepers, desks)?;
        held.push_reserved(next);
    }
    Ok(Pass {
        caller,
        calls: 0,
        number: 0,
        deed: None,
        front,
        hand,
        spare: held,
    })
}

// Ties the next hand to the next desk.
fn next_hand<N: Names>(
    book: &Book<N>,
    keepers: &mut IntoIter<Keeper<N>, Global>,
    desks: &mut Vec<Desk<N>>,
) -> Result<Hand<N>, NoMemory>
    requires few { vec_len desks.old < 2 ^ 8 }
    requires desks { desks.old.items ≡ new_desks (vec_len desks.old) }
    requires ties { AreTies N.shape.nodes (vec_len desks.old) (into_iter_items keepers.old) }
    requires count { 2 ≤ into_iter_len keepers.old }
    ensures hand { IfOk result (λ h. h ≡ record { hand = vec_len desks.old; notes = [] }) }
    ensures desks { OnOk result (desks.new.items ≡ new_desks (vec_len desks.old + 1)) }
    ensures len { OnOk result (vec_len desks.new ≡ vec_len desks.old + 1) }
    ensures ties { OnOk result (AreTies N.shape.nodes (vec_len desks.old + 1) (into_iter_items keepers.new)) }
    ensures count { OnOk result (into_iter_len keepers.new + 2 ≡ into_iter_len keepers.old) }
{
    let number = desks.len() as u8;
    let one = keepers.next().unwrap();
    let other = keepers.next().unwrap();
    let (spoken, heard) = Tie::pair(book, one, other);
    desks.push(Desk {
        number,
        room: 0,
        opened: false,
        tie: heard,
    })?;
    Ok(Hand {
        number,
        tie: spoken,
    })
}
