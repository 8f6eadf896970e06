//! Links of which each owner has a sender.
ghost use Rattle.std.specs.Prelude.{◌≡◌, ℕ, ◌+◌, ◌≤◌, All, IfOk, OnOk, vec_len};
ghost use Rattle.ecp_link.specs.declared.limits.TheConstants.{MOST_CAPACITY, MOST_SENDERS};

use crate::NoMemory;
use ecp_link::{Sender, Taker, link};
use std::alloc::Global;

/// So many links, by their takers, and for each of so many owners its senders: one to each link, by the links' numbers. A link
/// holds at most `capacity` items of each.
pub(super) fn links<T: Drop>(
    alloc: Global,
    owners: u32,
    links: u32,
    capacity: u32,
) -> Result<(Vec<Vec<Sender<T>>>, Vec<Taker<T>>), NoMemory>
    requires some { 1 ≤ owners }
    requires most { owners ≤ MOST_SENDERS }
    requires room { 1 ≤ capacity }
    requires most_room { capacity ≤ MOST_CAPACITY }
    ensures owners { IfOk result (λ r. vec_len r.0 ≡ owners) }
    ensures senders { IfOk result (λ r. All (λ v. vec_len v ≡ links) r.0.items) }
    ensures takers { IfOk result (λ r. vec_len r.1 ≡ links) }
{
    let mut all = none_each(alloc, owners)?;
    let mut takers = Vec::with_capacity(alloc, links as usize)?;
    for _ in 0..links {
        let (row, taker) = link(alloc, owners, capacity)?;
        deal(&mut all, row)?;
        takers.push(taker)?;
    }
    Ok((all, takers))
}

// No sender for each of so many owners.
fn none_each<T: Drop>(alloc: Global, owners: u32) -> Result<Vec<Vec<Sender<T>>>, NoMemory>
    ensures owners { IfOk result (λ all. vec_len all ≡ owners) }
    ensures none { IfOk result (λ all. All (λ v. vec_len v ≡ 0) all.items) }
{
    let mut all = Vec::with_capacity(alloc, owners as usize)?;
    for _ in 0..owners {
        all.push(Vec::new(alloc))?;
    }
    Ok(all)
}

// Gives each owner its sender of the row.
fn deal<T: Drop>(all: &mut Vec<Vec<Sender<T>>>, mut row: Vec<Sender<T>>) -> Result<(), NoMemory>
    requires { vec_len row ≡ vec_len all.old }
    ensures owners { vec_len all.new ≡ vec_len all.old }
    ensures senders { OnOk result ((n : ℕ) → All (λ v. vec_len v ≡ n) all.old.items → All (λ v. vec_len v ≡ n + 1) all.new.items) }
{
    row.reverse();
    for owner in 0..all.len() {
        let Some(sender) = row.pop() else {
            unreachable!()
        };
        all[owner].push(sender)?;
    }
    Ok(())
}
