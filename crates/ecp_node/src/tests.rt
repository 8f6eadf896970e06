ghost use Rattle.std.specs.Prelude.{◌≡◌, ◌+◌, ◌<◌, ◌≤◌, false, IsTrue, IfOk, length};
ghost use Rattle.ecp_book.specs.Logs.{history_log, node_log};
ghost use Rattle.ecp_shape.specs.Losses.{losses};
ghost use Rattle.ecp_node.specs.Held.{wipes};
ghost use Rattle.ecp_node.specs.Nodes.{start_of};

use super::*;
use ecp_book::{Blank, Book, Entered, Keeper, Names, Tag};
use ecp_store::{Failed, KeepFault, Key, MemStore, Store};
use std::alloc::Global;
use std::marker::Brand;
use std::process::Abort;
use std::test::Fail;
use std::thread::{Threads, join};

/// A loss of this node, as an entry of the history.
#[derive(Drop)]
struct Loss(u64);

impl Entered for Loss {
    ghost use Rattle.std.specs.Prelude.{[], ◌∷◌};

    ghost item = { λ loss. 1 ∷ loss.0 ∷ [] };
}

/// A book of six logs, with the keepers of the history's and of node 4's.
fn book_for_node_four<N: Names, R: Abort>(
    rt: &R,
    alloc: Global,
    blank: Blank,
) -> Result<(Book<N>, Keeper<N>, Keeper<N>), Fail>
    requires { blank ≡ N.book }
    ensures history { IfOk result (λ r. (r.1.log ≡ 0) × (length r.1.items ≡ 0)) }
    ensures node { IfOk result (λ r. (r.2.log ≡ 5) × (length r.2.items ≡ 0)) }
{
    let (book, mut keepers) = Book::<N>::open(alloc, blank)?;
    let keeper = keepers.pop().ok_or("log 5")?;
    keepers.truncate(1);
    let history = keepers.pop().ok_or("log 0")?;
    assert!(rt; keeper.log() == 5 && keeper.len() == 0);
    assert!(rt; history.log() == 0 && history.len() == 0);
    Ok((book, history, keeper))
}

#[test]
fn a_failed_read_can_be_spent_and_a_wipe_loses_all(rt: HostRuntime) -> Result<(), Fail> {
    let alloc = rt.alloc();
    let blank = Blank::new(alloc, 6)?;
    let store = MemStore::new(alloc, [1].to_vec(alloc)?)?;
    failed_read::<Brand, _, _>(&rt, alloc, blank, store)
}

fn failed_read<N: Names, S: Store + Drop, R: Abort>(
    rt: &R,
    alloc: Global,
    blank: Blank,
    store: S,
) -> Result<(), Fail>
    requires book { blank ≡ N.book }
    requires tells { IsTrue S.tells }
    requires start { start_of N.stores 4 ≡ record { faults = S.faults store; faultless = S.faultless store } }
{
    let (book, mut history, keeper) = book_for_node_four::<N, R>(rt, alloc, blank)?;
    let past = book.tag(&mut history);
    let mut node = Node::new(alloc, 4, store, keeper, past);
    let Ok(mut receipt) = node.keep(&book, 0, 1, 0, &[0x0a, 0x0b]) else {
        return Err("kept".into());
    };
    assert!(rt; receipt.serial() == 0 && receipt.inc() == 0 && receipt.node() == 4);
    assert!(rt; node.faults() == 0);
    let mut buf = [0u8; 2];
    assert_eq!(rt;
        node.read_slice(&book, &mut receipt, 0, &mut buf),
        Err(NodeRead::Failed)
    );
    assert!(rt; node.faults() == 1);
    assert_eq!(rt;
        node.fault(),
        Some(Fault {
            stripe: 0,
            row: 1,
            wrote: false
        })
    );
    let mut byte = [0u8];
    assert_eq!(rt; node.read_slice(&book, &mut receipt, 1, &mut byte), Ok(()));
    assert_eq!(rt; byte, [0x0b]);
    book.append(&mut history, &Loss(4));
    let past = book.tag(&mut history);
    wiped(rt, &book, &mut node, &mut receipt, past);
    assert_eq!(rt; node.into_store().served(), 1);
    Ok(())
}

fn wiped<N: Names, S: Store + Drop, R: Abort>(
    rt: &R,
    book: &Book<N>,
    node: &mut Node<N, S>,
    receipt: &mut Receipt<N>,
    past: Tag<N>,
)
    requires past { past.log ≡ history_log }
    requires lost { losses node.old.number past.items ≡ 1 }
    requires own { receipt.old.node ≡ node.old.number }
    requires some { length receipt.old.bytes ≡ 2 }
{
    assert!(rt; node.incarnation() == 0);
    node.wipe(book, past);
    assert!(rt; node.incarnation() == 1);
    let mut byte = [0u8];
    assert_eq!(rt;
        node.read_slice(book, receipt, 0, &mut byte),
        Err(NodeRead::Lost(1))
    );
    assert!(rt; node.faults() == 1);
    let again = node.keep(book, 0, 1, 0, &[0x0a, 0x0b]);
    assert_eq!(rt; again.err(), Some(NodeKeep::Gone(1)));
}

#[test]
fn a_failed_keep_is_spent_and_a_failed_removal_is_not_counted(rt: HostRuntime) -> Result<(), Fail> {
    let alloc = rt.alloc();
    let blank = Blank::new(alloc, 6)?;
    let store = MemStore::new(alloc, [0, 3].to_vec(alloc)?)?;
    failed_keep::<Brand, _, _>(&rt, alloc, blank, store)
}

fn failed_keep<N: Names, S: Store + Drop, R: Abort>(
    rt: &R,
    alloc: Global,
    blank: Blank,
    store: S,
) -> Result<(), Fail>
    requires book { blank ≡ N.book }
    requires tells { IsTrue S.tells }
    requires start { start_of N.stores 4 ≡ record { faults = S.faults store; faultless = S.faultless store } }
{
    let (book, mut history, mut keeper) = book_for_node_four::<N, R>(rt, alloc, blank)?;
    let past = book.tag(&mut history);
    let mut seen = book.tag(&mut keeper);
    let mut node = Node::new(alloc, 4, store, keeper, past);
    let refused = node.keep(&book, 2, 1, 0, &[7, 8, 9]);
    assert_eq!(rt; refused.err(), Some(NodeKeep::Failed));
    let fault = node.fault();
    assert_eq!(rt;
        fault,
        Some(Fault {
            stripe: 2,
            row: 1,
            wrote: true
        })
    );
    assert!(rt; fault.is_some());
    node.spend(&book, &mut seen);
    assert!(rt; node.spent() == 1 && node.faults() == 1 && node.fault().is_none());
    assert!(rt; seen.len() == 2);
    let Ok(mut receipt) = node.keep(&book, 2, 1, 0, &[7, 8, 9]) else {
        return Err("kept".into());
    };
    assert!(rt; receipt.serial() == 2 && receipt.stripe() == 2 && receipt.row() == 1);
    removed(rt, &book, &mut node, &mut receipt);
    node.meet(&book, &mut seen);
    assert!(rt; node.number() == 4 && node.past(&book).len() == 0);
    Ok(())
}

fn removed<N: Names, S: Store + Drop, R: Abort>(
    rt: &R,
    book: &Book<N>,
    node: &mut Node<N, S>,
    receipt: &mut Receipt<N>,
)
    requires own { receipt.old.node ≡ node.old.number }
    requires some { length receipt.old.bytes ≡ 3 }
    ensures { node.new.number ≡ node.old.number }
{
    let mut copy = receipt.copy(book);
    let mut buf = [0u8; 2];
    assert_eq!(rt; node.read_slice(book, &mut copy, 1, &mut buf), Ok(()));
    assert_eq!(rt; buf, [8, 9]);
    assert_eq!(rt; node.remove(book, receipt), Err(Failed));
    assert!(rt; node.faults() == 1 && node.fault().is_none());
    assert_eq!(rt;
        node.read_slice(book, &mut copy, 1, &mut buf),
        Err(NodeRead::Lost(0))
    );
    assert_eq!(rt; node.remove(book, &mut copy), Ok(()));
}

#[test]
fn a_node_and_a_receipt_go_to_another_thread(rt: HostRuntime) -> Result<(), Fail> {
    let alloc = rt.alloc();
    let blank = Blank::new(alloc, 6)?;
    let store = MemStore::new(alloc, Vec::new(alloc))?;
    elsewhere::<Brand, _, _>(&rt, alloc, blank, store)
}

fn elsewhere<N: Names + Send + Sync, S: Store + Drop + Send, R: Threads + Abort + Sync>(
    rt: &R,
    alloc: Global,
    blank: Blank,
    store: S,
) -> Result<(), Fail>
    requires book { blank ≡ N.book }
    requires tells { IsTrue S.tells }
    requires start { start_of N.stores 4 ≡ record { faults = S.faults store; faultless = S.faultless store } }
{
    let (book, mut history, keeper) = book_for_node_four::<N, R>(rt, alloc, blank)?;
    let past = book.tag(&mut history);
    let mut node = Node::new(alloc, 4, store, keeper, past);
    let Ok(mut receipt) = node.keep(&book, 0, 1, 0, &[5]) else {
        return Err("kept".into());
    };
    let copy = receipt.copy(&book);
    let (number, node_of_copy) = join(rt, move || node.number(), move || copy.node());
    assert!(rt; number == 4 && node_of_copy == receipt.node());
    Ok(())
}

/// A store that tells nothing, keeps nothing and counts what it is asked to remove.
#[derive(Drop)]
struct Removals {
    asked: u32,
    served: u64,
}

impl Store for Removals {
    ghost use Rattle.std.specs.Prelude.{false, None};
    ghost use Rattle.std.proofs.Common.{rules};

    ghost tells = { false };

    ghost held = { λ _ _. None };

    ghost faults = { λ _. 0 };

    ghost served = { λ store. store.served };

    ghost faultless = { λ _. false };

    fn keep(&mut self, _key: Key, _bytes: &[u8]) -> Result<(), KeepFault> {
        Ok(())
    }

    fn read(&mut self, _key: Key, _off: u32, buf: &mut [u8]) -> Result<(), Failed> {
        self.served = self.served.saturating_add(buf.len() as u64);
        Ok(())
    }

    fn remove(&mut self, _key: Key) -> Result<(), Failed> {
        self.asked = self.asked.saturating_add(1);
        Ok(())
    }

    fn served(&self) -> u64 {
        self.served
    }

    ghost faultless_tells = { λ _ sure. Prim.search rules };

    ghost faultless_counts = { λ _ sure. Prim.search rules };
}

#[test]
fn a_removal_and_a_wipe_ask_the_store(rt: HostRuntime) -> Result<(), Fail> {
    let blank = Blank::new(rt.alloc(), 6)?;
    asked::<Brand, _>(&rt, rt.alloc(), blank)
}

fn asked<N: Names, R: Abort>(rt: &R, alloc: Global, blank: Blank) -> Result<(), Fail>
    requires book { blank ≡ N.book }
    requires told { IsTrue N.told → ⊥ }
    requires start { start_of N.stores 4 ≡ record { faults = 0; faultless = false } }
{
    let (book, mut history, keeper) = book_for_node_four::<N, R>(rt, alloc, blank)?;
    let past = book.tag(&mut history);
    let store = Removals {
        asked: 0,
        served: 0,
    };
    let mut node = Node::new(alloc, 4, store, keeper, past);
    let Ok(mut first) = node.keep(&book, 0, 1, 0, &[5]) else {
        return Err("kept".into());
    };
    let Ok(_second) = node.keep(&book, 0, 2, 0, &[6]) else {
        return Err("kept".into());
    };
    assert_eq!(rt; node.remove(&book, &mut first), Ok(()));
    book.append(&mut history, &Loss(4));
    let past = book.tag(&mut history);
    assert!(rt; node.incarnation() == 0);
    node.wipe(&book, past);
    assert_eq!(rt; node.into_store().asked, 2);
    Ok(())
}
