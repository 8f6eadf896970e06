//! Messages of plans over a history that stores one file, with the nodes that have its rows.
ghost use Rattle.std.specs.Prelude.{◌≡◌, ◌+◌, ◌<◌, ◌≤◌, [], ◌∷◌, true, length, IsTrue, IfOk};
ghost use Rattle.ecp_book.specs.Logs.{empty_log, history_log, node_log};
ghost use Rattle.ecp_node.specs.Nodes.{start_of};
ghost use Rattle.ecp_plan.specs.Plans as plans;
ghost use Rattle.ecp_slice.specs.OneFile.{three_rows, file_item, IsReceiptOf};

use crate::{Cancel, Next, SliceMsg};
use ecp_book::{Blank, Book, Entered, Keeper, Names, Tag};
use ecp_history::Part;
use ecp_node::{Node, Receipt};
use ecp_plan::{Hop, Plan, Voids};
use ecp_store::{MemStore, Store};
use std::alloc::Global;
use std::marker::Brand;
use std::process::Abort;
use std::test::Fail;
use std::thread::{Threads, join};

/// The first entry of a history, which stores a file of these bytes.
#[derive(Drop)]
struct File<'a>(&'a [u8]);

impl<'a> Entered for File<'a> {
    ghost use Rattle.ecp_slice.specs.OneFile.{file_item};

    ghost item = { λ file. file_item file.0.now };
}

/// A book of which the history stores the file: with the keepers of the history and of nodes 1 and 2.
fn book_with_file<N: Names, R: Abort>(
    rt: &R,
    alloc: Global,
    blank: Blank,
    bytes: &[u8],
) -> Result<(Book<N>, Keeper<N>, Keeper<N>, Keeper<N>), Fail>
    requires { blank ≡ N.book }
    ensures history { IfOk result (λ r. r.1 ≡ record { log = history_log; items = file_item bytes.now ∷ [] }) }
    ensures one { IfOk result (λ r. (r.2.log ≡ 2) × (length r.2.items ≡ 0)) }
    ensures two { IfOk result (λ r. (r.3.log ≡ 3) × (length r.3.items ≡ 0)) }
{
    let (book, mut keepers) = Book::<N>::open(alloc, blank)?;
    let two = keepers.pop().ok_or("log 3")?;
    let one = keepers.pop().ok_or("log 2")?;
    keepers.truncate(1);
    let mut history = keepers.pop().ok_or("log 0")?;
    assert!(rt; two.log() == 3 && two.len() == 0);
    assert!(rt; one.log() == 2 && one.len() == 0);
    assert!(rt; history.log() == 0 && history.len() == 0);
    book.append(&mut history, &File(bytes));
    Ok((book, history, one, two))
}

/// A plan of the first attempt of repair 0, for a row of stripe 0, in one lane.
fn plan_for<N: Names>(row: u8, hops: Vec<Hop<N>>, block: u32, slice: u32, front: Tag<N>) -> Plan<N>
    ensures stripe { result.stripe ≡ 0 }
    ensures row { result.row ≡ row }
    ensures lanes { result.lanes ≡ 1 }
    ensures block { result.block ≡ block }
    ensures slice { result.slice ≡ slice }
    ensures hops { result.hops ≡ hops }
    ensures front { result.front ≡ front }
{
    Plan {
        repair: 0,
        attempt: 1,
        part: Part::End,
        stripe: 0,
        row,
        lanes: 1,
        hops,
        block,
        slice,
        point: 1,
        front,
        to: None,
        voids: Voids {
            len: 0,
            at: [0; 16],
        },
    }
}

/// Adds the slice of the next helper, as its node reads it.
fn visit<N: Names, S: Store + Drop, R: Abort>(
    rt: &R,
    book: &Book<N>,
    message: &mut SliceMsg<N>,
    node: &mut Node<N, S>,
    buf: &mut [u8],
) -> Result<(), Fail> {
    assert!(rt; !message.is_full() && message.next() == Next::Node(node.number()));
    assert!(rt; buf.len() == message.len() as usize);
    let hop = message.next_hop();
    let Ok(()) = message.read_from(book, node, buf) else {
        return Err("read".into());
    };
    message.add(hop, buf);
    Ok(())
}

/// The plan for row 0 of data 41 and 42, by rows 1 and 2.
fn by_two<N: Names>(
    alloc: Global,
    front: Tag<N>,
    one: Receipt<N>,
    two: Receipt<N>,
) -> Result<Plan<N>, Fail>
    requires shape { N.shape ≡ three_rows 1 }
    requires told { N.told ≡ true }
    requires front { front ≡ record { log = history_log; items = file_item (0x41 ∷ 0x42 ∷ []) ∷ [] } }
    requires one { IsReceiptOf one 1 1 (0x42 ∷ []) }
    requires two { IsReceiptOf two 2 2 (0x47 ∷ []) }
    ensures sound { IfOk result (plans.IsSound N.shape N.told) }
    ensures cut { IfOk result (λ plan. (plan.block ≡ 1) × (plan.slice ≡ 1)) }
{
    let mut hops = Vec::with_capacity(alloc, 2)?;
    hops.push(Hop {
        row: 1,
        node: 1,
        inc: 0,
        weight: 0xf5,
        receipt: one,
    })?;
    hops.push(Hop {
        row: 2,
        node: 2,
        inc: 0,
        weight: 0xf4,
        receipt: two,
    })?;
    Ok(plan_for(0, hops, 1, 1, front))
}

/// The plan for row 1 itself of data of five bytes a block, in slices of two.
fn by_itself<N: Names>(alloc: Global, front: Tag<N>, receipt: Receipt<N>) -> Result<Plan<N>, Fail>
    requires shape { N.shape ≡ three_rows 5 }
    requires told { N.told ≡ true }
    requires front { front ≡ record { log = history_log; items = file_item (1 ∷ 2 ∷ 3 ∷ 4 ∷ 5 ∷ 6 ∷ 7 ∷ 8 ∷ 9 ∷ 10 ∷ []) ∷ [] } }
    requires receipt { IsReceiptOf receipt 1 1 (6 ∷ 7 ∷ 8 ∷ 9 ∷ 10 ∷ []) }
    ensures sound { IfOk result (plans.IsSound N.shape N.told) }
    ensures cut { IfOk result (λ plan. (plan.block ≡ 5) × (plan.slice ≡ 2)) }
{
    let mut hops = Vec::with_capacity(alloc, 1)?;
    hops.push(Hop {
        row: 1,
        node: 1,
        inc: 0,
        weight: 1,
        receipt,
    })?;
    Ok(plan_for(1, hops, 5, 2, front))
}

#[test]
fn two_helpers_give_the_lost_row(rt: HostRuntime) -> Result<(), Fail> {
    let alloc = rt.alloc();
    let blank = Blank::new(alloc, 4)?;
    let one = MemStore::new(alloc, Vec::new(alloc))?;
    let two = MemStore::new(alloc, Vec::new(alloc))?;
    lost_row::<Brand, _, _>(&rt, alloc, blank, one, two)
}

fn lost_row<N: Names, S: Store + Drop, R: Abort>(
    rt: &R,
    alloc: Global,
    blank: Blank,
    one: S,
    two: S,
) -> Result<(), Fail>
    requires book { blank ≡ N.book }
    requires shape { N.shape ≡ three_rows 1 }
    requires told { N.told ≡ true }
    requires tells { IsTrue S.tells }
    requires one { start_of N.stores 1 ≡ record { faults = S.faults one; faultless = S.faultless one } }
    requires two { start_of N.stores 2 ≡ record { faults = S.faults two; faultless = S.faultless two } }
{
    let (book, mut history, of_one, of_two) = book_with_file::<N, R>(
        rt,
        alloc,
        blank,
        &[0x41, 0x42],
    )?;
    let past = book.tag(&mut history);
    let mut one = Node::new(alloc, 1, one, of_one, past);
    let past = book.tag(&mut history);
    let mut two = Node::new(alloc, 2, two, of_two, past);
    let Ok(row_one) = one.keep(&book, 0, 1, 0, &[0x42]) else {
        return Err("row 1".into());
    };
    let Ok(row_two) = two.keep(&book, 0, 2, 0, &[0x47]) else {
        return Err("row 2".into());
    };
    let front = book.tag(&mut history);
    let mut plan = by_two(alloc, front, row_one, row_two)?;
    summed_in_turn(rt, alloc, &book, &mut plan, &mut one, &mut two)
}

fn summed_in_turn<N: Names, S: Store + Drop, R: Abort>(
    rt: &R,
    alloc: Global,
    book: &Book<N>,
    plan: &mut Plan<N>,
    one: &mut Node<N, S>,
    two: &mut Node<N, S>,
) -> Result<(), Fail>
    requires sound { plans.IsSound N.shape N.told plan.old }
    requires cut { (plan.old.block ≡ 1) × (plan.old.slice ≡ 1) }
{
    let mut cancel = Cancel::new(alloc)?;
    let mut message = SliceMsg::start(alloc, book, plan, 0, &mut cancel, 5)?;
    is_at(rt, &message, 0, 0, Next::Node(1), &[0]);
    let mut buf = [0];
    visit(rt, book, &mut message, one, &mut buf)?;
    is_at(rt, &message, 1, 1, Next::Node(2), &[0x7c]);
    visit(rt, book, &mut message, two, &mut buf)?;
    is_at(rt, &message, 2, 3, Next::Home(5), &[0x41]);
    assert!(rt; message.is_full());
    says_its_plan(rt, &message);
    Ok(())
}

/// So many helpers were added, those of this mask, to this payload, and it goes there next.
fn is_at<N: Names, R: Abort>(
    rt: &R,
    message: &SliceMsg<N>,
    at: u8,
    summed: u32,
    next: Next,
    payload: &[u8],
) {
    assert!(rt; message.at() == at && message.summed() == summed);
    assert!(rt; message.next() == next && message.payload() == payload);
}

fn says_its_plan<N: Names, R: Abort>(rt: &R, message: &SliceMsg<N>) {
    assert_eq!(rt;
        (message.repair(), message.attempt(), message.slice()),
        (0, 1, 0)
    );
    assert_eq!(rt;
        (
            message.stripe(),
            message.row(),
            message.lanes(),
            message.home()
        ),
        (0, 0, 1, 5)
    );
    assert_eq!(rt;
        (
            message.off(),
            message.len(),
            message.block(),
            message.size()
        ),
        (0, 1, 1, 1)
    );
    assert_eq!(rt; message.rows(), [1, 2].as_slice());
    assert_eq!(rt; message.nodes(), [1, 2].as_slice());
    assert_eq!(rt; message.weights(), [0xf5, 0xf4].as_slice());
}

#[test]
fn one_helper_gives_its_slices(rt: HostRuntime) -> Result<(), Fail> {
    let alloc = rt.alloc();
    let blank = Blank::new(alloc, 4)?;
    let store = MemStore::new(alloc, Vec::new(alloc))?;
    own_slices::<Brand, _, _>(&rt, alloc, blank, store)
}

fn own_slices<N: Names + Send + Sync, S: Store + Drop, R: Threads + Abort + Sync>(
    rt: &R,
    alloc: Global,
    blank: Blank,
    store: S,
) -> Result<(), Fail>
    requires book { blank ≡ N.book }
    requires shape { N.shape ≡ three_rows 5 }
    requires told { N.told ≡ true }
    requires tells { IsTrue S.tells }
    requires store { start_of N.stores 1 ≡ record { faults = S.faults store; faultless = S.faultless store } }
{
    let bytes = [1, 2, 3, 4, 5, 6, 7, 8, 9, 10];
    let (book, mut history, keeper, _) = book_with_file::<N, R>(rt, alloc, blank, &bytes)?;
    let past = book.tag(&mut history);
    let mut node = Node::new(alloc, 1, store, keeper, past);
    let Ok(receipt) = node.keep(&book, 0, 1, 0, &[6, 7, 8, 9, 10]) else {
        return Err("row 1".into());
    };
    let front = book.tag(&mut history);
    let mut plan = by_itself(alloc, front, receipt)?;
    last_slice(rt, alloc, &book, &mut plan, &mut node)
}

fn last_slice<N: Names + Send + Sync, S: Store + Drop, R: Threads + Abort + Sync>(
    rt: &R,
    alloc: Global,
    book: &Book<N>,
    plan: &mut Plan<N>,
    node: &mut Node<N, S>,
) -> Result<(), Fail>
    requires sound { plans.IsSound N.shape N.told plan.old }
    requires cut { (plan.old.block ≡ 5) × (plan.old.slice ≡ 2) }
{
    let mut cancel = Cancel::new(alloc)?;
    let mut message = SliceMsg::start(alloc, book, plan, 2, &mut cancel, 0)?;
    assert!(rt; message.off() == 4 && message.len() == 1);
    is_at(rt, &message, 0, 0, Next::Node(1), &[0]);
    let mut byte = [0];
    visit(rt, book, &mut message, node, &mut byte)?;
    is_at(rt, &message, 1, 1, Next::Home(0), &[10]);
    whole_slice(rt, book, &mut message, node)?;
    elsewhere(rt, message);
    Ok(())
}

fn elsewhere<N: Names + Send + Sync, R: Threads + Abort + Sync>(rt: &R, message: SliceMsg<N>) {
    let (there, here) = join(rt, move || message.at(), || 1);
    assert_eq!(rt; there, here);
}

fn whole_slice<N: Names, S: Store + Drop, R: Abort>(
    rt: &R,
    book: &Book<N>,
    message: &mut SliceMsg<N>,
    node: &mut Node<N, S>,
) -> Result<(), Fail> {
    assert!(rt; message.block() == 5 && message.size() == 2);
    message.restart_for(1);
    assert!(rt; message.off() == 2 && message.len() == 2 && message.slice() == 1);
    is_at(rt, message, 0, 0, Next::Node(1), &[0, 0]);
    let mut pair = [0; 2];
    visit(rt, book, message, node, &mut pair)?;
    is_at(rt, message, 1, 1, Next::Home(0), &[8, 9]);
    assert!(rt; message.is_full());
    lent(rt, book, message);
    Ok(())
}

fn lent<N: Names, R: Abort>(rt: &R, book: &Book<N>, message: &mut SliceMsg<N>) {
    assert!(rt; message.front(book).len() == 1 && message.rows().len() == 1);
    let receipt = message.receipt(book, 0);
    assert_eq!(rt;
        (receipt.stripe(), receipt.row(), receipt.node()),
        (0, 1, 1)
    );
    assert!(rt; message.knows() == 0 && message.read_cancel() == 0 && !message.wrote());
    assert!(rt; message.set_cancel(2) == 0 && message.knows() == 2 && message.wrote());
}
