//! The history of a file of the bytes 41 and 42, of which row 0 is lost.
ghost use Rattle.std.specs.Prelude.{◌≡◌, [], ◌∷◌, true, length, IsTrue, IfOk};
ghost use Rattle.ecp_book.specs.Logs.{history_log};
ghost use Rattle.ecp_node.specs.Nodes.{start_of};
ghost use Rattle.ecp_plan.specs.Plans as plans;
ghost use Rattle.ecp_slice.specs.OneFile.{three_rows, file_item, IsReceiptOf};

use super::desk::{Desk, Moved};
use crate::Gate;
use ecp_book::{Blank, Book, Entered, Keeper, Names, Tag};
use ecp_history::Part;
use ecp_node::{Node, Receipt};
use ecp_plan::{Hop, Plan, Voids};
use ecp_slice::{Cancel, SliceMsg};
use ecp_store::{MemStore, NoMemory, Store};
use std::alloc::Global;
use std::marker::Brand;
use std::process::Abort;
use std::test::Fail;

/// The helpers of nodes 1 and 2, which have rows 1 and 2, and a plan for row 0 by both. On the link of node 1 are the
/// messages of two repairs, 7 and 8.
#[derive(Drop)]
pub(super) struct Scene<N: Names, S: Store> {
    pub(super) book: Book<N>,
    pub(super) plan: Plan<N>,
    pub(super) cancel: Cancel,
    pub(super) one: Desk<N, S>,
    pub(super) two: Desk<N, S>,
}

impl<N: Names, S: Store + Drop> Scene<N, S> {
    /// What a turn of node 1's helper does with its message.
    pub(super) fn moved<G: Gate>(&mut self, gate: &G) -> Moved {
        self.one.moved(&self.book, gate)
    }
}

/// What a test does in the scene.
pub(super) trait Play {
    fn play<N: Names, S: Store + Drop, R: Abort>(
        rt: &R,
        scene: &mut Scene<N, S>,
    ) -> Result<(), Fail>;
}

/// Sets the scene, with stores in memory, and plays in it. Of the store of node 1 the calls with these numbers fail.
pub(super) fn played<P: Play, R: Abort>(rt: &R, alloc: Global, fail: &[u64]) -> Result<(), Fail> {
    let blank = Blank::new(alloc, 4)?;
    let one = MemStore::new(alloc, fail.to_vec(alloc)?)?;
    let two = MemStore::new(alloc, Vec::new(alloc))?;
    set::<Brand, _, P, _>(rt, alloc, blank, one, two)
}

fn set<N: Names, S: Store + Drop, P: Play, R: Abort>(
    rt: &R,
    alloc: Global,
    blank: Blank,
    one: S,
    two: S,
) -> Result<(), Fail>
    requires book { blank ≡ N.book }
    requires shape { N.shape ≡ three_rows 1 }
    requires told { N.told ≡ true }
    requires tells { IsTrue S.tells }
    requires one { start_of N.stores 1 ≡ record { faults = S.faults one; faultless = S.faultless one } }
    requires two { start_of N.stores 2 ≡ record { faults = S.faults two; faultless = S.faultless two } }
{
    let (book, mut history, of_one, of_two) = book_with_file::<N, R>(
        rt,
        alloc,
        blank,
        &[0x41, 0x42],
    )?;
    let past = book.tag(&mut history);
    let mut one = Node::new(alloc, 1, one, of_one, past);
    let past = book.tag(&mut history);
    let mut two = Node::new(alloc, 2, two, of_two, past);
    let Ok(row_one) = one.keep(&book, 0, 1, 0, &[0x42]) else {
        return Err("row 1".into());
    };
    let Ok(row_two) = two.keep(&book, 0, 2, 0, &[0x47]) else {
        return Err("row 2".into());
    };
    let front = book.tag(&mut history);
    let plan = by_two(alloc, front, row_one, row_two)?;
    acted::<N, S, P, R>(rt, alloc, book, plan, one, two)
}

/// Plays in the scene, and ends it.
fn acted<N: Names, S: Store + Drop, P: Play, R: Abort>(
    rt: &R,
    alloc: Global,
    book: Book<N>,
    plan: Plan<N>,
    one: Node<N, S>,
    two: Node<N, S>,
) -> Result<(), Fail>
    requires shape { N.shape ≡ three_rows 1 }
    requires sound { plans.IsSound N.shape N.told plan }
    requires cut { (plan.block ≡ 1) × (plan.slice ≡ 1) }
{
    let mut scene = begun(alloc, book, plan, one, two)?;
    P::play(rt, &mut scene)?;
    ended(rt, scene)
}

/// The scene, with both messages on their way to node 1.
fn begun<N: Names, S: Store + Drop>(
    alloc: Global,
    book: Book<N>,
    mut plan: Plan<N>,
    one: Node<N, S>,
    two: Node<N, S>,
) -> Result<Scene<N, S>, Fail>
    requires shape { N.shape ≡ three_rows 1 }
    requires sound { plans.IsSound N.shape N.told plan }
    requires cut { (plan.block ≡ 1) × (plan.slice ≡ 1) }
{
    let mut cancel = Cancel::new(alloc)?;
    let first = message(alloc, &book, &mut plan, 7, &mut cancel)?;
    let second = message(alloc, &book, &mut plan, 8, &mut cancel)?;
    Ok(Scene {
        book,
        plan,
        cancel,
        one: desk_with(alloc, one, first, second)?,
        two: Desk::new(alloc, two)?,
    })
}

/// The desk of node 1, with two messages on its link.
fn desk_with<N: Names, S: Store + Drop>(
    alloc: Global,
    node: Node<N, S>,
    first: SliceMsg<N>,
    second: SliceMsg<N>,
) -> Result<Desk<N, S>, Fail>
    requires { N.shape ≡ three_rows 1 }
{
    let mut desk = Desk::new(alloc, node)?;
    if !desk.put(first) || !desk.put(second) {
        return Err("a full link".into());
    }
    Ok(desk)
}

/// Each helper gives its node back.
fn ended<N: Names, S: Store + Drop, R: Abort>(rt: &R, scene: Scene<N, S>) -> Result<(), Fail> {
    let Scene { one, two, .. } = scene;
    assert!(rt; one.into_node().number() == 1);
    assert!(rt; two.into_node().number() == 2);
    Ok(())
}

/// The message of the plan's one slice, for this repair, which goes to port 0.
fn message<N: Names>(
    alloc: Global,
    book: &Book<N>,
    plan: &mut Plan<N>,
    repair: u64,
    cancel: &mut Cancel,
) -> Result<SliceMsg<N>, NoMemory>
    requires sound { plans.IsSound N.shape N.told plan.old }
    requires cut { (plan.old.block ≡ 1) × (plan.old.slice ≡ 1) }
    ensures sound { plans.IsSound N.shape N.told plan.new }
    ensures cut { (plan.new.block ≡ 1) × (plan.new.slice ≡ 1) }
{
    plan.repair = repair;
    SliceMsg::start(alloc, book, plan, 0, cancel, 0)
}

/// The first entry of a history, which stores a file of these bytes.
#[derive(Drop)]
struct File<'a>(&'a [u8]);

impl<'a> Entered for File<'a> {
    ghost use Rattle.ecp_slice.specs.OneFile.{file_item};

    ghost item = { λ file. file_item file.0.now };
}

/// A book of which the history stores the file: with the keepers of the history and of nodes 1 and 2.
fn book_with_file<N: Names, R: Abort>(
    rt: &R,
    alloc: Global,
    blank: Blank,
    bytes: &[u8],
) -> Result<(Book<N>, Keeper<N>, Keeper<N>, Keeper<N>), Fail>
    requires { blank ≡ N.book }
    ensures history { IfOk result (λ r. r.1 ≡ record { log = history_log; items = file_item bytes.now ∷ [] }) }
    ensures one { IfOk result (λ r. (r.2.log ≡ 2) × (length r.2.items ≡ 0)) }
    ensures two { IfOk result (λ r. (r.3.log ≡ 3) × (length r.3.items ≡ 0)) }
{
    let (book, mut keepers) = Book::<N>::open(alloc, blank)?;
    let two = keepers.pop().ok_or("log 3")?;
    let one = keepers.pop().ok_or("log 2")?;
    keepers.truncate(1);
    let mut history = keepers.pop().ok_or("log 0")?;
    assert!(rt; two.log() == 3 && two.len() == 0);
    assert!(rt; one.log() == 2 && one.len() == 0);
    assert!(rt; history.log() == 0 && history.len() == 0);
    book.append(&mut history, &File(bytes));
    Ok((book, history, one, two))
}

/// The plan for row 0 of data 41 and 42, by rows 1 and 2.
fn by_two<N: Names>(
    alloc: Global,
    front: Tag<N>,
    one: Receipt<N>,
    two: Receipt<N>,
) -> Result<Plan<N>, Fail>
    requires shape { N.shape ≡ three_rows 1 }
    requires told { N.told ≡ true }
    requires front { front ≡ record { log = history_log; items = file_item (0x41 ∷ 0x42 ∷ []) ∷ [] } }
    requires one { IsReceiptOf one 1 1 (0x42 ∷ []) }
    requires two { IsReceiptOf two 2 2 (0x47 ∷ []) }
    ensures sound { IfOk result (plans.IsSound N.shape N.told) }
    ensures cut { IfOk result (λ plan. (plan.block ≡ 1) × (plan.slice ≡ 1)) }
{
    let mut hops = Vec::with_capacity(alloc, 2)?;
    hops.push(Hop {
        row: 1,
        node: 1,
        inc: 0,
        weight: 0xf5,
        receipt: one,
    })?;
    hops.push(Hop {
        row: 2,
        node: 2,
        inc: 0,
        weight: 0xf4,
        receipt: two,
    })?;
    Ok(plan_for(hops, front))
}

/// A plan of the first attempt of repair 0, for row 0 of stripe 0, in one lane.
fn plan_for<N: Names>(hops: Vec<Hop<N>>, front: Tag<N>) -> Plan<N>
    ensures stripe { result.stripe ≡ 0 }
    ensures row { result.row ≡ 0 }
    ensures lanes { result.lanes ≡ 1 }
    ensures block { result.block ≡ 1 }
    ensures slice { result.slice ≡ 1 }
    ensures hops { result.hops ≡ hops }
    ensures front { result.front ≡ front }
{
    Plan {
        repair: 0,
        attempt: 1,
        part: Part::End,
        stripe: 0,
        row: 0,
        lanes: 1,
        hops,
        block: 1,
        slice: 1,
        point: 1,
        front,
        to: None,
        voids: Voids {
            len: 0,
            at: [0; 16],
        },
    }
}
