//! The sizes of the tests, and a service of these sizes over stores in memory.
ghost use Rattle.std.specs.Prelude.{◌≡◌, ◌≤◌, IfOk, IsTrue, vec_len};
ghost use Rattle.ecp_book.specs.Logs.{logs_of};
ghost use Rattle.ecp_shape.specs.Range.{IsInRange};
ghost use Rattle.ecp_sequencer.specs.Passes.{first_passes};
ghost use Rattle.ecp_cluster.specs.Opening.{AreStarts, logs_for};

use crate::{NoMemory, Pass, Service};
use ecp_book::{Blank, Names};
use ecp_helper::{Gate, OpenGate};
use ecp_shape::Shape;
use ecp_store::{MemStore, Store};
use std::alloc::Global;

/// Two rows a stripe, on two nodes.
pub(super) const SHAPE: Shape = Shape {
    n: 2,
    k: 1,
    nodes: 2,
    block: 1,
};

/// Two rows of data and two of parity, on four nodes.
pub(super) const FOUR: Shape = Shape {
    n: 4,
    k: 2,
    nodes: 4,
    block: 1,
};

/// Two rows of data and one of parity, on three nodes.
pub(super) const THREE: Shape = Shape {
    n: 3,
    k: 2,
    nodes: 3,
    block: 1,
};

/// Two rows of data and two of parity, of two bytes each, on four nodes.
pub(super) const WIDE: Shape = Shape {
    n: 4,
    k: 2,
    nodes: 4,
    block: 2,
};

/// How many callers there are, and how many spare hands each has.
pub(super) const CALLERS: u32 = 2;

pub(super) const THREE_CALLERS: u32 = 3;

pub(super) const SPARE: u32 = 1;

/// How many logs that takes: the history's, those of the nodes, and two for each hand.
pub(super) const LOGS: u32 = 1 + 2 + 2 * 4;

pub(super) const LOGS_OF_THREE_CALLERS: u32 = 1 + 2 + 2 * 6;

pub(super) const LOGS_OF_WIDE: u32 = 1 + 4 + 2 * 6;

pub(super) const LOGS_OF_THREE: u32 = 1 + 3 + 2 * 4;

pub(super) const LOGS_OF_FOUR: u32 = 1 + 4 + 2 * 4;

/// Stores for both nodes, of which no call fails.
pub(super) fn two_stores(alloc: Global) -> Result<Vec<MemStore>, NoMemory>
    ensures { IfOk result (λ stores. vec_len stores ≡ 2) }
{
    let mut stores = Vec::with_capacity(alloc, 2)?;
    stores.push(MemStore::new(alloc, Vec::new(alloc))?)?;
    stores.push(MemStore::new(alloc, Vec::new(alloc))?)?;
    Ok(stores)
}

/// A service of the first sizes over these stores, with its passes.
pub(super) fn opened<N: Names, S: Store + Drop>(
    alloc: Global,
    blank: Blank,
    stores: Vec<S>,
) -> Result<(Service<N, S, OpenGate>, Vec<Pass<N>>), NoMemory>
    requires book { (blank ≡ N.book) × (logs_of blank ≡ LOGS) }
    requires names { (N.callers ≡ CALLERS) × (N.spare_hands ≡ SPARE) × (N.shape ≡ SHAPE) }
    requires told { IsTrue N.told → IsTrue S.tells }
    requires stores { AreStarts S.faults S.faultless N.stores 2 stores.items }
    ensures { IfOk result (λ r. r.1.items ≡ first_passes 1 2) }
{
    opened_as(alloc, blank, SHAPE, stores)
}

/// A service of this shape, with slices of one byte.
pub(super) fn opened_as<N: Names, S: Store + Drop>(
    alloc: Global,
    blank: Blank,
    shape: Shape,
    stores: Vec<S>,
) -> Result<(Service<N, S, OpenGate>, Vec<Pass<N>>), NoMemory>
    requires book { (blank ≡ N.book) × (logs_of blank ≡ logs_for shape.nodes 2 1) }
    requires names { (N.callers ≡ CALLERS) × (N.spare_hands ≡ SPARE) × (N.shape ≡ shape) }
    requires range { IsInRange shape }
    requires told { IsTrue N.told → IsTrue S.tells }
    requires stores { AreStarts S.faults S.faultless N.stores shape.nodes stores.items }
    ensures { IfOk result (λ r. r.1.items ≡ first_passes 1 2) }
{
    match Service::open(
        alloc, blank, shape, 1, false, 1, SPARE, CALLERS, stores, OpenGate,
    ) {
        Ok(made) => Ok(made),
        Err((NoMemory, _)) => Err(NoMemory),
    }
}

/// A service of this shape behind this gate, for three callers, with slices of one byte and one in flight.
pub(super) fn opened_behind<N: Names, S: Store + Drop, G: Gate + Drop>(
    alloc: Global,
    blank: Blank,
    shape: Shape,
    stores: Vec<S>,
    gate: G,
) -> Result<(Service<N, S, G>, Vec<Pass<N>>), NoMemory>
    requires book { (blank ≡ N.book) × (logs_of blank ≡ logs_for shape.nodes 3 1) }
    requires names { (N.callers ≡ THREE_CALLERS) × (N.spare_hands ≡ SPARE) × (N.shape ≡ shape) }
    requires range { IsInRange shape }
    requires told { IsTrue N.told → IsTrue S.tells }
    requires stores { AreStarts S.faults S.faultless N.stores shape.nodes stores.items }
    ensures { IfOk result (λ r. r.1.items ≡ first_passes 1 3) }
{
    match Service::open(
        alloc,
        blank,
        shape,
        1,
        false,
        1,
        SPARE,
        THREE_CALLERS,
        stores,
        gate,
    ) {
        Ok(made) => Ok(made),
        Err((NoMemory, _)) => Err(NoMemory),
    }
}
