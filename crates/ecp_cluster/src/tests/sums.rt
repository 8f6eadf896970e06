//! The digest of a block, while it is live and when it is lost.
ghost use Rattle.std.specs.Prelude.{◌≡◌, IsTrue};
ghost use Rattle.ecp_book.specs.Logs.{logs_of};
ghost use Rattle.ecp_sequencer.specs.Passes.{IsWhole};
ghost use Rattle.ecp_cluster.specs.Opening.{AreStarts};

use super::sizes::{CALLERS, LOGS, SPARE, opened_as, two_stores};
use crate::{Pass, Service};
use ecp_book::{Blank, Names};
use ecp_entry::Act;
use ecp_helper::OpenGate;
use ecp_shape::Shape;
use ecp_store::Store;
use std::alloc::Global;
use std::marker::Brand;
use std::process::Abort;
use std::sync::Wait;
use std::test::Fail;

/// Two rows a stripe, of three bytes each, on two nodes.
const WORD: Shape = Shape {
    n: 2,
    k: 1,
    nodes: 2,
    block: 3,
};

/// The digest of the text 'abc', which is the example of FIPS 180-4.
const OF_ABC: [u8; 32] = [
    0xba, 0x78, 0x16, 0xbf, 0x8f, 0x01, 0xcf, 0xea, 0x41, 0x41, 0x40, 0xde, 0x5d, 0xae, 0x22, 0x23,
    0xb0, 0x03, 0x61, 0xa3, 0x96, 0x17, 0x7a, 0x9c, 0xb4, 0x10, 0xff, 0x61, 0xf2, 0x00, 0x15, 0xad,
];

#[test]
#[tactic(auto, using(crate::proofs::OpenLaws::starts_are))]
fn a_block_has_its_digest_while_it_is_live_and_when_it_is_lost(
    rt: HostRuntime,
) -> Result<(), Fail> {
    let alloc = rt.alloc();
    let blank = Blank::new(alloc, LOGS)?;
    let stores = two_stores(alloc)?;
    summed::<Brand, _, _>(&rt, alloc, blank, stores)
}

fn summed<N: Names, S: Store + Drop, R: Abort + Wait>(
    rt: &R,
    alloc: Global,
    blank: Blank,
    stores: Vec<S>,
) -> Result<(), Fail>
    requires book { (blank ≡ N.book) × (logs_of blank ≡ LOGS) }
    requires names { (N.callers ≡ CALLERS) × (N.spare_hands ≡ SPARE) × (N.shape ≡ WORD) }
    requires tells { IsTrue S.tells }
    requires stores { AreStarts S.faults S.faultless N.stores 2 stores.items }
{
    let (service, mut passes) = opened_as::<N, S>(alloc, blank, WORD, stores)?;
    let mut pass = passes.pop().ok_or("caller 1")?;
    service.put(rt, &mut pass, "a", b"abc")?;
    has_digest(rt, &service, &mut pass)?;
    service.lose(rt, &mut pass, 0)?;
    has_digest(rt, &service, &mut pass)?;
    has_none(rt, &service, &mut pass)?;
    assert_eq!(rt; service.close(rt, passes).journal.len(), 5);
    Ok(())
}

fn has_digest<N: Names, S: Store + Drop, R: Abort + Wait>(
    rt: &R,
    service: &Service<N, S, OpenGate>,
    pass: &mut Pass<N>,
) -> Result<(), Fail>
    requires whole { IsWhole pass.old }
    ensures whole { IsWhole pass.new }
{
    let sum = service.sum(rt, pass, "a", 0)?;
    assert_eq!(rt; sum.act, Act::Data);
    assert_eq!(rt; sum.digest, OF_ABC);
    assert!(rt; sum.bytes.is_empty());
    Ok(())
}

fn has_none<N: Names, S: Store + Drop, R: Abort + Wait>(
    rt: &R,
    service: &Service<N, S, OpenGate>,
    pass: &mut Pass<N>,
) -> Result<(), Fail>
    requires whole { IsWhole pass.old }
    ensures whole { IsWhole pass.new }
{
    let none = service.sum(rt, pass, "b", 0)?;
    assert_eq!(rt; none.act, Act::NoSuchFile);
    assert_eq!(rt; none.digest, [0; 32]);
    Ok(())
}
