//! A file that is read whole, block by block.
ghost use Rattle.std.specs.Prelude.{◌≡◌, IsTrue};
ghost use Rattle.ecp_book.specs.Logs.{logs_of};
ghost use Rattle.ecp_sequencer.specs.Passes.{IsWhole};
ghost use Rattle.ecp_cluster.specs.Opening.{AreStarts};

use super::sizes::{CALLERS, LOGS_OF_THREE, SPARE, opened_as, two_stores};
use crate::{Pass, Service};
use ecp_book::{Blank, Names};
use ecp_entry::Act;
use ecp_helper::OpenGate;
use ecp_shape::Shape;
use ecp_store::{MemStore, Store};
use std::alloc::Global;
use std::marker::Brand;
use std::process::Abort;
use std::sync::Wait;
use std::test::Fail;

/// Two rows of data and one of parity, of two bytes each, on three nodes.
const PAIRS: Shape = Shape {
    n: 3,
    k: 2,
    nodes: 3,
    block: 2,
};

/// The digest of the text 'abc', which is the example of FIPS 180-4.
const OF_ABC: [u8; 32] = [
    0xba, 0x78, 0x16, 0xbf, 0x8f, 0x01, 0xcf, 0xea, 0x41, 0x41, 0x40, 0xde, 0x5d, 0xae, 0x22, 0x23,
    0xb0, 0x03, 0x61, 0xa3, 0x96, 0x17, 0x7a, 0x9c, 0xb4, 0x10, 0xff, 0x61, 0xf2, 0x00, 0x15, 0xad,
];

#[test]
#[tactic(auto, using(crate::proofs::OpenLaws::starts_are))]
fn a_file_is_whole_until_too_few_rows_are_left(rt: HostRuntime) -> Result<(), Fail> {
    let alloc = rt.alloc();
    let blank = Blank::new(alloc, LOGS_OF_THREE)?;
    let mut stores = two_stores(alloc)?;
    stores.push(MemStore::new(alloc, Vec::new(alloc))?)?;
    whole::<Brand, _, _>(&rt, alloc, blank, stores)
}

fn whole<N: Names, S: Store + Drop, R: Abort + Wait>(
    rt: &R,
    alloc: Global,
    blank: Blank,
    stores: Vec<S>,
) -> Result<(), Fail>
    requires book { (blank ≡ N.book) × (logs_of blank ≡ LOGS_OF_THREE) }
    requires names { (N.callers ≡ CALLERS) × (N.spare_hands ≡ SPARE) × (N.shape ≡ PAIRS) }
    requires tells { IsTrue S.tells }
    requires stores { AreStarts S.faults S.faultless N.stores 3 stores.items }
{
    let (service, mut passes) = opened_as::<N, S>(alloc, blank, PAIRS, stores)?;
    let mut pass = passes.pop().ok_or("caller 1")?;
    service.put(rt, &mut pass, "a", b"abc")?;
    is_whole(rt, &service, &mut pass)?;
    service.lose(rt, &mut pass, 0)?;
    is_whole(rt, &service, &mut pass)?;
    service.lose(rt, &mut pass, 1)?;
    is_broken(rt, &service, &mut pass)?;
    assert_eq!(rt; service.cat(rt, &mut pass, "b")?.act, Act::NoSuchFile);
    assert_eq!(rt; service.close(rt, passes).journal.len(), 15);
    Ok(())
}

/// What the second block has past the file's end is not in the digest.
fn is_whole<N: Names, S: Store + Drop, R: Abort + Wait>(
    rt: &R,
    service: &Service<N, S, OpenGate>,
    pass: &mut Pass<N>,
) -> Result<(), Fail>
    requires whole { IsWhole pass.old }
    ensures whole { IsWhole pass.new }
{
    let file = service.cat(rt, pass, "a")?;
    assert_eq!(rt; (file.act, file.len), (Act::Whole, 3));
    assert_eq!(rt; file.digest, OF_ABC);
    assert!(rt; file.bytes.is_empty());
    Ok(())
}

/// One row is left of the two that it takes.
fn is_broken<N: Names, S: Store + Drop, R: Abort + Wait>(
    rt: &R,
    service: &Service<N, S, OpenGate>,
    pass: &mut Pass<N>,
) -> Result<(), Fail>
    requires whole { IsWhole pass.old }
    ensures whole { IsWhole pass.new }
{
    let file = service.cat(rt, pass, "a")?;
    assert_eq!(rt;
        (file.act, file.cause),
        (Act::Broken(0), Act::Unrecoverable(1))
    );
    assert_eq!(rt; file.len, 3);
    assert_eq!(rt; file.digest, [0; 32]);
    Ok(())
}
