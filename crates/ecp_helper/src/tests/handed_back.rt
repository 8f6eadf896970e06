//! Messages that are handed back.

use super::desk::Moved;
use super::scene::{Play, Scene, played};
use crate::{OpenGate, Turn};
use ecp_book::Names;
use ecp_node::Fault;
use ecp_slice::ATTEMPT_REPLACED;
use ecp_store::Store;
use std::process::Abort;
use std::test::Fail;

#[test]
fn a_message_that_is_not_wanted_is_handed_back(rt: HostRuntime) -> Result<(), Fail> {
    played::<Replaced, _>(&rt, rt.alloc(), &[])
}

struct Replaced;

impl Play for Replaced {
    fn play<N: Names, S: Store + Drop, R: Abort>(
        rt: &R,
        scene: &mut Scene<N, S>,
    ) -> Result<(), Fail> {
        assert!(rt; scene.cancel.set(ATTEMPT_REPLACED) == 0);
        let Turn::Dropped(message) = scene.one.helper.turn(&scene.book, &OpenGate) else {
            return Err("dropped".into());
        };
        assert!(rt; message.knows() == 3 && !message.wrote());
        Ok(())
    }
}

#[test]
fn a_message_for_another_node_is_handed_back(rt: HostRuntime) -> Result<(), Fail> {
    played::<OtherNode, _>(&rt, rt.alloc(), &[])
}

struct OtherNode;

impl Play for OtherNode {
    fn play<N: Names, S: Store + Drop, R: Abort>(
        rt: &R,
        scene: &mut Scene<N, S>,
    ) -> Result<(), Fail> {
        assert!(rt; scene.moved(&OpenGate) == Moved::On);
        let added = scene.one.to_two.pop().ok_or("at node 2")?;
        assert!(rt; scene.one.put(added));
        assert!(rt; scene.moved(&OpenGate) == Moved::On);
        let Turn::Astray(message) = scene.one.helper.turn(&scene.book, &OpenGate) else {
            return Err("astray".into());
        };
        assert!(rt; message.at() == 1 && message.repair() == 7);
        Ok(())
    }
}

#[test]
fn a_block_that_was_given_up_is_lost(rt: HostRuntime) -> Result<(), Fail> {
    played::<GivenUp, _>(&rt, rt.alloc(), &[])
}

struct GivenUp;

impl Play for GivenUp {
    fn play<N: Names, S: Store + Drop, R: Abort>(
        rt: &R,
        scene: &mut Scene<N, S>,
    ) -> Result<(), Fail> {
        let hop = scene.plan.hops.first_mut().ok_or("a helper")?;
        let node = scene.one.helper.node();
        assert!(rt; hop.receipt.node() == node.number());
        assert!(rt; node.remove(&scene.book, &mut hop.receipt).is_ok());
        let Turn::Lost(message, now) = scene.one.helper.turn(&scene.book, &OpenGate) else {
            return Err("lost".into());
        };
        assert!(rt; now == 0 && message.knows() == 1 && message.wrote());
        assert!(rt; scene.cancel.read() == 1);
        Ok(())
    }
}

#[test]
fn a_read_that_fails_is_a_fault(rt: HostRuntime) -> Result<(), Fail> {
    played::<FailedRead, _>(&rt, rt.alloc(), &[1])
}

struct FailedRead;

impl Play for FailedRead {
    fn play<N: Names, S: Store + Drop, R: Abort>(
        rt: &R,
        scene: &mut Scene<N, S>,
    ) -> Result<(), Fail> {
        let Turn::Fault(message) = scene.one.helper.turn(&scene.book, &OpenGate) else {
            return Err("fault".into());
        };
        assert!(rt; message.knows() == 2 && message.wrote());
        assert!(rt; scene.cancel.read() == 2);
        let fault = Fault {
            stripe: 0,
            row: 1,
            wrote: false,
        };
        assert!(rt; scene.one.helper.node().fault() == Some(fault));
        Ok(())
    }
}
