//! Messages that go on, and such as are held.
ghost use Rattle.std.specs.Prelude.{false, nat_eq};

use super::desk::Moved;
use super::scene::{Play, Scene, played};
use crate::{Gate, OpenGate};
use ecp_book::Names;
use ecp_slice::Next;
use ecp_store::Store;
use std::process::Abort;
use std::test::Fail;

/// A gate that is shut for one repair.
struct ShutFor(u64);

impl Gate for ShutFor {
    ghost is_open = { λ _. false };

    ghost shuts = { λ gate question. nat_eq question.repair gate.0 };

    fn go(&self, _node: u8, repair: u64, _attempt: u32, _slice: u32) -> bool {
        repair != self.0
    }
}

#[test]
fn two_helpers_give_the_lost_row(rt: HostRuntime) -> Result<(), Fail> {
    played::<TwoHelpers, _>(&rt, rt.alloc(), &[])
}

struct TwoHelpers;

impl Play for TwoHelpers {
    fn play<N: Names, S: Store + Drop, R: Abort>(
        rt: &R,
        scene: &mut Scene<N, S>,
    ) -> Result<(), Fail> {
        assert!(rt; scene.moved(&OpenGate) == Moved::On);
        let message = scene.one.to_two.pop().ok_or("at node 2")?;
        assert!(rt; message.payload() == [0x7c].as_slice());
        assert!(rt; scene.two.put(message));
        assert!(rt; scene.two.moved(&scene.book, &&OpenGate) == Moved::On);
        let message = scene.two.home.pop().ok_or("home")?;
        assert!(rt; message.is_full());
        assert!(rt; message.payload() == [0x41].as_slice());
        Ok(())
    }
}

#[test]
fn a_message_is_held_while_its_link_is_full(rt: HostRuntime) -> Result<(), Fail> {
    played::<FullLink, _>(&rt, rt.alloc(), &[])
}

struct FullLink;

impl Play for FullLink {
    fn play<N: Names, S: Store + Drop, R: Abort>(
        rt: &R,
        scene: &mut Scene<N, S>,
    ) -> Result<(), Fail> {
        let held = Moved::Held(Next::Node(2));
        assert!(rt; scene.moved(&OpenGate) == Moved::On);
        assert!(rt; scene.moved(&OpenGate) == held);
        assert!(rt; scene.moved(&OpenGate) == held);
        assert!(rt; scene.one.to_two.pop().is_some());
        assert!(rt; scene.moved(&OpenGate) == Moved::On);
        assert!(rt; scene.moved(&OpenGate) == Moved::Nothing);
        Ok(())
    }
}

#[test]
fn a_gate_holds_one_repair_up_alone(rt: HostRuntime) -> Result<(), Fail> {
    played::<OneShut, _>(&rt, rt.alloc(), &[])
}

struct OneShut;

impl Play for OneShut {
    fn play<N: Names, S: Store + Drop, R: Abort>(
        rt: &R,
        scene: &mut Scene<N, S>,
    ) -> Result<(), Fail> {
        assert!(rt; scene.moved(&ShutFor(7)) == Moved::Waited);
        assert!(rt; scene.moved(&ShutFor(7)) == Moved::On);
        assert!(rt; scene.one.to_two.pop().ok_or("at node 2")?.repair() == 8);
        assert!(rt; scene.moved(&OpenGate) == Moved::On);
        assert!(rt; scene.one.to_two.pop().ok_or("at node 2")?.repair() == 7);
        Ok(())
    }
}

#[test]
fn a_gate_is_shut_through_a_reference(rt: HostRuntime) -> Result<(), Fail> {
    played::<ShutByReference, _>(&rt, rt.alloc(), &[])
}

struct ShutByReference;

impl Play for ShutByReference {
    fn play<N: Names, S: Store + Drop, R: Abort>(
        rt: &R,
        scene: &mut Scene<N, S>,
    ) -> Result<(), Fail> {
        assert!(rt; scene.moved(&&ShutFor(7)) == Moved::Waited);
        assert!(rt; scene.moved(&&ShutFor(7)) == Moved::On);
        assert!(rt; scene.one.to_two.pop().ok_or("at node 2")?.repair() == 8);
        assert!(rt; scene.moved(&&ShutFor(7)) == Moved::Waited);
        Ok(())
    }
}
