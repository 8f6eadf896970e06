ghost use Rattle.std.specs.Prelude.{◌≡◌};

use super::*;
use crate::Pushed;
use std::process::Abort;
use std::sync::Wait;
use std::test::Fail;
use std::thread::{Threads, join, yield_now};

/// What goes over the links of the tests: the number of its sender, and its place among what that sent. It is neither
/// `Copy` nor `Clone`.
#[derive(Drop)]
struct Letter {
    from: u32,
    place: u64,
}

const LETTERS: u64 = 1_000;

#[test]
fn a_full_link_gives_the_item_back(rt: HostRuntime) -> Result<(), Fail> {
    let (mut senders, mut taker) = link::<u32>(rt.alloc(), 2, 2)?;
    let mut second = senders.pop().ok_or("sender 1")?;
    let mut first = senders.pop().ok_or("sender 0")?;
    assert!(rt; matches!(first.push(&rt, 1), Pushed::Ok));
    assert!(rt; matches!(second.push(&rt, 2), Pushed::Ok));
    assert!(rt; matches!(first.push(&rt, 3), Pushed::Full(3)));
    assert_eq!(rt; taker.pop(&rt), Some(1));
    assert_eq!(rt; taker.pop(&rt), Some(2));
    assert_eq!(rt; taker.pop(&rt), None);
    assert_eq!(rt; (first.pushed(), second.pushed()), (1, 1));
    Ok(())
}

#[test]
fn two_threads_send_and_one_takes(rt: HostRuntime) -> Result<(), Fail> {
    let (mut senders, taker) = link::<Letter>(rt.alloc(), 2, 4)?;
    let second = senders.pop().ok_or("sender 1")?;
    let first = senders.pop().ok_or("sender 0")?;
    sent_and_taken(&rt, first, second, taker);
    Ok(())
}

fn sent_and_taken<R: Threads + Wait + Abort + Sync>(
    rt: &R,
    first: Sender<Letter>,
    second: Sender<Letter>,
    taker: Taker<Letter>,
)
    requires { (first.link ≡ taker.link) × (second.link ≡ taker.link) }
{
    let ((first, second), (mut taker, in_order)) = join(
        rt,
        move ||
            ensures { (result.0.link ≡ first.link) × (result.1.link ≡ second.link) }
        { all_sent(rt, first, second) },
        move ||
            ensures { result.0.link ≡ taker.link }
        { all_taken(rt, taker) },
    );
    assert!(rt; in_order);
    assert!(rt; taker.pop(rt).is_none());
    assert_eq!(rt; (first.pushed(), second.pushed()), (LETTERS, LETTERS));
    assert_eq!(rt; taker.take_in(second), LETTERS);
    assert_eq!(rt; taker.take_in(first), LETTERS);
    assert!(rt; taker.pop(rt).is_none());
}

// Sends the letters of both senders, in two threads.
fn all_sent<R: Threads + Wait + Sync>(
    rt: &R,
    first: Sender<Letter>,
    second: Sender<Letter>,
) -> (Sender<Letter>, Sender<Letter>)
    ensures first { result.0.link ≡ first.link }
    ensures second { result.1.link ≡ second.link }
{
    join(
        rt,
        move ||
            ensures { result.link ≡ first.link }
        { sent(rt, first, 0) },
        move ||
            ensures { result.link ≡ second.link }
        { sent(rt, second, 1) },
    )
}

// Sends all letters, each again until it is on the link.
fn sent<R: Wait>(rt: &R, mut sender: Sender<Letter>, from: u32) -> Sender<Letter>
    ensures { result.link ≡ sender.link }
{
    for place in 0..LETTERS {
        send(rt, &mut sender, Letter { from, place });
    }
    sender
}

fn send<R: Wait>(rt: &R, sender: &mut Sender<Letter>, letter: Letter)
    ensures { sender.new.link ≡ sender.old.link }
{
    let mut next = letter;
    for _ in rt.forever() {
        match sender.push(rt, next) {
            Pushed::Ok => return,
            Pushed::Full(back) => next = back,
        }
        yield_now();
    }
    unreachable!()
}

// Takes the letters of both senders, and says whether those of each came in order.
fn all_taken<R: Wait>(rt: &R, mut taker: Taker<Letter>) -> (Taker<Letter>, bool)
    ensures { result.0.link ≡ taker.link }
{
    let mut next = [0; 2];
    let mut in_order = true;
    for _ in 0..2 * LETTERS {
        let Letter { from, place } = take(rt, &mut taker);
        match next.get_mut(from as usize) {
            Some(expected) if *expected == place => *expected = place.saturating_add(1),
            _ => in_order = false,
        }
    }
    (taker, in_order)
}

fn take<R: Wait>(rt: &R, taker: &mut Taker<Letter>) -> Letter
    ensures { taker.new.link ≡ taker.old.link }
{
    for _ in rt.forever() {
        if let Some(letter) = taker.pop(rt) {
            return letter;
        }
        yield_now();
    }
    unreachable!()
}
