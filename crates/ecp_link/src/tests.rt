ghost use Rattle.std.specs.Prelude.{◌≡◌};
ghost use Rattle.ecp_link.specs.Links.{IsOf, IsSame, KeepsSenders};

use super::*;
use std::process::Abort;
use std::sync::Wait;
use std::test::Fail;
use std::thread::{Threads, join, yield_now};

/// What goes over the links of the tests: the number of its sender, and its place among what that sent. It is neither
/// `Copy` nor `Clone`.
#[derive(Drop)]
struct Letter {
    from: u32,
    place: u64,
}

const LETTERS: u64 = 1_000;

#[test]
fn each_sender_has_room_of_its_own(rt: HostRuntime) -> Result<(), Fail> {
    let (mut senders, mut taker) = link::<u32>(rt.alloc(), 2, 2)?;
    let mut second = senders.pop().ok_or("sender 1")?;
    let mut first = senders.pop().ok_or("sender 0")?;
    assert!(rt; matches!(first.push(1), Pushed::Ok));
    assert!(rt; matches!(first.push(3), Pushed::Ok));
    assert!(rt; matches!(first.push(5), Pushed::Full(5)));
    assert!(rt; matches!(second.push(2), Pushed::Ok));
    assert_eq!(rt; taker.pop(), Some(1));
    assert_eq!(rt; taker.pop(), Some(2));
    assert_eq!(rt; taker.pop(), Some(3));
    assert_eq!(rt; taker.pop(), None);
    assert_eq!(rt; (first.pushed(), second.pushed()), (2, 1));
    Ok(())
}

#[test]
fn links_of_the_least_and_the_most_size(rt: HostRuntime) -> Result<(), Fail> {
    let (senders, taker) = link::<usize>(rt.alloc(), 1, 1)?;
    assert_eq!(rt; filled_and_emptied(senders, taker), (3, 3, 3));
    let (senders, taker) = link::<usize>(rt.alloc(), 128, 16)?;
    assert_eq!(rt; filled_and_emptied(senders, taker), (6_144, 6_144, 384));
    Ok(())
}

// Three times each sender pushes until it is refused, and then all is taken: how many items were pushed, how many came
// in turn, each sender's next one after that of the sender before it, and how many were refused.
fn filled_and_emptied(mut senders: Vec<Sender<usize>>, mut taker: Taker<usize>) -> (u32, u32, u32) {
    let mut pushed = 0u32;
    let mut in_turn = 0u32;
    let mut refused = 0u32;
    for _ in 0..3 {
        for at in 0..senders.len() {
            let (taken, back) = filled(&mut senders[at], at);
            pushed = pushed.saturating_add(taken);
            refused = refused.saturating_add(back);
        }
        in_turn = in_turn.saturating_add(emptied(&mut taker, senders.len()));
    }
    (pushed, in_turn, refused)
}

fn filled(sender: &mut Sender<usize>, number: usize) -> (u32, u32) {
    let mut taken = 0u32;
    for _ in 0..32 {
        match sender.push(number) {
            Pushed::Ok => taken = taken.saturating_add(1),
            Pushed::Full(_) => return (taken, 1),
        }
    }
    (taken, 0)
}

fn emptied(taker: &mut Taker<usize>, senders: usize) -> u32 {
    let mut next = 0usize;
    let mut in_turn = 0u32;
    for _ in 0..2_048 + 1 {
        let Some(number) = taker.pop() else {
            return in_turn;
        };
        if number == next {
            in_turn = in_turn.saturating_add(1);
        }
        next = if number.saturating_add(1) < senders {
            number.saturating_add(1)
        } else {
            0
        };
    }
    0
}

#[test]
fn two_threads_send_and_one_takes(rt: HostRuntime) -> Result<(), Fail> {
    let (mut senders, taker) = link::<Letter>(rt.alloc(), 2, 4)?;
    let second = senders.pop().ok_or("sender 1")?;
    let first = senders.pop().ok_or("sender 0")?;
    sent_and_taken(&rt, first, second, taker);
    Ok(())
}

fn sent_and_taken<R: Threads + Wait + Abort + Sync>(
    rt: &R,
    first: Sender<Letter>,
    second: Sender<Letter>,
    taker: Taker<Letter>,
)
    requires first { IsOf taker first }
    requires second { IsOf taker second }
{
    let ((first, second), (mut taker, in_order)) = join(
        rt,
        move ||
            ensures { IsSame first result.0 × IsSame second result.1 }
        { all_sent(rt, first, second) },
        move ||
            ensures { KeepsSenders taker result.0 }
        { all_taken(rt, taker) },
    );
    assert!(rt; in_order);
    assert_eq!(rt; (first.pushed(), second.pushed()), (LETTERS, LETTERS));
    assert_eq!(rt; taker.take_in(second), LETTERS);
    assert_eq!(rt; taker.take_in(first), LETTERS);
    assert!(rt; taker.pop().is_none());
}

// Sends the letters of both senders, in two threads.
fn all_sent<R: Threads + Wait + Sync>(
    rt: &R,
    first: Sender<Letter>,
    second: Sender<Letter>,
) -> (Sender<Letter>, Sender<Letter>)
    ensures first { IsSame first result.0 }
    ensures second { IsSame second result.1 }
{
    join(
        rt,
        move ||
            ensures { IsSame first result }
        { sent(rt, first, 0) },
        move ||
            ensures { IsSame second result }
        { sent(rt, second, 1) },
    )
}

// Sends all letters, each again until it is on the link.
fn sent<R: Wait>(rt: &R, mut sender: Sender<Letter>, from: u32) -> Sender<Letter>
    ensures { IsSame sender result }
{
    for place in 0..LETTERS {
        send(rt, &mut sender, Letter { from, place });
    }
    sender
}

fn send<R: Wait>(rt: &R, sender: &mut Sender<Letter>, letter: Letter)
    ensures { IsSame sender.old sender.new }
{
    let mut next = letter;
    for _ in rt.forever() {
        match sender.push(next) {
            Pushed::Ok => return,
            Pushed::Full(back) => next = back,
        }
        yield_now();
    }
    unreachable!()
}

// Takes the letters of both senders, and says whether those of each came in order.
fn all_taken<R: Wait>(rt: &R, mut taker: Taker<Letter>) -> (Taker<Letter>, bool)
    ensures { KeepsSenders taker result.0 }
{
    let mut next = [0; 2];
    let mut in_order = true;
    for _ in 0..2 * LETTERS {
        let Letter { from, place } = take(rt, &mut taker);
        match next.get_mut(from as usize) {
            Some(expected) if *expected == place => *expected = place.saturating_add(1),
            _ => in_order = false,
        }
    }
    (taker, in_order)
}

fn take<R: Wait>(rt: &R, taker: &mut Taker<Letter>) -> Letter
    ensures { KeepsSenders taker.old taker.new }
{
    for _ in rt.forever() {
        if let Some(letter) = taker.pop() {
            return letter;
        }
        yield_now();
    }
    unreachable!()
}

#[test]
fn one_sender_meets_the_plain_form(rt: HostRuntime) -> Result<(), Fail> {
    let (mut plain_senders, mut plain_taker) = by_queue::link::<u32>(rt.alloc(), 1, 3)?;
    let mut plain = plain_senders.pop().ok_or("sender 0")?;
    let (mut senders, mut taker) = link::<u32>(rt.alloc(), 1, 3)?;
    let mut sender = senders.pop().ok_or("sender 0")?;
    let mut step = 1u32;
    for item in 0..1_000u32 {
        step = step.wrapping_mul(1_664_525).wrapping_add(1_013_904_223);
        if step >> 31 == 0 {
            let same = match (plain.push(&rt, item), sender.push(item)) {
                (Pushed::Ok, Pushed::Ok) => true,
                (Pushed::Full(a), Pushed::Full(b)) => a == item && b == item,
                _ => false,
            };
            assert!(rt; same);
        } else {
            assert_eq!(rt; plain_taker.pop(&rt), taker.pop());
        }
    }
    assert_eq!(rt; plain.pushed(), sender.pushed());
    Ok(())
}

#[test]
fn the_ends_go_where_the_items_may(rt: HostRuntime) -> Result<(), Fail> {
    let (mut senders, taker) = link::<Letter>(rt.alloc(), 1, 1)?;
    let sender = senders.pop().ok_or("sender 0")?;
    let (mut sender, mut taker) = crossed(&rt, sender, taker);
    assert!(rt; matches!(sender.push(Letter { from: 0, place: 7 }), Pushed::Ok));
    assert!(rt; matches!(taker.pop(), Some(Letter { from: 0, place: 7 })));
    Ok(())
}

// Each end goes through a thread.
fn crossed<T: Send + Drop, R: Threads + Sync>(
    rt: &R,
    sender: Sender<T>,
    taker: Taker<T>,
) -> (Sender<T>, Taker<T>) {
    join(rt, move || sender, move || taker)
}
