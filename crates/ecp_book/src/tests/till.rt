//! A worked caller: a value behind a lock that knows its log, and values outside that know a beginning of it.
ghost use Rattle.std.specs.Prelude.{◌≡◌, ◌+◌, ◌∷◌, ◌++◌, [], MatchBool};
ghost use mathlib.Core.List.{IsPrefix};
ghost use Rattle.ecp_book.specs.Logs.{empty_log};
ghost use Rattle.ecp_book.specs.Till.{money_of};

use crate::{Blank, Book, Entered, Keeper, Names, Tag};
use std::alloc::Global;
use std::marker::{Brand, Model};
use std::mem;
use std::process::Abort;
use std::sync::{Mutex, Wait};
use std::test::Fail;
use std::thread::{Threads, join};

/// Money that comes in. Its item is the amount.
#[derive(Drop)]
struct Payment(u64);

impl Entered for Payment {
    ghost use Rattle.std.specs.Prelude.{[], ◌∷◌};

    ghost item = { λ p. p.0 ∷ [] };
}

/// What lies behind the lock: the money in the till, beside the log that says so.
#[derive(Drop)]
struct Till<N: Names> {
    money: u64,
    keeper: Keeper<N>,
}

impl<N: Names> Model for Till<N> {
    ghost use Rattle.std.specs.Prelude.{◌≡◌};
    ghost use Rattle.ecp_book.specs.Logs.{Known};
    ghost use Rattle.ecp_book.specs.Till.{money_of};

    ghost Value = { Known };

    ghost view = { λ t. t.keeper };

    ghost invariant = { λ t. (t.money ≡ money_of t.keeper.items) × (t.keeper.log ≡ 0) };
}

/// What a thread saw of the till at some time.
#[derive(Drop)]
struct Seen<N: Names> {
    money: u64,
    tag: Tag<N>,
}

impl<N: Names> Model for Seen<N> {
    ghost use Rattle.std.specs.Prelude.{◌≡◌};
    ghost use Rattle.ecp_book.specs.Logs.{Known};
    ghost use Rattle.ecp_book.specs.Till.{money_of};

    ghost Value = { Known };

    ghost view = { λ s. s.tag };

    ghost invariant = { λ s. (s.money ≡ money_of s.tag.items) × (s.tag.log ≡ 0) };
}

impl<N: Names> Till<N> {
    fn new(keeper: Keeper<N>) -> Till<N>
        requires { keeper ≡ empty_log 0 }
        ensures { result ≡ keeper }
    {
        Till { money: 0, keeper }
    }

    /// Takes the money in, where there is room for it.
    fn pay(&mut self, book: &Book<N>, amount: u64) -> bool
        ensures { MatchBool result (self.new.items ≡ self.old.items ++ (amount ∷ []) ∷ []) (self.new ≡ self.old) }
    {
        let Some(money) = self.money.checked_add(amount) else {
            return false;
        };
        if self.keeper.len() == u32::MAX {
            return false;
        }
        book.append(&mut self.keeper, &Payment(amount));
        self.money = money;
        true
    }

    fn look(&mut self, book: &Book<N>) -> Seen<N>
        ensures seen { result ≡ self.old }
        ensures kept { self.new ≡ self.old }
    {
        Seen {
            money: self.money,
            tag: book.tag(&mut self.keeper),
        }
    }

    /// The money that came in since it was seen, which is seen from now on. No less is in the till than was seen, since the
    /// two meet.
    fn catch_up(&mut self, book: &Book<N>, seen: &mut Seen<N>) -> u64
        ensures later { IsPrefix seen.old.items seen.new.items }
        ensures gained { money_of seen.old.items + result ≡ money_of seen.new.items }
        ensures seen { seen.new ≡ self.old }
        ensures kept { self.new ≡ self.old }
    {
        book.meet(&mut self.keeper, &mut seen.tag);
        let gained = self.money - seen.money;
        seen.money = self.money;
        let old = mem::replace(&mut seen.tag, book.tag(&mut self.keeper));
        book.end_tag(old);
        gained
    }
}

/// What any thread learns when its own value meets the one behind the lock: what it saw begins what it sees now.
fn catch_up<N: Names>(
    rt: &impl Wait,
    book: &Book<N>,
    till: &Mutex<Till<N>>,
    seen: &mut Seen<N>,
) -> u64
    ensures later { IsPrefix seen.old.items seen.new.items }
    ensures gained { money_of seen.old.items + result ≡ money_of seen.new.items }
{
    till.lock(rt).catch_up(book, seen)
}

#[test]
fn what_was_seen_and_what_came_in_are_the_money(rt: HostRuntime) -> Result<(), Fail> {
    let blank = Blank::new(rt.alloc(), 1)?;
    paid_and_watched::<Brand, _>(&rt, rt.alloc(), blank)
}

fn paid_and_watched<N: Names + Send + Sync, R: Threads + Wait + Abort + Sync>(
    rt: &R,
    alloc: Global,
    blank: Blank,
) -> Result<(), Fail>
    requires { blank ≡ N.book }
{
    let (book, mut keepers) = Book::<N>::open(alloc, blank)?;
    let keeper = keepers.pop().ok_or("log 0")?;
    assert!(rt; keeper.log() == 0 && keeper.len() == 0);
    let mut till = Till::new(keeper);
    assert!(rt; till.pay(&book, 5));
    let mut seen = till.look(&book);
    let first = seen.money;
    let lock = Mutex::new(till);
    let (paid, (early, mut seen)) = join(
        rt,
        || lock.lock(rt).pay(&book, 6),
        || {
            let gained = catch_up(rt, &book, &lock, &mut seen);
            (gained, seen)
        },
    );
    assert!(rt; paid && first == 5 && (early == 0 || early == 6));
    assert_eq!(rt; catch_up(rt, &book, &lock, &mut seen), 6 - early);
    Ok(())
}
