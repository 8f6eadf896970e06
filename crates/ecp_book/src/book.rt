ghost use Rattle.std.specs.Prelude.{◌≡◌, ℕ, ◌<◌, ◌+◌, ◌-◌, ◌^◌, ◌⊎◌, [], ◌∷◌, ◌++◌, length, vec_len, slice_get, IfOk};
ghost use mathlib.Core.List.{IsPrefix};
ghost use Rattle.ecp_book.specs.Logs.{logs_of, empty_log};
ghost use Rattle.ecp_book.specs.Rules.{opener_of, keeper_of};

use crate::NoMemory;
use crate::blank::{Blank, Words};
use crate::entered::Entered;
use crate::keeper::Keeper;
use crate::names::Names;
use crate::steps::{Adding, Append, Copies, EndKeeper, EndTag, Learn, Meet, Opens};
use crate::tag::Tag;
use crate::view::View;
use atomic_table::Seat;
use std::alloc::Global;
use std::marker::{Brand, PhantomData};

/// A book of logs, under the name `N`. Threads share it by reference.
///
/// No call but `open` takes memory, and none waits.
#[derive(Drop)]
pub struct Book<N: Names> {
    words: Words,
    of: PhantomData<N>,
    ghost is_named: { words.shared.table_id ≡ N.book },
    ghost counts_logs: { words.shared.key ≡ N.book.words },
}

impl<N: Names> Book<N> {
    /// Gives the blank's book its name, with the keepers of its logs in their order. Each log is empty.
    ///
    /// Want of memory is the only error, and drops the blank.
    pub fn open(alloc: Global, blank: Blank) -> Result<(Book<N>, Vec<Keeper<N>>), NoMemory>
        requires { blank ≡ N.book }
        ensures count { IfOk result (λ r. vec_len r.1 ≡ logs_of N.book) }
        ensures empty { IfOk result (λ r. (m : ℕ) → m < logs_of N.book → slice_get r.1.items m ≡ Some (empty_log m)) }
    {
        let Blank {
            words,
            mut seat,
            logs,
        } = blank;
        let book = Book {
            words,
            of: PhantomData,
        };
        let mut keepers = Vec::with_capacity(alloc, logs as usize)?;
        for log in 0..logs {
            let keeper = book.next_keeper(&mut seat, log);
            keepers.push(keeper)?;
        }
        Ok((book, keepers))
    }

    // The keeper of the next log, from the seat that opens the book.
    fn next_keeper(&self, opener: &mut Seat<(), View>, log: u32) -> Keeper<N>
        requires seat { opener.old.table_id ≡ N.book }
        requires view { opener.old.me ≡ (opener_of log, []) }
        requires log { log < N.book.words }
        ensures keeper { result ≡ empty_log log }
        ensures seat { opener.new.table_id ≡ opener.old.table_id }
        ensures view { opener.new.me ≡ (opener_of (log + 1), []) }
    {
        Keeper {
            log,
            len: 0,
            seat: self.words.shared.split_seat::<Opens>(opener),
            of: PhantomData,
        }
    }

    /// Adds the item of `entry` at the end of the keeper's log. Tags stay as they are.
    pub fn append<E: Entered>(&self, keeper: &mut Keeper<N>, entry: &E)
        requires { length keeper.old.items < 2 ^ 32 - 1 }
        ensures added { keeper.new.items ≡ keeper.old.items ++ E.item entry.now ∷ [] }
        ensures log { keeper.new.log ≡ keeper.old.log }
    {
        keeper.len += 1;
        self.add::<Brand, E>(&mut keeper.seat, keeper.log, keeper.len, entry);
    }

    // The store by which a log grows to `len` items. The last is the item of `entry`, which the call picks for `J`.
    fn add<J: Adding, E: Entered>(&self, seat: &mut Seat<(), View>, log: u32, len: u32, entry: &E)
        requires item { J.item ≡ E.item entry.now }
        requires seat { seat.old.table_id ≡ N.book }
        requires view { seat.old.me ≡ (keeper_of log seat.old.me.0.items, []) }
        requires log { log < N.book.words }
        requires len { len ≡ length seat.old.me.0.items + 1 }
        ensures seat { seat.new.table_id ≡ seat.old.table_id }
        ensures view { seat.new.me ≡ (keeper_of log (seat.old.me.0.items ++ E.item entry.now ∷ []), []) }
    {
        self.words
            .shared
            .store::<Append<J>>(seat, log as usize, u64::from(len));
    }

    /// A tag with the keeper's list.
    pub fn tag(&self, keeper: &mut Keeper<N>) -> Tag<N>
        ensures tag { result ≡ keeper.old }
        ensures kept { keeper.new ≡ keeper.old }
    {
        Tag {
            log: keeper.log,
            len: keeper.len,
            seat: self.words.shared.split_seat::<Copies>(&mut keeper.seat),
            of: PhantomData,
        }
    }

    /// A tag with the same list.
    pub fn copy(&self, tag: &mut Tag<N>) -> Tag<N>
        ensures copy { result ≡ tag.old }
        ensures kept { tag.new ≡ tag.old }
    {
        Tag {
            log: tag.log,
            len: tag.len,
            seat: self.words.shared.split_seat::<Copies>(&mut tag.seat),
            of: PhantomData,
        }
    }

    /// Shows that the tag's list is a prefix of the keeper's. Both stay as they are.
    pub fn meet(&self, keeper: &mut Keeper<N>, tag: &mut Tag<N>)
        requires { tag.old.log ≡ keeper.old.log }
        ensures prefix { IsPrefix tag.old.items keeper.old.items }
        ensures keeper { keeper.new ≡ keeper.old }
        ensures tag { tag.new ≡ tag.old }
    {
        let Tag { seat: other, .. } = self.copy(tag);
        let words = &self.words.shared;
        words.join_seat::<Meet>(&mut keeper.seat, other);
        words.load::<Learn>(&mut keeper.seat, keeper.log as usize);
    }

    /// Shows that of the two lists the one is a prefix of the other. Both tags stay as they are.
    pub fn meet_tags(&self, a: &mut Tag<N>, b: &mut Tag<N>)
        requires { a.old.log ≡ b.old.log }
        ensures prefix { IsPrefix a.old.items b.old.items ⊎ IsPrefix b.old.items a.old.items }
        ensures a { a.new ≡ a.old }
        ensures b { b.new ≡ b.old }
    {
        let Tag { seat: other, .. } = self.copy(b);
        let words = &self.words.shared;
        words.join_seat::<Meet>(&mut a.seat, other);
        words.load::<Learn>(&mut a.seat, a.log as usize);
    }

    /// Ends a tag. Its log stays as it is.
    pub fn end_tag(&self, tag: Tag<N>) {
        let Tag {
            log,
            len: _,
            mut seat,
            of: _,
        } = tag;
        self.words.shared.load::<EndTag>(&mut seat, log as usize);
    }

    /// Ends a keeper, and answers the length of its log, which stays as it is for good.
    pub fn end_keeper(&self, keeper: Keeper<N>) -> u32
        ensures { result ≡ length keeper.items }
    {
        let Keeper {
            log,
            len: _,
            mut seat,
            of: _,
        } = keeper;
        self.words.shared.load::<EndKeeper>(&mut seat, log as usize) as u32
    }
}
