ghost use Rattle.std.specs.Prelude.{◌≡◌, length};

use crate::names::Names;
use crate::view::View;
use atomic_table::Seat;
use std::marker::{Model, PhantomData};

/// The one right to add to a log. Contracts see the log's number and its whole list, which is not stored.
///
/// It may go to another thread. One that is dropped leaves its log as it is, for good.
#[derive(Drop)]
pub struct Keeper<N: Names> {
    pub(crate) log: u32,
    pub(crate) len: u32,
    pub(crate) seat: Seat<(), View>,
    pub(crate) of: PhantomData<N>,
}

impl<N: Names> Model for Keeper<N> {
    ghost use Rattle.ecp_book.specs.Logs.{Known};
    ghost use Rattle.ecp_book.specs.Rules.{IsSeated, keeper_of};

    ghost Value = { Known };

    ghost view = { λ k. record { log = k.log; items = k.seat.me.0.items } };

    ghost invariant = { λ k. IsSeated N.book k.seat.table_id k.seat.me keeper_of k.log k.len };
}

impl<N: Names> Keeper<N> {
    /// The number of its log, counted from 0.
    pub fn log(&self) -> u32
        ensures { result ≡ self.now.log }
    {
        self.log
    }

    /// How many items the log has.
    pub fn len(&self) -> u32
        ensures { result ≡ length self.now.items }
    {
        self.len
    }
}
