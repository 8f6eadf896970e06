ghost use Rattle.std.specs.Prelude.{◌≡◌, length};

use crate::names::Names;
use crate::view::View;
use atomic_table::Seat;
use std::marker::{Model, PhantomData};

/// A beginning of a log. Contracts see the log's number and a list, a prefix of the log's, which is not stored.
///
/// It may go to another thread, and may be dropped.
#[derive(Drop)]
pub struct Tag<N: Names> {
    pub(crate) log: u32,
    pub(crate) len: u32,
    pub(crate) seat: Seat<(), View>,
    pub(crate) of: PhantomData<N>,
}

impl<N: Names> Model for Tag<N> {
    ghost use Rattle.ecp_book.specs.Logs.{Known};
    ghost use Rattle.ecp_book.specs.Rules.{IsSeated, tag_of};

    ghost Value = { Known };

    ghost view = { λ t. record { log = t.log; items = t.seat.me.0.items } };

    ghost invariant = { λ t. IsSeated N.book t.seat.table_id t.seat.me tag_of t.log t.len };
}

impl<N: Names> Tag<N> {
    /// The number of its log, counted from 0.
    pub fn log(&self) -> u32
        ensures { result ≡ self.now.log }
    {
        self.log
    }

    /// How many items its list has.
    pub fn len(&self) -> u32
        ensures { result ≡ length self.now.items }
    {
        self.len
    }
}
