ghost use Rattle.std.specs.Prelude.{◌≡◌, ◌≤◌, IfOk};
ghost use Rattle.ecp_book.specs.Logs.{logs_of};

use crate::NoMemory;
use crate::rule::Lengths;
use crate::view::View;
use atomic_table::{Seat, Table};
use std::alloc::Global;
use std::marker::Model;

/// The table of a book: one word a log, and no slot.
pub(crate) type Words = Table<(), View, u64, Lengths, Global>;

/// How many logs a book has at most.
pub const MAX_LOGS: u32 = 256;

/// A book that has no name yet. Contracts see which book it is.
#[derive(Drop)]
pub struct Blank {
    pub(crate) words: Words,
    pub(crate) seat: Seat<(), View>,
    pub(crate) logs: u32,
}

impl Model for Blank {
    ghost use Rattle.atomic_table.specs.Seated.{TableId, table_id_coded};
    ghost use Rattle.ecp_book.specs.Rules.{IsBlank};

    ghost Value = { TableId };

    ghost coded = { table_id_coded };

    ghost view = { λ b. b.words.shared.table_id };

    ghost invariant = { λ b. IsBlank b.words.shared.table_id b.words.shared.key b.seat.table_id b.seat.me b.logs };
}

impl Blank {
    /// A book of `logs` empty logs. Want of memory is the only error.
    pub fn new(alloc: Global, logs: u32) -> Result<Blank, NoMemory>
        requires some { 1 ≤ logs }
        requires most { logs ≤ MAX_LOGS }
        ensures { IfOk result (λ b. logs_of b ≡ logs) }
    {
        let lengths = [0; MAX_LOGS as usize];
        let (words, seat) = Table::of_words(alloc, &lengths[..logs as usize], &u64::from(logs))?;
        Ok(Blank { words, seat, logs })
    }
}
