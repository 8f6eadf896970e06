ghost use Rattle.std.specs.Prelude.{◌≡◌, ◌≤◌, IfOk};
ghost use Rattle.ecp_slice.specs.Cancels.{Finds, IsNew, copied, after_set, after_read};

mod rule;
mod steps;
mod view;

use crate::reasons::{CALL_ENDED, HELPER_LOST};
use atomic_table::{Seat, Table};
use ecp_store::NoMemory;
use rule::SetOnce;
use std::alloc::Global;
use std::marker::Model;
use std::sync::Arc;
use steps::{Copies, Exchanges, Loads};
use view::View;

/// One word, and no slot.
type Word = Table<(), View, (), SetOnce, Global>;

// The place of the word in its table.
const WORD: usize = 0;

/// A handle on a cancel word. Contracts see which word it is, what the handle knows of it (0 or a reason), whether a
/// `set` of this very handle changed the word, and what each step of the handle found there.
///
/// It may go to another thread, and may be dropped, which leaves the word as it is. The word goes with its last handle.
#[derive(Drop)]
pub struct Cancel {
    word: Arc<Word, Global>,
    seat: Seat<(), View>,
    known: u64,
    wrote: bool,
}

impl Model for Cancel {
    ghost use Rattle.ecp_slice.specs.Cancels.{Cancelling};
    ghost use Rattle.ecp_slice.specs.CancelWords.{IsHandle};

    ghost Value = { Cancelling };

    ghost view = { λ c. record { word = c.seat.table_id; known = c.known; wrote = c.wrote; looks = c.seat.me.0.looks } };

    ghost invariant = { λ c. IsHandle c.word.value.shared.table_id c.seat.table_id c.seat.me c.known c.wrote };
}

impl Cancel {
    /// A new word, which is 0, by a handle that knows 0.
    ///
    /// Want of memory is the only error.
    pub fn new(alloc: Global) -> Result<Cancel, NoMemory>
        ensures { IfOk result IsNew }
    {
        let (table, seat) = Table::of_words(alloc, &[0], &())?;
        Ok(Cancel {
            word: Arc::new(alloc, table)?,
            seat,
            known: 0,
            wrote: false,
        })
    }

    /// Another handle on the same word, which knows the same and has not written. This one stays as it is.
    ///
    /// `NoMemory` is the only error: the word has as many handles as can be counted.
    pub fn copy(&mut self) -> Result<Cancel, NoMemory>
        ensures copy { IfOk result (λ c. c ≡ copied self.old) }
        ensures kept { self.new ≡ self.old }
    {
        let word = Arc::try_clone(&self.word)?;
        let seat = self.word.shared.split_seat::<Copies>(&mut self.seat);
        Ok(Cancel {
            word,
            seat,
            known: self.known,
            wrote: false,
        })
    }

    /// Changes the word to the reason where it is 0, by one exchange, and answers the word that it found.
    ///
    /// The handle then knows the reason that the word has: the given one where 0 was found, else the one found.
    pub fn set(&mut self, reason: u64) -> u64
        requires least { HELPER_LOST ≤ reason }
        requires most { reason ≤ CALL_ENDED }
        ensures set { self.new ≡ after_set self.old reason result }
        ensures found { Finds self.old.known result }
    {
        let shared = &self.word.shared;
        let found = shared.compare_exchange::<Exchanges>(&mut self.seat, WORD, 0, reason);
        if found == 0 {
            self.known = reason;
            self.wrote = true;
        } else {
            self.known = found;
        }
        found
    }

    /// The word, by one load: 0, or the reason that it has for good. The handle then knows it.
    pub fn read(&mut self) -> u64
        ensures read { self.new ≡ after_read self.old result }
        ensures found { Finds self.old.known result }
    {
        let now = self.word.shared.load::<Loads>(&mut self.seat, WORD);
        self.known = now;
        now
    }

    /// What the handle knows, without a step: 0, or the reason that the word has for good.
    pub fn known(&self) -> u64
        ensures known { result ≡ self.now.known }
        ensures most { result ≤ CALL_ENDED }
    {
        self.known
    }

    /// Whether a `set` of this very handle changed the word, without a step.
    pub fn wrote(&self) -> bool
        ensures { result ≡ self.now.wrote }
    {
        self.wrote
    }
}
