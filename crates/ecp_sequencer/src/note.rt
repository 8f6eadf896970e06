ghost use Rattle.std.specs.Prelude.{◌≡◌};

use crate::entry_ref::EntryRef;
use ecp_book::Entered;
use ecp_entry::Deed;

/// An entry, by the hand that makes it. It is an item of the history.
#[derive(Clone, Copy)]
pub(crate) struct Made<'a> {
    pub(crate) hand: u8,
    pub(crate) entry: &'a EntryRef<'a>,
}

impl<'a> Entered for Made<'a> {
    ghost use Rattle.ecp_entry.specs.Items.{item};
    ghost use Rattle.ecp_sequencer.specs.EntryRefs.{entry_of};

    ghost item = { λ m. item m.hand (entry_of m.entry.now) };
}

/// That a hand made an entry.
#[derive(Clone, Copy)]
pub(crate) struct Entering<'a>(pub(crate) Made<'a>);

impl<'a> Entered for Entering<'a> {
    ghost use Rattle.ecp_sequencer.specs.EntryRefs.{entry_of};
    ghost use Rattle.ecp_sequencer.specs.Notes.{entering_of};

    ghost item = { λ e. entering_of e.0.hand (entry_of e.0.entry.now) };
}

/// That a call began.
#[derive(Clone, Copy)]
pub(crate) struct Beginning {
    pub(crate) number: u32,
    pub(crate) deed: Option<Deed>,
}

impl Entered for Beginning {
    ghost use Rattle.ecp_sequencer.specs.Notes.{beginning_of};
    ghost use Rattle.ecp_sequencer.specs.Passes.{call_seen};

    ghost item = { λ b. beginning_of (call_seen b.number b.deed) };
}

/// That the hand's call is over.
#[derive(Clone, Copy)]
pub(crate) struct Over;

impl Entered for Over {
    ghost use Rattle.ecp_sequencer.specs.Notes.{being_over};

    ghost item = { λ _. being_over };
}

/// A note: what a hand notes, how long the history is before it, and the hand's room after it.
#[derive(Drop)]
pub(crate) struct Note<'a, E: Entered> {
    pub(crate) point: u32,
    pub(crate) room: u32,
    pub(crate) what: &'a E,
}

impl<'a, E: Entered> Entered for Note<'a, E> {
    ghost use Rattle.ecp_sequencer.specs.Notes.{note};

    ghost item = { λ n. note n.point n.room (E.item n.what.now) };
}
