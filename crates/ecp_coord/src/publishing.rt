//! The event by which a put stores its file.
ghost use Rattle.std.specs.Prelude.{◌≡◌, ◌<◌, length, None, Some};
ghost use Rattle.ecp_shape.specs.declared.limits.TheConstants.{MAX_SESSIONS};
ghost use Rattle.ecp_entry.specs.declared.act.Act.TheVariants as act;
ghost use Rattle.ecp_entry.specs.declared.deed.Deed.TheVariants.{Put};
ghost use Rattle.ecp_history.specs.Legal.{MayFollow};
ghost use Rattle.ecp_sequencer.specs.Passes.{IsWhole};
ghost use Rattle.ecp_coord.specs.Calls.{ended};
ghost use Rattle.ecp_coord.specs.Refusals.{Refuses};
ghost use Rattle.ecp_entry.specs.Told.{history_of};
ghost use Rattle.ecp_coord.specs.Puts.{AreReceipts, DidPublish, IsReserved, Publishes, SaysPublished, found_by_publishing};

use crate::coord::Coord;
use crate::ending::end_call;
use crate::{Pass, Published, Reservation};
use ecp_book::{Book, Names};
use ecp_entry::{Act, Deed, Line, Part};
use ecp_history::File;
use ecp_node::Receipt;
use ecp_sequencer::EntryRef;

impl<N: Names> Coord<N> {
    /// The file of a reservation is there: receipt number i * n + r is that of row r of its stripe i. Ends the pass's open
    /// call, but where the answer is [`Published::Overtaken`]. Takes no memory, and copies no byte.
    ///
    /// The refusals are looked at in this order: [`Published::NameTaken`] where a file has the name, and
    /// [`Published::Overtaken`] where a node of the reservation was lost since its point. Both hand the receipts back.
    pub fn publish(
        &mut self,
        book: &Book<N>,
        pass: &mut Pass<N>,
        res: &mut Reservation<N>,
        receipts: Vec<Receipt<N>>,
        content: &[u8],
    ) -> Published<N>
        requires reserved { IsReserved N.shape N.told pass.old res.old }
        requires receipts { AreReceipts N.shape N.told res.old content.now receipts.items }
        ensures answer { SaysPublished (found_by_publishing N.shape (history_of self.old.sequence.history) res.old) result }
        ensures done { DidPublish N.shape N.told self.old pass.old res.old content.now receipts.items self.new pass.new result }
        ensures res { res.new ≡ res.old }
        ensures whole { IsWhole pass.new }
    {
        if !self.catalog.is_free(&res.name) {
            self.end_taken(book, pass, res);
            return Published::NameTaken(receipts);
        }
        if let Some(at) = self.catalog.first_loss_among(res.up, res.point) {
            let (name, len) = (res.name, res.len);
            self.end_where(book, pass, Deed::Put { name, len }, None);
            return Published::Overtaken(at, receipts);
        }
        let (first, stripes) = (res.first, res.stripes);
        self.store(book, pass, res, receipts, content);
        Published::Stored { first, stripes }
    }

    // A file has the name: the call ends with the act that says so.
    fn end_taken(&mut self, book: &Book<N>, pass: &mut Pass<N>, res: &mut Reservation<N>)
        requires reserved { IsReserved N.shape N.told pass.old res.old }
        requires follows { pass.old.caller < MAX_SESSIONS →
            MayFollow N.shape N.told (history_of self.old.sequence.history) (ended pass.old (Put res.old.name res.old.len) (length self.old.sequence.history) act.NameTaken) }
        ensures done { Refuses N.shape N.told self.old pass.old (Put res.old.name res.old.len) (Some act.NameTaken) self.new pass.new }
        ensures res { res.new ≡ res.old }
    {
        self.sequencer.meet(book, pass);
        self.sequencer.meet_front(book, &mut res.front);
        let (name, len) = (res.name, res.len);
        end_call(
            &mut self.sequencer,
            book,
            pass,
            Deed::Put { name, len },
            Act::NameTaken,
        );
    }

    // The file is there: nothing hinders it, and nothing overtook it.
    fn store(
        &mut self,
        book: &Book<N>,
        pass: &mut Pass<N>,
        res: &mut Reservation<N>,
        receipts: Vec<Receipt<N>>,
        content: &[u8],
    )
        requires reserved { IsReserved N.shape N.told pass.old res.old }
        requires receipts { AreReceipts N.shape N.told res.old content.now receipts.items }
        requires found { found_by_publishing N.shape (history_of self.old.sequence.history) res.old ≡ None }
        ensures done { Publishes N.shape N.told self.old pass.old res.old content.now self.new pass.new }
        ensures res { res.new ≡ res.old }
    {
        self.sequencer.meet(book, pass);
        self.sequencer.meet_front(book, &mut res.front);
        let entry = EntryRef {
            line: Line {
                caller: pass.caller(),
                call: pass.calls() - 1,
                part: Part::End,
                point: res.point,
                act: Act::Stored {
                    first: res.first,
                    stripes: res.stripes,
                    up: res.up,
                },
            },
            deed: Some(Deed::Put {
                name: res.name,
                len: res.len,
            }),
            bytes: content,
        };
        self.sequencer.enter(book, pass, &entry);
        let file = File {
            name: res.name,
            len: res.len,
            first: res.first,
            stripes: res.stripes,
        };
        self.catalog.store(file, receipts);
    }
}
