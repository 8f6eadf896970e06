//! The event by which a put gets places anew.
ghost use Rattle.std.specs.Prelude.{◌≡◌, ◌<◌, Bool, List, Some};
ghost use Rattle.ecp_shape.specs.declared.limits.TheConstants.{MAX_ATTEMPTS};
ghost use Rattle.ecp_shape.specs.declared.shape.Shape.{Shape};
ghost use Rattle.ecp_entry.specs.declared.entry.Entry.{Entry};
ghost use Rattle.ecp_entry.specs.Told.{history_of};
ghost use Rattle.ecp_history.specs.table.Steps.{table_of};
ghost use Rattle.ecp_catalog.specs.Outline.{IsOutline};
ghost use Rattle.ecp_sequencer.specs.Passes.{IsWhole};
ghost use Rattle.ecp_coord.specs.declared.renewed.Renewed.TheVariants.{Again};
ghost use Rattle.ecp_coord.specs.Puts.{DidRenew, GivesUpPlaces, IsOvertaken, IsReserved, Renews, end_of, found_anew, found_by_renewing};
ghost use Rattle.ecp_coord.specs.Voids.{with_void};

use crate::coord::Coord;
use crate::ending::end_call;
use crate::places::places_now;
use crate::{Pass, Renewed, Reservation};
use ecp_book::{Book, Names};
use ecp_catalog::Catalog;
use ecp_entry::{Act, Deed};
use ecp_plan::Voids;
use ecp_shape::limits::MAX_ATTEMPTS;
use std::mem;

impl<N: Names> Coord<N> {
    /// Asks whether a reservation still stands, and makes it that of the put's next attempt where it does not.
    ///
    /// It stands, and is left as it is, where since its point none of its nodes was lost. Else the first position of such a
    /// loss is kept with it, and the answer is [`Renewed::NameTaken`] where a file has the name, [`Renewed::TooFewNodes`]
    /// where fewer nodes are up than a stripe has rows, [`Renewed::Unsteady`] where 16 positions are kept, each of which
    /// ends the call, and else [`Renewed::Again`]: the stripe numbers are fresh and the places those of now. Takes no
    /// memory.
    pub fn renew(&mut self, book: &Book<N>, pass: &mut Pass<N>, res: &mut Reservation<N>) -> Renewed
        requires { IsReserved N.shape N.told pass.old res.old }
        ensures answer { result ≡ found_by_renewing N.shape (history_of self.old.sequence.history) res.old }
        ensures done { DidRenew N.shape N.told self.old pass.old res.old res.new self.new pass.new result }
        ensures whole { IsWhole pass.new }
    {
        let Some(at) = self.catalog.first_loss_among(res.up, res.point) else {
            let (name, len) = (res.name, res.len);
            self.end_where(book, pass, Deed::Put { name, len }, None);
            return Renewed::StillGood;
        };
        let found = find(&self.catalog, res);
        let mut voids = res.voids;
        keep(&mut voids, at);
        let Some(act) = found.act(&voids) else {
            self.go_on(book, pass, res, voids);
            return found;
        };
        self.give_up(book, pass, res, voids, act);
        found
    }

    // The next attempt of a put, with these positions.
    fn go_on(&mut self, book: &Book<N>, pass: &mut Pass<N>, res: &mut Reservation<N>, voids: Voids)
        requires reserved { IsReserved N.shape N.told pass.old res.old }
        requires overtaken { IsOvertaken (history_of self.old.sequence.history) res.old voids }
        requires found { found_by_renewing N.shape (history_of self.old.sequence.history) res.old ≡ Again }
        ensures { Renews N.shape N.told self.old pass.old res.old res.new self.new pass.new }
    {
        self.sequencer.meet(book, pass);
        self.sequencer.meet_front(book, &mut res.front);
        self.sequencer.renew(book, pass);
        let front = pass.front(book);
        let next = places_now(
            &self.catalog,
            res.name,
            res.len,
            self.stripes,
            res.stripes,
            front,
            voids,
        );
        let Reservation { front, .. } = mem::replace(res, next);
        book.end_tag(front);
        self.sequencer.note(book, pass, res);
        self.promises[usize::from(pass.hand())] -= res.stripes;
        self.stripes += res.stripes;
    }

    // There is no further attempt: the call ends with the act that says why.
    fn give_up(
        &mut self,
        book: &Book<N>,
        pass: &mut Pass<N>,
        res: &mut Reservation<N>,
        voids: Voids,
        act: Act,
    )
        requires reserved { IsReserved N.shape N.told pass.old res.old }
        requires overtaken { IsOvertaken (history_of self.old.sequence.history) res.old voids }
        requires says { end_of voids (found_by_renewing N.shape (history_of self.old.sequence.history) res.old) ≡ Some act }
        ensures done { GivesUpPlaces N.shape N.told self.old pass.old res.old res.new act self.new pass.new }
        ensures voids { res.new.voids ≡ voids }
    {
        self.sequencer.meet(book, pass);
        self.sequencer.meet_front(book, &mut res.front);
        let (name, len) = (res.name, res.len);
        end_call(
            &mut self.sequencer,
            book,
            pass,
            Deed::Put { name, len },
            act,
        );
        res.voids = voids;
    }
}

// What is found where a reservation was overtaken: by the table of which the catalog is the outline.
fn find<N: Names>(catalog: &Catalog<N>, res: &Reservation<N>) -> Renewed
    ensures { (shape : Shape) (told : Bool) (history : List Entry) → IsOutline shape told catalog.now history →
        result ≡ found_anew shape (table_of shape history) res.now }
{
    if !catalog.is_free(&res.name) {
        return Renewed::NameTaken;
    }
    let up = catalog.up_count();
    if up < catalog.shape().n {
        Renewed::TooFewNodes(up)
    } else if u32::from(res.voids.len) + 1 == MAX_ATTEMPTS {
        Renewed::Unsteady
    } else {
        Renewed::Again
    }
}

// Keeps one position more.
fn keep(voids: &mut Voids, at: u32)
    requires { voids.old.len < MAX_ATTEMPTS }
    ensures { voids.new ≡ with_void voids.old at }
{
    voids.at[usize::from(voids.len)] = at;
    voids.len += 1;
}
