//! The event by which a put gets its places.
ghost use Rattle.std.specs.Prelude.{◌≡◌, ◌≤◌, length, IfErr, IfOk, OnErr, None};
ghost use Rattle.ecp_shape.specs.declared.limits.TheConstants.{MAX_NAME};
ghost use Rattle.ecp_entry.specs.declared.deed.Deed.TheVariants.{Put};
ghost use Rattle.ecp_history.specs.Fronts.{told_table};
ghost use Rattle.ecp_sequencer.specs.Passes.{IsWhole};
ghost use Rattle.ecp_coord.specs.Calls.{IsFresh, IsOpen};
ghost use Rattle.ecp_coord.specs.Puts.{AnswersPlaces, Reserves, hindered, refusal_of};
ghost use Rattle.ecp_coord.specs.Refusals.{Refuses};

use crate::coord::Coord;
use crate::places::{hindrance, make_room, places_now, stripes_of};
use crate::{NoMemory, NoPlaces, Pass, Reservation};
use ecp_book::{Book, Names};
use ecp_entry::{Deed, Name};
use ecp_plan::Voids;
use ecp_shape::limits::MAX_ATTEMPTS;

impl<N: Names> Coord<N> {
    /// The places of a put: the nodes that are up, and stripe numbers behind those of all reservations so far. The name has
    /// 1 to 64 bytes. Takes the room for the later events of the put, and keeps numbers back for all its attempts.
    ///
    /// The refusals are looked at in this order, and each but the last ends the call: [`NoPlaces::NameTaken`] where a file
    /// has the name, [`NoPlaces::TooFewNodes`] where fewer nodes are up than a stripe has rows, and
    /// [`NoPlaces::NoMemory`], also where the numbers do not suffice.
    pub fn reserve_put(
        &mut self,
        book: &Book<N>,
        pass: &mut Pass<N>,
        name: &str,
        len: u32,
    ) -> Result<Reservation<N>, NoPlaces>
        requires some { 1 ≤ length name.now }
        requires short { length name.now ≤ MAX_NAME }
        requires fresh { IsFresh pass.old (Put name.now len) }
        ensures ok { IfOk result (λ res. Reserves N.shape N.told self.old pass.old res self.new pass.new) }
        ensures named { IfOk result (λ res. (res.name ≡ name.now) × (res.len ≡ len)) }
        ensures err { IfErr result (λ why. Refuses N.shape N.told self.old pass.old (Put name.now len) (refusal_of why) self.new pass.new) }
        ensures answer { AnswersPlaces (hindered N.shape (told_table N.shape self.old.sequence.history) name.now) result }
        ensures whole { IsWhole pass.new }
    {
        let name = Name::new(name);
        if let Some(why) = hindrance(&self.catalog, &name) {
            self.end_where(book, pass, Deed::Put { name, len }, why.act());
            return Err(why);
        }
        match self.reserve(book, pass, name, len) {
            Ok(res) => Ok(res),
            Err(NoMemory) => Err(NoPlaces::NoMemory),
        }
    }

    // The places of a put that nothing hinders. Want of memory, or of stripe numbers, notes nothing.
    fn reserve(
        &mut self,
        book: &Book<N>,
        pass: &mut Pass<N>,
        name: Name,
        len: u32,
    ) -> Result<Reservation<N>, NoMemory>
        requires fresh { IsFresh pass.old (Put name len) }
        requires free { hindered N.shape (told_table N.shape self.old.sequence.history) name ≡ None }
        ensures ok { IfOk result (λ res. Reserves N.shape N.told self.old pass.old res self.new pass.new) }
        ensures named { IfOk result (λ res. (res.name ≡ name) × (res.len ≡ len)) }
        ensures err { OnErr result (Refuses N.shape N.told self.old pass.old (Put name len) None self.new pass.new) }
    {
        self.sequencer.meet(book, pass);
        self.sequencer.renew(book, pass);
        let stripes = stripes_of(&self.catalog, len);
        if let Err(NoMemory) = make_room(
            &mut self.catalog,
            &name,
            self.hands,
            self.stripes,
            &self.promises,
            stripes,
        ) {
            return Err(NoMemory);
        }
        let voids = Voids {
            len: 0,
            at: [0; 16],
        };
        let front = pass.front(book);
        let res = places_now(
            &self.catalog,
            name,
            len,
            self.stripes,
            stripes,
            front,
            voids,
        );
        if let Err(NoMemory) = self.sequencer.note_taking(book, pass, &res) {
            return Err(NoMemory);
        }
        self.promises[usize::from(pass.hand())] = stripes * (MAX_ATTEMPTS - 1);
        self.stripes += stripes;
        Ok(res)
    }
}
