//! The call by which a file is stored.
ghost use Rattle.std.specs.Prelude.{◌≡◌, ℕ, ◌≤◌, List, length, IfOk, IfErr, OnErr};
ghost use Rattle.ecp_shape.specs.declared.limits.TheConstants.{MAX_NAME, MAX_PUT_BYTES};
ghost use Rattle.ecp_entry.specs.declared.deed.Deed.TheVariants.{Put};
ghost use Rattle.ecp_sequencer.specs.Passes.{IsWhole};
ghost use Rattle.ecp_coord.specs.Calls.{IsFresh};
ghost use Rattle.ecp_coord.specs.Puts.{AreReceipts, IsReserved};
ghost use Rattle.ecp_cluster.specs.Answered.{Answered, FoundNone};
ghost use Rattle.ecp_cluster.specs.Concluded.{Concludes, WentOn};
ghost use Rattle.ecp_cluster.specs.Puts.{EndsUnplaced, IsPlacedFrom, PutBy, PutSteps, PutStops, act_published, bytes_stored};

use super::keeping::NotKept;
use crate::service::Service;
use crate::{NoMemory, Pass};
use ecp_book::Names;
use ecp_coord::{NoPlaces, Published, Renewed, Reservation};
use ecp_entry::{Act, Deed, Name};
use ecp_helper::Gate;
use ecp_node::Receipt;
use ecp_store::Store;
use std::sync::Wait;

impl<N: Names, S: Store, G: Gate> Service<N, S, G> {
    /// Stores a file of this name and these bytes. The name has 1 to 64 bytes, and the file at most 4 MiB. The answer is the
    /// act of the call's entry: `Stored`, `NameTaken`, `TooFewNodes` or `Unsteady`.
    ///
    /// Each row of each stripe is kept at a node of its own, under that node's lock alone; then the file is there with all
    /// its rows at once, under the coordinator's. Where a node was lost meanwhile, the rows are removed, and the put goes on
    /// with the nodes of then, up to 16 times. At a node whose log is full it waits.
    ///
    /// It takes memory for one parity row at a time, and where the bytes end within a stripe for that stripe; the stores take
    /// what they keep. Want of memory is the only error, also where a store fails: then the call has no entry, and the rows
    /// that were kept are removed.
    pub fn put<R: Wait>(
        &self,
        rt: &R,
        pass: &mut Pass<N>,
        name: &str,
        bytes: &[u8],
    ) -> Result<Act, NoMemory>
        requires some { 1 ≤ length name.now }
        requires short { length name.now ≤ MAX_NAME }
        requires few { length bytes.now ≤ MAX_PUT_BYTES }
        requires whole { IsWhole pass.old }
        ensures ok { IfOk result (λ act. Answered N.shape N.told pass.old (Put name.now (length bytes.now)) act (bytes_stored act bytes.now) pass.new) }
        ensures err { OnErr result (FoundNone pass.old pass.new) }
        ensures whole { IsWhole pass.new }
    {
        let deed = Deed::Put {
            name: Name::new(name),
            len: bytes.len() as u32,
        };
        self.begin(rt, pass, deed)?;
        self.put_on(rt, pass, name, bytes)
    }

    // What becomes of a put that began.
    fn put_on<R: Wait>(
        &self,
        rt: &R,
        pass: &mut Pass<N>,
        name: &str,
        bytes: &[u8],
    ) -> Result<Act, NoMemory>
        requires named { (1 ≤ length name.now) × (length name.now ≤ MAX_NAME) }
        requires few { length bytes.now ≤ MAX_PUT_BYTES }
        requires fresh { IsFresh pass.old (Put name.now (length bytes.now)) }
        ensures ok { IfOk result (λ act. Concludes N.shape N.told pass.old (Put name.now (length bytes.now)) act (bytes_stored act bytes.now) pass.new) }
        ensures err { OnErr result (WentOn pass.old pass.new) }
    {
        match self.reserve(rt, pass, name, bytes.len() as u32) {
            Ok(res) => self.put_by(rt, pass, res, bytes),
            Err(NoPlaces::NameTaken) => Ok(Act::NameTaken),
            Err(NoPlaces::TooFewNodes(up)) => Ok(Act::TooFewNodes(up)),
            Err(NoPlaces::NoMemory) => Err(NoMemory),
        }
    }

    // The places of a put, under the coordinator's lock.
    pub(crate) fn reserve<R: Wait>(
        &self,
        rt: &R,
        pass: &mut Pass<N>,
        name: &str,
        len: u32,
    ) -> Result<Reservation<N>, NoPlaces>
        requires named { (1 ≤ length name.now) × (length name.now ≤ MAX_NAME) }
        requires fresh { IsFresh pass.old (Put name.now len) }
        ensures ok { IfOk result (λ res. IsPlacedFrom N.shape N.told pass.old (Put name.now len) res pass.new) }
        ensures len { IfOk result (λ res. res.len ≡ len) }
        ensures err { IfErr result (λ why. EndsUnplaced N.shape N.told pass.old (Put name.now len) why pass.new) }
    {
        self.coord.lock(rt).reserve_put(&self.book, pass, name, len)
    }

    // What becomes of a put that has these places: attempt after attempt, until one ends the call.
    pub(crate) fn put_by<R: Wait>(
        &self,
        rt: &R,
        pass: &mut Pass<N>,
        mut res: Reservation<N>,
        bytes: &[u8],
    ) -> Result<Act, NoMemory>
        requires reserved { IsReserved N.shape N.told pass.old res }
        requires len { res.len ≡ length bytes.now }
        ensures ok { IfOk result (λ act. PutBy N.shape N.told pass.old res bytes.now act pass.new) }
        ensures err { OnErr result (PutStops N.shape N.told pass.old res pass.new) }
    {
        for _ in rt.forever() {
            if let Some(act) = self.attempt(rt, pass, &mut res, bytes)? {
                return Ok(act);
            }
            if let Some(act) = self.renew(rt, pass, &mut res) {
                return Ok(act);
            }
        }
        unreachable!()
    }

    // One attempt: each row is kept, and then the file is there. Where a node was lost it comes to nothing, and no row stays.
    fn attempt<R: Wait>(
        &self,
        rt: &R,
        pass: &mut Pass<N>,
        res: &mut Reservation<N>,
        bytes: &[u8],
    ) -> Result<Option<Act>, NoMemory>
        requires reserved { IsReserved N.shape N.told pass.old res.old }
        requires len { res.old.len ≡ length bytes.now }
        ensures ok { IfOk result (PutSteps N.shape N.told pass.old res.old bytes.now res.new pass.new) }
        ensures err { OnErr result (pass.new ≡ pass.old) }
    {
        match self.keep_rows(rt, res, bytes) {
            Ok(rows) => Ok(self.publish(rt, pass, res, rows, bytes)),
            Err(NotKept::Gone) => Ok(None),
            Err(NotKept::NoMemory) => Err(NoMemory),
        }
    }

    // The file is there, under the coordinator's lock, or its rows are removed.
    pub(crate) fn publish<R: Wait>(
        &self,
        rt: &R,
        pass: &mut Pass<N>,
        res: &mut Reservation<N>,
        rows: Vec<Receipt<N>>,
        bytes: &[u8],
    ) -> Option<Act>
        requires reserved { IsReserved N.shape N.told pass.old res.old }
        requires receipts { AreReceipts N.shape N.told res.old bytes.now rows.items }
        ensures { PutSteps N.shape N.told pass.old res.old bytes.now res.new pass.new result }
    {
        match self.enter_file(rt, pass, res, rows, bytes) {
            Published::Stored { first, stripes } => Some(Act::Stored {
                first,
                stripes,
                up: res.up,
            }),
            Published::NameTaken(rows) => {
                self.remove_rows(rt, rows);
                Some(Act::NameTaken)
            }
            Published::Overtaken(_, rows) => {
                self.remove_rows(rt, rows);
                None
            }
        }
    }

    // The event, under the coordinator's lock.
    fn enter_file<R: Wait>(
        &self,
        rt: &R,
        pass: &mut Pass<N>,
        res: &mut Reservation<N>,
        rows: Vec<Receipt<N>>,
        bytes: &[u8],
    ) -> Published<N>
        requires reserved { IsReserved N.shape N.told pass.old res.old }
        requires receipts { AreReceipts N.shape N.told res.old bytes.now rows.items }
        ensures done { PutSteps N.shape N.told pass.old res.old bytes.now res.new pass.new (act_published res.old.up result) }
        ensures res { res.new ≡ res.old }
    {
        self.coord
            .lock(rt)
            .publish(&self.book, pass, res, rows, bytes)
    }

    // The places of the next attempt, under the coordinator's lock, or why there are none.
    fn renew<R: Wait>(&self, rt: &R, pass: &mut Pass<N>, res: &mut Reservation<N>) -> Option<Act>
        requires { IsReserved N.shape N.told pass.old res.old }
        ensures { (bytes : List ℕ) → PutSteps N.shape N.told pass.old res.old bytes res.new pass.new result }
    {
        let renewed = self.coord.lock(rt).renew(&self.book, pass, res);
        match renewed {
            Renewed::Again => None,
            Renewed::StillGood => None,
            Renewed::NameTaken => Some(Act::NameTaken),
            Renewed::TooFewNodes(up) => Some(Act::TooFewNodes(up)),
            Renewed::Unsteady => Some(Act::Unsteady(res.voids.at)),
        }
    }
}
