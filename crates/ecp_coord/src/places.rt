//! What the catalog says of the places of a put.
ghost use Rattle.std.specs.Prelude.{◌≡◌, ℕ, ◌*◌, ◌+◌, ◌<◌, ◌≤◌, Bool, List, OnErr, OnOk, sum, slice_index};
ghost use Rattle.ecp_shape.specs.declared.limits.TheConstants.{MAX_ATTEMPTS, MAX_NODES};
ghost use Rattle.ecp_shape.specs.declared.shape.Shape.{Shape};
ghost use Rattle.ecp_code.specs.Stripes.{stripe_count};
ghost use Rattle.ecp_entry.specs.declared.entry.Entry.{Entry};
ghost use Rattle.ecp_history.specs.table.Steps.{table_of};
ghost use Rattle.ecp_history.specs.table.Tables.{inc_of};
ghost use Rattle.ecp_catalog.specs.declared.limits.TheConstants.{END_OF_STRIPES};
ghost use Rattle.ecp_catalog.specs.Catalogs.{Reserves, files_of, plain};
ghost use Rattle.ecp_catalog.specs.Outline.{IsOutline};
ghost use Rattle.ecp_coord.specs.Puts.{IsPlacedNow, hindered};

use crate::{NoMemory, NoPlaces, Reservation};
use ecp_book::{Names, Tag};
use ecp_catalog::Catalog;
use ecp_catalog::limits::END_OF_STRIPES;
use ecp_entry::Name;
use ecp_plan::Voids;
use ecp_shape::limits::{MAX_ATTEMPTS, MAX_NODES};

/// Why no file of this name can be stored now, if it cannot: by the table of which the catalog is the outline.
pub(crate) fn hindrance<N: Names>(catalog: &Catalog<N>, name: &Name) -> Option<NoPlaces>
    ensures { (shape : Shape) (told : Bool) (history : List Entry) → IsOutline shape told catalog.now history →
        result ≡ hindered shape (table_of shape history) name.now }
{
    if !catalog.is_free(name) {
        return Some(NoPlaces::NameTaken);
    }
    let up = catalog.up_count();
    if up < catalog.shape().n {
        Some(NoPlaces::TooFewNodes(up))
    } else {
        None
    }
}

/// The places of now, for stripes that are numbered from `first` on. The front is the history, and `voids` are the positions
/// that the reservation keeps.
pub(crate) fn places_now<N: Names>(
    catalog: &Catalog<N>,
    name: Name,
    len: u32,
    first: u32,
    stripes: u32,
    front: Tag<N>,
    voids: Voids,
) -> Reservation<N>
    ensures { IsPlacedNow catalog.now name len first stripes front voids result }
{
    Reservation {
        name,
        len,
        first,
        stripes,
        up: catalog.up_mask(),
        incs: incarnations(catalog),
        point: front.len(),
        front,
        voids,
    }
}

// The incarnation of each node.
fn incarnations<N: Names>(catalog: &Catalog<N>) -> [u32; 32]
    ensures { (m : ℕ) → m < MAX_NODES → slice_index result m ≡ inc_of (plain catalog.now) m }
{
    let mut incs = [0; 32];
    for node in 0..MAX_NODES {
        incs[node as usize] = catalog.inc(node);
    }
    incs
}

/// How many stripes a file of `len` bytes has.
pub(crate) fn stripes_of<N: Names>(catalog: &Catalog<N>, len: u32) -> u32
    ensures { result ≡ stripe_count catalog.now.shape.k catalog.now.shape.block len }
{
    let shape = catalog.shape();
    let size = u64::from(shape.k) * u64::from(shape.block);
    u64::from(len).div_ceil(size) as u32
}

/// Takes room in the catalog for the file of a put of so many stripes, where there are numbers for all its attempts beside
/// those that are taken and promised.
///
/// Want of memory, or of numbers, is the only error, and changes nothing.
pub(crate) fn make_room<N: Names>(
    catalog: &mut Catalog<N>,
    name: &Name,
    hands: u32,
    taken: u32,
    promises: &[u32],
    stripes: u32,
) -> Result<(), NoMemory>
    requires { taken + sum promises.now ≤ END_OF_STRIPES }
    ensures ok { OnOk result (Reserves (files_of catalog.old) (files_of catalog.new) name.now hands) }
    ensures numbers { OnOk result (taken + sum promises.now + stripes * MAX_ATTEMPTS ≤ END_OF_STRIPES) }
    ensures nodes { catalog.new.nodes ≡ catalog.old.nodes }
    ensures err { OnErr result (catalog.new ≡ catalog.old) }
{
    let due = u64::from(stripes) * u64::from(MAX_ATTEMPTS);
    if u64::from(taken) + total(promises) + due > u64::from(END_OF_STRIPES) {
        return Err(NoMemory);
    }
    catalog.reserve(name, hands)
}

// The sum of some numbers.
fn total(numbers: &[u32]) -> u64
    requires { sum numbers.now ≤ END_OF_STRIPES }
    ensures { result ≡ sum numbers.now }
{
    let mut all = 0;
    for number in numbers {
        all += u64::from(*number);
    }
    all
}
