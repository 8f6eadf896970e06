//! Which rows help to make a block, and the helpers of a plan.
ghost use Rattle.std.specs.Prelude.{◌≡◌, ◌≤◌, All, IsSome, false, slice_get, true, vec_capacity};
ghost use Rattle.ecp_catalog.specs.Catalogs.{is_live_in, receipts_of};
ghost use Rattle.ecp_coord.specs.Helping.{AreGiven, AreHelpers, CanHelp, IsGiven, IsHelped, rows_chosen};

use ecp_book::{Book, Names};
use ecp_catalog::{Catalog, Stamps};
use ecp_code::Code;
use ecp_history::BlockName;
use ecp_plan::{Hop, pick};

/// The rows that help to make a block, in rising order, and what each of them is times in the sum.
#[derive(Clone, Copy)]
pub(crate) struct Helpers {
    pub(crate) len: u8,
    pub(crate) rows: [u8; 16],
    pub(crate) weights: [u8; 16],
}

/// Fills the helpers of a plan for a block, in place of those that it has. Takes no memory.
///
/// A block that is live is its own one helper. Else k live rows help, those whose nodes helped longest ago.
pub(crate) fn help<N: Names>(
    book: &Book<N>,
    catalog: &mut Catalog<N>,
    stamps: &Stamps,
    block: BlockName,
    hops: &mut Vec<Hop<N>>,
)
    requires can { CanHelp catalog.old block }
    requires room { catalog.old.shape.k ≤ vec_capacity hops.old }
    ensures hops { IsHelped catalog.old stamps.now.stamps block hops.new.items }
    ensures room { vec_capacity hops.new ≡ vec_capacity hops.old }
    ensures kept { catalog.new ≡ catalog.old }
{
    let helpers = choose(catalog, stamps, block);
    fill(book, catalog, block.stripe, &helpers, hops);
}

// Chooses the rows that help to make a block that can be had.
fn choose<N: Names>(catalog: &Catalog<N>, stamps: &Stamps, block: BlockName) -> Helpers
    requires { CanHelp catalog.now block }
    ensures { AreHelpers catalog.now stamps.now.stamps block result }
{
    if catalog.is_live(block.stripe, block.row) {
        itself(catalog, stamps, block)
    } else {
        others(catalog, stamps, block)
    }
}

// A live row is its own one helper, with weight 1.
fn itself<N: Names>(catalog: &Catalog<N>, stamps: &Stamps, block: BlockName) -> Helpers
    requires live { is_live_in catalog.now block.stripe block.row ≡ true }
    ensures { AreHelpers catalog.now stamps.now.stamps block result }
{
    let _ = catalog.shape();
    let mut rows = [0; 16];
    let mut weights = [0; 16];
    rows[0] = block.row;
    weights[0] = 1;
    Helpers {
        len: 1,
        rows,
        weights,
    }
}

// The k live rows whose nodes' turns come first, with their weights.
fn others<N: Names>(catalog: &Catalog<N>, stamps: &Stamps, block: BlockName) -> Helpers
    requires lost { is_live_in catalog.now block.stripe block.row ≡ false }
    requires can { CanHelp catalog.now block }
    ensures { AreHelpers catalog.now stamps.now.stamps block result }
{
    let shape = catalog.shape();
    let live = catalog.live_rows(block.stripe);
    let picks = pick(stamps.as_slice(), live.as_slice(), shape.k as u8);
    let rows = picks.rows;
    let code = Code::new(shape.n, shape.k).unwrap();
    let all = code.weights(&rows[..shape.k as usize], block.row);
    let weights = all.w;
    Helpers {
        len: picks.len,
        rows,
        weights,
    }
}

// Fills the helpers with the receipts of their rows.
fn fill<N: Names>(
    book: &Book<N>,
    catalog: &mut Catalog<N>,
    stripe: u32,
    helpers: &Helpers,
    hops: &mut Vec<Hop<N>>,
)
    requires few { helpers.now.len ≤ 16 }
    requires room { helpers.now.len ≤ vec_capacity hops.old }
    requires there { All (λ r. IsSome (slice_get (receipts_of catalog.old stripe) r)) (rows_chosen helpers.now) }
    ensures hops { AreGiven catalog.old stripe helpers.now hops.new.items }
    ensures room { vec_capacity hops.new ≡ vec_capacity hops.old }
    ensures kept { catalog.new ≡ catalog.old }
{
    hops.clear();
    for at in 0..usize::from(helpers.len) {
        let hop = hop(book, catalog, stripe, helpers.rows[at], helpers.weights[at]);
        hops.push_reserved(hop);
    }
}

// The helper that gives a row.
fn hop<N: Names>(
    book: &Book<N>,
    catalog: &mut Catalog<N>,
    stripe: u32,
    row: u8,
    weight: u8,
) -> Hop<N>
    requires { IsSome (slice_get (receipts_of catalog.old stripe) row) }
    ensures row { result.row ≡ row }
    ensures weight { result.weight ≡ weight }
    ensures given { IsGiven catalog.old stripe result }
    ensures kept { catalog.new ≡ catalog.old }
{
    let receipt = catalog.receipt(book, stripe, row);
    Hop {
        row,
        node: receipt.node(),
        inc: receipt.inc(),
        weight,
        receipt,
    }
}
