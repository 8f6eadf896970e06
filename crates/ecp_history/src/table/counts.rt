//! What is counted of rows and nodes.

ghost use Rattle.std.specs.Prelude.{◌≡◌, ◌≤◌, count_by, false, length, map, min, not, slice_get, sum_by};
ghost use Rattle.std.specs.Option.{option_map_or};
ghost use Rattle.ecp_history.specs.table.Placement.{mask_of};
ghost use Rattle.ecp_history.specs.table.Tables.{stands_live};

use super::node::Node;
use super::placed_stripe::PlacedStripe;
use super::standing::Standing;
use ecp_shape::limits::MAX_NODES;

/// Where a count of blocks stands still.
pub(super) const LAST_COUNT: u32 = u32::MAX;

/// Whether a row is live.
pub(super) fn live_at(rows: &[Standing], row: u8) -> bool
    ensures { result ≡ option_map_or (λ x. x.live) (slice_get rows.now row) false }
{
    match rows.get(usize::from(row)) {
        Some(row) => row.live,
        None => false,
    }
}

/// Whether a row is there and lost.
pub(super) fn lost_at(rows: &[Standing], row: u8) -> bool
    ensures { result ≡ option_map_or (λ x. not x.live) (slice_get rows.now row) false }
{
    match rows.get(usize::from(row)) {
        Some(row) => !row.live,
        None => false,
    }
}

/// How many rows are live.
pub(super) fn live_among(rows: &[Standing]) -> usize
    ensures { result ≡ count_by (λ x. x.live) rows.now }
{
    rows.iter().filter(|row| row.live).count()
}

/// How many rows are live on a node, and [`LAST_COUNT`] where more are.
fn live_onto(rows: &[Standing], node: u32) -> u32
    ensures { result ≡ min (count_by (stands_live node) rows.now) LAST_COUNT }
{
    let count = rows
        .iter()
        .filter(|row| row.live && u32::from(row.node) == node)
        .count();
    count.min(LAST_COUNT as usize) as u32
}

/// How many rows of these stripes are live on a node, and [`LAST_COUNT`] where more are.
pub(super) fn live_over(stripes: &[PlacedStripe], node: u32) -> u32
    ensures { result ≡ min (sum_by (λ x. count_by (stands_live node) x.rows) stripes.now) LAST_COUNT }
{
    let mut count: u32 = 0;
    for stripe in stripes {
        count = count.saturating_add(live_onto(stripe.rows(), node));
    }
    count
}

/// The mask of the nodes that are up.
pub(super) fn up_among(nodes: &[Node]) -> u32
    requires { length nodes.now ≤ MAX_NODES }
    ensures { result ≡ mask_of (map (λ x. x.up) nodes.now) }
{
    let mut mask: u32 = 0;
    let mut left = nodes.len();
    while left > 0 {
        left -= 1;
        mask = u32::from(nodes[left].up) + 2 * mask;
    }
    mask
}
