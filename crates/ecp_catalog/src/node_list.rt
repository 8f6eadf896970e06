//! What is counted of nodes, and of rows by their receipts.

ghost use Rattle.std.specs.Prelude.{◌≡◌, ℕ, ◌+◌, ◌^◌, ◌<◌, ◌≤◌, All, length, map, replicate, IfOk};
ghost use Rattle.ecp_shape.specs.declared.limits.TheConstants.{MAX_NODES, MAX_ROWS};
ghost use Rattle.ecp_history.specs.table.Placement.{mask_of};
ghost use Rattle.ecp_catalog.specs.Catalogs.{CountsRows, earlier, first_loss, first_loss_among, new_node};
ghost use Rattle.ecp_catalog.specs.Standing.{live_among, standing};

use crate::live_rows::LiveRows;
use crate::node_row::NodeRow;
use ecp_book::Names;
use ecp_node::Receipt;
use ecp_plan::LiveRow;
use ecp_shape::limits::MAX_NODES;
use ecp_store::NoMemory;
use std::alloc::Global;

/// So many nodes, all up, with no block and no loss.
pub(crate) fn nodes_up(alloc: Global, count: u32) -> Result<Vec<NodeRow>, NoMemory>
    ensures { IfOk result (λ nodes. nodes.items ≡ replicate count new_node) }
{
    let mut nodes = Vec::with_capacity(alloc, count as usize)?;
    for _node in 0..count {
        nodes.push(NodeRow::new(alloc))?;
    }
    Ok(nodes)
}

/// The mask of the nodes that are up.
pub(crate) fn up_among(nodes: &[NodeRow]) -> u32
    requires { length nodes.now ≤ MAX_NODES }
    ensures { result ≡ mask_of (map (λ x. x.node.up) nodes.now) }
{
    let mut mask: u32 = 0;
    let mut left = nodes.len();
    while left > 0 {
        left -= 1;
        mask = u32::from(nodes[left].node().up) + 2 * mask;
    }
    mask
}

/// The first loss of a node of a mask that is not before a position.
pub(crate) fn first_among(nodes: &[NodeRow], mask: u32, point: u32) -> Option<u32>
    ensures { result ≡ first_loss_among nodes.now mask point }
{
    let mut first = None;
    let mut left = MAX_NODES as usize;
    while left > 0 {
        left -= 1;
        if (mask >> left) % 2 == 1 {
            first = earlier(first_from(nodes, left, point), first);
        }
    }
    first
}

/// The first loss of a node that is not before a position.
pub(crate) fn first_from(nodes: &[NodeRow], node: usize, point: u32) -> Option<u32>
    ensures { result ≡ first_loss nodes.now point node }
{
    nodes.get(node)?.first_loss_from(point)
}

/// The earlier of two positions, as far as there are any.
fn earlier(a: Option<u32>, b: Option<u32>) -> Option<u32>
    ensures { result ≡ earlier a b }
{
    match (a, b) {
        (Some(a), Some(b)) => Some(a.min(b)),
        (Some(a), None) => Some(a),
        (None, b) => b,
    }
}

/// Whether the row of a receipt is live.
pub(crate) fn stands<N: Names>(nodes: &[NodeRow], receipt: &Receipt<N>) -> bool
    ensures { result ≡ (standing (map (λ x. x.node) nodes.now) receipt.now).live }
{
    match nodes.get(usize::from(receipt.node())) {
        Some(node) => node.is_up_in(receipt.inc()),
        None => false,
    }
}

/// The rows that are live, by their receipts.
pub(crate) fn live_rows_among<N: Names>(nodes: &[NodeRow], rows: &[Receipt<N>]) -> LiveRows
    requires { length rows.now ≤ MAX_ROWS }
    ensures { result ≡ live_among (map (standing (map (λ x. x.node) nodes.now)) rows.now) }
{
    let mut live = LiveRows::none();
    for (row, receipt) in rows.iter().enumerate() {
        if stands(nodes, receipt) {
            live.push(LiveRow {
                row: row as u8,
                node: receipt.node(),
            });
        }
    }
    live
}

/// Counts the live ones among these rows, each on its node.
pub(crate) fn count_rows<N: Names>(nodes: &mut [NodeRow], rows: &[Receipt<N>])
    requires { All (λ x. x.live + length rows.now < 2 ^ 32) nodes.old }
    ensures { CountsRows nodes.old nodes.new rows.now }
{
    for receipt in rows {
        if stands(nodes, receipt) {
            nodes[usize::from(receipt.node())].count();
        }
    }
}
