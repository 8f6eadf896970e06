//! The stripes of a file that is stored.

ghost use Rattle.std.specs.Prelude.{◌≡◌, ◌+◌, ◌^◌, ◌<◌, ◌≤◌, fold, length, reverse, vec_capacity, vec_len, IfOk};
ghost use Rattle.ecp_code.specs.Stripes.{stripe_count, stripes as file_stripes};
ghost use Rattle.ecp_history.specs.table.Placement.{nodes_in};
ghost use Rattle.ecp_history.specs.table.Rising.{IsRising};
ghost use Rattle.ecp_history.specs.table.Steps.{placed, rows_among, stripes_among};

use super::placed_stripe::PlacedStripe;
use super::standing::Standing;
use super::stripe_list::put_stripe;
use ecp_code::Code;
use ecp_shape::limits::MAX_NODES;
use ecp_store::NoMemory;
use std::alloc::Global;

/// The nodes of a mask, in rising order.
pub(super) fn nodes_of(alloc: Global, mask: u32) -> Result<Vec<u8>, NoMemory>
    ensures { IfOk result (λ nodes. nodes.items ≡ nodes_in mask) }
{
    Ok(
        (0..MAX_NODES as u8)
            .filter(|node| (mask >> *node) % 2 == 1)
            .collect(alloc)?,
    )
}

/// The rows of a stripe that is stored, each on its place among these nodes.
fn rows_on(alloc: Global, nodes: &[u8], stripe: u32, n: u32) -> Result<Vec<Standing>, NoMemory>
    requires { 0 < length nodes.now }
    ensures { IfOk result (λ rows. rows.items ≡ rows_among nodes.now n stripe) }
{
    let mut rows = Vec::with_capacity(alloc, n as usize)?;
    for row in 0..n {
        let at = (stripe as usize + row as usize) % nodes.len();
        rows.push(Standing {
            node: nodes[at],
            live: true,
        })?;
    }
    Ok(rows)
}

/// The stripes of a file with these bytes, the last one first.
pub(super) fn stripes_of(
    alloc: Global,
    code: &Code,
    bytes: &[u8],
    block: u32,
    n: u32,
    first: u32,
    nodes: &[u8],
    count: u32,
) -> Result<Vec<PlacedStripe>, NoMemory>
    requires block { 0 < block }
    requires some { 0 < length nodes.now }
    requires count { count ≡ stripe_count code.now.k block (length bytes.now) }
    requires numbers { first + count < 2 ^ 32 }
    ensures { IfOk result (λ stripes. reverse stripes.items ≡ stripes_among nodes.now n first (file_stripes code.now.k block bytes.now)) }
{
    let mut stripes = Vec::with_capacity(alloc, count as usize)?;
    let mut left = count;
    while left > 0 {
        left -= 1;
        let blocks = code.stripe_at(alloc, bytes, block, left)?;
        let rows = rows_on(alloc, nodes, first + left, n)?;
        stripes.push(PlacedStripe::new(first + left, blocks, rows))?;
    }
    Ok(stripes)
}

/// Puts the stripes at their places, the last of them first. There is room for them.
pub(super) fn put_all(stripes: &mut Vec<PlacedStripe>, mut added: Vec<PlacedStripe>)
    requires room { vec_len stripes.old + vec_len added ≤ vec_capacity stripes.old }
    requires rising { IsRising stripes.old.items }
    ensures placed { stripes.new.items ≡ fold placed stripes.old.items (reverse added.items) }
    ensures rising { IsRising stripes.new.items }
{
    while let Some(stripe) = added.pop() {
        put_stripe(stripes, stripe);
    }
}
