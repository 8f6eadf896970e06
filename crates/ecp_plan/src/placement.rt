//! On which node a row of a stripe is put.

ghost use Rattle.std.specs.Prelude.{◌≡◌, ◌<◌, length};
ghost use Rattle.ecp_history.specs.table.Placement.{nodes_in, place as place_of};

use ecp_shape::limits::MAX_NODES;

/// The node of row `row` of stripe `stripe`: number (`stripe` + `row`) mod u among the u nodes of `up`, in rising order.
///
/// Bit m of `up` is set for node m. As at least as many nodes are up as a stripe has rows, no two rows of a stripe
/// stand on one node.
pub fn place(up: u32, stripe: u32, row: u8) -> u8
    requires enough { row < length (nodes_in up) }
    ensures { result ≡ place_of up stripe row }
{
    let number = (stripe as usize + usize::from(row)) % up_count(up);
    (0..MAX_NODES as u8)
        .filter(|node| (up >> *node) % 2 == 1)
        .nth(number)
        .unwrap()
}

/// How many nodes are up.
fn up_count(up: u32) -> usize
    ensures { result ≡ length (nodes_in up) }
{
    up.count_ones() as usize
}
