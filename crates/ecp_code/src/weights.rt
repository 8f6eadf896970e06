ghost use Rattle.std.specs.Prelude.{◌≡◌};
ghost use Rattle.ecp_code.specs.Weights.{weight as weight_of};

use ecp_field::{add, div, mul};

/// The weights of some rows of a stripe: the row that they are for is the sum of these rows, each times its weight.
#[derive(Clone, Copy, Debug, PartialEq, Eq)]
pub struct Weights {
    /// How many rows there are.
    pub len: u8,
    /// The weight of each row, in the order in which the rows were given, and 0 past them.
    pub w: [u8; 16],
}

/// The weight of row `row`, among `rows`, for row `target`: the product over each other row m of
/// (target + m) / (row + m).
pub(crate) fn weight(rows: &[u8], row: u8, target: u8) -> u8
    ensures { result ≡ weight_of rows.now row target }
{
    let mut product = 1;
    for &other in rows {
        if other != row {
            product = mul(product, div(add(target, other), add(row, other)));
        }
    }
    product
}
