ghost use Rattle.std.specs.Prelude.{◌≡◌, ◌≤◌, ◌-◌, take, drop, replicate};
ghost use Rattle.std.specs.List.{range_with_len};
ghost use Rattle.ecp_code.specs.Weights.{weights};

use crate::weights::weight;
use ecp_shape::limits::MAX_ROWS;

/// The rows that may be data: as many as a code of 16 rows has.
const ROWS: [u8; 16] = [0, 1, 2, 3, 4, 5, 6, 7, 8, 9, 10, 11, 12, 13, 14, 15];

/// The weights of data rows 0 to `k` - 1 for row `target`, and 0 past them.
pub(crate) fn data_weights(k: u8, target: u8) -> [u8; 16]
    requires { k ≤ MAX_ROWS }
    ensures weights { take k result ≡ weights (range_with_len 0 k) target }
    ensures rest { drop k result ≡ replicate (MAX_ROWS - k) 0 }
{
    let rows = &ROWS[..k as usize];
    let mut w = [0; MAX_ROWS as usize];
    for (i, &row) in rows.iter().enumerate() {
        w[i] = weight(rows, row, target);
    }
    w
}
