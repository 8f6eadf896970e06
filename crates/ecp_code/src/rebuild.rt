//! A row of a stripe as the sum of k other rows, each times its weight.
ghost use Rattle.std.specs.Prelude.{◌≡◌, ◌+◌, ◌*◌, ◌<◌, ◌≤◌, ◌^◌, length, map, take, All, IfOk};
ghost use Rattle.ecp_code.specs.Rows.{row as row_at, other_rows, weighted_sum};
ghost use Rattle.ecp_code.specs.Stripes.{blocks, filled, stripe_len};

use crate::code::Code;
use crate::rows::{add_block, bytes_of_row};
use ecp_shape::limits::MAX_ROWS;
use ecp_store::{Block, NoMemory};
use std::alloc::Global;

/// The bytes of one helper of a stripe whose data are k blocks of `len` bytes: of a data row those of its
/// block that are there, and of row k those of `parity`.
fn helper_block<'a>(bytes: &'a [u8], len: usize, parity: &'a [u8], k: u8, helper: u8) -> &'a [u8]
    requires some { 1 ≤ k }
    requires helper { helper ≤ k }
    requires parity { helper ≡ k → parity.now ≡ row_at (blocks k len bytes.now) k }
    ensures short { length result.now ≤ len }
    ensures block { filled len result.now ≡ row_at (blocks k len bytes.now) helper }
{
    if helper == k {
        return parity;
    }
    bytes_of_row(bytes, k, len, helper)
}

/// The sum of the helpers' rows, each times its weight, one after another.
fn sum_of_helpers(
    alloc: Global,
    bytes: &[u8],
    len: usize,
    parity: &[u8],
    k: u8,
    helpers: &[u8],
    weights: &[u8],
) -> Result<Block, NoMemory>
    requires some { 1 ≤ k }
    requires helpers { All (λ helper. helper ≤ k) helpers.now }
    requires parity { All (λ helper. helper ≡ k → parity.now ≡ row_at (blocks k len bytes.now) k) helpers.now }
    requires weights { length weights.now ≡ length helpers.now }
    ensures { IfOk result (λ sum. sum ≡ weighted_sum len weights.now (map (row_at (blocks k len bytes.now)) helpers.now)) }
{
    let mut sum = vec![in alloc; 0; len]?;
    for i in 0..helpers.len() {
        let block = helper_block(bytes, len, parity, k, helpers[i]);
        add_block(&mut sum, weights[i], block);
    }
    Ok(Block::new(sum))
}

impl Code {
    /// The first k rows other than `row`, in rising order.
    fn helpers(&self, row: u8) -> [u8; 16]
        ensures { take self.now.k result ≡ other_rows self.now.k row }
    {
        let mut rows = [0; MAX_ROWS as usize];
        for i in 0..self.k() {
            rows[i as usize] = if i < row { i } else { i + 1 };
        }
        rows
    }

    /// Row `row` of the one stripe that these bytes are, as `row_of` gives it, rebuilt from k other rows: the
    /// first k rows other than it in rising order, each times its weight. A data row is so rebuilt from the
    /// other data rows and row k, which is encoded first.
    ///
    /// Reads the bytes in place, and takes memory for the row and, for a data row, for row k.
    pub fn rebuild(&self, alloc: Global, bytes: &[u8], row: u8) -> Result<Block, NoMemory>
        requires { row < self.now.n }
        ensures { IfOk result (λ block. block ≡
            row_at (blocks self.now.k (stripe_len self.now.k (length bytes.now)) bytes.now) row) }
    {
        let k = self.k();
        if row >= k {
            return self.row_of(alloc, bytes, row);
        }
        let parity = self.row_of(alloc, bytes, k)?;
        let len = bytes.len().div_ceil(k as usize);
        let helpers = self.helpers(row);
        let helpers = &helpers[..k as usize];
        let weights = self.weights(helpers, row);
        sum_of_helpers(
            alloc,
            bytes,
            len,
            parity.bytes(),
            k,
            helpers,
            &weights.w[..k as usize],
        )
    }
}
