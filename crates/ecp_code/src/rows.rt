ghost use Rattle.std.specs.Prelude.{◌≡◌, ◌≤◌, ◌<◌, length, IfOk};
ghost use Rattle.ecp_field.specs.Lists.{sums, scaled};
ghost use Rattle.ecp_code.specs.Rows.{row as row_at, weighted_sum};
ghost use Rattle.ecp_code.specs.Stripes.{filled, blocks};

use crate::stripe::filled_bytes;
use ecp_kernel::mul_add_into;
use ecp_store::{Block, NoMemory};
use std::alloc::Global;

/// The sum of the blocks of `len` bytes that `bytes` fill, one for each weight, each times its weight. Where the bytes
/// end, zeros follow.
///
/// Takes memory once, for the result. Each byte is read once, in rising order.
pub(crate) fn sum_of_blocks(
    alloc: Global,
    weights: &[u8],
    bytes: &[u8],
    len: usize,
) -> Result<Block, NoMemory>
    ensures { IfOk result (λ sum. sum ≡ weighted_sum len weights.now (blocks (length weights.now) len bytes.now)) }
{
    let mut sum = vec![in alloc; 0; len]?;
    let mut rest = bytes;
    for &w in weights {
        let (block, after) = rest.split_at(len.min(rest.len()));
        add_block(&mut sum, w, block);
        rest = after;
    }
    Ok(Block::new(sum))
}

/// The bytes of data row `row` that are there, of the k blocks of `len` bytes that `bytes` fill. Where they end, zeros
/// follow.
pub(crate) fn bytes_of_row(bytes: &[u8], k: u8, len: usize, row: u8) -> &[u8]
    requires { row < k }
    ensures short { length result.now ≤ len }
    ensures row { filled len result.now ≡ row_at (blocks k len bytes.now) row }
{
    let start = len.saturating_mul(row as usize).min(bytes.len());
    let rest = &bytes[start..];
    &rest[..len.min(rest.len())]
}

/// A copy of data row `row` of the k blocks of `len` bytes that `bytes` fill.
///
/// Takes memory once, for the result.
pub(crate) fn copy_of_row(
    alloc: Global,
    bytes: &[u8],
    k: u8,
    len: usize,
    row: u8,
) -> Result<Block, NoMemory>
    requires { row < k }
    ensures { IfOk result (λ block. block ≡ row_at (blocks k len bytes.now) row) }
{
    Ok(Block::new(filled_bytes(alloc, bytes_of_row(bytes, k, len, row), len)?))
}

/// Adds to `sum` a block times `c`. A block that is shorter ends in zeros, which add nothing.
pub(crate) fn add_block(sum: &mut [u8], c: u8, block: &[u8])
    requires { length block.now ≤ length sum.old }
    ensures { sum.new ≡ sums sum.old (scaled c (filled (length sum.old) block.now)) }
{
    mul_add_into(&mut sum[..block.len()], c, block);
}
