//! Operations on whole rows.
ghost use Rattle.std.specs.Prelude.{◌≡◌, ◌≢◌, ℕ, ◌<◌, slice_index};
ghost use Rattle.ecp_field.specs.Field.{byte_sum, byte_product};
ghost use Rattle.ecp_inverse.specs.Cells.{entry, identity};
ghost use Rattle.ecp_inverse.specs.Rows.{AddsMultiple, Scales};

use ecp_field::{add, mul};
use ecp_shape::limits::MAX_ROWS;

/// The greatest size of a matrix: the rows of a stripe are chosen by one.
pub const MAX_SIZE: usize = MAX_ROWS as usize;

pub(crate) type Row = [u8; MAX_SIZE];

pub(crate) type Rows = [Row; MAX_SIZE];

/// Adds `c` times one row to another.
pub(crate) fn add_multiple(rows: &mut Rows, target: usize, c: u8, source: usize)
    requires { (target < MAX_SIZE) × (source < MAX_SIZE) }
    ensures { AddsMultiple rows.old rows.new target c source }
{
    let from = rows[source];
    add_to_row(&mut rows[target], c, &from);
}

fn add_to_row(row: &mut Row, c: u8, from: &Row)
    ensures { (j : ℕ) → j < MAX_SIZE → slice_index row.new j
        ≡ byte_sum (slice_index row.old j) (byte_product c (slice_index from.now j)) }
{
    for j in 0..MAX_SIZE {
        row[j] = add(row[j], mul(c, from[j]));
    }
}

/// Multiplies a row by `c`.
pub(crate) fn scale(rows: &mut Rows, row: usize, c: u8)
    requires { row < MAX_SIZE }
    ensures { Scales rows.old rows.new row c }
{
    scale_row(&mut rows[row], c);
}

fn scale_row(row: &mut Row, c: u8)
    ensures { (j : ℕ) → j < MAX_SIZE → slice_index row.new j ≡ byte_product c (slice_index row.old j) }
{
    for j in 0..MAX_SIZE {
        row[j] = mul(c, row[j]);
    }
}

/// The rows of the identity.
pub(crate) fn identity_rows() -> Rows
    ensures { (i j : ℕ) → i < MAX_SIZE → j < MAX_SIZE → entry result i j ≡ identity i j }
{
    let mut rows = [[0; MAX_SIZE]; MAX_SIZE];
    for i in 0..MAX_SIZE {
        rows[i] = unit_row(i);
    }
    rows
}

fn unit_row(place: usize) -> Row
    requires { place < MAX_SIZE }
    ensures { (j : ℕ) → j < MAX_SIZE → slice_index result j ≡ identity place j }
{
    let mut row = [0; MAX_SIZE];
    row[place] = 1;
    row
}
