//! The weights of any rows, by the inverse of the matrix of their data weights.
ghost use Rattle.std.specs.Prelude.{◌≡◌, ◌≢◌, ◌≤◌, ◌<◌, ℕ, length, nat_eq, slice_index};
ghost use Rattle.std.specs.List.{range_with_len, IsDistinct};
ghost use Rattle.ecp_field.specs.Field.{byte_product};
ghost use Rattle.ecp_inverse.specs.Cells.{total, identity, matrix_product, AreByteCells};
ghost use Rattle.ecp_inverse.specs.Matrix.{cell};
ghost use Rattle.ecp_code.specs.Weights.{weight as weight_of};

use crate::data_weights::data_weights;
use ecp_field::{add, mul};
use ecp_inverse::{Matrix, invert};
use ecp_shape::limits::MAX_ROWS;

/// The inverse of the matrix whose row i has the weights of the data rows for row `rows[i]`. It is always there.
pub(crate) fn inverse_of(rows: &[u8]) -> Matrix
    requires some { 1 ≤ length rows.now }
    requires few { length rows.now ≤ MAX_ROWS }
    requires distinct { IsDistinct nat_eq rows.now }
    ensures size { result.size ≡ length rows.now }
    ensures bytes { AreByteCells (cell result) }
    ensures inverse { (i j : ℕ) → i < length rows.now → j < length rows.now →
        matrix_product (length rows.now)
        (λ i j. weight_of (range_with_len 0 (length rows.now)) j (slice_index rows.now i)) (cell result) i j
        ≡ identity i j }
{
    match invert(&matrix_of(rows)) {
        Ok(inverse) => inverse,
        Err(_) => unreachable!(),
    }
}

/// The matrix whose row i has the weights of the data rows for row `rows[i]`.
fn matrix_of(rows: &[u8]) -> Matrix
    requires some { 1 ≤ length rows.now }
    requires few { length rows.now ≤ MAX_ROWS }
    ensures size { result.size ≡ length rows.now }
    ensures cells { (i j : ℕ) → i < length rows.now → j < length rows.now →
        cell result i j ≡ weight_of (range_with_len 0 (length rows.now)) j (slice_index rows.now i) }
{
    let size = rows.len() as u8;
    let mut matrix = Matrix::zero(size);
    for i in 0..size {
        let weights = data_weights(size, rows[i as usize]);
        set_row(&mut matrix, i, &weights[..size as usize]);
    }
    matrix
}

/// Makes these the cells of a row, and leaves the other rows.
fn set_row(matrix: &mut Matrix, row: u8, cells: &[u8])
    requires row { row < matrix.old.size }
    requires cells { length cells.now ≡ matrix.old.size }
    ensures size { matrix.new.size ≡ matrix.old.size }
    ensures row { (j : ℕ) → j < matrix.old.size → cell matrix.new row j ≡ slice_index cells.now j }
    ensures others { (i j : ℕ) → i ≢ row → cell matrix.new i j ≡ cell matrix.old i j }
{
    for j in 0..matrix.size() {
        matrix.set(row, j, cells[j as usize]);
    }
}

/// A row of bytes times a column of a matrix.
pub(crate) fn times_column(row: &[u8], matrix: &Matrix, col: u8) -> u8
    requires row { length row.now ≡ matrix.now.size }
    requires col { col < matrix.now.size }
    ensures { result ≡ total matrix.now.size (λ j. byte_product (slice_index row.now j) (cell matrix.now j col)) }
{
    let mut sum = 0;
    for j in 0..matrix.size() {
        sum = add(sum, mul(row[j as usize], matrix.at(j, col)));
    }
    sum
}
