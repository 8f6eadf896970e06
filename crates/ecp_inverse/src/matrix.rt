//! Square matrices of bytes.
ghost use Rattle.std.specs.Prelude.{◌≡◌, ◌≢◌, ℕ, ◌⊎◌, ◌<◌, ◌≤◌, ◌^◌};
ghost use Rattle.ecp_inverse.specs.Cells.{entry, AreByteCells};
ghost use Rattle.ecp_inverse.specs.Matrix.{Square, cell};
ghost use Rattle.ecp_inverse.specs.declared.rows.TheConstants.{MAX_SIZE};

use crate::rows::{MAX_SIZE, Rows};
use std::marker::Model;

/// A square matrix of bytes, with 1 to [`MAX_SIZE`] rows and as many columns.
#[derive(Drop)]
pub struct Matrix {
    size: u8,
    cells: Rows,
}

impl Model for Matrix {
    ghost Value = { Square };

    ghost view = { λ m. record { size = m.size; rows = m.cells } };

    ghost invariant = { λ m. (1 ≤ m.size) × (m.size ≤ MAX_SIZE) × AreByteCells (entry m.cells) };
}

impl Matrix {
    /// The matrix of this size whose cells are all 0.
    pub fn zero(size: u8) -> Matrix
        requires { (1 ≤ size) × (size ≤ MAX_SIZE) }
        ensures size { result.size ≡ size }
        ensures cells { (i j : ℕ) → cell result i j ≡ 0 }
    {
        Matrix {
            size,
            cells: [[0; MAX_SIZE]; MAX_SIZE],
        }
    }

    /// The number of rows, and of columns.
    pub fn size(&self) -> u8
        ensures value { result ≡ self.now.size }
        ensures range { (1 ≤ result) × (result ≤ MAX_SIZE) }
    {
        self.size
    }

    /// The cell in a row and a column, both counted from 0.
    pub fn at(&self, row: u8, col: u8) -> u8
        requires { (row < self.now.size) × (col < self.now.size) }
        ensures { result ≡ cell self.now row col }
    {
        self.cells[row as usize][col as usize]
    }

    /// Makes `v` the cell in a row and a column, and leaves the others.
    pub fn set(&mut self, row: u8, col: u8, v: u8)
        requires { (row < self.old.size) × (col < self.old.size) }
        ensures size { self.new.size ≡ self.old.size }
        ensures cell { cell self.new row col ≡ v }
        ensures others { (i j : ℕ) → (i ≢ row) ⊎ (j ≢ col) → cell self.new i j ≡ cell self.old i j }
    {
        let cells = &mut self.cells[row as usize];
        cells[col as usize] = v;
    }

    pub(crate) fn cells(&self) -> Rows
        ensures rows { result ≡ self.now.rows }
        ensures bytes { AreByteCells (entry result) }
    {
        self.cells
    }

    pub(crate) fn of(size: u8, cells: Rows) -> Matrix
        requires { (1 ≤ size) × (size ≤ MAX_SIZE) × AreByteCells (entry cells) }
        ensures size { result.size ≡ size }
        ensures rows { result.rows ≡ cells }
    {
        Matrix { size, cells }
    }
}
