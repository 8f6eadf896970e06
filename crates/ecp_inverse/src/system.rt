//! Systems of equations, which row operations bring to a form that can be read off.
ghost use Rattle.std.specs.Prelude.{◌≡◌, ◌≢◌, ℕ, ◌+◌, ◌<◌, ◌≤◌, IfSome, IfNone, slice_index};
ghost use Rattle.ecp_inverse.specs.Cells.{entry, identity, AreByteCells};
ghost use Rattle.ecp_inverse.specs.Rows.{AddsMultiple, Scales, SameSolutions, IsReduced};
ghost use Rattle.ecp_inverse.specs.declared.rows.TheConstants.{MAX_SIZE};

use crate::matrix::Matrix;
use crate::rows::{MAX_SIZE, Row, Rows, add_multiple, identity_rows, scale};
use ecp_field::inv;

/// As many equations as `size`, one a row: the left rows times y are the right rows times z.
#[derive(Drop)]
pub(crate) struct System {
    pub(crate) size: usize,
    pub(crate) left: Rows,
    pub(crate) right: Rows,
    ghost in_size: { size ≤ MAX_SIZE },
    ghost left_bytes: { AreByteCells (entry left) },
    ghost right_bytes: { AreByteCells (entry right) },
}

impl System {
    /// The equations that say that a matrix times y is z.
    pub(crate) fn new(m: &Matrix) -> System
        ensures size { result.size ≡ m.now.size }
        ensures left { result.left ≡ m.now.rows }
        ensures right { (i j : ℕ) → i < MAX_SIZE → j < MAX_SIZE → entry result.right i j ≡ identity i j }
    {
        System {
            size: m.size() as usize,
            left: m.cells(),
            right: identity_rows(),
        }
    }

    /// The first row from `col` on whose cell in that column is not 0.
    pub(crate) fn pivot(&self, col: usize) -> Option<usize>
        requires { col < self.now.size }
        ensures found { IfSome result
            (λ r. (col ≤ r) × (r < self.now.size) × (entry self.now.left r col ≢ 0)) }
        ensures first { IfSome result
            (λ r. (i : ℕ) → col ≤ i → i < r → entry self.now.left i col ≡ 0) }
        ensures none { IfNone result
            ((i : ℕ) → col ≤ i → i < self.now.size → entry self.now.left i col ≡ 0) }
    {
        for row in col..self.size {
            if self.left[row][col] != 0 {
                return Some(row);
            }
        }
        None
    }

    fn add(&mut self, target: usize, c: u8, source: usize)
        requires within { (target < self.old.size) × (source < self.old.size) }
        requires apart { target ≢ source }
        ensures size { self.new.size ≡ self.old.size }
        ensures left { AddsMultiple self.old.left self.new.left target c source }
        ensures solutions { SameSolutions self.old.size self.old.left self.old.right self.new.left
            self.new.right }
    {
        add_multiple(&mut self.left, target, c, source);
        add_multiple(&mut self.right, target, c, source);
    }

    fn multiply(&mut self, row: usize, c: u8)
        requires within { row < self.old.size }
        requires nonzero { c ≢ 0 }
        ensures size { self.new.size ≡ self.old.size }
        ensures left { Scales self.old.left self.new.left row c }
        ensures solutions { SameSolutions self.old.size self.old.left self.old.right self.new.left
            self.new.right }
    {
        scale(&mut self.left, row, c);
        scale(&mut self.right, row, c);
    }

    // Makes the cell of row `col` in that column other than 0, by the pivot in `row`.
    fn bring_pivot(&mut self, col: usize, row: usize)
        requires within { (col ≤ row) × (row < self.old.size) }
        requires nonzero { entry self.old.left row col ≢ 0 }
        requires first { (i : ℕ) → col ≤ i → i < row → entry self.old.left i col ≡ 0 }
        requires reduced { IsReduced self.old.size col self.old.left }
        ensures size { self.new.size ≡ self.old.size }
        ensures solutions { SameSolutions self.old.size self.old.left self.old.right self.new.left
            self.new.right }
        ensures reduced { IsReduced self.old.size col self.new.left }
        ensures nonzero { entry self.new.left col col ≢ 0 }
    {
        if row == col {
            return;
        }
        self.add(col, 1, row);
    }

    /// Makes the cell of row `col` in that column 1, by the pivot in `row`.
    pub(crate) fn take_pivot(&mut self, col: usize, row: usize)
        requires within { (col ≤ row) × (row < self.old.size) }
        requires nonzero { entry self.old.left row col ≢ 0 }
        requires first { (i : ℕ) → col ≤ i → i < row → entry self.old.left i col ≡ 0 }
        requires reduced { IsReduced self.old.size col self.old.left }
        ensures size { self.new.size ≡ self.old.size }
        ensures solutions { SameSolutions self.old.size self.old.left self.old.right self.new.left
            self.new.right }
        ensures reduced { IsReduced self.old.size col self.new.left }
        ensures one { entry self.new.left col col ≡ 1 }
    {
        self.bring_pivot(col, row);
        let c = inv(self.left[col][col]);
        self.multiply(col, c);
    }

    /// Makes the other cells of a column 0, by the 1 in row `col`.
    pub(crate) fn clear_column(&mut self, col: usize)
        requires within { col < self.old.size }
        requires one { entry self.old.left col col ≡ 1 }
        requires reduced { IsReduced self.old.size col self.old.left }
        ensures size { self.new.size ≡ self.old.size }
        ensures solutions { SameSolutions self.old.size self.old.left self.old.right self.new.left
            self.new.right }
        ensures reduced { IsReduced self.old.size (col + 1) self.new.left }
    {
        for row in 0..self.size {
            if row == col {
                continue;
            }
            let c = self.left[row][col];
            self.add(row, c, col);
        }
    }

    /// The column that a row with no pivot leaves: 1 at `col`, and before it what the equations say.
    pub(crate) fn kernel(&self, col: usize) -> Row
        requires { col < self.now.size }
        ensures before { (i : ℕ) → i < col → slice_index result i ≡ entry self.now.left i col }
        ensures one { slice_index result col ≡ 1 }
        ensures past { (i : ℕ) → col < i → slice_index result i ≡ 0 }
    {
        let mut column = [0; MAX_SIZE];
        for i in 0..col {
            column[i] = self.left[i][col];
        }
        column[col] = 1;
        column
    }
}
