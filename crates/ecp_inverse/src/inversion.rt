//! The inverse of a matrix by Gauss and Jordan's elimination.
ghost use Rattle.std.specs.Prelude.{◌≡◌, ℕ, ◌↔◌, IsErr, IfOk, IfErr};
ghost use Rattle.ecp_inverse.specs.Cells.{AreByteCells};
ghost use Rattle.ecp_inverse.specs.Matrix.{cell, AreInverse, HasInverse, IsKernelColumn};

use crate::matrix::Matrix;
use crate::singular::Singular;
use crate::system::System;

/// The inverse of a matrix on both sides. `Singular` comes exactly where there is none, with a column
/// that shows it.
pub fn invert(m: &Matrix) -> Result<Matrix, Singular>
    ensures size { IfOk result (λ inverse. inverse.size ≡ m.now.size) }
    ensures bytes { IfOk result (λ inverse. AreByteCells (cell inverse)) }
    ensures inverse { IfOk result (λ inverse. AreInverse m.now.size (cell m.now) (cell inverse)) }
    ensures column { IfErr result (λ s. IsKernelColumn m.now.size (cell m.now) s.column) }
    ensures exactly { IsErr result ↔ (HasInverse m.now.size (cell m.now) → ⊥) }
{
    let mut system = System::new(m);
    for col in 0..system.size {
        match system.pivot(col) {
            Some(row) => {
                system.take_pivot(col, row);
                system.clear_column(col);
            }
            None => {
                return Err(Singular {
                    column: system.kernel(col),
                });
            }
        }
    }
    Ok(Matrix::of(m.size(), system.right))
}
