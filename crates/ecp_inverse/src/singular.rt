//! Why a matrix has no inverse.

use crate::rows::MAX_SIZE;

/// A column that shows that a matrix has no inverse: it is not all zero within the matrix's size, is
/// zero past it, and its product with the matrix is zero.
#[derive(Clone, Copy, Debug, PartialEq, Eq)]
pub struct Singular {
    pub column: [u8; MAX_SIZE],
}
