//! Inverses of square matrices of bytes.
//!
//! It stands on `ecp_field`. The layer above may rely on `invert` giving the inverse on both sides,
//! or a column that shows that there is none, and on no call taking memory.
#![tactic(auto)]

mod inversion;
mod matrix;
mod rows;
mod singular;
mod system;
#[cfg(test)]
mod tests;

pub use inversion::invert;
pub use matrix::Matrix;
pub use rows::MAX_SIZE;
pub use singular::Singular;
