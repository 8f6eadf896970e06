//! The Reed-Solomon code of a stripe: k rows of data and n - k rows of parity, each a block of equal length.
//!
//! Row i is the value at the point i, byte by byte, of the polynomial of degree below k whose values at the points
//! 0 to k - 1 are the data. So each row is a sum of any k other rows, each times a weight.
//!
//! It stands on `ecp_field` for the arithmetic of bytes, on `ecp_kernel` for sums of whole blocks, on `ecp_inverse` for
//! the weights of any rows, and on `ecp_store` for blocks. The layer above may rely on this: `Code::new` takes exactly
//! the shapes with 1 <= k < n <= 16; `Code::weights` gives the interpolation weights of any k distinct rows for any row;
//! `Code::encode`, `Code::row_of` and `Code::rebuild` give the row that the data determine; `Code::stripe_at` and
//! `Code::stripe_count` cut a file into stripes, the last of them filled with zeros; `data_row_law` says that a data row
//! is its block, and `decoding_law` that any k distinct rows give every row.
#![tactic(auto)]

mod bad_shape;
mod chosen;
mod code;
mod data_weights;
mod laws;
mod rebuild;
mod rows;
mod stripe;
mod weights;

pub use bad_shape::BadShape;
pub use code::Code;
pub use ecp_store::{Block, NoMemory};
pub use laws::{data_row_law, decoding_law};
pub use stripe::Stripe;
pub use weights::Weights;

#[cfg(test)]
mod tests;
