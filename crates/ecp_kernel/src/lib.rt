//! Sums and products of whole slices of bytes.
//!
//! It stands on `ecp_field`, whose words `sums` and `scaled` say what each call leaves: the byte sums,
//! or the byte products with a constant, at each place, at every length. The layers above may rely
//! on these calls taking no memory and never refusing. They go by lanes of 64 bytes, and by a plain
//! loop over what is left.
#![tactic(auto)]

mod mul;
mod multiplier;
mod nibbles;
mod plain;
mod planes;
#[cfg(test)]
mod tests;
mod xor;

pub use mul::{mul_add_into, mul_add_into_by_planes, mul_into, mul_into_by_planes};
pub use xor::xor_into;
