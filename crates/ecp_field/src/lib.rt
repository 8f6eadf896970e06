//! Arithmetic on bytes as the elements of the field of 256 elements, modulo
//! x^8 + x^4 + x^3 + x^2 + 1 (0x11D).
//!
//! It stands on std alone. The layers above may rely on each call being the byte sum, product or
//! quotient of `specs/Field.antt`, on the laws of that field (`FieldLaws` and `ListLaws` of
//! `proofs/`), and on no call taking memory or refusing.
#![tactic(auto)]

mod arithmetic;
mod laws;
mod tables;
#[cfg(test)]
mod tests;

pub use arithmetic::{add, div, inv, mul, pow};
pub use laws::{addition_laws, list_laws, multiplication_laws, quotient_laws, table_laws};
pub use tables::{EXP, LOG};
