//! Lines of text, written one word after another.
//!
//! It stands on `itoa` alone. [`LineBuffer`] has room for one line of the product and knows how much of it is written;
//! contracts see it as the bytes that it holds. It takes no memory. `specs/` has words behind spaces, and `proofs/` the
//! lemmas on words that are joined.
#![tactic(auto)]

pub mod bytes;
mod line_buffer;

pub use line_buffer::LineBuffer;

#[cfg(test)]
mod tests;
