//! The sizes that a service is opened with, and every limit of the product by its name.
//!
//! It stands on nothing, so that each crate, its contracts and its definitions can name the same [`Shape`] and the
//! same limits. `specs/` has the range of a shape.
#![tactic(auto)]

pub mod limits;
mod shape;

pub use shape::Shape;
