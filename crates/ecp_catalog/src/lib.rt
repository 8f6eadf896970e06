//! What a coordinator keeps of the plain table: no byte of a file, and every answer about files, rows and nodes.
//!
//! A [`Catalog`] has the files with the receipts of their rows, and of each node whether it is up, its incarnation, how
//! many live blocks stand on it and where the history has its losses. Whether a row is live is not stored: a row stands
//! on the node of its receipt, and is live where that node is up in the receipt's incarnation. So the loss of a node is
//! one small change, however many blocks stood on it. [`Stamps`] say when each node helped last.
//!
//! It stands on `ecp_history` for the plain table, on `ecp_node` for receipts and on `ecp_plan` for live rows and hops.
//! The layer above may rely on this: a catalog is the outline of a history (`specs/Outline.antt`) from the empty history
//! on, through every entry that is stored with its update, and the outline's answers are those of the table that the
//! history makes (`laws`). Room is taken by `Catalog::reserve` and `Catalog::reserve_loss` alone.
#![tactic(auto)]

mod catalog;
mod file_list;
pub mod laws;
pub mod limits;
mod live_rows;
mod lost_blocks;
mod names;
mod node_list;
mod node_row;
mod span;
mod spans;
mod stamps;
mod stored_file;

pub use catalog::Catalog;
pub use live_rows::LiveRows;
pub use stamps::Stamps;

#[cfg(test)]
mod tests;
