//! Plans: where each row of a stripe stands, which rows make one that is lost, and which of them a slice visits when.
//!
//! [`place`] is the node of a row, as the history has it. [`pick`] chooses the helpers of a lost row by their stamps, and
//! a [`Plan`] has them with their weights and receipts; [`slices`] and [`hop_at`] say into how many slices its block is
//! cut and which helper a slice visits next. None of these takes memory. [`laws`] has that a slice visits each helper once.
//!
//! It stands on `ecp_history` for placement and for what a sound plan is, on `ecp_code` for weights, on `ecp_node` for
//! receipts, and on `ecp_book` for tags. The layer above may rely on this: `pick` gives k live rows whose nodes' turns
//! come before those of all the others (`specs/Choice.antt`); a plan that meets `IsSound` (`specs/Plans.antt`) names, for
//! each of its helpers, the bytes that its row has in the table of its front, and these rows and weights make the row of
//! the plan.
#![tactic(auto)]

mod choice;
mod hop;
pub mod laws;
mod live_row;
mod order;
mod picks;
mod placement;
mod plan;
mod target;
mod turn;
mod voids;

pub use choice::pick;
pub use hop::Hop;
pub use live_row::LiveRow;
pub use order::{hop_at, slices};
pub use picks::Picks;
pub use placement::place;
pub use plan::Plan;
pub use target::Target;
pub use voids::Voids;

#[cfg(test)]
mod tests;
