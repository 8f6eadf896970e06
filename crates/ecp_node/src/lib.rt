//! Nodes: a store that may fail, turned into promises.
//!
//! A [`Node`] keeps blocks in a store and writes down in its log what became of them. A block that was kept has a
//! [`Receipt`]: a tag on the node's log whose list has the block's `Kept`, so that it names the same bytes for ever,
//! whoever has it and wherever it goes. A read gives just these bytes or says why not: [`NodeRead::Lost`] comes exactly
//! where a later item of the log gave the block up, and a failure only where the store's own count of faults rose. A
//! wipe gives all blocks up and begins the next incarnation of the node. Failures are counted in the log, and each can be
//! spent once, as the cause of one entry of the history.
//!
//! It stands on `ecp_book` (logs and tags) and `ecp_store` (stores), and on `ecp_shape` for what a loss is. The layer
//! above may rely on the clauses of [`Node`] and [`Receipt`] alone: which answer comes when, what each leaves of the node
//! (`specs/Nodes.antt`), and what holds of every node (`IsSound`). What a log says is said of lists of items alone
//! (`specs/Items.antt`, `specs/Held.antt`), so that it can be said of tags too.
#![tactic(auto)]

mod fault;
mod item;
pub mod limits;
mod node;
mod node_keep;
mod node_log;
mod node_read;
mod place;
mod receipt;
mod shelf;

pub use fault::Fault;
pub use item::NodeItem;
pub use node::Node;
pub use node_keep::NodeKeep;
pub use node_read::NodeRead;
pub use receipt::Receipt;

#[cfg(test)]
mod tests;
