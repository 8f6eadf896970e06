//! Blocks of bytes, the sources and sinks that bytes come from and go to, and the stores that keep blocks.
//!
//! A [`Block`] is seen as the list of its bytes. A [`Source`] may tell the bytes that it has left, a [`Sink`] the
//! bytes that were appended to it and how many of them are flushed, and a [`Store`] the bytes at each [`Key`]. All
//! three keep a count of faults that never falls, and a call answers [`Failed`] only where that count rose. A store
//! may be faultless: then no call of it fails. The layers above rely on these contracts alone: they are generic in
//! the source, the sink and the store.
//!
//! [`MemSource`], [`MemSink`] and [`MemStore`] keep their bytes in memory, tell everything and fail where they are
//! told to. [`StdSource`] and [`StdSink`] stand over any reader and writer of std and tell nothing.
//!
//! The layer stands on std. [`NoMemory`] is the one name for want of memory in all crates above.
#![tactic(auto)]

mod block;
mod failed;
mod failing_calls;
mod keep_fault;
mod key;
mod mem_sink;
mod mem_source;
mod mem_store;
mod no_memory;
mod sink;
mod source;
mod std_sink;
mod std_source;
mod store;

pub use block::Block;
pub use failed::Failed;
pub use keep_fault::KeepFault;
pub use key::Key;
pub use mem_sink::MemSink;
pub use mem_source::MemSource;
pub use mem_store::MemStore;
pub use no_memory::NoMemory;
pub use sink::Sink;
pub use source::Source;
pub use std_sink::StdSink;
pub use std_source::StdSource;
pub use store::Store;

#[cfg(test)]
mod tests;
