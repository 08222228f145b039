//! Where bytes come from and where they go: sources and sinks, each with a count of its faults.
//!
//! A program that is proved from the bytes read to the bytes written speaks of them by these two
//! traits. One in memory tells its bytes, so that a theorem can name them; one over std's readers
//! and writers is the trusted edge, and tells none.
#![tactic(auto)]

mod copy;
mod memory_sink;
mod memory_source;
mod sink;
mod source;
mod standard;

pub use memory_sink::MemorySink;
pub use memory_source::MemorySource;
pub use sink::{Gave, Sink};
pub use source::{Source, Took};
pub use standard::{StdSink, StdSource};
