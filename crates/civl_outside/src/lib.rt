//! The outside: where bytes come from and where they go, as traits with ends in memory and over std's readers and
//! writers, and the two calls that write all of some bytes and read a source to its end.
#![tactic(auto)]

mod memory;
mod plain;
mod reading;
mod real;
mod sending;
mod sink;
mod source;

pub use memory::{MemorySink, MemorySource};
pub use plain::{Memory, PlainSink, PlainSource};
pub use reading::{Whole, read_whole};
pub use real::{RealSink, RealSource};
pub use sending::{Sent, write_all};
pub use sink::{Sink, Wrote};
pub use source::{Source, Took};
