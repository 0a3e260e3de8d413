//! What a program reads from and writes to: a source of named texts and a sink of bytes.
//!
//! The traits say what every source and sink does. There are kinds in memory, whose reads and
//! writes may be short and may fail, kinds that never fail, and the system's own.
#![tactic(auto)]

mod memory;
mod outside;
mod real;
mod sure;

pub use memory::{MemorySink, MemorySource};
pub use outside::{Failed, Sink, Source};
pub use real::{RealSink, RealSource};
pub use sure::{SureSink, SureSource};

#[cfg(test)]
mod tests;
