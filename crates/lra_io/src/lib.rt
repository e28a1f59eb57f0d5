// The outside of the analyser: sources of bytes and sinks of bytes, with a meaning for proofs.
#![tactic(auto)]

mod memory_sink;
mod memory_source;
mod real;
mod sink;
mod source;
mod whole;

pub use memory_sink::{MemSink, QuietSink};
pub use memory_source::{MemSource, QuietSource};
pub use real::{RealSink, RealSource};
pub use sink::{Sink, write_whole};
pub use source::{Failed, Source};
pub use whole::{ReadError, read_whole};
