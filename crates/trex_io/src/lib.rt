//! Sources and sinks, by which a program meets the world: the traits, those of std and those in memory, whole texts read and
//! written over them, and the two ways in which a call fails.
#![tactic(auto)]

mod fault;
mod mem_sink;
mod mem_source;
mod reading;
mod sink;
mod source;
mod std_sink;
mod std_source;
mod writing;

pub use fault::{Failed, Memory};
pub use mem_sink::MemSink;
pub use mem_source::MemSource;
pub use reading::{ReadAll, read_all};
pub use sink::Sink;
pub use source::Source;
pub use std_sink::StdSink;
pub use std_source::StdSource;
pub use writing::{write_all, write_pieces};
