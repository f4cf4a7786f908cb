//! What lies outside the program: words, files by name, and streams to write to.
//!
//! `Files` and `Sink` say by their clauses what a file and a stream do, as far as they tell, and count their faults.
//! Code over them can't raise a count by itself, so an answer "only where the count rose" is never an excuse.
//! `MemFiles` and `MemSink` are exact, for tests; `HostFiles` and `HostSink` are the thin edge to the real ones.
#![tactic(auto)]

mod files;
mod host;
mod mem_files;
mod mem_sink;
mod sink;
mod words;

pub use files::{Failed, Files, OpenFault, ReadAllError, read_all, read_up_to};
pub use host::{HostFiles, HostSink};
pub use mem_files::MemFiles;
pub use mem_sink::MemSink;
pub use memory::NoMemory;
pub use sink::{Sink, WriteFault, write_all};
pub use words::Words;

#[cfg(test)]
mod tests;
