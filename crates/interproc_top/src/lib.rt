//! The top call: the words of the command line in, the annotated program out.
#![tactic(auto)]

mod analysis;
mod bench;
mod cause;
mod command;
mod reading;
mod replay;
mod stages;
mod top;

pub use bench::bench_text;
pub use cause::Status;
pub use top::run;
