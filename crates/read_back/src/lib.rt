//! What the printer writes reads back as the program that was written: a law over the definitions.
#![tactic(auto)]

mod laws;

pub use laws::law_reads_back;
