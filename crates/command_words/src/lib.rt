//! What the words of a command line ask for: an analysis with its options, a bench, or a replay.
#![tactic(auto)]

mod cli;
mod command;
mod domain_name;
mod laws;
mod number;
mod texts;

pub use command::{Command, WordsFault, read_words};
pub use domain_name::DomainName;
pub use laws::{law_limits, law_spelling};

#[cfg(test)]
mod tests;
