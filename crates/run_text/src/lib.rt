//! The text of a run.
#![tactic(auto)]

mod text;

pub use text::run_text;
