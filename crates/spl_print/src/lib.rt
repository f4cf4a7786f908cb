//! The canonical text of a program, with what is noted of each point in comments.
#![tactic(auto)]

mod blocks;
mod expression;
mod laws;
mod lines;
mod notes;
mod place_cursor;
mod printing;
mod text;
mod writer;

pub use laws::law_examples;
pub use notes::Notes;
pub use printing::{print, print_tree};
pub use spl_types::NoMemory;
