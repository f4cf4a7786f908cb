//! The checks of a program beyond its grammar: names, kinds, counts and limits.
#![tactic(auto)]

mod calls;
mod checked;
mod decls;
mod demands;
mod exprs;
mod fault;
mod laws;
mod names;
pub mod nodes;
mod routines;
mod scope;
mod stmts;
mod tables;
mod targets;
mod walk;

pub use checked::{Checked, check};
pub use fault::{CheckFault, CheckRule};
pub use laws::{law_examples, law_tree};
pub use memory::NoMemory;
pub use names::Names;
pub use routines::{Routine, routine_at};
pub use tables::NameTable;
