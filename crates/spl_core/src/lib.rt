//! The core of a program: what the analysis and the runs of it see of the text.
//!
//! Procedures own points; edges between points say what is done on the way. The type keeps what makes this a program:
//! numbers are in range, an input is never written, a call stands alone at its point.
#![tactic(auto)]

mod laws;
mod parts;
mod program;

pub use laws::{law_examples, law_graph, law_literals, law_numbers, law_quotient};
pub use parts::{Action, Cmp, CoreCond, CoreExpr, CoreParts, Edge, Proc, Span};
pub use program::Core;
