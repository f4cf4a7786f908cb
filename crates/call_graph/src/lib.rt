//! The calls between the procedures of a core, the order of its points, and its cut points.
#![tactic(auto)]

mod building;
mod calling;
mod closure;
mod cutting;
mod laws;
mod ordering;
mod tables;

pub use building::graph;
pub use laws::{law_order, law_reaches};
pub use tables::Graph;
