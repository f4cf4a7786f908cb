//! The checker of certificates: whether invariants of a core are inductive, by the right side of each point's equation over
//! the plain domain, and that inductive ones hold of every run. It computes no rounds and no fixed point.
#![tactic(auto)]

mod below;
mod checking;
mod given;
mod laws;
mod verdict;

pub use checking::inductive;
pub use given::point_dims;
pub use laws::{law_examples, law_inductive};
pub use memory::NoMemory;
pub use verdict::Verdict;
