//! Assignments, random assignments and tests on values in blocks.
//!
//! What an assignment or a comparison says of a few variables merges their blocks and leaves the others as they are: only
//! blocks that new bounds touch, and those without a mark, are closed.
//! After G. Singh, M. Püschel and M. Vechev, "Making Numerical Program Analysis Fast", PLDI 2015; the assignment is that of
//! A. Miné, "The Octagon Abstract Domain", Higher-Order and Symbolic Computation 19 (2006), with a new variable that takes
//! the place of the target.
#![tactic(auto)]

mod assigning;
mod bounding;
mod forgetting;
mod ranges;
mod testing;

pub use assigning::{assign, copy};
pub use forgetting::havoc;
pub use memory::NoMemory;
pub use testing::test;
