//! The tight closure of one block of variables, in place, on a half matrix and without memory.
//!
//! A step at the variable k copies its two rows, and then relaxes each row i by both copies with two weights: the least of
//! m[i][p] and the unclamped m[i][q] + m[q][p], and the same with p and q exchanged. That is the pair step with one clamp
//! a path, since a clamp keeps order and so may be moved over the least. A closure of k variables relaxes 2k^2 rows.
//! After A. Miné, "The Octagon Abstract Domain", Higher-Order and Symbolic Computation 19 (2006), and R. Bagnara, P. Hill
//! and E. Zaffanella, "An Improved Tight Closure Algorithm for Integer Octagonal Constraints", VMCAI 2008.
#![tactic(auto)]

mod block;
mod ends;
mod pairs;
mod small;

pub use block::{Outcome, Scratch, close_block, finish};
pub use memory::NoMemory;
pub use pairs::{step, weight};
