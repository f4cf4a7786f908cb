//! Rounds over a system of equations between points, whatever the points stand for: until nothing changes, then with narrowing.
//! A round passes over the points that read nothing that changed.
#![tactic(auto)]

mod equations;
mod laws;
mod marking;
mod outcome;
mod passes;
mod slot;
mod solver;
mod storing;
mod visiting;

pub use equations::Equations;
pub use laws::{law_ascent, law_join_again, law_narrow_again, law_sizes, law_widening};
pub use outcome::Outcome;
pub use solver::solve;
