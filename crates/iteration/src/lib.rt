//! The analysis of a core: its forward equations solved by rounds over its points, until nothing changes and then with
//! narrowing; and that what is found holds of every run.
#![tactic(auto)]

mod analysis;
mod laws;
mod solution;
mod system;

pub use analysis::analyse;
pub use laws::{law_ascent, law_sizes, law_sound, law_widen_again, law_widen_joined};
pub use rounds::{law_join_again, law_narrow_again};
pub use solution::Solution;
