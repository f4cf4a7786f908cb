//! The equations of the analysis: what the value of each point is computed from, and how; over any domain.
#![tactic(auto)]

mod calls;
mod finding;
mod joining;
mod laws;
mod moves;
mod reading;
mod rows;
mod source;
mod table;
mod values;

pub use finding::sources;
pub use joining::equation;
pub use laws::law_cover;
pub use source::Source;
pub use table::Sources;
