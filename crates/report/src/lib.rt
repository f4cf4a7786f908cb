//! The report on a program: what holds at each point, the line of each `fail`, and the rounds of the analysis.
#![tactic(auto)]

mod constraint;
mod fails;
mod laws;
mod listing;
mod names;
mod reading;
mod report;
mod text;

pub use laws::{law_listing, law_plain_notes, law_points, law_reads_back, law_texts};
pub use reading::{all_unreachable, report_text};
pub use text::constraints_text;
