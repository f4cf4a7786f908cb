//! Generated texts are programs that the rules accept: laws over the definitions.
#![tactic(auto)]

mod laws;

pub use laws::{law_generated_text_is_accepted, law_points_of_generated};
