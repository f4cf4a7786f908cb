//! Runs of a core: the choices that fix one, read from a text, and the run that they give.
//!
//! A run over integers without limit is a definition (`specs/Runs.antt`). `replay` follows one run over integers of
//! 128 bits, and answers where the choices leave the runs or pass the limit.
#![tactic(auto)]

mod choices;
mod follow;
mod frame;
mod laws;
mod leaving;
mod read;
mod reader;
mod stack;
mod value;

pub use choices::{Choices, Step};
pub use follow::{ReplayFault, Run, Seen, replay};
pub use laws::{law_choices, law_examples, law_replays, law_runs, law_steps};
pub use read::{ChoiceFault, read_choices};
