//! Invariants of the points of a core, and their text, a certificate.
#![tactic(auto)]

mod bound;
mod fault;
mod half_bounds;
mod invariants;
mod laws;
mod reading;
mod word;
mod writing;

pub use bound::InvBound;
pub use fault::CertFault;
pub use invariants::Invariants;
pub use laws::{law_example, law_order, law_text};
pub use memory::NoMemory;
pub use reading::read_invariants;
pub use writing::write_invariants;
