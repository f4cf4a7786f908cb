//! Calls and returns on values in blocks: the value at a callee's entry, and the value after a call.
#![tactic(auto)]

mod entering;
mod returning;

pub use entering::enter;
pub use memory::NoMemory;
pub use returning::back;
