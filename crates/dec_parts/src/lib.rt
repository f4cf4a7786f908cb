//! Values in blocks made from other ones: variables renamed, added and dropped, and listed bounds taken by minimum.
//!
//! Each step chooses a partition that keeps apart what no bound joins, and makes the part of the wanted matrix over each of
//! its blocks. A block that the step doesn't change is shared with its mark.
#![tactic(auto)]

mod lower;
mod moving;
mod part;
mod rename;

pub use lower::lowered;
pub use memory::NoMemory;
pub use moving::moved;
pub use rename::renamed;
