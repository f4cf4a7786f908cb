//! Octagons as their components: Bottom, or a partition with one half matrix a block, whose blocks are exactly the
//! components of the finite entries. The value that is meant is the assembly of the blocks.
//!
//! After G. Singh, M. Püschel and M. Vechev, "Making Numerical Program Analysis Fast", PLDI 2015; here the blocks are kept
//! exact. A block that two values share is shared, not copied.
#![tactic(auto)]

mod assembly;
mod closing;
mod cut;
mod made;
mod marks;
mod merge;
mod parts;
mod reading;
mod same;
mod tabulate;
mod value;
mod walk;

pub use assembly::inner_of;
pub use memory::NoMemory;
pub use parts::outer_of;
pub use same::same_matrix;
pub use tabulate::tabulated;
pub use value::{DecOct, Parts};
