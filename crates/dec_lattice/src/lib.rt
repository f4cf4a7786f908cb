//! Join, widening and narrowing of values in blocks, block by block.
//!
//! A join and a widening have finite entries only where both sides have them, so that their blocks lie in the intersections
//! of blocks; those of a narrowing lie in the blocks of both sides, merged. A block that both sides have with one matrix is
//! shared, and a block that stays that of one side keeps its mark.
//! After G. Singh, M. Püschel and M. Vechev, "Making Numerical Program Analysis Fast", PLDI 2015; here the blocks are exact.
#![tactic(auto)]

mod coarser;
mod combine;
mod lattice;
mod operation;
mod over;

pub use lattice::{join, narrow, widen};
pub use memory::NoMemory;
