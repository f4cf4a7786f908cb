//! Partitions of variables into blocks, as lists: merged, split, and met with each other.
//!
//! A variable may be in no block. Each change chooses a label for every variable and groups the variables by their labels,
//! so it takes time in proportion to the number of variables and the logarithm of the number of labels. Copies share the
//! lists, and a merge of variables that share a block already changes nothing and takes no memory.
#![tactic(auto)]

mod grouping;
mod laws;
mod partition;
mod relabelling;
#[cfg(test)]
mod tests;

pub use laws::law_unique;
pub use memory::NoMemory;
pub use partition::{Partition, place_of};
