//! Blocks of variables of an octagon: the assembly of the matrices of blocks, the components of a matrix, and the laws by
//! which the steps of the tight closure and the operations of the lattice act block by block.
//!
//! The decomposition into blocks follows G. Singh, M. Püschel and M. Vechev, "Making Numerical Program Analysis Fast",
//! PLDI 2015; here the blocks are exactly the components.
#![tactic(auto)]

mod laws;

pub use laws::{
    law_assembly, law_closing, law_components, law_lattice, law_merging, law_pair_steps,
    law_settled, law_steps,
};
