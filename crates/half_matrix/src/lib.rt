//! Half matrices: the words of a coherent matrix, of each entry and its twin only one.
//!
//! Row i has the columns from 0 to the greater of i and its opposite, and the rows follow each other: 2n(n + 1) words for
//! n variables. The last word of an odd row, on the diagonal, is its own twin's and is never read.
//! After A. Miné, "The Octagon Abstract Domain", Higher-Order and Symbolic Computation 19 (2006), section 3.
#![tactic(auto)]

mod buf;
mod laws;
mod shared;
#[cfg(test)]
mod tests;

pub use buf::HalfBuf;
pub use laws::law_rows;
pub use memory::NoMemory;
pub use shared::HalfMatrix;
