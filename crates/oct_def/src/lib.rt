//! Octagons over the integers: bounds, matrices over signed dimensions, the tight closure, the lattice of values and
//! their laws, as definitions; and the words that stand for bounds in the code of the domains.
//!
//! The definitions follow A. Miné, "The Octagon Abstract Domain", Higher-Order and Symbolic Computation 19 (2006), and
//! R. Bagnara, P. Hill and E. Zaffanella, "An Improved Tight Closure Algorithm for Integer Octagonal Constraints",
//! VMCAI 2008.
#![tactic(auto)]

mod dimensions;
mod laws;
mod words;

pub use dimensions::opposite;
pub use laws::{
    law_examples, law_lattice, law_lattice_values, law_tight, law_tight_values, law_top,
};
pub use memory::NoMemory;
pub use words::{
    clamp, clamped_sum, clamped_sum_of_three, evened_word, greatest_word, half_of,
    has_negative_sum, is_negative_word, least_word, narrowed_word, sum_of_halves, widened_word,
};

/// The greatest bound, 2^61. Bounds lie from `-LIMIT` to `LIMIT`.
pub const LIMIT: i64 = 2305843009213693952;

/// The most variables that a value may have.
pub const MOST_DIMS: u32 = 256;

/// The most variables that a matrix may have, those that an operation adds to a value's included: a return from a call
/// adds up to 128 outputs.
pub const MOST_MATRIX_DIMS: u32 = 512;

/// The word that stands for no bound. It is above every other word.
pub const NONE: i64 = i64::MAX;
