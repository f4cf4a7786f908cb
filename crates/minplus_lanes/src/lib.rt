//! Rows of bounds, relaxed word by word.
#![tactic(auto)]

mod choose;
mod compare;
mod count;
mod fits;
mod lanes;
mod relax;
mod small;
mod strengthen;
#[cfg(test)]
mod tests;

pub use choose::{max_row, min_row, narrow_row, widen_row};
pub use compare::leq_row;
pub use count::RowCount;
pub use relax::relax_row;
pub use small::{FAR, relax_small_row};
pub use strengthen::strengthen_row;
