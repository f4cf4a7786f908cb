//! The domain of octagons in blocks: its calls are those of values in blocks, and it counts the rows that closing relaxes.
#![tactic(auto)]

mod decomposed;
mod value;

pub use decomposed::DecDomain;
pub use value::DecValue;
