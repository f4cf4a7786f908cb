//! The plain domain of octagons: full matrices of words, closed as the definitions say, shared by `Rc`.
#![tactic(auto)]

mod assign;
mod bounds;
mod calls;
mod closing;
mod dimensions;
mod lattice;
mod matrix;
mod placing;
mod plain;
mod ranges;
mod test;
mod value;

pub use plain::FullDomain;
pub use value::FullValue;
