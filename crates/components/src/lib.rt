//! The components of a value: which variables finite entries join, one after the other.
#![tactic(auto)]

#[cfg(test)]
mod tests;
mod walk;

pub use walk::{components, greatest_size};
