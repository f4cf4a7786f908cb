//! Numbers from a seed, for tests: the same seed gives the same numbers on every machine.
#![tactic(auto)]

mod random;

pub use random::Random;
