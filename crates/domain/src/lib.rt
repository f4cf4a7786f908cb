//! Domains: values that stand for octagons, and what the analysis does to them. The definitions of each call are those of
//! oct_def and transfer_def; a domain chooses how its values lie in memory.
#![tactic(auto)]

mod domain;

pub use domain::Domain;
