//! Tests of certificates: worked texts, read, checked against the core of a text, and written again.
#![tactic(auto)]

#[cfg(test)]
mod worked;
