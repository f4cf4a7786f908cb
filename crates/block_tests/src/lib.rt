//! Tests of blocks: the tight closure of one block, decomposed values and their closing, and their join, widening and
//! narrowing. The words that they expect were computed by a reading of the rules that shares nothing with those crates, or
//! entry by entry as the definitions say.
#![tactic(auto)]

#[cfg(test)]
mod closings;
#[cfg(test)]
mod closures;
#[cfg(test)]
mod lattice;
#[cfg(test)]
mod matrices;
#[cfg(test)]
mod quick;
#[cfg(test)]
mod seeded;
#[cfg(test)]
mod values;
#[cfg(test)]
mod words;
