//! Tests of the crates on texts that start from a text: what they read is made by the parser, on which those crates
//! don't stand.
#![tactic(auto)]

#[cfg(test)]
mod checks;
#[cfg(test)]
mod cores;
#[cfg(test)]
mod edits;
#[cfg(test)]
mod graphs;
#[cfg(test)]
mod lexes;
#[cfg(test)]
mod parses;
#[cfg(test)]
mod prints;
#[cfg(test)]
mod runs;
#[cfg(test)]
mod texts;
