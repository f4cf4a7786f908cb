//! Tests of the whole program by its top call: what no clause says is that the answers come with ample memory, and that
//! these texts are the ones meant.
#![tactic(auto)]

#[cfg(test)]
mod benches;
#[cfg(test)]
mod faults;
#[cfg(test)]
mod limits;
#[cfg(test)]
mod outside;
#[cfg(test)]
mod refusals;
#[cfg(test)]
mod replays;
#[cfg(test)]
mod reports;
#[cfg(test)]
mod words;
