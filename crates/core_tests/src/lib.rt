//! Tests of the cores, of their runs and the texts of those, of linear forms, and of numbers at the limit. They stand on worked
//! cores, each of which is made once.
#![tactic(auto)]

#[cfg(test)]
mod cores;
#[cfg(test)]
mod forms;
#[cfg(test)]
mod numbers;
#[cfg(test)]
mod parts;
#[cfg(test)]
mod ranges;
#[cfg(test)]
mod runs;
