//! Tests of the two domains: worked values in both; against each other, programs from texts and from a seed, analysed in both,
//! and values from a seed, made by each call of a domain, which have the same views; the blocks and the rows of the decomposed
//! one; and how often an analysis computes a point.
#![tactic(auto)]

#[cfg(test)]
mod analyses;
#[cfg(test)]
mod calls;
#[cfg(test)]
mod cores;
#[cfg(test)]
mod counted;
#[cfg(test)]
mod counting;
#[cfg(test)]
mod programs;
#[cfg(test)]
mod rows;
#[cfg(test)]
mod straight;
#[cfg(test)]
mod values;
#[cfg(test)]
mod views;
#[cfg(test)]
mod walks;
#[cfg(test)]
mod worked;
