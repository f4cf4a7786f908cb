//! What a check answers.

/// The invariants are inductive, or this is the least point that breaks it.
#[derive(Clone, Copy, Debug, Drop, PartialEq, Eq)]
pub enum Verdict {
    Holds,
    Fails(u32),
}
