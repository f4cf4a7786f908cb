//! What a program may break beyond its grammar.
use thiserror::Error;

/// A rule of the checks, by its name in the message to people.
#[derive(Clone, Copy, Debug, Drop, PartialEq, Eq)]
pub enum CheckRule {
    UnsupportedType,
    DuplicateName,
    UnknownVariable,
    UnknownProcedure,
    WrongCount,
    RepeatedTarget,
    WrongKind,
    TooManyVariables,
    TooManyProcedures,
    TooManyPoints,
}

/// The first rule that the walk over a program finds broken, with the offset in bytes at which it is; or memory was
/// wanting.
#[derive(Clone, Copy, Debug, Drop, PartialEq, Eq, Error)]
pub enum CheckFault {
    #[error("{0:?} at {1}")]
    Broken(CheckRule, usize),
    #[error("out of memory")]
    NoMemory,
}
