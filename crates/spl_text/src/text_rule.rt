use thiserror::Error;

/// A rule that a text may break.
#[derive(Clone, Copy, Debug, Drop, PartialEq, Eq)]
pub enum TextRule {
    /// A byte outside comments with which no token, blank or comment begins. Its place is the byte.
    BadByte,
    /// A comment that begins with `/*` and has no end. Its place is its start.
    OpenComment,
    /// A number above 2^61. Its place is its start.
    BigLiteral,
    /// A name of more than 64 bytes. Its place is its start.
    LongName,
    /// The token that raises the depth of parentheses and blocks above 64.
    TooDeep,
    /// The token that makes a run of 1025 tokens with no `;`, `then`, `do` or `begin`.
    LongRun,
}

/// Why a text has no tokens.
#[derive(Debug, Drop, Error)]
pub enum TextFault {
    /// The first broken rule, and its place: the offset in bytes.
    #[error("{0:?} at {1}")]
    Broken(TextRule, usize),
    #[error("out of memory")]
    NoMemory,
}
