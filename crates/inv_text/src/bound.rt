//! A bound as a certificate lists it.

/// A bound on `V_column - V_row` over signed dimensions: the word of a matrix's entry.
#[derive(Clone, Copy, Debug, PartialEq, Eq)]
pub struct InvBound {
    pub row: u32,
    pub column: u32,
    pub word: i64,
}
