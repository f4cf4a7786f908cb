//! Constraints as they are listed at a point.

/// A variable with its sign.
#[derive(Clone, Copy, Debug, PartialEq, Eq)]
pub struct Term {
    pub negative: bool,
    pub variable: u32,
}

/// One or two terms.
#[derive(Clone, Copy, Debug, PartialEq, Eq)]
pub struct Sum {
    pub first: Term,
    pub second: Option<Term>,
}

/// How a sum stands to 0.
#[derive(Clone, Copy, Debug, PartialEq, Eq)]
pub enum Relation {
    AtLeastZero,
    Zero,
}

/// A constraint: one or two terms and a constant, whose sum is at least 0, or 0.
#[derive(Clone, Copy, Debug, PartialEq, Eq)]
pub struct Constraint {
    pub first: Term,
    pub second: Option<Term>,
    pub constant: i64,
    pub relation: Relation,
}
