//! Matrices with some bounds.
ghost use Rattle.std.specs.Prelude.{◌≡◌, ℕ, ◌≤◌, IfOk, length};
ghost use Rattle.oct_def.specs.Bound.{InRange, IsWord};
ghost use Rattle.oct_def.specs.Table.{at};

use half_matrix::{HalfBuf, HalfMatrix, NoMemory};
use oct_def::{LIMIT, NONE};
use std::alloc::Global;

/// A bound on V_j - V_i.
pub(crate) type Constraint = (u32, u32, i64);

/// Two pairs of variables a, b and c, d: a and c from 0 to 1, b = a + 1 and d = c + 1.
pub(crate) const TWO_PAIRS: &[Constraint] = &[
    (0, 1, 0),
    (1, 0, 2),
    (0, 2, 1),
    (2, 0, -1),
    (4, 5, 0),
    (5, 4, 2),
    (4, 6, 1),
    (6, 4, -1),
];

/// The words of their tight closure, in which all four variables are related.
pub(crate) const TWO_PAIRS_CLOSED: &[i64] = &[
    0, 0, 1, -1, 1, 0, 2, -1, //
    2, 0, 3, -1, 2, 1, 3, 0, //
    -1, -1, 0, -2, 0, -1, 1, -2, //
    3, 1, 4, 0, 3, 2, 4, 1, //
    1, 0, 2, -1, 0, 0, 1, -1, //
    2, 1, 3, 0, 2, 0, 3, -1, //
    0, -1, 1, -2, -1, -1, 0, -2, //
    3, 2, 4, 1, 3, 1, 4, 0,
];

/// The word of a bound moved outward into the limits.
fn word_within(bound: i64) -> i64
    ensures { IsWord result }
{
    if bound > LIMIT {
        return NONE;
    }
    if bound < -LIMIT {
        return -LIMIT;
    }
    bound
}

/// The bound, clamped, becomes the entry; outside the matrix nothing changes.
pub(crate) fn constrain(m: &mut HalfBuf, constraint: Constraint)
    requires in_range { (i j : ℕ) → InRange (at m.old i j) }
    ensures in_range { (i j : ℕ) → InRange (at m.new i j) }
    ensures rows { length m.new ≡ length m.old }
{
    let (i, j, bound) = constraint;
    let size = 2 * m.vars();
    if i < size {
        if j < size {
            m.set(i, j, word_within(bound));
        }
    }
}

fn constrain_all(m: &mut HalfBuf, constraints: &[Constraint])
    requires in_range { (i j : ℕ) → InRange (at m.old i j) }
    ensures in_range { (i j : ℕ) → InRange (at m.new i j) }
    ensures rows { length m.new ≡ length m.old }
{
    for k in 0..constraints.len() {
        constrain(m, constraints[k]);
    }
}

/// The matrix over so many variables with these bounds, clamped, and no others.
pub(crate) fn matrix_with(
    alloc: Global,
    vars: u32,
    constraints: &[Constraint],
) -> Result<HalfMatrix, NoMemory>
    requires few { vars ≤ 512 }
    ensures in_range { IfOk result (λ m. (i j : ℕ) → InRange (at m i j)) }
{
    let mut matrix = HalfMatrix::top(alloc, vars)?;
    constrain_all(matrix.writing(alloc)?, constraints);
    Ok(matrix)
}
