//! Worked closures of one block.
use crate::matrices::{Constraint, TWO_PAIRS, TWO_PAIRS_CLOSED, matrix_with};
use crate::words::{expect_words, matrix_words};
use minplus_lanes::RowCount;
use oct_def::{LIMIT, NONE};
use std::alloc::Global;
use std::process::Abort;
use std::test::Fail;
use tight_closure::{Outcome, Scratch, close_block};

const N: i64 = NONE;

/// Asserts that the closure of the matrix with some bounds has the words; no words stand for Bottom.
fn expect_closure(
    rt: &impl Abort,
    alloc: Global,
    vars: u32,
    constraints: &[Constraint],
    expected: &[i64],
    name: &str,
) -> Result<(), Fail> {
    assert!(rt; vars <= 4);
    let mut scratch = Scratch::reserve(alloc, 4)?;
    let mut count = RowCount::new();
    let mut matrix = matrix_with(alloc, vars, constraints)?;
    let m = matrix.writing(alloc)?;
    assert!(rt; m.vars() <= scratch.vars());
    let outcome = close_block(m, &mut scratch, &mut count);
    assert_eq!(rt; count.rows(), 2 * vars as u64 * vars as u64, "{name}");
    if expected.len() == 0 {
        assert_eq!(rt; outcome, Outcome::Empty, "{name}");
        return Ok(());
    }
    assert_eq!(rt; outcome, Outcome::Closed, "{name}");
    expect_words(rt, &matrix_words(alloc, m)?, expected, name);
    Ok(())
}

#[test]
fn two_pairs_of_variables_become_four_related_ones(rt: HostRuntime) -> Result<(), Fail> {
    expect_closure(
        &rt,
        rt.alloc(),
        4,
        TWO_PAIRS,
        TWO_PAIRS_CLOSED,
        "0 <= a <= 1, b = a + 1, 0 <= c <= 1, d = c + 1",
    )
}

#[test]
fn unary_bounds_are_even(rt: HostRuntime) -> Result<(), Fail> {
    expect_closure(&rt, rt.alloc(), 1, &[(1, 0, 5), (0, 1, -5)], &[], "2x = 5")?;
    expect_closure(
        &rt,
        rt.alloc(),
        2,
        &[(0, 2, 0), (2, 0, 0), (1, 2, 5)],
        &[0, N, 0, N, 4, 0, 4, 0, 0, N, 0, N, 4, 0, 4, 0],
        "x = y, x + y <= 5",
    )?;
    expect_closure(
        &rt,
        rt.alloc(),
        2,
        &[(0, 2, 0), (2, 0, 0), (1, 2, 5), (0, 3, -5)],
        &[],
        "x = y, x + y = 5",
    )
}

#[test]
fn a_sum_and_a_difference_of_equal_variables_are_bounded(rt: HostRuntime) -> Result<(), Fail> {
    expect_closure(
        &rt,
        rt.alloc(),
        4,
        &[
            (0, 1, 0),
            (1, 0, 6),
            (0, 2, 0),
            (2, 0, 0),
            (0, 4, 3),
            (4, 0, 0),
            (1, 6, 3),
            (0, 7, 0),
            (0, 6, 0),
            (6, 0, 3),
        ],
        &[
            0, 0, 0, 0, 3, 0, 0, 0, //
            6, 0, 6, 0, 9, 0, 3, 3, //
            0, 0, 0, 0, 3, 0, 0, 0, //
            6, 0, 6, 0, 9, 0, 3, 3, //
            0, 0, 0, 0, 0, 0, 0, 0, //
            9, 3, 9, 3, 12, 0, 6, 6, //
            3, 0, 3, 0, 6, 0, 0, 2, //
            3, 0, 3, 0, 6, 0, 2, 0,
        ],
        "0 <= a <= 3, b = a, a <= s <= a + 3, -a <= d <= a, a - 3 <= d <= 3 - a",
    )
}

/// The greatest bound.
const L: i64 = LIMIT;

/// Two less than that.
const K: i64 = LIMIT - 2;

/// Half of the greatest bound.
const H: i64 = LIMIT / 2;

/// One less than that.
const G: i64 = LIMIT / 2 - 1;

/// The words of three variables after one closure, whose sums are clamped.
const ONCE: [i64; 36] = [
    0, -L, -L, -G, N, -1, //
    N, 0, G, N, N, N, //
    N, -G, 0, N, N, N, //
    G, -L, -L, 0, N, -1, //
    N, -1, -1, N, 0, K, //
    N, N, N, N, N, 0,
];

/// Their words after a second one.
const TWICE: [i64; 36] = [
    0, -L, -L, -G, N, -H, //
    N, 0, G, N, N, N, //
    N, -G, 0, N, N, N, //
    G, -L, -L, 0, N, -1, //
    N, -H, -1, N, 0, K, //
    N, N, N, N, N, 0,
];

#[test]
fn a_second_closure_may_lower_a_clamped_bound(rt: HostRuntime) -> Result<(), Fail> {
    let alloc = rt.alloc();
    let mut scratch = Scratch::reserve(alloc, 3)?;
    let mut count = RowCount::new();
    let bounds = [
        (1, 2, G),
        (0, 3, -G),
        (4, 5, K),
        (3, 2, -L - 2),
        (2, 3, L + 2),
    ];
    let mut matrix = matrix_with(alloc, 3, &bounds)?;
    let m = matrix.writing(alloc)?;
    assert!(rt; m.vars() <= scratch.vars());
    let outcome = close_block(m, &mut scratch, &mut count);
    assert_eq!(rt; outcome, Outcome::Closed);
    expect_words(&rt, &matrix_words(alloc, m)?, &ONCE, "once");
    assert!(rt; m.vars() <= scratch.vars());
    let outcome = close_block(m, &mut scratch, &mut count);
    assert_eq!(rt; outcome, Outcome::Closed);
    expect_words(&rt, &matrix_words(alloc, m)?, &TWICE, "twice");
    Ok(())
}
