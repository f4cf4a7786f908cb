//! Worked closings of decomposed values.
ghost use Rattle.std.specs.Prelude.{◌≤◌, IfOk};
ghost use Rattle.dec_oct.specs.Value.{blocks_of};
ghost use Rattle.dec_oct.specs.Given.{IsEvenGiven};

use crate::matrices::{Constraint, TWO_PAIRS, TWO_PAIRS_CLOSED, matrix_with};
use crate::values::{expect_blocks, expect_marks, one_part};
use crate::words::{expect_words, value_words};
use dec_oct::{DecOct, Parts};
use minplus_lanes::RowCount;
use oct_def::NONE;
use std::alloc::Global;
use std::process::Abort;
use std::test::Fail;

/// Bounds over so many variables, the blocks of their components and of their tight closure, its words, row after row, and
/// the rows that are relaxed to close the components and to close them as one part. Bottom has no words.
struct Row {
    name: &'static str,
    vars: u32,
    bounds: &'static [Constraint],
    components: &'static [&'static [u32]],
    closed: &'static [&'static [u32]],
    words: &'static [i64],
    rows: (u64, u64),
}

const N: i64 = NONE;

const ROWS: [Row; 4] = [
    Row {
        name: "two pairs that have bounds become one block",
        vars: 4,
        bounds: TWO_PAIRS,
        components: &[&[0, 1], &[2, 3]],
        closed: &[&[0, 1, 2, 3]],
        words: TWO_PAIRS_CLOSED,
        rows: (48, 32),
    },
    Row {
        name: "two constants become one block",
        vars: 2,
        bounds: &[(0, 1, 0), (1, 0, 0), (2, 3, 0), (3, 2, 0)],
        components: &[&[0], &[1]],
        closed: &[&[0, 1]],
        words: &[0, 0, 0, 0, 0, 0, 0, 0, 0, 0, 0, 0, 0, 0, 0, 0],
        rows: (12, 8),
    },
    Row {
        name: "the outputs of a call, and a variable without a bound",
        vars: 4,
        bounds: &[
            (0, 1, 0),
            (1, 0, 6),
            (0, 4, 3),
            (4, 0, 0),
            (4, 5, 0),
            (5, 4, 12),
            (0, 6, 0),
            (6, 0, 3),
            (1, 6, 3),
            (0, 7, 0),
            (6, 4, 6),
            (4, 6, 0),
            (4, 7, 0),
            (5, 6, 6),
            (6, 7, 2),
            (7, 6, 2),
        ],
        components: &[&[0, 2, 3]],
        closed: &[&[0, 2, 3]],
        words: &[
            0, 0, N, N, 3, 0, 0, 0, //
            6, 0, N, N, 9, 0, 3, 3, //
            N, N, 0, N, N, N, N, N, //
            N, N, N, 0, N, N, N, N, //
            0, 0, N, N, 0, 0, 0, 0, //
            9, 3, N, N, 12, 0, 6, 6, //
            3, 0, N, N, 6, 0, 0, 2, //
            3, 0, N, N, 6, 0, 2, 0,
        ],
        rows: (18, 50),
    },
    Row {
        name: "bounds that no state meets",
        vars: 2,
        bounds: &[(2, 3, -2), (3, 2, 0)],
        components: &[&[1]],
        closed: &[],
        words: &[],
        rows: (2, 8),
    },
];

/// One part without a mark that has the bounds of a row.
fn parts_of(rt: &impl Abort, alloc: Global, row: &Row) -> Result<Parts, Fail>
    ensures few { IfOk result (λ p. p.dims ≤ 512) }
    ensures given { IfOk result (λ p. IsEvenGiven p.dims (blocks_of p.partition p.matrices.items p.settled.items)) }
{
    assert!(rt; row.vars <= 4);
    let matrix = matrix_with(alloc, row.vars, row.bounds)?;
    let parts = one_part(rt, alloc, matrix)?;
    Ok(parts)
}

/// Asserts that the greatest block is as large as any other, and that each block has a matrix of its size.
fn expect_sizes(rt: &impl Abort, v: &DecOct, name: &str) {
    match v.partition() {
        None => assert_eq!(rt; v.largest(), 0, "{name}"),
        Some(p) => {
            for b in 0..p.len() {
                let size = p.block(b).len();
                assert!(rt; size <= v.largest() as usize, "{name}, block {b}");
                assert_eq!(rt;
                    v.matrix(b).buf().vars() as usize,
                    size,
                    "{name}, block {b}"
                );
            }
        }
    }
}

/// Asserts that the bounds are entries of a value.
fn expect_bounds(rt: &impl Abort, v: &DecOct, bounds: &[Constraint], name: &str) {
    v.known();
    assert!(rt; v.partition().is_some(), "{name}");
    let size = 2 * v.dims();
    for k in 0..bounds.len() {
        let (i, j, word) = bounds[k];
        assert!(rt; i < size);
        assert!(rt; j < size);
        assert_eq!(rt; v.entry(i, j), word, "{name} at {i}, {j}");
    }
}

/// Asserts that two values are equal.
fn expect_same(rt: &impl Abort, a: &DecOct, b: &DecOct, name: &str) {
    assert_eq!(rt; a.dims(), b.dims(), "{name}");
    assert!(rt; a.same(b), "{name}");
}

/// The components of the bounds of a row, none marked, closed twice.
fn expect_closed(rt: &impl Abort, alloc: Global, row: &Row) -> Result<DecOct, Fail> {
    let v = DecOct::from_parts(alloc, parts_of(rt, alloc, row)?)?;
    expect_blocks(rt, &v, row.components, row.name);
    expect_sizes(rt, &v, row.name);
    expect_marks(rt, &v, false, row.name);
    expect_bounds(rt, &v, row.bounds, row.name);
    let mut count = RowCount::new();
    let closed = v.close(alloc, &mut count)?;
    expect_blocks(rt, &closed, row.closed, row.name);
    expect_sizes(rt, &closed, row.name);
    expect_marks(rt, &closed, true, row.name);
    expect_words(rt, &value_words(alloc, &closed)?, row.words, row.name);
    assert_eq!(rt; count.rows(), row.rows.0, "{}", row.name);
    let again = closed.close(alloc, &mut count)?;
    expect_same(rt, &again, &closed, row.name);
    assert_eq!(rt; count.rows(), row.rows.0, "{}", row.name);
    Ok(closed)
}

#[test]
fn parts_are_split_and_closed(rt: HostRuntime) -> Result<(), Fail> {
    let alloc = rt.alloc();
    for row in &ROWS {
        let closed = expect_closed(&rt, alloc, row)?;
        let mut count = RowCount::new();
        let tight = DecOct::tight_of(alloc, parts_of(&rt, alloc, row)?, &mut count)?;
        expect_same(&rt, &tight, &closed, row.name);
        assert_eq!(rt; count.rows(), row.rows.1, "{}", row.name);
    }
    Ok(())
}

#[test]
fn top_and_bottom_have_no_blocks(rt: HostRuntime) -> Result<(), Fail> {
    let top = DecOct::top(rt.alloc(), 3)?;
    let bottom = DecOct::bottom(3);
    assert_eq!(rt; top.blocks(), 0);
    assert_eq!(rt; top.largest(), 0);
    assert_eq!(rt; bottom.blocks(), 0);
    assert_eq!(rt; bottom.largest(), 0);
    assert!(rt; bottom.partition().is_none());
    let shared = top.share()?;
    assert_eq!(rt; top.dims(), bottom.dims());
    assert!(rt; !top.same(&bottom));
    assert_eq!(rt; top.dims(), shared.dims());
    assert!(rt; top.same(&shared));
    Ok(())
}
