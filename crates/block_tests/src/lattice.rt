//! The join, the widening and the narrowing of values in blocks: worked, and each beside its definition, word by word.
use crate::matrices::{Constraint, matrix_with};
use crate::values::{expect_blocks, value_with};
use crate::words::{expect_words, value_words};
use dec_lattice::{join, narrow, widen};
use dec_oct::DecOct;
use minplus_lanes::RowCount;
use oct_def::{NONE, greatest_word, narrowed_word, opposite, widened_word};
use std::alloc::{AllocError, Global};
use std::process::Abort;
use std::test::Fail;

/// The three calls.
#[derive(Clone, Copy, Debug)]
pub(crate) enum Call {
    Join,
    Widen,
    Narrow,
}

/// The bounds of two values, and the blocks and all bounds of what a call makes of them, of twins only one.
struct Row {
    name: &'static str,
    call: Call,
    first: &'static [Constraint],
    second: &'static [Constraint],
    blocks: &'static [&'static [u32]],
    bounds: &'static [Constraint],
}

const ROWS: [Row; 6] = [
    Row {
        name: "both are 0 or both are 1",
        call: Call::Join,
        first: &[
            (0, 1, 0),
            (1, 0, 0),
            (2, 3, 0),
            (3, 2, 0),
            (0, 2, 0),
            (2, 0, 0),
            (1, 2, 0),
            (0, 3, 0),
        ],
        second: &[
            (0, 1, -2),
            (1, 0, 2),
            (2, 3, -2),
            (3, 2, 2),
            (0, 2, 0),
            (2, 0, 0),
            (1, 2, 2),
            (0, 3, -2),
        ],
        blocks: &[&[0, 1]],
        bounds: &[
            (0, 1, 0),
            (1, 0, 2),
            (2, 3, 0),
            (3, 2, 2),
            (0, 2, 0),
            (2, 0, 0),
            (1, 2, 2),
            (0, 3, 0),
        ],
    },
    Row {
        name: "a join keeps what both relate, though their blocks differ",
        call: Call::Join,
        first: &[(0, 2, 1), (2, 4, 3)],
        second: &[(0, 2, 4), (2, 6, 0)],
        blocks: &[&[0, 1]],
        bounds: &[(0, 2, 4)],
    },
    Row {
        name: "a join of values that relate different variables",
        call: Call::Join,
        first: &[(0, 2, 1)],
        second: &[(2, 4, 1)],
        blocks: &[],
        bounds: &[],
    },
    Row {
        name: "a widening loses what rose, and splits a block",
        call: Call::Widen,
        first: &[(0, 2, 1), (2, 4, 3), (4, 6, 5)],
        second: &[(0, 2, 0), (2, 4, 4), (4, 6, 5)],
        blocks: &[&[0, 1], &[2, 3]],
        bounds: &[(0, 2, 1), (4, 6, 5)],
    },
    Row {
        name: "a narrowing takes what was lost, and merges blocks",
        call: Call::Narrow,
        first: &[(0, 2, 1), (4, 6, 5)],
        second: &[(0, 2, 0), (2, 4, 4), (8, 9, -2)],
        blocks: &[&[0, 1, 2, 3], &[4]],
        bounds: &[(0, 2, 1), (2, 4, 4), (4, 6, 5), (8, 9, -2)],
    },
    Row {
        name: "blocks that a later block of the second value joins",
        call: Call::Narrow,
        first: &[(0, 6, 1), (2, 4, 2)],
        second: &[(8, 9, 0), (4, 6, 3)],
        blocks: &[&[0, 1, 2, 3], &[4]],
        bounds: &[(0, 6, 1), (2, 4, 2), (4, 6, 3), (8, 9, 0)],
    },
];

/// What a call makes of two words, by its definition.
fn expected_word(call: Call, x: i64, y: i64) -> i64 {
    match call {
        Call::Join => greatest_word(x, y),
        Call::Widen => widened_word(x, y),
        Call::Narrow => narrowed_word(x, y),
    }
}

/// Asserts that the words are those of the definition; Bottom has none.
fn expect_made(rt: &impl Abort, call: Call, a: &[i64], b: &[i64], made: &[i64], name: &str) {
    if a.len() == 0 || b.len() == 0 {
        let expected = match call {
            Call::Narrow => &[],
            _ => { if a.len() == 0 { b } else { a } }
        };
        assert!(rt; made == expected, "{call:?} with Bottom of {name}");
        return;
    }
    assert_eq!(rt; a.len(), b.len());
    assert_eq!(rt; a.len(), made.len());
    for k in 0..a.len() {
        let expected = expected_word(call, a[k], b[k]);
        assert_eq!(rt; made[k], expected, "word {k} of {call:?} of {name}");
    }
}

/// The value that a call gives, whose words are asserted.
pub(crate) fn called(
    rt: &impl Abort,
    alloc: Global,
    call: Call,
    a: &DecOct,
    b: &DecOct,
    name: &str,
) -> Result<DecOct, Fail> {
    let mut count = RowCount::new();
    assert_eq!(rt; a.dims(), b.dims());
    let made = match call {
        Call::Join => join(alloc, a, b, &mut count)?,
        Call::Widen => widen(alloc, a, b, &mut count)?,
        Call::Narrow => narrow(alloc, a, b, &mut count)?,
    };
    assert_eq!(rt; count.rows(), 0);
    assert_eq!(rt; made.dims(), a.dims());
    let first = value_words(alloc, a)?;
    let second = value_words(alloc, b)?;
    let words = value_words(alloc, &made)?;
    expect_made(rt, call, &first, &second, &words, name);
    Ok(made)
}

/// The word of one of some bounds, or of its twin.
fn word_among(bounds: &[Constraint], i: u32, j: u32) -> i64 {
    let column = opposite(i as usize) as u32;
    let row = opposite(j as usize) as u32;
    for bound in bounds {
        if (bound.0 == i && bound.1 == j) || (bound.0 == row && bound.1 == column) {
            return bound.2;
        }
    }
    if i == j { 0 } else { NONE }
}

/// The words of some bounds and their twins over five variables, row after row.
fn words_among(alloc: Global, bounds: &[Constraint]) -> Result<Vec<i64>, AllocError> {
    let mut words = Vec::new(alloc);
    'rows: for i in 0..10_u32 {
        'columns: for j in 0..10_u32 {
            words.push(word_among(bounds, i, j))?;
        }
    }
    Ok(words)
}

#[test]
fn worked_calls(rt: HostRuntime) -> Result<(), Fail> {
    let alloc = rt.alloc();
    for row in &ROWS {
        let a = value_with(&rt, alloc, matrix_with(alloc, 5, row.first)?)?;
        let b = value_with(&rt, alloc, matrix_with(alloc, 5, row.second)?)?;
        let made = called(&rt, alloc, row.call, &a, &b, row.name)?;
        let words = words_among(alloc, row.bounds)?;
        expect_blocks(&rt, &made, row.blocks, row.name);
        expect_words(&rt, &value_words(alloc, &made)?, &words, row.name);
    }
    Ok(())
}
