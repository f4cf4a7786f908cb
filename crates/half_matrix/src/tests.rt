ghost use Rattle.std.specs.Prelude.{◌≡◌, length};

use crate::{HalfBuf, HalfMatrix};
use oct_def::NONE;
use std::process::Abort;
use std::test::Fail;

/// Asserts the words of a matrix over two variables.
fn expect_words(rt: &impl Abort, m: &HalfBuf, expected: &[[i64; 4]; 4]) {
    assert_eq!(rt; m.vars(), 2);
    for i in 0..4u32 {
        let mut row = [0; 4];
        m.fill_row(i, &mut row);
        for j in 0..4u32 {
            let word = expected[i as usize][j as usize];
            assert_eq!(rt; m.get(i, j), word, "at {i}, {j}");
            assert_eq!(rt; row[j as usize], word, "in row {i} at {j}");
        }
    }
}

#[test]
fn a_write_is_not_seen_by_another_holder(rt: HostRuntime) -> Result<(), Fail> {
    let alloc = rt.alloc();
    let mut one = HalfMatrix::top(alloc, 2)?;
    let mut other = one.share()?;
    let m = one.writing(alloc)?;
    assert_eq!(rt; m.vars(), 2);
    m.set(0, 2, 5);
    assert_eq!(rt; m.vars(), 2);
    m.set(3, 2, 8);
    assert_eq!(rt; m.vars(), 2);
    let row = m.row_mut(1);
    row[0] = -3;
    row[1] = 77;
    let n = NONE;
    let changed = [[0, n, 5, n], [-3, 0, n, n], [n, n, 0, n], [n, 5, 8, 0]];
    expect_words(&rt, one.buf(), &changed);
    let top = [[0, n, n, n], [n, 0, n, n], [n, n, 0, n], [n, n, n, 0]];
    expect_words(&rt, other.buf(), &top);
    expect_words(&rt, other.writing(alloc)?, &top);
    expect_words(&rt, one.writing(alloc)?, &changed);
    Ok(())
}

/// Asserts that a matrix over 128 variables has no bounds but 0 on the diagonal.
fn expect_top(rt: &impl Abort, m: &HalfBuf, name: &str) {
    assert_eq!(rt; m.vars(), 128);
    'rows: for i in 0..256_u32 {
        'columns: for j in 0..256_u32 {
            let word = if i == j { 0 } else { NONE };
            assert_eq!(rt; m.get(i, j), word, "{name} at {i}, {j}");
        }
    }
}

#[test]
fn a_write_is_not_seen_by_a_hundred_other_holders(rt: HostRuntime) -> Result<(), Fail> {
    let alloc = rt.alloc();
    let mut one = HalfMatrix::top(alloc, 128)?;
    let mut others = Vec::new(alloc);
    for _ in 0..100_u32 {
        others.push(one.share()?)?;
    }
    let m = one.writing(alloc)?;
    assert_eq!(rt; m.vars(), 128);
    m.set(3, 200, 5);
    for other in &others {
        expect_top(&rt, other.buf(), "a share");
    }
    let m = one.buf();
    assert_eq!(rt; m.vars(), 128);
    assert_eq!(rt; m.get(3, 200), 5);
    assert_eq!(rt; m.get(201, 2), 5);
    Ok(())
}
