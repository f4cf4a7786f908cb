// Each kernel beside its definition, word by word, at every length from 0 to 35.
ghost use Rattle.std.specs.Prelude.{◌≡◌, ◌<◌, true};
ghost use Rattle.oct_def.specs.Bound.{IsWord};
ghost use Rattle.minplus_lanes.specs.Rows.{AllWords, AllHalves, AllLow, IsHalfWord, IsLow, IsWeight, IsLowWeight};

use crate::{
    FAR, RowCount, leq_row, max_row, min_row, narrow_row, relax_row, relax_small_row,
    strengthen_row, widen_row,
};
use oct_def::{LIMIT, NONE, clamped_sum, greatest_word, least_word, narrowed_word, widened_word};
use std::process::Abort;

/// One more than the greatest length.
const PLACES: usize = 36;

/// The greatest half of a bound.
const HALF: i64 = LIMIT / 2;

/// The greatest size of a small word.
const SMALL: i64 = LIMIT / 4;

/// The greatest size of a weight, 2^62.
const WEIGHT: i64 = 2 * LIMIT;

type Row = [i64; 36];

fn is_word(x: i64) -> bool
    ensures { result ≡ true → IsWord x }
{
    if x == NONE {
        return true;
    }
    (-LIMIT <= x) & (x <= LIMIT)
}

fn is_half(x: i64) -> bool
    ensures { result ≡ true → IsHalfWord x }
{
    if x == NONE {
        return true;
    }
    (-HALF <= x) & (x <= HALF)
}

fn is_low(x: i64) -> bool
    ensures { result ≡ true → IsLow x }
{
    if x == FAR {
        return true;
    }
    (-SMALL <= x) & (x <= SMALL)
}

fn are_words(row: &Row) -> bool
    ensures { result ≡ true → AllWords row.now }
{
    for j in 0..PLACES {
        if !is_word(row[j]) {
            return false;
        }
    }
    true
}

fn are_halves(row: &Row) -> bool
    ensures { result ≡ true → AllHalves row.now }
{
    for j in 0..PLACES {
        if !is_half(row[j]) {
            return false;
        }
    }
    true
}

fn are_low(row: &Row) -> bool
    ensures { result ≡ true → AllLow row.now }
{
    for j in 0..PLACES {
        if !is_low(row[j]) {
            return false;
        }
    }
    true
}

/// A row of none, of the limits, of those one inside them and of numbers on both sides of 0, in another order for each seed.
fn row_of(seed: usize, none: i64, most: i64) -> Row {
    let mut row = [none; PLACES];
    for j in 0..PLACES {
        let k = seed.wrapping_add(j.wrapping_mul(j)).wrapping_mul(31);
        row[j] = match k % 9 {
            0 => none,
            1 => most.wrapping_neg(),
            2 => most,
            3 => 0,
            4 => most.wrapping_sub(1),
            5 => 1_i64.wrapping_sub(most),
            _ => (k % 1000) as i64 - 500,
        };
    }
    row
}

fn relaxes(rt: &impl Abort, n: usize, a: i64, b: i64)
    requires places { n < 36 }
    requires first { IsWeight a }
    requires second { IsWeight b }
{
    let old = row_of(n, NONE, LIMIT);
    let p = row_of(n ^ 5, NONE, LIMIT);
    let q = row_of(n ^ 9, NONE, LIMIT);
    assert!(rt; are_words(&p));
    assert!(rt; are_words(&q));
    let mut row = old;
    let mut count = RowCount::new();
    relax_row(&mut row[..n], a, &p, b, &q, &mut count);
    let mut expected = old;
    for j in 0..n {
        let sums = least_word(clamped_sum(a, p[j]), clamped_sum(b, q[j]));
        expected[j] = least_word(old[j], sums);
    }
    assert!(rt; row == expected, "{n} places by {a} and {b}");
    assert_eq!(rt; count.rows(), 1);
}

fn relaxes_small(rt: &impl Abort, n: usize, a: i64, b: i64)
    requires places { n < 36 }
    requires first { IsLowWeight a }
    requires second { IsLowWeight b }
{
    let old = row_of(n, NONE, LIMIT);
    let p = row_of(n ^ 5, FAR, SMALL);
    let q = row_of(n ^ 9, FAR, SMALL);
    assert!(rt; are_low(&p));
    assert!(rt; are_low(&q));
    let mut row = old;
    let mut count = RowCount::new();
    relax_small_row(&mut row[..n], a, &p, b, &q, &mut count);
    let mut expected = old;
    for j in 0..n {
        let x = if p[j] == FAR { NONE } else { p[j] };
        let y = if q[j] == FAR { NONE } else { q[j] };
        let sums = least_word(clamped_sum(a, x), clamped_sum(b, y));
        expected[j] = least_word(old[j], sums);
    }
    assert!(rt; row == expected, "{n} places by {a} and {b}");
    assert_eq!(rt; count.rows(), 1);
}

fn strengthens(rt: &impl Abort, n: usize, half: i64)
    requires places { n < 36 }
    requires half { IsHalfWord half }
{
    let old = row_of(n, NONE, LIMIT);
    let halves = row_of(n ^ 5, NONE, HALF);
    assert!(rt; are_halves(&halves));
    let mut row = old;
    strengthen_row(&mut row[..n], half, &halves);
    let mut expected = old;
    for j in 0..n {
        expected[j] = least_word(old[j], clamped_sum(half, halves[j]));
    }
    assert!(rt; row == expected, "{n} places by {half}");
}

fn chooses(rt: &impl Abort, n: usize)
    requires places { n < 36 }
{
    let old = row_of(n, NONE, LIMIT);
    let src = row_of(n ^ 5, NONE, LIMIT);
    let mut greater = old;
    let mut lesser = old;
    let mut wider = old;
    let mut narrower = old;
    max_row(&mut greater[..n], &src[..n]);
    min_row(&mut lesser[..n], &src[..n]);
    widen_row(&mut wider[..n], &src[..n]);
    narrow_row(&mut narrower[..n], &src[..n]);
    for j in 0..PLACES {
        let d = old[j];
        let s = if j < n { src[j] } else { d };
        assert_eq!(rt; greater[j], greatest_word(d, s), "{j} of {n}");
        assert_eq!(rt; lesser[j], least_word(d, s), "{j} of {n}");
        assert_eq!(rt; wider[j], widened_word(d, s), "{j} of {n}");
        assert_eq!(rt; narrower[j], narrowed_word(d, s), "{j} of {n}");
    }
}

fn compares(rt: &impl Abort, n: usize)
    requires places { n < 36 }
{
    let a = row_of(n, NONE, LIMIT);
    assert!(rt; leq_row(&a[..n], &a[..n]), "{n} places");
    for j in 0..PLACES {
        let mut b = a;
        b[j] = a[j].wrapping_sub(1);
        assert_eq!(rt; leq_row(&a[..n], &b[..n]), j >= n, "{j} of {n}");
        assert!(rt; leq_row(&b[..n], &a[..n]), "{j} of {n}");
    }
}

#[test]
fn kernels_of_every_length(rt: HostRuntime) {
    for n in 0..PLACES {
        relaxes(&rt, n, NONE, NONE);
        relaxes(&rt, n, 7, NONE);
        relaxes(&rt, n, NONE, -9);
        relaxes(&rt, n, 0, 3);
        relaxes(&rt, n, LIMIT, -LIMIT);
        relaxes(&rt, n, WEIGHT, -WEIGHT);
        relaxes(&rt, n, WEIGHT, WEIGHT);
        relaxes(&rt, n, WEIGHT, NONE);
        relaxes(&rt, n, NONE, WEIGHT);
        relaxes(&rt, n, -WEIGHT, WEIGHT - 1);
        relaxes_small(&rt, n, NONE, NONE);
        relaxes_small(&rt, n, 7, NONE);
        relaxes_small(&rt, n, NONE, -9);
        relaxes_small(&rt, n, HALF, -HALF);
        strengthens(&rt, n, NONE);
        strengthens(&rt, n, -7);
        strengthens(&rt, n, HALF);
        strengthens(&rt, n, -HALF);
        chooses(&rt, n);
        compares(&rt, n);
    }
}
