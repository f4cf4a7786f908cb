//! Numbers at the limit of a bound, 2^61: what passes it is no end of an interval. Each wanted number is worked out by hand.

use crate::cores::{multiplying, squaring};
use crate::ranges::Two;
use interval_form::{Interval, linearise};
use oct_def::{NONE, clamp};
use spl_core::law_numbers;
use std::test::Fail;

/// 2^61.
const TOP: i64 = 2305843009213693952;

/// -2^61.
const LOW: i64 = -2305843009213693952;

/// Integers, and the words of the bounds that they are moved outward to.
const CLAMPS: [(i128, i64); 15] = [
    (i128::MIN, LOW),
    (-9223372036854775809, LOW),
    (-9223372036854775808, LOW),
    (-2305843009213693953, LOW),
    (-2305843009213693952, LOW),
    (-2305843009213693951, -2305843009213693951),
    (-1, -1),
    (0, 0),
    (1, 1),
    (2305843009213693951, 2305843009213693951),
    (2305843009213693952, TOP),
    (2305843009213693953, NONE),
    (9223372036854775807, NONE),
    (9223372036854775808, NONE),
    (i128::MAX, NONE),
];

#[test]
fn clamps(rt: HostRuntime) {
    for &(x, word) in &CLAMPS {
        assert_eq!(rt; clamp(x), word, "of {x}");
    }
}

/// The ends of an interval; one that is None is unbounded.
type Ends = (Option<i64>, Option<i64>);

const ZERO: Ends = (Some(0), Some(0));

const BIT: Ends = (Some(0), Some(1));

const TOP_ALONE: Ends = (Some(TOP), Some(TOP));

const LOW_ALONE: Ends = (Some(LOW), Some(LOW));

const LOW_TO_TOP: Ends = (Some(LOW), Some(TOP));

const LOW_TO_0: Ends = (Some(LOW), Some(0));

const ZERO_TO_TOP: Ends = (Some(0), Some(TOP));

const FROM_0: Ends = (Some(0), None);

const FROM_TOP: Ends = (Some(TOP), None);

const TO_0: Ends = (None, Some(0));

const TO_LOW: Ends = (None, Some(LOW));

const ALL: Ends = (None, None);

/// 2^60.
const HALF: Ends = (Some(1152921504606846976), Some(1152921504606846976));

/// A third of 2^61 + 1.
const THIRD: Ends = (Some(768614336404564651), Some(768614336404564651));

/// The ranges of x and y, and the value of `x * y` in them: from the least to the greatest product of two ends, where 0
/// times an unbounded end is 0. A least product below -2^61 is no end, and one above 2^61 becomes 2^61; for the greatest one
/// it is the other way round.
const PRODUCTS: [(Ends, Ends, Ends); 24] = [
    (TOP_ALONE, TOP_ALONE, FROM_TOP),
    (TOP_ALONE, LOW_ALONE, TO_LOW),
    (LOW_ALONE, LOW_ALONE, FROM_TOP),
    (TOP_ALONE, LOW_TO_TOP, ALL),
    (TOP_ALONE, LOW_TO_0, TO_0),
    (TOP_ALONE, BIT, ZERO_TO_TOP),
    (LOW_TO_TOP, TOP_ALONE, ALL),
    (LOW_TO_TOP, LOW_TO_TOP, ALL),
    (LOW_TO_TOP, LOW_TO_0, ALL),
    (LOW_TO_TOP, BIT, LOW_TO_TOP),
    (LOW_TO_0, TOP_ALONE, TO_0),
    (LOW_TO_0, LOW_TO_0, FROM_0),
    (LOW_TO_0, BIT, LOW_TO_0),
    (BIT, BIT, BIT),
    (FROM_0, TOP_ALONE, FROM_0),
    (FROM_0, LOW_TO_0, TO_0),
    (BIT, FROM_TOP, FROM_0),
    (TOP_ALONE, TO_LOW, TO_LOW),
    (TO_LOW, TO_LOW, FROM_TOP),
    (ZERO, ALL, ZERO),
    (ALL, ZERO, ZERO),
    ((Some(2), Some(2)), HALF, TOP_ALONE),
    ((Some(3), Some(3)), THIRD, FROM_TOP),
    ((Some(-3), Some(-3)), THIRD, TO_LOW),
];

/// The range of x, and the value of `x * x` in it: it is that of a product of any two numbers of the range.
const SQUARES: [(Ends, Ends); 8] = [
    (TOP_ALONE, FROM_TOP),
    (LOW_TO_TOP, ALL),
    (LOW_TO_0, FROM_0),
    (BIT, BIT),
    (FROM_0, FROM_0),
    (TO_0, FROM_0),
    (TO_LOW, FROM_TOP),
    (ALL, ALL),
];

/// The interval with these ends.
fn interval(ends: Ends) -> Interval {
    let (low, high) = ends;
    Interval { low, high }
}

#[test]
fn products(rt: HostRuntime) -> Result<(), Fail> {
    let core = multiplying(rt.alloc())?;
    law_numbers();
    for (k, (x, y, want)) in PRODUCTS.iter().enumerate() {
        let ranges = Two {
            x: interval(*x),
            y: interval(*y),
        };
        let form = linearise(rt.alloc(), &core, 2, &ranges)?;
        assert_eq!(rt; form.value(&ranges), interval(*want), "product {k}");
    }
    Ok(())
}

#[test]
fn squares(rt: HostRuntime) -> Result<(), Fail> {
    let core = squaring(rt.alloc())?;
    law_numbers();
    for (k, (x, want)) in SQUARES.iter().enumerate() {
        let ranges = Two {
            x: interval(*x),
            y: interval(ZERO),
        };
        let form = linearise(rt.alloc(), &core, 1, &ranges)?;
        assert_eq!(rt; form.value(&ranges), interval(*want), "square {k}");
    }
    Ok(())
}
