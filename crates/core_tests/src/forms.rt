//! Linear forms and the bounds of `form <= 0`, worked out by hand.
ghost use Rattle.std.specs.Prelude.{◌<◌, ◌≤ℤ◌, IfOk};
ghost use Rattle.oct_def.specs.Bound.{low_limit, top_limit};
ghost use Rattle.interval_form.specs.Sparse.{IsFormOver};

use crate::cores::squaring;
use crate::ranges::Two;
use interval_form::{Bounds, Form, Interval, OctBound, form_constraints, linearise};
use oct_def::NoMemory;
use spl_core::law_numbers;
use std::alloc::Global;
use std::test::Fail;

const ALL: Interval = Interval {
    low: None,
    high: None,
};

const FROM_0: Interval = Interval {
    low: Some(0),
    high: None,
};

const TO_10: Interval = Interval {
    low: Some(0),
    high: Some(10),
};

/// `x + y - k`, or `x + x - k`.
fn sum_less(alloc: Global, second: u32, k: i64, ranges: &Two) -> Result<Form, NoMemory>
    requires second { second < 2 }
    requires low { low_limit ≤ℤ k }
    requires high { k ≤ℤ top_limit }
    ensures { IfOk result (λ f. IsFormOver 2 f) }
{
    let zero = Form::of_constant(alloc, 0)?;
    let x = Form::of_variable(alloc, 0)?;
    let other = Form::of_variable(alloc, second)?;
    let minus_other = zero.minus(alloc, &other, ranges)?;
    let sum = x.minus(alloc, &minus_other, ranges)?;
    let number = Form::of_constant(alloc, k)?;
    let form = sum.minus(alloc, &number, ranges)?;
    Ok(form)
}

fn bound(row: u32, column: u32, word: i64) -> OctBound {
    OctBound { row, column, word }
}

#[test]
fn bounds_of_sums(rt: HostRuntime) -> Result<(), Fail> {
    let alloc = rt.alloc();
    let wide = Two { x: ALL, y: ALL };
    let small = Two { x: TO_10, y: TO_10 };
    let cases: [(&str, u32, i64, Two, &[OctBound]); 5] = [
        (
            "x + y <= 5, each from 0 to 10",
            1,
            5,
            small,
            &[
                bound(1, 0, 10),
                bound(1, 2, 5),
                bound(3, 0, 5),
                bound(3, 2, 10),
            ],
        ),
        ("x + y <= 5", 1, 5, wide, &[bound(1, 2, 5), bound(3, 0, 5)]),
        ("x + x <= 5", 0, 5, wide, &[bound(1, 0, 4)]),
        ("x + x <= -5", 0, -5, wide, &[bound(1, 0, -6)]),
        (
            "x + x <= 2^61",
            0,
            2305843009213693952,
            wide,
            &[bound(1, 0, 2305843009213693952)],
        ),
    ];
    for &(name, second, k, ranges, wanted) in &cases {
        let form = sum_less(alloc, second, k, &ranges)?;
        match form_constraints(alloc, &form, &ranges)? {
            Bounds::Nothing => assert!(rt; false, "{name}"),
            Bounds::Few(bounds) => assert!(rt; bounds.as_slice() == wanted, "{name}"),
        }
    }
    Ok(())
}

#[test]
fn least_value_above_0(rt: HostRuntime) -> Result<(), Fail> {
    let alloc = rt.alloc();
    let ranges = Two { x: FROM_0, y: ALL };
    let x = Form::of_variable(alloc, 0)?;
    let number = Form::of_constant(alloc, -1)?;
    let form = x.minus(alloc, &number, &ranges)?;
    let bounds = form_constraints(alloc, &form, &ranges)?;
    assert!(rt; matches!(bounds, Bounds::Nothing));
    Ok(())
}

#[test]
fn form_of_a_square(rt: HostRuntime) -> Result<(), Fail> {
    let alloc = rt.alloc();
    let core = squaring(alloc)?;
    law_numbers();
    let small = Two { x: TO_10, y: ALL };
    let form = linearise(alloc, &core, 1, &small)?;
    assert!(rt; form.coefficient(0) == TO_10 && form.constant() == Interval::point(0));
    assert!(rt;
        form.value(&small)
            == Interval {
                low: Some(0),
                high: Some(100)
            }
    );
    let wide = Two { x: FROM_0, y: ALL };
    let form = linearise(alloc, &core, 1, &wide)?;
    assert!(rt; form.coefficient(0) == Interval::point(0) && form.constant() == FROM_0);
    Ok(())
}
