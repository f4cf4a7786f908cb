//! Tables of intervals, one for each dimension, made in one pass over the dimensions.
ghost use Rattle.std.specs.Prelude.{◌≡◌, ◌≤◌, Some, IfOk, length, map, slice_set};
ghost use Rattle.std.specs.List.{range_with_len};
ghost use Rattle.interval_form.specs.Interval.{range_at as range_at_of};
ghost use Rattle.conc_analysis.specs.Environment.{each_dimension as each_dimension_of, top_environment};
ghost use Rattle.conc_analysis.specs.Met.{range_with as range_with_of};
ghost use Rattle.conc_analysis.specs.Tables.{by_ends};

use crate::ranges::{join_range, narrow_range, widen_range};
use interval_form::{Interval, RangeTable, Ranges};
use memory::NoMemory;
use std::alloc::Global;

/// An operation on two intervals that goes end by end.
#[derive(Clone, Copy, Debug, Drop, PartialEq, Eq)]
pub(crate) enum EndByEnd {
    Join,
    Widen,
    Narrow,
}

impl EndByEnd {
    /// What the operation gives for two intervals.
    fn of(self, a: Interval, b: Interval) -> Interval
        ensures { result ≡ by_ends self a b }
    {
        match self {
            EndByEnd::Join => join_range(a, b),
            EndByEnd::Widen => widen_range(a, b),
            EndByEnd::Narrow => narrow_range(a, b),
        }
    }
}

/// The interval of all integers.
pub(crate) const UNBOUNDED: Interval = Interval {
    low: None,
    high: None,
};

/// The range of a dimension; past the end it's unbounded.
pub(crate) fn range_at(ranges: &RangeTable, v: u32) -> Interval
    ensures { result ≡ range_at_of ranges.now v }
{
    if v < ranges.dims() {
        ranges.range(v)
    } else {
        UNBOUNDED
    }
}

/// An operation on the intervals of each dimension of a.
pub(crate) fn each_dimension(
    alloc: Global,
    operation: EndByEnd,
    a: &RangeTable,
    b: &RangeTable,
) -> Result<RangeTable, NoMemory>
    ensures { IfOk result (λ r. r ≡ each_dimension_of (by_ends operation) a.now b.now) }
{
    let mut ranges = Vec::new(alloc);
    for v in 0..a.dims() {
        ranges.push(operation.of(range_at(a, v), range_at(b, v)))?;
    }
    Ok(RangeTable::of(ranges))
}

/// The same ranges.
pub(crate) fn copied(alloc: Global, ranges: &RangeTable) -> Result<RangeTable, NoMemory>
    ensures { IfOk result (λ r. r ≡ ranges.now) }
{
    let mut copy = Vec::new(alloc);
    for v in 0..ranges.dims() {
        copy.push(range_at(ranges, v))?;
    }
    Ok(RangeTable::of(copy))
}

/// The range of a dimension, after that of x is replaced.
fn range_with(ranges: &RangeTable, x: u32, i: Interval, v: u32) -> Interval
    ensures { result ≡ range_with_of ranges.now x i v }
{
    if v == x { i } else { range_at(ranges, v) }
}

/// The same ranges, but for one dimension.
pub(crate) fn with_range(
    alloc: Global,
    ranges: &RangeTable,
    x: u32,
    i: Interval,
) -> Result<RangeTable, NoMemory>
    ensures { IfOk result (λ r. r ≡ slice_set ranges.now x i) }
{
    let mut changed = Vec::new(alloc);
    for v in 0..ranges.dims() {
        changed.push(range_with(ranges, x, i, v))?;
    }
    Ok(RangeTable::of(changed))
}

/// All integers in each of so many dimensions.
pub(crate) fn all_unbounded(alloc: Global, n: u32) -> Result<RangeTable, NoMemory>
    requires { n ≤ 512 }
    ensures { IfOk result (λ r. Some r ≡ top_environment n) }
{
    let mut ranges = Vec::new(alloc);
    for v in 0..n {
        ranges.push(UNBOUNDED)?;
    }
    Ok(RangeTable::of(ranges))
}
