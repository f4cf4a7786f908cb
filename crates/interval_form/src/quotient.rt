//! Quotients and remainders of intervals.
//!
//! Every end is unbounded or within 2^61 in size, the limit of a bound. A quotient is no greater in size than its dividend, a
//! remainder than the dividend and than the divisor, and minus an end is of its size: so every end that is computed here is
//! within the limit too, 64 bits hold it, and nothing is clamped. No end is divided by 0, since a part of a divisor begins at 1.

ghost use Rattle.std.specs.Prelude.{◌≡◌, true, Some, ℤ, pos, ◌≤ℤ◌};
ghost use Rattle.oct_def.specs.Bound.{InRange, least as least_of, greatest as greatest_of};
ghost use Rattle.interval_form.specs.Interval.{IsOutward, negated as negated_of};
ghost use Rattle.interval_form.specs.Quotient.{IsPositiveEnd, is_above as is_above_of, is_below as is_below_of, positive_low as positive_low_of, positive_part as positive_part_of, negative_high as negative_high_of, negative_part as negative_part_of, by_end as by_end_of, low_quotient as low_quotient_of, high_quotient as high_quotient_of, quotient_by_positive, quotient_by_negative, lower_low as lower_low_of, join_of, quotient_of, greatest_size, one_less, high_remainder as high_remainder_of, low_remainder as low_remainder_of, remainder_of};

use crate::interval::{Interval, negated_bound};

/// Whether an upper end is above 0.
fn is_above(b: Option<i64>) -> bool
    ensures { result ≡ is_above_of b }
{
    match b {
        Some(x) => x > 0,
        None => true,
    }
}

/// Whether a lower end is below 0.
fn is_below(b: Option<i64>) -> bool
    ensures { result ≡ is_below_of b }
{
    match b {
        Some(x) => x < 0,
        None => true,
    }
}

/// The lower end of a positive part.
fn positive_low(b: Option<i64>) -> i64
    requires { InRange b }
    ensures value { result ≡ positive_low_of b }
    ensures positive { pos 1 ≤ℤ result }
    ensures small { InRange (Some result) }
{
    match b {
        Some(x) => 1i64.max(x),
        None => 1,
    }
}

/// The upper end of a negative part.
fn negative_high(b: Option<i64>) -> i64
    requires { InRange b }
    ensures value { result ≡ negative_high_of b }
    ensures small { InRange (Some result) }
{
    match b {
        Some(x) => (-1i64).min(x),
        None => -1,
    }
}

/// An integer divided by an end; 0 where the end is unbounded.
fn by_end(x: i64, end: Option<i64>) -> i64
    requires { IsPositiveEnd end }
    ensures { result ≡ by_end_of x end }
{
    match end {
        Some(d) => x / d,
        None => 0,
    }
}

/// The lower end of the quotient by a positive interval.
fn low_quotient(low: Option<i64>, divisor: Interval) -> Option<i64>
    requires low { IsPositiveEnd divisor.low }
    requires high { IsPositiveEnd divisor.high }
    ensures { result ≡ low_quotient_of low divisor }
{
    match low {
        Some(x) => Some(by_end(x, if x < 0 { divisor.low } else { divisor.high })),
        None => None,
    }
}

/// Its upper end.
fn high_quotient(high: Option<i64>, divisor: Interval) -> Option<i64>
    requires low { IsPositiveEnd divisor.low }
    requires high { IsPositiveEnd divisor.high }
    ensures { result ≡ high_quotient_of high divisor }
{
    match high {
        Some(x) => Some(by_end(x, if x < 0 { divisor.high } else { divisor.low })),
        None => None,
    }
}

/// The lesser of two lower ends.
fn lower_low(a: Option<i64>, b: Option<i64>) -> Option<i64>
    ensures { result ≡ lower_low_of a b }
{
    match (a, b) {
        (Some(x), Some(y)) => Some(x.min(y)),
        _ => None,
    }
}

/// The greater of two upper ends.
fn higher_high(a: Option<i64>, b: Option<i64>) -> Option<i64>
    ensures { result ≡ greatest_of a b }
{
    match (a, b) {
        (Some(x), Some(y)) => Some(x.max(y)),
        _ => None,
    }
}

/// One less than the greater of the sizes of two ends: the greatest size of a remainder.
fn below_sizes(low: Option<i64>, high: Option<i64>) -> Option<i64>
    requires low { InRange low }
    requires high { InRange high }
    ensures value { result ≡ one_less (greatest_size low high) }
    ensures small { InRange result }
{
    match (low, high) {
        (Some(x), Some(y)) => Some(x.unsigned_abs().max(y.unsigned_abs()) as i64 - 1),
        _ => None,
    }
}

/// The lesser of two bounds.
fn least(a: Option<i64>, b: Option<i64>) -> Option<i64>
    ensures { result ≡ least_of a b }
{
    match (a, b) {
        (Some(x), Some(y)) => Some(x.min(y)),
        (a, None) => a,
        (None, b) => b,
    }
}

/// The upper end of a remainder whose size is within a bound.
fn high_remainder(high: Option<i64>, bound: Option<i64>) -> Option<i64>
    requires high { InRange high }
    requires bound { InRange bound }
    ensures value { result ≡ high_remainder_of high bound }
    ensures small { InRange result }
{
    if is_above(high) {
        least(high, bound)
    } else {
        Some(0)
    }
}

/// Its lower end.
fn low_remainder(low: Option<i64>, bound: Option<i64>) -> Option<i64>
    requires low { InRange low }
    requires bound { InRange bound }
    ensures { result ≡ low_remainder_of low bound }
{
    negated_bound(high_remainder(negated_bound(low), bound))
}

impl Interval {
    /// The positive part, where the upper end is above 0.
    #[tactic(auto, unfolding(crate::specs::Quotient::positive_part))]
    fn positive_part(self) -> Interval
        requires outward { IsOutward self }
        requires above { is_above_of self.high ≡ true }
        ensures part { result ≡ positive_part_of self }
        ensures low { IsPositiveEnd result.low }
        ensures high { IsPositiveEnd result.high }
    {
        Interval {
            low: Some(positive_low(self.low)),
            high: self.high,
        }
    }

    /// Minus the negative part, where the lower end is below 0.
    #[tactic(auto, unfolding(crate::specs::Quotient::negative_part, crate::specs::Interval::negated))]
    fn minus_negative_part(self) -> Interval
        requires outward { IsOutward self }
        requires below { is_below_of self.low ≡ true }
        ensures part { result ≡ negated_of (negative_part_of self) }
        ensures low { IsPositiveEnd result.low }
        ensures high { IsPositiveEnd result.high }
    {
        Interval {
            low: Some(-negative_high(self.high)),
            high: negated_bound(self.low),
        }
    }

    /// The quotient by a positive interval.
    #[tactic(auto, unfolding(crate::specs::Quotient::quotient_by_positive))]
    fn by_positive(self, divisor: Interval) -> Interval
        requires outward { IsOutward self }
        requires low { IsPositiveEnd divisor.low }
        requires high { IsPositiveEnd divisor.high }
        ensures value { result ≡ quotient_by_positive self divisor }
        ensures outward { IsOutward result }
    {
        Interval {
            low: low_quotient(self.low, divisor),
            high: high_quotient(self.high, divisor),
        }
    }

    /// The quotient by the positive part of an interval.
    fn over_positive(self, other: Interval) -> Interval
        requires left { IsOutward self }
        requires right { IsOutward other }
        requires above { is_above_of other.high ≡ true }
        ensures { result ≡ quotient_by_positive self (positive_part_of other) }
    {
        self.by_positive(other.positive_part())
    }

    /// The quotient by the negative part of an interval.
    #[tactic(auto, unfolding(crate::specs::Quotient::quotient_by_negative))]
    fn over_negative(self, other: Interval) -> Interval
        requires left { IsOutward self }
        requires right { IsOutward other }
        requires below { is_below_of other.low ≡ true }
        ensures { result ≡ quotient_by_negative self (negative_part_of other) }
    {
        self.by_positive(other.minus_negative_part()).negated()
    }

    /// The least interval that has both in it.
    #[tactic(auto, unfolding(crate::specs::Quotient::join_of))]
    fn join(self, other: Interval) -> Interval
        ensures { result ≡ join_of self other }
    {
        Interval {
            low: lower_low(self.low, other.low),
            high: higher_high(self.high, other.high),
        }
    }

    /// The quotient of two intervals: the join of those by the parts of the divisor, and 0 where it has none.
    #[tactic(auto, unfolding(crate::specs::Quotient::quotient_of))]
    pub(crate) fn quotient(self, other: Interval) -> Interval
        requires left { IsOutward self }
        requires right { IsOutward other }
        ensures { result ≡ quotient_of self other }
    {
        match (is_above(other.high), is_below(other.low)) {
            (true, true) => self.over_positive(other).join(self.over_negative(other)),
            (true, false) => self.over_positive(other),
            (false, true) => self.over_negative(other),
            (false, false) => Interval::point(0),
        }
    }

    /// The remainder of two intervals: of the dividend's sign, and no greater than it and than one less than the divisor's size.
    #[tactic(auto, unfolding(crate::specs::Quotient::remainder_of, crate::specs::Quotient::remainder_within))]
    pub(crate) fn remainder(self, other: Interval) -> Interval
        requires left { IsOutward self }
        requires right { IsOutward other }
        ensures { result ≡ remainder_of self other }
    {
        if other.is_nothing() {
            return Interval::point(0);
        }
        let bound = below_sizes(other.low, other.high);
        Interval {
            low: low_remainder(self.low, bound),
            high: high_remainder(self.high, bound),
        }
    }
}
