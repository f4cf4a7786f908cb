// Words: a bound as one number, where none is the greatest one.
// Since `NONE` is above every other word, the lesser and the greater of two words are those of their bounds.
ghost use Rattle.std.specs.Prelude.{◌≡◌};
ghost use Rattle.oct_def.specs.Bound.{clamp as clamp_of, plus, clamped, least, greatest, half, evened, is_negative, bound_of};
ghost use Rattle.oct_def.specs.Octagon.{widen_bound, narrow_bound};

use crate::{LIMIT, NONE};

/// An integer moved outward into the limits: `NONE` above `LIMIT`, `-LIMIT` below `-LIMIT`.
pub fn clamp(x: i128) -> i64
    ensures { bound_of result ≡ clamp_of x }
{
    if x > LIMIT as i128 {
        NONE
    } else if x < -(LIMIT as i128) {
        -LIMIT
    } else {
        x as i64
    }
}

/// The sum of two bounds, clamped.
pub fn clamped_sum(a: i64, b: i64) -> i64
    ensures { bound_of result ≡ clamped (plus (bound_of a) (bound_of b)) }
{
    if a == NONE {
        return NONE;
    }
    if b == NONE {
        return NONE;
    }
    clamp(a as i128 + b as i128)
}

/// The sum of three bounds, clamped once.
pub fn clamped_sum_of_three(a: i64, b: i64, c: i64) -> i64
    ensures { bound_of result ≡ clamped (plus (plus (bound_of a) (bound_of b)) (bound_of c)) }
{
    if a == NONE {
        return NONE;
    }
    if b == NONE {
        return NONE;
    }
    if c == NONE {
        return NONE;
    }
    clamp(a as i128 + b as i128 + c as i128)
}

/// The lesser of two bounds.
pub fn least_word(a: i64, b: i64) -> i64
    ensures { bound_of result ≡ least (bound_of a) (bound_of b) }
{
    if b < a { b } else { a }
}

/// The greater of two bounds.
pub fn greatest_word(a: i64, b: i64) -> i64
    ensures { bound_of result ≡ greatest (bound_of a) (bound_of b) }
{
    if b < a { a } else { b }
}

/// Half of a bound, rounded down.
pub fn half_of(a: i64) -> i64
    ensures { bound_of result ≡ half (bound_of a) }
{
    if a == NONE { NONE } else { a.div_euclid(2) }
}

/// The greatest even bound that isn't above the given one.
pub fn evened_word(a: i64) -> i64
    ensures { bound_of result ≡ evened (bound_of a) }
{
    if a == NONE { NONE } else { a.div_euclid(2) * 2 }
}

/// The sum of the halves of two bounds, each rounded down. It isn't clamped: between the limits it needs no clamp.
pub fn sum_of_halves(a: i64, b: i64) -> i64
    ensures { bound_of result ≡ plus (half (bound_of a)) (half (bound_of b)) }
{
    if a == NONE {
        return NONE;
    }
    if b == NONE {
        return NONE;
    }
    a.div_euclid(2) + b.div_euclid(2)
}

/// Whether a bound is below 0.
pub fn is_negative_word(a: i64) -> bool
    ensures { result ≡ is_negative (bound_of a) }
{
    a < 0
}

/// Whether two bounds have a sum below 0.
pub fn has_negative_sum(a: i64, b: i64) -> bool
    ensures { result ≡ is_negative (plus (bound_of a) (bound_of b)) }
{
    if a == NONE {
        return false;
    }
    if b == NONE {
        return false;
    }
    (a as i128) + (b as i128) < 0
}

/// The widening of one bound by another: the first where the second isn't above it, else none.
pub fn widened_word(a: i64, b: i64) -> i64
    ensures { bound_of result ≡ widen_bound (bound_of a) (bound_of b) }
{
    if b <= a { a } else { NONE }
}

/// The narrowing of one bound by another: the second where the first is none, else the first.
pub fn narrowed_word(a: i64, b: i64) -> i64
    ensures { bound_of result ≡ narrow_bound (bound_of a) (bound_of b) }
{
    if a == NONE { b } else { a }
}
