//! Values of expressions and conditions within 128 bits.

ghost use Rattle.std.specs.Prelude.{◌≡◌, ◌<◌, length, true};
ghost use Rattle.spl_core.specs.Expression.{value_of, sum as sum_of, difference as difference_of, product as product_of, quotient as quotient_of, remainder as remainder_of};
ghost use Rattle.spl_core.specs.Condition.{compares};
ghost use Rattle.spl_core.specs.Graph.{expr_at, exprs_in, cond_at, conds_in};
ghost use Rattle.spl_runs.specs.Word.{fits};
ghost use Rattle.spl_runs.specs.Exact.{exact, exact_may, within, checked as checked_of, negated, combined, joined, compared};

use spl_core::{Cmp, Core, CoreCond, CoreExpr, law_numbers};

/// The value of a dimension.
pub(crate) fn dimension(values: &[i128], v: u32) -> i128
    ensures value { result ≡ value_of values.now v }
    ensures known { fits result ≡ true }
{
    let at = v as usize;
    if at < values.len() { values[at] } else { 0 }
}

/// What an expression computes within 128 bits.
#[derive(Clone, Copy, Debug, Drop, PartialEq, Eq)]
pub(crate) enum Computed {
    /// The value or a part's value is past 128 bits.
    Wide,
    /// No part is past 128 bits, and there is no value, since a divisor is 0.
    Missing,
    /// The value.
    Is(i128),
}

/// What a checked operation computed, which is none where the value is past 128 bits.
fn checked(x: Option<i128>) -> Computed
    ensures { result ≡ checked_of x }
{
    match x {
        Some(x) => Computed::Is(x),
        None => Computed::Wide,
    }
}

fn negation(x: Computed) -> Computed
    ensures { result ≡ negated x }
{
    match x {
        Computed::Wide => Computed::Wide,
        Computed::Missing => Computed::Missing,
        Computed::Is(x) => checked(x.checked_neg()),
    }
}

fn sum(x: Computed, y: Computed) -> Computed
    ensures { result ≡ combined sum_of x y }
{
    match (x, y) {
        (Computed::Is(x), Computed::Is(y)) => checked(x.checked_add(y)),
        (Computed::Wide, _) => Computed::Wide,
        (_, Computed::Wide) => Computed::Wide,
        _ => Computed::Missing,
    }
}

fn difference(x: Computed, y: Computed) -> Computed
    ensures { result ≡ combined difference_of x y }
{
    match (x, y) {
        (Computed::Is(x), Computed::Is(y)) => checked(x.checked_sub(y)),
        (Computed::Wide, _) => Computed::Wide,
        (_, Computed::Wide) => Computed::Wide,
        _ => Computed::Missing,
    }
}

fn product(x: Computed, y: Computed) -> Computed
    ensures { result ≡ combined product_of x y }
{
    match (x, y) {
        (Computed::Is(x), Computed::Is(y)) => checked(x.checked_mul(y)),
        (Computed::Wide, _) => Computed::Wide,
        (_, Computed::Wide) => Computed::Wide,
        _ => Computed::Missing,
    }
}

/// The quotient of two integers, truncated toward zero. That of -2^127 by -1 is past 128 bits.
fn divided(x: i128, y: i128) -> Computed
    ensures { result ≡ within (quotient_of x y) }
{
    if y == 0 {
        Computed::Missing
    } else {
        checked(x.checked_div(y))
    }
}

/// The remainder of two integers. That of -2^127 by -1 is 0 and within 128 bits, though their quotient isn't.
fn left_over(x: i128, y: i128) -> Computed
    ensures { result ≡ within (remainder_of x y) }
{
    if y == 0 {
        Computed::Missing
    } else {
        Computed::Is(x.wrapping_rem(y))
    }
}

fn quotient(x: Computed, y: Computed) -> Computed
    ensures { result ≡ combined quotient_of x y }
{
    match (x, y) {
        (Computed::Is(x), Computed::Is(y)) => divided(x, y),
        (Computed::Wide, _) => Computed::Wide,
        (_, Computed::Wide) => Computed::Wide,
        _ => Computed::Missing,
    }
}

fn remainder(x: Computed, y: Computed) -> Computed
    ensures { result ≡ combined remainder_of x y }
{
    match (x, y) {
        (Computed::Is(x), Computed::Is(y)) => left_over(x, y),
        (Computed::Wide, _) => Computed::Wide,
        (_, Computed::Wide) => Computed::Wide,
        _ => Computed::Missing,
    }
}

/// The value of an expression within 128 bits.
pub(crate) fn value(core: &Core, e: u32, values: &[i128]) -> Computed
    requires { e < length core.now.exprs }
    ensures { result ≡ exact (expr_at (exprs_in core.now) e) values.now }
{
    law_numbers();
    match core.expr_at(e) {
        CoreExpr::Number(n) => Computed::Is(i128::from(n)),
        CoreExpr::Variable(v) => Computed::Is(dimension(values, v)),
        CoreExpr::Neg(a) => negation(value(core, a, values)),
        CoreExpr::Add(a, b) => sum(value(core, a, values), value(core, b, values)),
        CoreExpr::Sub(a, b) => difference(value(core, a, values), value(core, b, values)),
        CoreExpr::Mul(a, b) => product(value(core, a, values), value(core, b, values)),
        CoreExpr::Div(a, b) => quotient(value(core, a, values), value(core, b, values)),
        CoreExpr::Rem(a, b) => remainder(value(core, a, values), value(core, b, values)),
    }
}

/// Whether both hold, or one of two does.
fn both_or_one(all: bool, x: Option<bool>, y: Option<bool>) -> Option<bool>
    ensures { result ≡ joined all x y }
{
    match (x, y) {
        (Some(x), Some(y)) => Some(if all { x && y } else { x || y }),
        _ => None,
    }
}

fn holds(cmp: Cmp, x: i128, y: i128) -> bool
    ensures { result ≡ compares cmp x y }
{
    match cmp {
        Cmp::Eq => x == y,
        Cmp::Ne => x != y,
        Cmp::Lt => x < y,
        Cmp::Le => x <= y,
        Cmp::Gt => x > y,
        Cmp::Ge => x >= y,
    }
}

/// Whether a comparison comes out as wanted; it comes out neither way where a value is missing.
fn comparison(cmp: Cmp, wanted: bool, x: Computed, y: Computed) -> Option<bool>
    ensures { result ≡ compared cmp wanted x y }
{
    match (x, y) {
        (Computed::Is(x), Computed::Is(y)) => Some(holds(cmp, x, y) == wanted),
        (Computed::Wide, _) => None,
        (_, Computed::Wide) => None,
        _ => Some(false),
    }
}

/// Whether a condition may come out so; none if a part of it is past 128 bits, also one that can't matter.
pub(crate) fn may(core: &Core, c: u32, wanted: bool, values: &[i128]) -> Option<bool>
    requires { c < length core.now.conds }
    ensures { result ≡ exact_may (cond_at (conds_in core.now) c) values.now wanted }
{
    law_numbers();
    match core.cond_at(c) {
        CoreCond::True => Some(wanted),
        CoreCond::False => Some(!wanted),
        CoreCond::Random => Some(true),
        CoreCond::Not(a) => may(core, a, !wanted, values),
        CoreCond::And(a, b) => {
            let x = may(core, a, wanted, values);
            let y = may(core, b, wanted, values);
            both_or_one(wanted, x, y)
        }
        CoreCond::Or(a, b) => {
            let x = may(core, a, wanted, values);
            let y = may(core, b, wanted, values);
            both_or_one(!wanted, x, y)
        }
        CoreCond::Compare(cmp, a, b) => {
            let x = value(core, a, values);
            let y = value(core, b, values);
            comparison(cmp, wanted, x, y)
        }
    }
}
