//! Tests of conditions on environments. A comparison meets each interval with the unary bounds of a difference of forms; the
//! rest goes by the parts of the condition.
ghost use Rattle.std.specs.Prelude.{◌≡◌, ◌+◌, ◌*◌, ◌<◌, true, false, if◌then◌else◌, IfOk, length};
ghost use Rattle.std.specs.List.{All};
ghost use Rattle.oct_def.specs.Bound.{bound_of, least};
ghost use Rattle.oct_def.specs.Table.{some_index};
ghost use Rattle.spl_core.specs.Graph.{expr_at, exprs_in, cond_at, conds_in};
ghost use Rattle.interval_form.specs.Listing.{is_at, listed};
ghost use Rattle.interval_form.specs.Sparse.{IsFormOver, form_in};
ghost use Rattle.conc_analysis.specs.Environment.{Environment, join_environment};
ghost use Rattle.conc_analysis.specs.EnvironmentMove.{are_crossed as are_crossed_of, is_empty_at, restricted as restricted_of, at_most_in, below_in, equal_in, different_in, compare_in, constant_in, test_in};
ghost use Rattle.conc_analysis.specs.Fits.{IsExpressionIn, IsConditionIn};
ghost use Rattle.conc_analysis.specs.Met.{met_by};

use crate::environment::{copied, join};
use crate::ranges::meet_range;
use crate::tables::range_at;
use interval_form::{
    Bounds, Form, Interval, OctBound, RangeTable, Ranges, form_constraints, linearise_difference,
};
use memory::NoMemory;
use oct_def::{NONE, least_word};
use spl_core::{Cmp, Core, CoreCond, law_numbers};
use std::alloc::Global;

/// The lesser of a word and that of a bound, where the bound stands at a place; elsewhere the word.
fn with_bound(bound: OctBound, row: u32, column: u32, word: i64) -> i64
    ensures { bound_of result ≡ (if is_at bound row column then least (bound_of bound.word) (bound_of word) else bound_of word) }
{
    if bound.row != row {
        return word;
    }
    if bound.column != column {
        return word;
    }
    least_word(bound.word, word)
}

/// The least word that a list has at a place.
fn listed_word(bounds: &[OctBound], row: u32, column: u32) -> i64
    ensures { bound_of result ≡ listed bounds.now row column }
{
    let mut word = NONE;
    for k in 0..bounds.len() {
        word = with_bound(bounds[bounds.len() - 1 - k], row, column, word);
    }
    word
}

/// Each interval met with the unary bounds of its dimension in a list.
fn met(alloc: Global, bounds: &[OctBound], ranges: &RangeTable) -> Result<RangeTable, NoMemory>
    ensures { IfOk result (λ r. r ≡ met_by ranges.now bounds.now) }
{
    let mut met = Vec::new(alloc);
    for v in 0..ranges.dims() {
        let below = listed_word(bounds, 2 * v, 2 * v + 1);
        let above = listed_word(bounds, 2 * v + 1, 2 * v);
        let unary = Interval::of_words(below, above);
        met.push(meet_range(range_at(ranges, v), unary))?;
    }
    Ok(RangeTable::of(met))
}

/// Whether no integer lies between the ends.
fn are_crossed(low: Option<i64>, high: Option<i64>) -> bool
    ensures { result ≡ are_crossed_of low high }
{
    match (low, high) {
        (Some(x), Some(y)) => y < x,
        (_, _) => false,
    }
}

/// Whether an interval is empty.
fn has_empty(ranges: &RangeTable) -> bool
    ensures { result ≡ some_index (length ranges.now) (is_empty_at ranges.now) }
{
    for v in 0..ranges.dims() {
        let range = range_at(ranges, v);
        if are_crossed(range.low, range.high) {
            return true;
        }
    }
    false
}

/// The environment where a form is at most 0.
fn restricted(
    alloc: Global,
    form: &Form,
    ranges: &RangeTable,
) -> Result<Option<RangeTable>, NoMemory>
    requires { IsFormOver (length ranges.now) form.now }
    ensures { IfOk result (λ v. v ≡ restricted_of (form_in (length ranges.now) form.now) ranges.now) }
{
    let constraints = form_constraints(alloc, form, ranges)?;
    match constraints {
        Bounds::Nothing => Ok(None),
        Bounds::Few(bounds) => {
            let met = met(alloc, bounds.as_slice(), ranges)?;
            if has_empty(&met) {
                Ok(None)
            } else {
                Ok(Some(met))
            }
        }
    }
}

/// The environment where an expression is at most another.
fn at_most(
    alloc: Global,
    core: &Core,
    a: u32,
    b: u32,
    v: &Option<RangeTable>,
) -> Result<Option<RangeTable>, NoMemory>
    requires first { a < length core.now.exprs }
    requires second { b < length core.now.exprs }
    requires over_first { IsExpressionIn v.now (expr_at (exprs_in core.now) a) }
    requires over_second { IsExpressionIn v.now (expr_at (exprs_in core.now) b) }
    ensures { IfOk result (λ r. r ≡ at_most_in (expr_at (exprs_in core.now) a) (expr_at (exprs_in core.now) b) v.now) }
{
    match v {
        None => Ok(None),
        Some(ranges) => {
            let form = linearise_difference(alloc, core, a, b, ranges)?;
            let after = restricted(alloc, &form, ranges)?;
            Ok(after)
        }
    }
}

/// The environment where an expression is below another: their difference and 1 is at most 0.
fn below(
    alloc: Global,
    core: &Core,
    a: u32,
    b: u32,
    v: &Option<RangeTable>,
) -> Result<Option<RangeTable>, NoMemory>
    requires first { a < length core.now.exprs }
    requires second { b < length core.now.exprs }
    requires over_first { IsExpressionIn v.now (expr_at (exprs_in core.now) a) }
    requires over_second { IsExpressionIn v.now (expr_at (exprs_in core.now) b) }
    ensures { IfOk result (λ r. r ≡ below_in (expr_at (exprs_in core.now) a) (expr_at (exprs_in core.now) b) v.now) }
{
    match v {
        None => Ok(None),
        Some(ranges) => {
            let form = linearise_difference(alloc, core, a, b, ranges)?;
            let minus_one = Form::of_constant(alloc, -1)?;
            let and_one = form.minus(alloc, &minus_one, ranges)?;
            let after = restricted(alloc, &and_one, ranges)?;
            Ok(after)
        }
    }
}

/// The environment where two expressions are equal: two tests, the second in what the first leaves.
fn equal(
    alloc: Global,
    core: &Core,
    a: u32,
    b: u32,
    v: &Option<RangeTable>,
) -> Result<Option<RangeTable>, NoMemory>
    requires first { a < length core.now.exprs }
    requires second { b < length core.now.exprs }
    requires over_first { IsExpressionIn v.now (expr_at (exprs_in core.now) a) }
    requires over_second { IsExpressionIn v.now (expr_at (exprs_in core.now) b) }
    ensures { IfOk result (λ r. r ≡ equal_in (expr_at (exprs_in core.now) a) (expr_at (exprs_in core.now) b) v.now) }
{
    let first = at_most(alloc, core, a, b, v)?;
    let both = at_most(alloc, core, b, a, &first)?;
    Ok(both)
}

/// The environment where two expressions are different.
fn different(
    alloc: Global,
    core: &Core,
    a: u32,
    b: u32,
    v: &Option<RangeTable>,
) -> Result<Option<RangeTable>, NoMemory>
    requires first { a < length core.now.exprs }
    requires second { b < length core.now.exprs }
    requires over_first { IsExpressionIn v.now (expr_at (exprs_in core.now) a) }
    requires over_second { IsExpressionIn v.now (expr_at (exprs_in core.now) b) }
    ensures { IfOk result (λ r. r ≡ different_in (expr_at (exprs_in core.now) a) (expr_at (exprs_in core.now) b) v.now) }
{
    let less = below(alloc, core, a, b, v)?;
    let more = below(alloc, core, b, a, v)?;
    let either = join(alloc, &less, &more)?;
    Ok(either)
}

/// The environment where a comparison holds.
fn compared(
    alloc: Global,
    core: &Core,
    relation: Cmp,
    a: u32,
    b: u32,
    v: &Option<RangeTable>,
) -> Result<Option<RangeTable>, NoMemory>
    requires first { a < length core.now.exprs }
    requires second { b < length core.now.exprs }
    requires over_first { IsExpressionIn v.now (expr_at (exprs_in core.now) a) }
    requires over_second { IsExpressionIn v.now (expr_at (exprs_in core.now) b) }
    ensures { IfOk result (λ r. r ≡ compare_in relation true (expr_at (exprs_in core.now) a) (expr_at (exprs_in core.now) b) v.now) }
{
    match relation {
        Cmp::Eq => {
            let r = equal(alloc, core, a, b, v)?;
            Ok(r)
        }
        Cmp::Ne => {
            let r = different(alloc, core, a, b, v)?;
            Ok(r)
        }
        Cmp::Lt => {
            let r = below(alloc, core, a, b, v)?;
            Ok(r)
        }
        Cmp::Le => {
            let r = at_most(alloc, core, a, b, v)?;
            Ok(r)
        }
        Cmp::Gt => {
            let r = below(alloc, core, b, a, v)?;
            Ok(r)
        }
        Cmp::Ge => {
            let r = at_most(alloc, core, b, a, v)?;
            Ok(r)
        }
    }
}

/// The environment where a constant is as wanted.
fn constant(
    alloc: Global,
    value: bool,
    wanted: bool,
    v: &Option<RangeTable>,
) -> Result<Option<RangeTable>, NoMemory>
    ensures { IfOk result (λ r. r ≡ constant_in value wanted v.now) }
{
    if value == wanted {
        let r = copied(alloc, v)?;
        Ok(r)
    } else {
        Ok(None)
    }
}

/// The environment where a condition of a core comes out as wanted. It calls itself as deep as the condition is nested, which
/// is at most 1024 in the core of a text.
pub(crate) fn tested(
    alloc: Global,
    core: &Core,
    cond: u32,
    wanted: bool,
    v: &Option<RangeTable>,
) -> Result<Option<RangeTable>, NoMemory>
    requires known { cond < length core.now.conds }
    requires over { IsConditionIn v.now (cond_at (conds_in core.now) cond) }
    ensures { IfOk result (λ r. r ≡ test_in (cond_at (conds_in core.now) cond) wanted v.now) }
{
    law_numbers();
    match (core.cond_at(cond), wanted) {
        (CoreCond::True, _) => {
            let r = constant(alloc, true, wanted, v)?;
            Ok(r)
        }
        (CoreCond::False, _) => {
            let r = constant(alloc, false, wanted, v)?;
            Ok(r)
        }
        (CoreCond::Random, _) => {
            let r = copied(alloc, v)?;
            Ok(r)
        }
        (CoreCond::Not(c), _) => {
            let r = tested(alloc, core, c, !wanted, v)?;
            Ok(r)
        }
        (CoreCond::And(c, d), true) => {
            let first = tested(alloc, core, c, true, v)?;
            let r = tested(alloc, core, d, true, &first)?;
            Ok(r)
        }
        (CoreCond::And(c, d), false) => {
            let first = tested(alloc, core, c, false, v)?;
            let second = tested(alloc, core, d, false, v)?;
            let r = join(alloc, &first, &second)?;
            Ok(r)
        }
        (CoreCond::Or(c, d), true) => {
            let first = tested(alloc, core, c, true, v)?;
            let second = tested(alloc, core, d, true, v)?;
            let r = join(alloc, &first, &second)?;
            Ok(r)
        }
        (CoreCond::Or(c, d), false) => {
            let first = tested(alloc, core, c, false, v)?;
            let r = tested(alloc, core, d, false, &first)?;
            Ok(r)
        }
        (CoreCond::Compare(relation, a, b), _) => {
            let r = compared(alloc, core, relation.asked(wanted), a, b, v)?;
            Ok(r)
        }
    }
}
