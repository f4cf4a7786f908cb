// Tests of conditions. A comparison takes the bounds of a difference of forms and closes; the rest goes by the parts of
// the condition.
ghost use Rattle.std.specs.Prelude.{◌≡◌, ◌*◌, ◌<◌, ◌≤◌, true, false, IfOk, IfSome, IsSome, length};
ghost use Rattle.std.specs.List.{All};
ghost use Rattle.oct_def.specs.Tight.{tight};
ghost use Rattle.oct_def.specs.Octagon.{Octagon, join_value};
ghost use Rattle.spl_core.specs.Expression.{Expression, IsOver};
ghost use Rattle.spl_core.specs.Condition.{IsConditionOver};
ghost use Rattle.spl_core.specs.Graph.{expr_at, exprs_in, cond_at, conds_in};
ghost use Rattle.interval_form.specs.Linear.{linear_form, difference_form};
ghost use Rattle.interval_form.specs.Sparse.{IsFormOver, form_in};
ghost use Rattle.interval_form.specs.Listed.{IsPlaced};
ghost use Rattle.transfer_def.specs.Test.{at_most_value, below_value, equal_value, different_value, compare_value, constant_value, test_value};
ghost use Rattle.dec_oct.specs.Value.{Decomposed, octagon, octagon_of, whole};
ghost use Rattle.dec_oct.specs.Cost.{TellsAgainOf};
ghost use Rattle.dec_parts.specs.Lower.{lowered_matrix};
ghost use Rattle.dec_transfer.specs.Restricted.{restricted_value};
ghost use Rattle.dec_transfer.specs.TestMarks.{IsApart, IsCompared, IsPassed, IsTested};

use crate::ranges::ranges_of_all;
use dec_lattice::join;
use dec_oct::DecOct;
use dec_parts::lowered;
use interval_form::{Bounds, Form, OctBound, RangeTable, form_constraints, linearise_difference};
use memory::NoMemory;
use minplus_lanes::RowCount;
use spl_core::{Cmp, Core, CoreCond, law_numbers};
use std::alloc::Global;

// The value with bounds taken by minimum, closed.
fn closed_with(
    alloc: Global,
    v: &DecOct,
    bounds: &[OctBound],
    count: &mut RowCount,
) -> Result<DecOct, NoMemory>
    requires not_bottom { IsSome v.now.blocks }
    requires placed { All (IsPlaced v.now.dims) bounds.now }
    ensures value { IfOk result (λ r. IfSome v.now.blocks (λ b. octagon r ≡ octagon_of v.now.dims (tight (lowered_matrix v.now.dims bounds.now (whole v.now.dims b))))) }
    ensures marks { IfOk result (λ r. TellsAgainOf r.blocks) }
    ensures rises { count.old ≤ count.new }
{
    v.known();
    let parts = lowered(alloc, v, bounds)?;
    let closed = DecOct::tight_of(alloc, parts, count)?;
    Ok(closed)
}

// The value where a form is at most 0, closed.
fn restricted(
    alloc: Global,
    v: &DecOct,
    form: &Form,
    ranges: &RangeTable,
    count: &mut RowCount,
) -> Result<DecOct, NoMemory>
    requires not_bottom { IsSome v.now.blocks }
    requires dims { v.now.dims ≡ length ranges.now }
    requires over { IsFormOver (length ranges.now) form.now }
    ensures value { IfOk result (λ r. octagon r ≡ restricted_value ranges.now (form_in (length ranges.now) form.now) (octagon v.now)) }
    ensures marks { IfOk result (λ r. TellsAgainOf r.blocks) }
    ensures rises { count.old ≤ count.new }
{
    v.known();
    match form_constraints(alloc, form, ranges)? {
        Bounds::Nothing => Ok(DecOct::bottom(v.dims())),
        Bounds::Few(bounds) => {
            let closed = closed_with(alloc, v, &bounds, count)?;
            Ok(closed)
        }
    }
}

// The value where an expression is at most another.
fn at_most(
    alloc: Global,
    v: &DecOct,
    core: &Core,
    a: u32,
    b: u32,
    count: &mut RowCount,
) -> Result<DecOct, NoMemory>
    requires small { v.now.dims ≤ 256 }
    requires first { a < length core.now.exprs }
    requires second { b < length core.now.exprs }
    requires over_first { IsOver v.now.dims (expr_at (exprs_in core.now) a) }
    requires over_second { IsOver v.now.dims (expr_at (exprs_in core.now) b) }
    ensures value { IfOk result (λ r. octagon r ≡ at_most_value (expr_at (exprs_in core.now) a) (expr_at (exprs_in core.now) b) (octagon v.now)) }
    ensures marks { IfOk result (λ r. TellsAgainOf r.blocks) }
    ensures rises { count.old ≤ count.new }
{
    if v.partition().is_none() {
        return Ok(DecOct::bottom(v.dims()));
    }
    let ranges = ranges_of_all(alloc, v)?;
    let form = linearise_difference(alloc, core, a, b, &ranges)?;
    let after = restricted(alloc, v, &form, &ranges, count)?;
    Ok(after)
}

// The value where an expression is below another: their difference and 1 is at most 0.
fn below(
    alloc: Global,
    v: &DecOct,
    core: &Core,
    a: u32,
    b: u32,
    count: &mut RowCount,
) -> Result<DecOct, NoMemory>
    requires small { v.now.dims ≤ 256 }
    requires first { a < length core.now.exprs }
    requires second { b < length core.now.exprs }
    requires over_first { IsOver v.now.dims (expr_at (exprs_in core.now) a) }
    requires over_second { IsOver v.now.dims (expr_at (exprs_in core.now) b) }
    ensures value { IfOk result (λ r. octagon r ≡ below_value (expr_at (exprs_in core.now) a) (expr_at (exprs_in core.now) b) (octagon v.now)) }
    ensures marks { IfOk result (λ r. TellsAgainOf r.blocks) }
    ensures rises { count.old ≤ count.new }
{
    if v.partition().is_none() {
        return Ok(DecOct::bottom(v.dims()));
    }
    let ranges = ranges_of_all(alloc, v)?;
    let form = linearise_difference(alloc, core, a, b, &ranges)?;
    let minus_one = Form::of_constant(alloc, -1)?;
    let and_one = form.minus(alloc, &minus_one, &ranges)?;
    let after = restricted(alloc, v, &and_one, &ranges, count)?;
    Ok(after)
}

// The value where two expressions are equal.
fn equal(
    alloc: Global,
    v: &DecOct,
    core: &Core,
    a: u32,
    b: u32,
    count: &mut RowCount,
) -> Result<DecOct, NoMemory>
    requires small { v.now.dims ≤ 256 }
    requires first { a < length core.now.exprs }
    requires second { b < length core.now.exprs }
    requires over_first { IsOver v.now.dims (expr_at (exprs_in core.now) a) }
    requires over_second { IsOver v.now.dims (expr_at (exprs_in core.now) b) }
    ensures value { IfOk result (λ r. octagon r ≡ equal_value (expr_at (exprs_in core.now) a) (expr_at (exprs_in core.now) b) (octagon v.now)) }
    ensures marks { IfOk result (λ r. TellsAgainOf r.blocks) }
    ensures rises { count.old ≤ count.new }
{
    let first = at_most(alloc, v, core, a, b, count)?;
    let both = at_most(alloc, &first, core, b, a, count)?;
    Ok(both)
}

// The value where two expressions are different.
fn different(
    alloc: Global,
    v: &DecOct,
    core: &Core,
    a: u32,
    b: u32,
    count: &mut RowCount,
) -> Result<DecOct, NoMemory>
    requires small { v.now.dims ≤ 256 }
    requires first { a < length core.now.exprs }
    requires second { b < length core.now.exprs }
    requires over_first { IsOver v.now.dims (expr_at (exprs_in core.now) a) }
    requires over_second { IsOver v.now.dims (expr_at (exprs_in core.now) b) }
    ensures value { IfOk result (λ r. octagon r ≡ different_value (expr_at (exprs_in core.now) a) (expr_at (exprs_in core.now) b) (octagon v.now)) }
    ensures marks { IfOk result (λ r. IsApart (expr_at (exprs_in core.now) a) (expr_at (exprs_in core.now) b) v.now r) }
    ensures rises { count.old ≤ count.new }
{
    let less = below(alloc, v, core, a, b, count)?;
    let more = below(alloc, v, core, b, a, count)?;
    less.known();
    more.known();
    let either = join(alloc, &less, &more, count)?;
    Ok(either)
}

// The value where a comparison comes out as wanted.
fn compared(
    alloc: Global,
    v: &DecOct,
    core: &Core,
    relation: Cmp,
    a: u32,
    b: u32,
    count: &mut RowCount,
) -> Result<DecOct, NoMemory>
    requires small { v.now.dims ≤ 256 }
    requires first { a < length core.now.exprs }
    requires second { b < length core.now.exprs }
    requires over_first { IsOver v.now.dims (expr_at (exprs_in core.now) a) }
    requires over_second { IsOver v.now.dims (expr_at (exprs_in core.now) b) }
    ensures value { IfOk result (λ r. octagon r ≡ compare_value relation true (expr_at (exprs_in core.now) a) (expr_at (exprs_in core.now) b) (octagon v.now)) }
    ensures marks { IfOk result (λ r. IsCompared relation true (expr_at (exprs_in core.now) a) (expr_at (exprs_in core.now) b) v.now r) }
    ensures rises { count.old ≤ count.new }
{
    match relation {
        Cmp::Eq => {
            let r = equal(alloc, v, core, a, b, count)?;
            Ok(r)
        }
        Cmp::Ne => {
            let r = different(alloc, v, core, a, b, count)?;
            Ok(r)
        }
        Cmp::Lt => {
            let r = below(alloc, v, core, a, b, count)?;
            Ok(r)
        }
        Cmp::Le => {
            let r = at_most(alloc, v, core, a, b, count)?;
            Ok(r)
        }
        Cmp::Gt => {
            let r = below(alloc, v, core, b, a, count)?;
            Ok(r)
        }
        Cmp::Ge => {
            let r = at_most(alloc, v, core, b, a, count)?;
            Ok(r)
        }
    }
}

// The value where a constant is as wanted: the value itself, shared, or Bottom.
fn constant(v: &DecOct, value: bool, wanted: bool) -> Result<DecOct, NoMemory>
    ensures value { IfOk result (λ r. octagon r ≡ constant_value value wanted (octagon v.now)) }
    ensures marks { IfOk result (λ r. IsPassed value wanted v.now r) }
{
    v.known();
    if value == wanted {
        let r = v.share()?;
        Ok(r)
    } else {
        Ok(DecOct::bottom(v.dims()))
    }
}

/// The value where a condition of a core comes out as wanted. It calls itself as deep as the condition is nested, which is at
/// most 1024 in the core of a text.
pub fn test(
    alloc: Global,
    v: &DecOct,
    core: &Core,
    cond: u32,
    wanted: bool,
    count: &mut RowCount,
) -> Result<DecOct, NoMemory>
    requires small { v.now.dims ≤ 256 }
    requires known { cond < length core.now.conds }
    requires over { IsConditionOver v.now.dims (cond_at (conds_in core.now) cond) }
    ensures value { IfOk result (λ r. octagon r ≡ test_value (cond_at (conds_in core.now) cond) wanted (octagon v.now)) }
    ensures marks { IfOk result (λ r. IsTested (cond_at (conds_in core.now) cond) wanted v.now r) }
    ensures rises { count.old ≤ count.new }
{
    law_numbers();
    match (core.cond_at(cond), wanted) {
        (CoreCond::True, _) => {
            let r = constant(v, true, wanted)?;
            Ok(r)
        }
        (CoreCond::False, _) => {
            let r = constant(v, false, wanted)?;
            Ok(r)
        }
        (CoreCond::Random, _) => {
            let r = v.share()?;
            Ok(r)
        }
        (CoreCond::Not(c), _) => {
            let r = test(alloc, v, core, c, !wanted, count)?;
            Ok(r)
        }
        (CoreCond::And(c, d), true) => {
            let first = test(alloc, v, core, c, true, count)?;
            first.known();
            let r = test(alloc, &first, core, d, true, count)?;
            Ok(r)
        }
        (CoreCond::And(c, d), false) => {
            let first = test(alloc, v, core, c, false, count)?;
            let second = test(alloc, v, core, d, false, count)?;
            first.known();
            second.known();
            let r = join(alloc, &first, &second, count)?;
            Ok(r)
        }
        (CoreCond::Or(c, d), true) => {
            let first = test(alloc, v, core, c, true, count)?;
            let second = test(alloc, v, core, d, true, count)?;
            first.known();
            second.known();
            let r = join(alloc, &first, &second, count)?;
            Ok(r)
        }
        (CoreCond::Or(c, d), false) => {
            let first = test(alloc, v, core, c, false, count)?;
            first.known();
            let r = test(alloc, &first, core, d, false, count)?;
            Ok(r)
        }
        (CoreCond::Compare(relation, a, b), _) => {
            let r = compared(alloc, v, core, relation.asked(wanted), a, b, count)?;
            Ok(r)
        }
    }
}
