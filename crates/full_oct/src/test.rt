// Tests of conditions. A comparison takes the bounds of a difference of forms and closes; the rest goes by the parts of
// the condition.
ghost use Rattle.std.specs.Prelude.{◌≡◌, ◌*◌, ◌<◌, ◌≤◌, true, false, IfOk, length};
ghost use Rattle.std.specs.Option.{option_and_then};
ghost use Rattle.oct_def.specs.Tight.{tight};
ghost use Rattle.oct_def.specs.Octagon.{Octagon, join_value};
ghost use Rattle.spl_core.specs.Expression.{Expression, IsOver};
ghost use Rattle.spl_core.specs.Condition.{IsConditionOver};
ghost use Rattle.spl_core.specs.Graph.{expr_at, exprs_in, cond_at, conds_in};
ghost use Rattle.interval_form.specs.FormBounds.{bounded};
ghost use Rattle.interval_form.specs.Linear.{linear_form, difference_form};
ghost use Rattle.interval_form.specs.Sparse.{IsFormOver, form_in};
ghost use Rattle.transfer_def.specs.Test.{restrict_at_most, restrict_below, at_most_value, below_value, equal_value, different_value, compare_value, constant_value, test_value};

use crate::matrix::FullMatrix;
use crate::value::{FullValue, shared};
use interval_form::{Form, RangeTable, linearise_difference};
use oct_def::NoMemory;
use spl_core::{Cmp, Core, CoreCond, law_numbers};
use std::alloc::Global;

impl FullMatrix {
    /// The matrix where a form is at most 0; it is closed. `None` is Bottom.
    fn restricted(
        &self,
        alloc: Global,
        form: &Form,
        ranges: &RangeTable,
    ) -> Result<Option<FullMatrix>, NoMemory>
        requires rows { length self.now ≡ 2 * length ranges.now }
        requires over { IsFormOver (length ranges.now) form.now }
        ensures { IfOk result (λ m. m ≡ option_and_then tight (bounded ranges.now (form_in (length ranges.now) form.now) self.now)) }
    {
        let copy = self.copied(alloc)?;
        let bounded = copy.bounded_by(alloc, form, ranges)?;
        match bounded {
            None => Ok(None),
            Some(m) => {
                let closed = m.closed(alloc)?;
                Ok(closed)
            }
        }
    }

    /// The matrix where an expression is at most another. `None` is Bottom.
    fn at_most(
        &self,
        alloc: Global,
        dims: u32,
        core: &Core,
        a: u32,
        b: u32,
    ) -> Result<Option<FullMatrix>, NoMemory>
        requires small { dims ≤ 256 }
        requires rows { length self.now ≡ 2 * dims }
        requires first { a < length core.now.exprs }
        requires second { b < length core.now.exprs }
        requires over_first { IsOver dims (expr_at (exprs_in core.now) a) }
        requires over_second { IsOver dims (expr_at (exprs_in core.now) b) }
        ensures { IfOk result (λ m. m ≡ restrict_at_most dims (expr_at (exprs_in core.now) a) (expr_at (exprs_in core.now) b) self.now) }
    {
        let ranges = self.ranges(alloc, dims)?;
        let form = linearise_difference(alloc, core, a, b, &ranges)?;
        let after = self.restricted(alloc, &form, &ranges)?;
        Ok(after)
    }

    /// The matrix where an expression is below another: their difference and 1 is at most 0. `None` is Bottom.
    fn below(
        &self,
        alloc: Global,
        dims: u32,
        core: &Core,
        a: u32,
        b: u32,
    ) -> Result<Option<FullMatrix>, NoMemory>
        requires small { dims ≤ 256 }
        requires rows { length self.now ≡ 2 * dims }
        requires first { a < length core.now.exprs }
        requires second { b < length core.now.exprs }
        requires over_first { IsOver dims (expr_at (exprs_in core.now) a) }
        requires over_second { IsOver dims (expr_at (exprs_in core.now) b) }
        ensures { IfOk result (λ m. m ≡ restrict_below dims (expr_at (exprs_in core.now) a) (expr_at (exprs_in core.now) b) self.now) }
    {
        let ranges = self.ranges(alloc, dims)?;
        let form = linearise_difference(alloc, core, a, b, &ranges)?;
        let minus_one = Form::of_constant(alloc, -1)?;
        let and_one = form.minus(alloc, &minus_one, &ranges)?;
        let after = self.restricted(alloc, &and_one, &ranges)?;
        Ok(after)
    }
}

impl FullValue {
    /// The value where an expression is at most another.
    fn at_most(&self, alloc: Global, core: &Core, a: u32, b: u32) -> Result<FullValue, NoMemory>
        requires first { a < length core.now.exprs }
        requires second { b < length core.now.exprs }
        requires over_first { IsOver self.now.dims (expr_at (exprs_in core.now) a) }
        requires over_second { IsOver self.now.dims (expr_at (exprs_in core.now) b) }
        ensures { IfOk result (λ v. v ≡ at_most_value (expr_at (exprs_in core.now) a) (expr_at (exprs_in core.now) b) self.now) }
    {
        match &self.matrix {
            None => Ok(FullValue::bottom(self.dims)),
            Some(m) => {
                let after = m.at_most(alloc, self.dims, core, a, b)?;
                let v = shared(alloc, self.dims, after)?;
                Ok(v)
            }
        }
    }

    /// The value where an expression is below another.
    fn below(&self, alloc: Global, core: &Core, a: u32, b: u32) -> Result<FullValue, NoMemory>
        requires first { a < length core.now.exprs }
        requires second { b < length core.now.exprs }
        requires over_first { IsOver self.now.dims (expr_at (exprs_in core.now) a) }
        requires over_second { IsOver self.now.dims (expr_at (exprs_in core.now) b) }
        ensures { IfOk result (λ v. v ≡ below_value (expr_at (exprs_in core.now) a) (expr_at (exprs_in core.now) b) self.now) }
    {
        match &self.matrix {
            None => Ok(FullValue::bottom(self.dims)),
            Some(m) => {
                let after = m.below(alloc, self.dims, core, a, b)?;
                let v = shared(alloc, self.dims, after)?;
                Ok(v)
            }
        }
    }

    /// The value where two expressions are equal.
    fn equal(&self, alloc: Global, core: &Core, a: u32, b: u32) -> Result<FullValue, NoMemory>
        requires first { a < length core.now.exprs }
        requires second { b < length core.now.exprs }
        requires over_first { IsOver self.now.dims (expr_at (exprs_in core.now) a) }
        requires over_second { IsOver self.now.dims (expr_at (exprs_in core.now) b) }
        ensures { IfOk result (λ v. v ≡ equal_value (expr_at (exprs_in core.now) a) (expr_at (exprs_in core.now) b) self.now) }
    {
        let first = self.at_most(alloc, core, a, b)?;
        let both = first.at_most(alloc, core, b, a)?;
        Ok(both)
    }

    /// The value where two expressions are different.
    fn different(&self, alloc: Global, core: &Core, a: u32, b: u32) -> Result<FullValue, NoMemory>
        requires first { a < length core.now.exprs }
        requires second { b < length core.now.exprs }
        requires over_first { IsOver self.now.dims (expr_at (exprs_in core.now) a) }
        requires over_second { IsOver self.now.dims (expr_at (exprs_in core.now) b) }
        ensures { IfOk result (λ v. v ≡ different_value (expr_at (exprs_in core.now) a) (expr_at (exprs_in core.now) b) self.now) }
    {
        let below = self.below(alloc, core, a, b)?;
        let above = self.below(alloc, core, b, a)?;
        let either = below.joined(alloc, &above)?;
        Ok(either)
    }

    /// The value where a comparison comes out as wanted.
    fn compared(
        &self,
        alloc: Global,
        core: &Core,
        relation: Cmp,
        wanted: bool,
        a: u32,
        b: u32,
    ) -> Result<FullValue, NoMemory>
        requires first { a < length core.now.exprs }
        requires second { b < length core.now.exprs }
        requires over_first { IsOver self.now.dims (expr_at (exprs_in core.now) a) }
        requires over_second { IsOver self.now.dims (expr_at (exprs_in core.now) b) }
        ensures { IfOk result (λ v. v ≡ compare_value relation wanted (expr_at (exprs_in core.now) a) (expr_at (exprs_in core.now) b) self.now) }
    {
        match relation.asked(wanted) {
            Cmp::Eq => {
                let v = self.equal(alloc, core, a, b)?;
                Ok(v)
            }
            Cmp::Ne => {
                let v = self.different(alloc, core, a, b)?;
                Ok(v)
            }
            Cmp::Lt => {
                let v = self.below(alloc, core, a, b)?;
                Ok(v)
            }
            Cmp::Le => {
                let v = self.at_most(alloc, core, a, b)?;
                Ok(v)
            }
            Cmp::Gt => {
                let v = self.below(alloc, core, b, a)?;
                Ok(v)
            }
            Cmp::Ge => {
                let v = self.at_most(alloc, core, b, a)?;
                Ok(v)
            }
        }
    }

    /// The value where a constant is as wanted: the value itself, shared, or Bottom.
    fn constant(&self, value: bool, wanted: bool) -> Result<FullValue, NoMemory>
        ensures { IfOk result (λ v. v ≡ constant_value value wanted self.now) }
    {
        if value == wanted {
            let v = self.share()?;
            Ok(v)
        } else {
            Ok(FullValue::bottom(self.dims))
        }
    }

    /// The join with a value that isn't needed any more.
    fn joined_with(self, alloc: Global, other: FullValue) -> Result<FullValue, NoMemory>
        requires dims { self.dims ≡ other.dims }
        ensures { IfOk result (λ v. v ≡ join_value self other) }
    {
        let v = self.joined(alloc, &other)?;
        Ok(v)
    }

    /// The value where a condition of a core comes out as wanted. It calls itself as deep as the condition is nested, which
    /// is at most 1024 in the core of a text.
    pub fn tested(
        &self,
        alloc: Global,
        core: &Core,
        cond: u32,
        wanted: bool,
    ) -> Result<FullValue, NoMemory>
        requires known { cond < length core.now.conds }
        requires over { IsConditionOver self.now.dims (cond_at (conds_in core.now) cond) }
        ensures { IfOk result (λ v. v ≡ test_value (cond_at (conds_in core.now) cond) wanted self.now) }
    {
        law_numbers();
        match (core.cond_at(cond), wanted) {
            (CoreCond::True, _) => {
                let v = self.constant(true, wanted)?;
                Ok(v)
            }
            (CoreCond::False, _) => {
                let v = self.constant(false, wanted)?;
                Ok(v)
            }
            (CoreCond::Random, _) => {
                let v = self.share()?;
                Ok(v)
            }
            (CoreCond::Not(c), _) => {
                let v = self.tested(alloc, core, c, !wanted)?;
                Ok(v)
            }
            (CoreCond::And(c, d), true) => {
                let first = self.tested(alloc, core, c, true)?;
                let v = first.tested(alloc, core, d, true)?;
                Ok(v)
            }
            (CoreCond::And(c, d), false) => {
                let first = self.tested(alloc, core, c, false)?;
                let second = self.tested(alloc, core, d, false)?;
                let v = first.joined_with(alloc, second)?;
                Ok(v)
            }
            (CoreCond::Or(c, d), true) => {
                let first = self.tested(alloc, core, c, true)?;
                let second = self.tested(alloc, core, d, true)?;
                let v = first.joined_with(alloc, second)?;
                Ok(v)
            }
            (CoreCond::Or(c, d), false) => {
                let first = self.tested(alloc, core, c, false)?;
                let v = first.tested(alloc, core, d, false)?;
                Ok(v)
            }
            (CoreCond::Compare(relation, a, b), _) => {
                let v = self.compared(alloc, core, relation, wanted, a, b)?;
                Ok(v)
            }
        }
    }
}
