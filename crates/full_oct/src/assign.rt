// Assignments and random assignments. An assigned expression is a linear form in the ranges of the value; a new variable
// equals it, and then takes the place of the target.
ghost use Rattle.std.specs.Prelude.{◌≡◌, ◌+◌, ◌*◌, ◌<◌, ◌≤◌, ◌∷◌, [], IfOk, length};
ghost use Rattle.oct_def.specs.Bound.{bound_of};
ghost use Rattle.spl_core.specs.Expression.{Variable, IsOver};
ghost use Rattle.spl_core.specs.Graph.{expr_at, exprs_in};
ghost use Rattle.interval_form.specs.Sparse.{IsFormOver, form_in};
ghost use Rattle.transfer_def.specs.Assign.{assigned, assign_value};
ghost use Rattle.transfer_def.specs.Forget.{forgotten_entry, forgotten, forget_value};
ghost use Rattle.full_oct.specs.Formed.{equated_to, assigned_to};

use crate::matrix::{FullMatrix, top_word};
use crate::value::{FullValue, shared};
use interval_form::{Form, linearise};
use oct_def::NoMemory;
use spl_core::Core;
use std::alloc::Global;

impl FullMatrix {
    /// The matrix with a new variable, the last one, that equals a form; it isn't closed. `None` is Bottom.
    fn equated(&self, alloc: Global, dims: u32, form: &Form) -> Result<Option<FullMatrix>, NoMemory>
        requires small { dims ≤ 256 }
        requires rows { length self.now ≡ 2 * dims }
        requires over { IsFormOver dims form.now }
        ensures { IfOk result (λ m. m ≡ equated_to dims (form_in dims form.now) self.now) }
    {
        let ranges = self.ranges_with_new(alloc, dims)?;
        let new = Form::of_variable(alloc, dims)?;
        let below = form.minus(alloc, &new, &ranges)?;
        let above = new.minus(alloc, form, &ranges)?;
        let wider = self.extended(alloc, dims as usize, 1)?;
        let equated = wider.bounded_twice(alloc, &below, &above, &ranges)?;
        Ok(equated)
    }

    /// The matrix after the target became a form; it is closed. `None` is Bottom.
    fn assigned_form(
        &self,
        alloc: Global,
        dims: u32,
        target: u32,
        form: &Form,
    ) -> Result<Option<FullMatrix>, NoMemory>
        requires small { dims ≤ 256 }
        requires rows { length self.now ≡ 2 * dims }
        requires over { IsFormOver dims form.now }
        ensures { IfOk result (λ m. m ≡ assigned_to dims target (form_in dims form.now) self.now) }
    {
        let equated = self.equated(alloc, dims, form)?;
        match equated {
            None => Ok(None),
            Some(m) => {
                let after = m.closed_and_moved(alloc, dims as usize, &[target])?;
                Ok(after)
            }
        }
    }

    /// The matrix after the target became an expression. `None` is Bottom.
    fn assigned_expression(
        &self,
        alloc: Global,
        dims: u32,
        core: &Core,
        target: u32,
        expr: u32,
    ) -> Result<Option<FullMatrix>, NoMemory>
        requires small { dims ≤ 256 }
        requires rows { length self.now ≡ 2 * dims }
        requires known { expr < length core.now.exprs }
        requires over { IsOver dims (expr_at (exprs_in core.now) expr) }
        ensures { IfOk result (λ m. m ≡ assigned dims target (expr_at (exprs_in core.now) expr) self.now) }
    {
        let ranges = self.ranges(alloc, dims)?;
        let form = linearise(alloc, core, expr, &ranges)?;
        let after = self.assigned_form(alloc, dims, target, &form)?;
        Ok(after)
    }

    /// The matrix after the target became a copy of a variable. `None` is Bottom.
    fn assigned_variable(
        &self,
        alloc: Global,
        dims: u32,
        target: u32,
        origin: u32,
    ) -> Result<Option<FullMatrix>, NoMemory>
        requires small { dims ≤ 256 }
        requires rows { length self.now ≡ 2 * dims }
        requires origin { origin < dims }
        ensures { IfOk result (λ m. m ≡ assigned dims target (Variable origin) self.now) }
    {
        let form = Form::of_variable(alloc, origin)?;
        let after = self.assigned_form(alloc, dims, target, &form)?;
        Ok(after)
    }

    /// The word at (i, j) after a random assignment to a variable.
    #[tactic(auto, unfolding(transfer_def::specs::Forget::forgotten_entry))]
    fn forgotten_word(&self, target: usize, i: usize, j: usize) -> i64
        requires row { i < length self.now }
        requires column { j < length self.now }
        ensures { bound_of result ≡ forgotten_entry target self.now i j }
    {
        if i / 2 == target || j / 2 == target {
            top_word(i, j)
        } else {
            self.word(i, j)
        }
    }

    /// The matrix after a random assignment to the target.
    fn forgotten(&self, alloc: Global, dims: u32, target: u32) -> Result<FullMatrix, NoMemory>
        requires rows { length self.now ≡ 2 * dims }
        ensures { IfOk result (λ m. m ≡ forgotten dims target self.now) }
    {
        let size = self.size();
        let target = target as usize;
        let m = FullMatrix::tabulated(alloc, size, |i, j| self.forgotten_word(target, i, j))?;
        Ok(m)
    }
}

impl FullValue {
    /// The value after the target became an expression of a core. It closes one variable more.
    pub fn assigned(
        &self,
        alloc: Global,
        core: &Core,
        target: u32,
        expr: u32,
    ) -> Result<FullValue, NoMemory>
        requires known { expr < length core.now.exprs }
        requires over { IsOver self.now.dims (expr_at (exprs_in core.now) expr) }
        ensures { IfOk result (λ v. v ≡ assign_value target (expr_at (exprs_in core.now) expr) self.now) }
    {
        match &self.matrix {
            None => Ok(FullValue::bottom(self.dims)),
            Some(m) => {
                let after = m.assigned_expression(alloc, self.dims, core, target, expr)?;
                let v = shared(alloc, self.dims, after)?;
                Ok(v)
            }
        }
    }

    /// The value after the target became a copy of the origin. It closes one variable more.
    pub fn assigned_copy(
        &self,
        alloc: Global,
        target: u32,
        origin: u32,
    ) -> Result<FullValue, NoMemory>
        requires origin { origin < self.now.dims }
        ensures { IfOk result (λ v. v ≡ assign_value target (Variable origin) self.now) }
    {
        match &self.matrix {
            None => Ok(FullValue::bottom(self.dims)),
            Some(m) => {
                let after = m.assigned_variable(alloc, self.dims, target, origin)?;
                let v = shared(alloc, self.dims, after)?;
                Ok(v)
            }
        }
    }

    /// The value after the target became any integer. It closes nothing: what was implied through the target stands in a
    /// closed value already.
    pub fn forgotten(&self, alloc: Global, target: u32) -> Result<FullValue, NoMemory>
        ensures { IfOk result (λ v. v ≡ forget_value target self.now) }
    {
        match &self.matrix {
            None => Ok(FullValue::bottom(self.dims)),
            Some(m) => {
                let after = m.forgotten(alloc, self.dims, target)?;
                let v = shared(alloc, self.dims, Some(after))?;
                Ok(v)
            }
        }
    }
}
