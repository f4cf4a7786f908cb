// Assignments: a new variable equals the linear form of the expression, and then takes the place of the target.
ghost use Rattle.std.specs.Prelude.{◌≡◌, ◌+◌, ◌<◌, ◌≤◌, IfOk, IsSome, length};
ghost use Rattle.std.specs.List.{All};
ghost use Rattle.spl_core.specs.Expression.{Expression, Variable, IsOver};
ghost use Rattle.spl_core.specs.Graph.{expr_at, exprs_in};
ghost use Rattle.interval_form.specs.Listed.{IsPlaced};
ghost use Rattle.interval_form.specs.Sparse.{IsFormOver};
ghost use Rattle.transfer_def.specs.Assign.{assign_value};
ghost use Rattle.dec_oct.specs.Value.{octagon, whole};
ghost use Rattle.dec_lattice.specs.Over.{held};
ghost use Rattle.dec_transfer.specs.Cost.{AssignCosts};
ghost use Rattle.dec_transfer.specs.Formed.{IsFormOf, AreBoundsOfNew, ArePlaced};
ghost use Rattle.dec_transfer.specs.Closed.{IsClosedAndMoved};
ghost use Rattle.dec_transfer.specs.Marks.{AssignMarks, IsAssigned};

use crate::bounding::bounds_of_both;
use crate::ranges::{ranges_of_all, ranges_with_new};
use dec_oct::DecOct;
use dec_parts::{lowered, moved};
use interval_form::{Bounds, Form, OctBound, linearise};
use memory::NoMemory;
use minplus_lanes::RowCount;
use spl_core::Core;
use std::alloc::Global;

// The bounds where a form is what the new variable is: both differences are at most 0.
fn bounds_of_new(alloc: Global, v: &DecOct, form: &Form) -> Result<Bounds, NoMemory>
    requires small { v.now.dims ≤ 256 }
    requires not_bottom { IsSome v.now.blocks }
    requires over { IsFormOver v.now.dims form.now }
    ensures placed { IfOk result (λ b. ArePlaced (v.now.dims + 1) b) }
    ensures bounds { IfOk result (λ b. AreBoundsOfNew v.now.dims (whole v.now.dims (held v.now)) form.now b) }
{
    let ranges = ranges_with_new(alloc, v)?;
    let new = Form::of_variable(alloc, v.dims())?;
    let below = form.minus(alloc, &new, &ranges)?;
    let above = new.minus(alloc, form, &ranges)?;
    let bounds = bounds_of_both(alloc, &below, &above, &ranges)?;
    Ok(bounds)
}

// The value after the bounds of the new variable were taken, closed and moved.
fn with_new_bounds(
    alloc: Global,
    v: &DecOct,
    target: u32,
    bounds: &[OctBound],
    count: &mut RowCount,
) -> Result<DecOct, NoMemory>
    requires small { v.now.dims ≤ 256 }
    requires target { target < v.now.dims }
    requires not_bottom { IsSome v.now.blocks }
    requires placed { All (IsPlaced (v.now.dims + 1)) bounds.now }
    ensures rises { count.old ≤ count.new }
    ensures after { IfOk result (λ r. IsClosedAndMoved v.now.dims target (held v.now) bounds.now count.old count.new r) }
{
    let wide = v.extended(1)?;
    let parts = lowered(alloc, &wide, bounds)?;
    let closed = DecOct::tight_of(alloc, parts, count)?;
    closed.known();
    let after = moved(alloc, &closed, v.dims(), &[target])?;
    Ok(after)
}

// The value after the target became a form.
fn assign_form(
    alloc: Global,
    v: &DecOct,
    target: u32,
    form: &Form,
    count: &mut RowCount,
) -> Result<DecOct, NoMemory>
    requires small { v.now.dims ≤ 256 }
    requires target { target < v.now.dims }
    requires not_bottom { IsSome v.now.blocks }
    requires over { IsFormOver v.now.dims form.now }
    ensures rises { count.old ≤ count.new }
    ensures after { IfOk result (λ r. (e : Expression) → IsFormOf v.now.dims (whole v.now.dims (held v.now)) e form.now → IsAssigned target e v.now count.old count.new r) }
{
    v.known();
    match bounds_of_new(alloc, v, form)? {
        Bounds::Nothing => Ok(DecOct::bottom(v.dims())),
        Bounds::Few(bounds) => {
            let after = with_new_bounds(alloc, v, target, &bounds, count)?;
            Ok(after)
        }
    }
}

/// The value after the target became an expression of a core. It closes one variable more: only the blocks that the new
/// bounds touch, those without a mark, and the merged block of variables that have a bound.
pub fn assign(
    alloc: Global,
    v: &DecOct,
    core: &Core,
    target: u32,
    expr: u32,
    count: &mut RowCount,
) -> Result<DecOct, NoMemory>
    requires small { v.now.dims ≤ 256 }
    requires target { target < v.now.dims }
    requires known { expr < length core.now.exprs }
    requires over { IsOver v.now.dims (expr_at (exprs_in core.now) expr) }
    ensures value { IfOk result (λ r. octagon r ≡ assign_value target (expr_at (exprs_in core.now) expr) (octagon v.now)) }
    ensures rises { count.old ≤ count.new }
    ensures count { IfOk result (λ r. AssignCosts v.now.dims (expr_at (exprs_in core.now) expr) v.now.blocks count.old count.new) }
    ensures marks { IfOk result (λ r. AssignMarks v.now.dims target (expr_at (exprs_in core.now) expr) v.now.blocks r.blocks) }
{
    if v.partition().is_none() {
        return Ok(DecOct::bottom(v.dims()));
    }
    let ranges = ranges_of_all(alloc, v)?;
    let form = linearise(alloc, core, expr, &ranges)?;
    let after = assign_form(alloc, v, target, &form, count)?;
    Ok(after)
}

/// The value after the target became a copy of the origin. It closes as an assignment does.
pub fn copy(
    alloc: Global,
    v: &DecOct,
    target: u32,
    origin: u32,
    count: &mut RowCount,
) -> Result<DecOct, NoMemory>
    requires small { v.now.dims ≤ 256 }
    requires target { target < v.now.dims }
    requires origin { origin < v.now.dims }
    ensures value { IfOk result (λ r. octagon r ≡ assign_value target (Variable origin) (octagon v.now)) }
    ensures rises { count.old ≤ count.new }
    ensures count { IfOk result (λ r. AssignCosts v.now.dims (Variable origin) v.now.blocks count.old count.new) }
    ensures marks { IfOk result (λ r. AssignMarks v.now.dims target (Variable origin) v.now.blocks r.blocks) }
{
    if v.partition().is_none() {
        return Ok(DecOct::bottom(v.dims()));
    }
    let form = Form::of_variable(alloc, origin)?;
    let after = assign_form(alloc, v, target, &form, count)?;
    Ok(after)
}
