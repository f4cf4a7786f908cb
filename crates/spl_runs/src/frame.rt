//! The frames of a run over integers of 128 bits, and one step of them.

ghost use Rattle.std.specs.Prelude.{◌≡◌, ◌<◌, ◌≤◌, ◌+◌, length, IfOk, slice_set};
ghost use Rattle.spl_core.specs.Parts.{span_dims};
ghost use Rattle.spl_core.specs.Graph.{pairs_in, move_of, expr_at, exprs_in, cond_at, conds_in};
ghost use Rattle.spl_runs.specs.Replay.{changed, one_value, assigned, tested};
ghost use Rattle.spl_runs.specs.Stacks.{Changes, TakesNone};
ghost use Rattle.spl_core.specs.Expression.{value_of};
ghost use Rattle.spl_core.specs.Facts.{EdgeFits};
ghost use Rattle.spl_runs.specs.Runs.{copied, values_of, with_values};

use crate::value::{Computed, dimension, may, value};
use spl_core::{Action, Core, Edge, Span};
use std::alloc::{AllocError, Global};

/// A point, and a value for each dimension of its procedure.
#[derive(Drop)]
pub(crate) struct Frame {
    pub(crate) point: u32,
    pub(crate) values: Vec<i128>,
}

/// Why there's no next stack.
#[derive(Clone, Copy, Debug, Drop, PartialEq, Eq)]
pub(crate) enum StepFault {
    /// The step isn't one of a run.
    NotARun,
    /// A value passes 128 bits.
    Wide,
    NoMemory,
}

/// Sets a dimension.
pub(crate) fn set(values: &mut [i128], v: u32, x: i128)
    ensures { values.new ≡ slice_set values.old v x }
{
    let at = v as usize;
    if at < values.len() {
        values[at] = x;
    }
}

/// Each target of the pairs (target, origin) takes the value of its origin, in order.
pub(crate) fn copy_pairs(core: &Core, pairs: Span, values: &mut [i128])
    requires { pairs.first + pairs.count ≤ length core.now.dims }
    ensures { values.new ≡ copied (pairs_in (span_dims core.now pairs)) values.old }
{
    for k in 0..pairs.count / 2 {
        let target = core.span_item(pairs, 2 * k);
        let origin = core.span_item(pairs, 2 * k + 1);
        let x = dimension(values, origin);
        set(values, target, x);
    }
}

/// The values of some dimensions.
pub(crate) fn values_at(
    alloc: Global,
    core: &Core,
    dims: Span,
    values: &[i128],
) -> Result<Vec<i128>, AllocError>
    requires { dims.first + dims.count ≤ length core.now.dims }
    ensures { IfOk result (λ v. v.items ≡ values_of values.now (span_dims core.now dims)) }
{
    let mut all = Vec::new(alloc);
    for k in 0..dims.count {
        all.push(dimension(values, core.span_item(dims, k)))?;
    }
    Ok(all)
}

/// Some dimensions take the outputs, as far as there are any.
pub(crate) fn set_outputs(core: &Core, targets: Span, outputs: &[i128], values: &mut [i128])
    requires { targets.first + targets.count ≤ length core.now.dims }
    ensures { values.new ≡ with_values values.old (span_dims core.now targets) outputs.now }
{
    for k in 0..targets.count {
        let at = k as usize;
        if at < outputs.len() {
            set(values, core.span_item(targets, k), outputs[at]);
        }
    }
}

/// An edge that takes no values.
fn without_values(given: &[i128]) -> Result<(), StepFault>
    ensures { TakesNone given.now result }
{
    if given.is_empty() {
        Ok(())
    } else {
        Err(StepFault::NotARun)
    }
}

/// A random assignment takes one value.
fn forget(target: u32, given: &[i128], values: &mut [i128]) -> Result<(), StepFault>
    ensures { Changes (one_value given.now values.old target) result values.new }
{
    if given.len() == 1 {
        set(values, target, given[0]);
        Ok(())
    } else {
        Err(StepFault::NotARun)
    }
}

fn assign(core: &Core, target: u32, expr: u32, values: &mut [i128]) -> Result<(), StepFault>
    requires { expr < length core.now.exprs }
    ensures { Changes (assigned (expr_at (exprs_in core.now) expr) target values.old) result values.new }
{
    match value(core, expr, values) {
        Computed::Is(x) => {
            set(values, target, x);
            Ok(())
        }
        Computed::Missing => Err(StepFault::NotARun),
        Computed::Wide => Err(StepFault::Wide),
    }
}

fn test(core: &Core, cond: u32, wanted: bool, values: &[i128]) -> Result<(), StepFault>
    requires { cond < length core.now.conds }
    ensures { Changes (tested (cond_at (conds_in core.now) cond) wanted values.now) result values.now }
{
    match may(core, cond, wanted, values) {
        Some(true) => Ok(()),
        Some(false) => Err(StepFault::NotARun),
        None => Err(StepFault::Wide),
    }
}

/// What an edge does to the values of its frame, where it's no call.
pub(crate) fn change(
    core: &Core,
    edge: Edge,
    given: &[i128],
    values: &mut [i128],
) -> Result<(), StepFault>
    requires { EdgeFits core.now edge }
    ensures { Changes (changed (move_of core.now edge.action) values.old given.now) result values.new }
{
    match edge.action {
        Action::Call { .. } => Err(StepFault::NotARun),
        Action::Havoc { target } => forget(target, given, values),
        Action::Skip => without_values(given),
        Action::Assign { target, expr } => {
            without_values(given)?;
            assign(core, target, expr, values)
        }
        Action::Test { cond, wanted } => {
            without_values(given)?;
            test(core, cond, wanted, values)
        }
        Action::Start { pairs } => {
            without_values(given)?;
            copy_pairs(core, pairs, values);
            Ok(())
        }
    }
}
