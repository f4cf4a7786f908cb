//! What an edge of a core does to an environment.
ghost use Rattle.std.specs.Prelude.{◌≡◌, ◌<◌, IfOk, length};
ghost use Rattle.spl_core.specs.Expression.{IsOver};
ghost use Rattle.spl_core.specs.Graph.{expr_at, exprs_in, move_of};
ghost use Rattle.spl_core.specs.GraphFacts.{ActionIsIn};
ghost use Rattle.conc_analysis.specs.EnvironmentMove.{range_of_value, move_in};
ghost use Rattle.conc_analysis.specs.Fits.{IsMoveIn};

use crate::environment::copied;
use crate::tables::{UNBOUNDED, with_range};
use crate::tests::tested;
use interval_form::{Interval, RangeTable, linearise};
use memory::NoMemory;
use spl_core::{Action, Core};
use std::alloc::Global;

/// The interval of an expression's values in ranges.
pub(crate) fn value_of(
    alloc: Global,
    core: &Core,
    expr: u32,
    ranges: &RangeTable,
) -> Result<Interval, NoMemory>
    requires known { expr < length core.now.exprs }
    requires over { IsOver (length ranges.now) (expr_at (exprs_in core.now) expr) }
    ensures { IfOk result (λ i. i ≡ range_of_value ranges.now (expr_at (exprs_in core.now) expr)) }
{
    let form = linearise(alloc, core, expr, ranges)?;
    Ok(form.value(ranges))
}

/// The environment after an edge's action. A program of threads has no call; a call gives Bottom.
pub(crate) fn moved(
    alloc: Global,
    core: &Core,
    action: Action,
    v: &Option<RangeTable>,
) -> Result<Option<RangeTable>, NoMemory>
    requires within { ActionIsIn core.now action }
    requires over { IsMoveIn v.now (move_of core.now action) }
    ensures { IfOk result (λ r. r ≡ move_in (move_of core.now action) v.now) }
{
    match (action, v) {
        (Action::Skip, _) => {
            let r = copied(alloc, v)?;
            Ok(r)
        }
        (Action::Assign { target, expr }, Some(ranges)) => {
            let value = value_of(alloc, core, expr, ranges)?;
            let after = with_range(alloc, ranges, target, value)?;
            Ok(Some(after))
        }
        (Action::Havoc { target }, Some(ranges)) => {
            let after = with_range(alloc, ranges, target, UNBOUNDED)?;
            Ok(Some(after))
        }
        (Action::Assign { .. }, None) => Ok(None),
        (Action::Havoc { .. }, None) => Ok(None),
        (Action::Test { cond, wanted }, _) => {
            let r = tested(alloc, core, cond, wanted, v)?;
            Ok(r)
        }
        (Action::Call { .. }, _) => Ok(None),
        (Action::Start { .. }, _) => {
            let r = copied(alloc, v)?;
            Ok(r)
        }
    }
}
