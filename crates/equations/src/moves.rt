//! What an edge of a core does to a value of a domain.
ghost use Rattle.std.specs.Prelude.{◌≡◌, ◌+◌, ◌<◌, ◌≤◌, length, IfOk};
ghost use Rattle.std.specs.List.{All};
ghost use Rattle.spl_core.specs.Parts.{span_dims};
ghost use Rattle.spl_core.specs.Graph.{graph_of, move_of, pairs_in};
ghost use Rattle.spl_core.specs.GraphFacts.{ActionIsIn};
ghost use Rattle.transfer_def.specs.Move.{copy_value, move_value, IsCopyOver, IsMoveOver};

use domain::Domain;
use memory::NoMemory;
use spl_core::{Action, Core, Span};
use std::alloc::Global;

/// The value after an edge's action. A call has none within its procedure: Bottom.
pub(crate) fn moved<D: Domain>(
    alloc: Global,
    dom: &mut D,
    core: &Core,
    action: Action,
    v: &D::V,
    dims: u32,
) -> Result<D::V, NoMemory>
    requires within { ActionIsIn core.now action }
    requires over { IsMoveOver (D.meaning v.now).dims (move_of core.now action) }
    requires dims { dims ≡ (D.meaning v.now).dims }
    ensures value { IfOk result (λ r. D.meaning r ≡ move_value (move_of core.now action) (D.meaning v.now)) }
    ensures work { D.work dom.old ≤ D.work dom.new }
{
    match action {
        Action::Skip => {
            let r = dom.share(v)?;
            Ok(r)
        }
        Action::Assign { target, expr } => {
            let r = dom.assign(alloc, v, core, target, expr)?;
            Ok(r)
        }
        Action::Havoc { target } => {
            let r = dom.havoc(alloc, v, target)?;
            Ok(r)
        }
        Action::Test { cond, wanted } => {
            let r = dom.test(alloc, v, core, cond, wanted)?;
            Ok(r)
        }
        Action::Call { .. } => {
            dom.known(v);
            Ok(dom.bottom(dims))
        }
        Action::Start { pairs } => {
            let r = copied(alloc, dom, core, pairs, v)?;
            Ok(r)
        }
    }
}

/// The value after each target of the pairs (target, origin) took the value of its origin, in order.
fn copied<D: Domain>(
    alloc: Global,
    dom: &mut D,
    core: &Core,
    pairs: Span,
    v: &D::V,
) -> Result<D::V, NoMemory>
    requires within { pairs.first + pairs.count ≤ length core.now.dims }
    requires over { All (IsCopyOver (D.meaning v.now).dims) (pairs_in (span_dims core.now pairs)) }
    ensures value { IfOk result (λ r. D.meaning r ≡ copy_value (pairs_in (span_dims core.now pairs)) (D.meaning v.now)) }
    ensures work { D.work dom.old ≤ D.work dom.new }
{
    let mut value = dom.share(v)?;
    for k in 0..pairs.count / 2 {
        let target = core.span_item(pairs, 2 * k);
        let origin = core.span_item(pairs, 2 * k + 1);
        value = dom.copy(alloc, &value, target, origin)?;
    }
    Ok(value)
}
