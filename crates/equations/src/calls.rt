//! What a call does to values of a domain: at the entry of the callee, and behind the call.
ghost use Rattle.std.specs.Prelude.{◌≡◌, ◌+◌, ◌<◌, ◌≤◌, length, map, IfOk};
ghost use Rattle.spl_core.specs.Parts.{span_dims};
ghost use Rattle.spl_core.specs.Facts.{ActionFits};
ghost use Rattle.spl_core.specs.Graph.{graph_of, move_of};
ghost use Rattle.equations.specs.Equations.{AreSized, entered_by, returned_by, value_in};

use crate::values::read;
use domain::Domain;
use memory::NoMemory;
use spl_core::{Action, Core, Proc, Span};
use std::alloc::Global;

/// The dimensions of a span.
fn span_items(alloc: Global, core: &Core, span: Span) -> Result<Vec<u32>, NoMemory>
    requires { span.first + span.count ≤ length core.now.dims }
    ensures { IfOk result (λ r. r.items ≡ span_dims core.now span) }
{
    let mut items = Vec::new(alloc);
    for k in 0..span.count {
        items.push(core.span_item(span, k))?;
    }
    Ok(items)
}

/// The value at a callee's entry, from that of procedure p at the call.
pub(crate) fn entered<D: Domain>(
    alloc: Global,
    dom: &mut D,
    core: &Core,
    p: Proc,
    action: Action,
    v: &D::V,
) -> Result<D::V, NoMemory>
    requires fits { ActionFits core.now p action }
    requires dims { (D.meaning v.now).dims ≡ p.dims }
    ensures value { IfOk result (λ r. D.meaning r ≡ entered_by (graph_of core.now) (move_of core.now action) (D.meaning v.now)) }
    ensures work { D.work dom.old ≤ D.work dom.new }
{
    if let Action::Call { callee, args, .. } = action {
        let args = span_items(alloc, core, args)?;
        let r = dom.enter(alloc, v, &args, core.proc_at(callee).dims)?;
        Ok(r)
    } else {
        let r = dom.share(v)?;
        Ok(r)
    }
}

/// The value of procedure p behind a call, from that before it and that which is read at the callee's exit.
pub(crate) fn returned<D: Domain>(
    alloc: Global,
    dom: &mut D,
    core: &Core,
    values: &[D::V],
    p: Proc,
    action: Action,
    v: &D::V,
) -> Result<D::V, NoMemory>
    requires fits { ActionFits core.now p action }
    requires dims { (D.meaning v.now).dims ≡ p.dims }
    requires points { length values.now ≡ length core.now.owners }
    requires sized { AreSized (graph_of core.now) (value_in (map D.meaning values.now)) }
    ensures value { IfOk result (λ r. D.meaning r ≡ returned_by (graph_of core.now) (value_in (map D.meaning values.now)) (move_of core.now action) (D.meaning v.now)) }
    ensures work { D.work dom.old ≤ D.work dom.new }
{
    if let Action::Call {
        callee,
        args,
        targets,
    } = action
    {
        let routine = core.proc_at(callee);
        let exit = read::<D>(values, routine.exit);
        let args = span_items(alloc, core, args)?;
        let targets = span_items(alloc, core, targets)?;
        let r = dom.back(alloc, v, exit, &args, routine.outputs, &targets)?;
        Ok(r)
    } else {
        let r = dom.share(v)?;
        Ok(r)
    }
}
