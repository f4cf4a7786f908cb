//! The equation of a point: the join over its sources.
ghost use Rattle.std.specs.Prelude.{◌≡◌, ◌<◌, ◌≤◌, length, map, IfOk};
ghost use Rattle.spl_core.specs.Parts.{proc_at, owner_of};
ghost use Rattle.spl_core.specs.Facts.{IsCore};
ghost use Rattle.spl_core.specs.Graph.{graph_of};
ghost use Rattle.equations.specs.Sources.{SourceFits};
ghost use Rattle.equations.specs.Table.{table_of};
ghost use Rattle.equations.specs.Equations.{AreSized, brought, equation, value_in};

use crate::calls::{entered, returned};
use crate::moves::moved;
use crate::source::Source;
use crate::table::Sources;
use crate::values::read;
use domain::Domain;
use memory::NoMemory;
use spl_core::{Core, Proc};
use std::alloc::Global;

/// The procedure of a point.
fn proc_owning(core: &Core, p: u32) -> Proc
    requires { p < length core.now.owners }
    ensures found { result ≡ proc_at core.now (owner_of core.now p) }
    ensures known { IsCore core.now }
{
    core.proc_at(core.owner(p))
}

/// What a source brings to point p.
fn brought<D: Domain>(
    alloc: Global,
    dom: &mut D,
    core: &Core,
    values: &[D::V],
    p: u32,
    source: Source,
) -> Result<D::V, NoMemory>
    requires point { p < length core.now.owners }
    requires source { SourceFits core.now p source }
    requires points { length values.now ≡ length core.now.owners }
    requires sized { AreSized (graph_of core.now) (value_in (map D.meaning values.now)) }
    ensures value { IfOk result (λ v. D.meaning v ≡ brought (graph_of core.now) (value_in (map D.meaning values.now)) p source) }
    ensures work { D.work dom.old ≤ D.work dom.new }
{
    match source {
        Source::Always => {
            let v = dom.top(alloc, proc_owning(core, p).dims)?;
            Ok(v)
        }
        Source::Flow { edge } => {
            let edge = core.edge_at(edge);
            let old = read::<D>(values, edge.source);
            let dims = proc_owning(core, edge.source).dims;
            let v = moved(alloc, dom, core, edge.action, old, dims)?;
            Ok(v)
        }
        Source::Enter { edge } => {
            let edge = core.edge_at(edge);
            let old = read::<D>(values, edge.source);
            let caller = proc_owning(core, edge.source);
            let v = entered(alloc, dom, core, caller, edge.action, old)?;
            Ok(v)
        }
        Source::Back { edge } => {
            let edge = core.edge_at(edge);
            let old = read::<D>(values, edge.source);
            let caller = proc_owning(core, edge.source);
            let v = returned(alloc, dom, core, values, caller, edge.action, old)?;
            Ok(v)
        }
    }
}

/// F at a point of a core, by the values as they are read, one for each point, closed or not: the join of what its sources
/// bring, from Bottom on. Who reads cut points closed hands in closed values there. Each source costs a call of the domain and
/// a join.
pub fn equation<D: Domain>(
    alloc: Global,
    dom: &mut D,
    core: &Core,
    table: &Sources,
    values: &[D::V],
    p: u32,
) -> Result<D::V, NoMemory>
    requires point { p < length core.now.owners }
    requires table { table.now ≡ table_of (graph_of core.now) }
    requires points { length values.now ≡ length core.now.owners }
    requires sized { AreSized (graph_of core.now) (value_in (map D.meaning values.now)) }
    ensures value { IfOk result (λ v. D.meaning v ≡ equation (graph_of core.now) (value_in (map D.meaning values.now)) p) }
    ensures work { D.work dom.old ≤ D.work dom.new }
{
    let mut value = dom.bottom(proc_owning(core, p).dims);
    for source in table.of(p) {
        let new = brought(alloc, dom, core, values, p, *source)?;
        value = dom.join(alloc, &value, &new)?;
    }
    Ok(value)
}
