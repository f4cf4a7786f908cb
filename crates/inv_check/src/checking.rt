//! The check of invariants.
ghost use Rattle.std.specs.Prelude.{◌≡◌, ◌<◌, length, map, IfOk};
ghost use Rattle.spl_core.specs.Graph.{graph_of};
ghost use Rattle.equations.specs.Equations.{value_in};
ghost use Rattle.equations.specs.Table.{table_of};
ghost use Rattle.call_graph.specs.Order.{is_cut};
ghost use Rattle.call_graph.specs.Tables.{tables_of};
ghost use Rattle.inv_text.specs.Invariants.{AreInvariants};
ghost use Rattle.inv_check.specs.Given.{dims_of, value_given};
ghost use Rattle.inv_check.specs.Verdict.{AreOver, IsVerdict, AreReadUpTo};

use crate::below::is_below;
use crate::given::{dims_here, values};
use crate::verdict::Verdict;
use call_graph::{Graph, graph};
use domain::Domain;
use equations::{Sources, equation, sources};
use full_oct::FullDomain;
use inv_text::Invariants;
use memory::NoMemory;
use spl_core::Core;
use std::alloc::Global;

/// Whether a point is a cut point.
fn is_cut_point(core: &Core, graph: &Graph, p: u32) -> bool
    requires tables { graph.now ≡ tables_of (graph_of core.now) }
    requires point { p < length core.now.owners }
    ensures { result ≡ is_cut (graph_of core.now) p }
{
    graph.is_cut(p)
}

/// The values as they are read: at a cut point the tight closure, elsewhere the value itself.
fn read_values<D: Domain>(
    alloc: Global,
    dom: &mut D,
    core: &Core,
    graph: &Graph,
    values: &[D::V],
) -> Result<Vec<D::V>, NoMemory>
    requires tables { graph.now ≡ tables_of (graph_of core.now) }
    requires over { AreOver (graph_of core.now) (map D.meaning values.now) }
    ensures read { IfOk result (λ r. AreReadUpTo (graph_of core.now) (map D.meaning values.now) (length values.now) (map D.meaning r.items)) }
{
    let mut closed = Vec::new(alloc);
    for p in 0..core.points() {
        let value = &values[p as usize];
        let read = if is_cut_point(core, graph, p) {
            dom.close(alloc, value)?
        } else {
            dom.share(value)?
        };
        closed.push(read)?;
    }
    Ok(closed)
}

/// Whether a value for each point is inductive, or the least point that breaks it.
fn first_break<D: Domain>(
    alloc: Global,
    dom: &mut D,
    core: &Core,
    table: &Sources,
    closed: &[D::V],
    values: &[D::V],
) -> Result<Verdict, NoMemory>
    requires table { table.now ≡ table_of (graph_of core.now) }
    requires over { AreOver (graph_of core.now) (map D.meaning values.now) }
    requires read { AreReadUpTo (graph_of core.now) (map D.meaning values.now) (length values.now) (map D.meaning closed.now) }
    ensures verdict { IfOk result (λ v. IsVerdict (graph_of core.now) (value_in (map D.meaning values.now)) v) }
{
    for p in 0..core.points() {
        let brought = equation(alloc, dom, core, table, closed, p)?;
        if !is_below(dom, &brought, &values[p as usize], dims_here(core, p)) {
            return Ok(Verdict::Fails(p));
        }
    }
    Ok(Verdict::Holds)
}

/// Whether invariants of a core are inductive: `Holds`, or the least point that breaks it. They may come from anywhere; they
/// needn't be closed, and what they say may be of no state. Each point costs its sources, a closing where it is a cut point,
/// and one comparison.
pub fn inductive(alloc: Global, core: &Core, x: &Invariants) -> Result<Verdict, NoMemory>
    requires given { AreInvariants (dims_of (graph_of core.now)) x.now }
    ensures verdict { IfOk result (λ v. IsVerdict (graph_of core.now) (value_given (graph_of core.now) x.now) v) }
{
    let mut dom = FullDomain::new();
    let values = values(alloc, &mut dom, core, x)?;
    let tables = graph(alloc, core)?;
    let table = sources(alloc, core)?;
    let closed = read_values(alloc, &mut dom, core, &tables, &values)?;
    let verdict = first_break(alloc, &mut dom, core, &table, &closed, &values)?;
    Ok(verdict)
}
