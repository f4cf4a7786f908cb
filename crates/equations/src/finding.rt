//! The sources of every point of a core and the points that read it, found once.
ghost use Rattle.std.specs.Prelude.{◌≡◌, ◌<◌, length, map, IfOk};
ghost use Rattle.std.specs.List.{range_with_len};
ghost use Rattle.spl_core.specs.Graph.{graph_of, move_of};
ghost use Rattle.equations.specs.Sources.{source_at_start, source_by, sources};
ghost use Rattle.equations.specs.Table.{table_of};

use crate::reading::reader_lists;
use crate::rows::{empty_rows, push_onto};
use crate::source::Source;
use crate::table::Sources;
use memory::NoMemory;
use spl_core::{Action, Core, Edge};
use std::alloc::Global;

/// The sources of all points of a core, and the readers. It reads each edge once, and then each source once.
pub fn sources(alloc: Global, core: &Core) -> Result<Sources, NoMemory>
    ensures { IfOk result (λ s. s ≡ table_of (graph_of core.now)) }
{
    let lists = source_lists(alloc, core)?;
    let readers = reader_lists(alloc, core, &lists)?;
    Ok(Sources { lists, readers })
}

// The sources of each point. No edge enters an entry, so the sources of a point are in the order of edges.
fn source_lists(alloc: Global, core: &Core) -> Result<Vec<Vec<Source>>, NoMemory>
    ensures { IfOk result (λ r. map (λ v. v.items) r.items ≡ map (sources (graph_of core.now)) (range_with_len 0 (length core.now.owners))) }
{
    let mut lists = first_sources(alloc, core)?;
    for e in 0..core.edge_count() {
        let edge = core.edge_at(e);
        push_onto(&mut lists, edge.target, source_of(core, edge, e))?;
        if let Action::Call { callee, .. } = edge.action {
            push_onto(
                &mut lists,
                core.proc_at(callee).entry,
                Source::Enter { edge: e },
            )?;
        }
    }
    Ok(lists)
}

// The sources of each point before any edge: main's entry has the one that is always there.
fn first_sources(alloc: Global, core: &Core) -> Result<Vec<Vec<Source>>, NoMemory>
    ensures { IfOk result (λ r. map (λ v. v.items) r.items ≡ map (source_at_start (graph_of core.now)) (range_with_len 0 (length core.now.owners))) }
{
    let mut lists = empty_rows(alloc, core.points())?;
    push_onto(
        &mut lists,
        core.proc_at(core.procs() - 1).entry,
        Source::Always,
    )?;
    Ok(lists)
}

// The source of an edge's target behind the edge, by its number.
fn source_of(core: &Core, edge: Edge, e: u32) -> Source
    ensures { result ≡ source_by e (move_of core.now edge.action) }
{
    match edge.action {
        Action::Call { .. } => Source::Back { edge: e },
        _ => Source::Flow { edge: e },
    }
}
