//! The equation of a point: the join over the edges into it; at an entry what the threads start from.
ghost use Rattle.std.specs.Prelude.{◌≡◌, ◌<◌, ◌≤◌, Some, IfOk, length};
ghost use Rattle.spl_core.specs.Graph.{arc_at};
ghost use Rattle.conc_analysis.specs.EnvironmentMove.{move_in};
ghost use Rattle.conc_analysis.specs.Equations.{read_in, entry_range_at, started_by, at_entry as at_entry_of, with_arc, equation as equation_of};
ghost use Rattle.conc_analysis.specs.Plan.{graph_in, stage_in};

use crate::environment::join;
use crate::moves::moved;
use crate::reading::read;
use crate::system::System;
use crate::tables::{UNBOUNDED, all_unbounded, range_at};
use conc_front::Threads;
use interval_form::{Interval, RangeTable};
use memory::NoMemory;
use std::alloc::Global;

/// The interval of a thread's dimension at its entry: that of main's variable at main's exit, or all integers.
fn entry_range(threads: &Threads, t: u32, exit: &RangeTable, d: u32) -> Interval
    ensures { result ≡ entry_range_at threads.now t exit.now d }
{
    match threads.shared(t, d) {
        None => UNBOUNDED,
        Some(v) => range_at(exit, v),
    }
}

/// The ranges of a thread's n dimensions at its entry, by those at main's exit.
fn started(
    alloc: Global,
    threads: &Threads,
    t: u32,
    n: u32,
    exit: &RangeTable,
) -> Result<RangeTable, NoMemory>
    requires { n ≤ 512 }
    ensures { IfOk result (λ r. Some r ≡ started_by threads.now t n (Some exit.now)) }
{
    let mut ranges = Vec::new(alloc);
    for d in 0..n {
        ranges.push(entry_range(threads, t, exit, d))?;
    }
    Ok(RangeTable::of(ranges))
}

/// The environment at an entry.
fn at_entry(
    alloc: Global,
    system: &System,
    points: &[Option<RangeTable>],
    writes: &[Vec<Option<Interval>>],
    p: u32,
) -> Result<Option<RangeTable>, NoMemory>
    requires point { p < length system.now.core.owners }
    requires long { length points.now ≡ length system.now.core.owners }
    ensures { IfOk result (λ v. v ≡ at_entry_of (graph_in system.now) system.now.sharing (stage_in points.now writes.now) p) }
{
    let core = system.core();
    let owner = core.owner(p);
    let dims = core.proc_at(owner).dims;
    let main = core.procs() - 1;
    if owner == main {
        let top = all_unbounded(alloc, dims)?;
        return Ok(Some(top));
    }
    let exit = read(alloc, system, points, writes, core.proc_at(main).exit)?;
    match &exit {
        None => Ok(None),
        Some(ranges) => {
            let first = started(alloc, system.threads(), owner, dims, ranges)?;
            Ok(Some(first))
        }
    }
}

/// What an edge brings to its target.
fn brought(
    alloc: Global,
    system: &System,
    points: &[Option<RangeTable>],
    writes: &[Vec<Option<Interval>>],
    e: u32,
) -> Result<Option<RangeTable>, NoMemory>
    requires edge { e < length system.now.core.edges }
    requires long { length points.now ≡ length system.now.core.owners }
    ensures { IfOk result (λ v. v ≡ move_in (arc_at (graph_in system.now) e).move (read_in (graph_in system.now) system.now.sharing (stage_in points.now writes.now) (arc_at (graph_in system.now) e).source)) }
{
    let core = system.core();
    let edge = core.edge_at(e);
    let from = read(alloc, system, points, writes, edge.source)?;
    let v = moved(alloc, core, edge.action, &from)?;
    Ok(v)
}

/// An environment joined with what an edge brings, where the edge leads to point p.
fn with_edge(
    alloc: Global,
    system: &System,
    points: &[Option<RangeTable>],
    writes: &[Vec<Option<Interval>>],
    p: u32,
    v: Option<RangeTable>,
    e: u32,
) -> Result<Option<RangeTable>, NoMemory>
    requires edge { e < length system.now.core.edges }
    requires long { length points.now ≡ length system.now.core.owners }
    ensures { IfOk result (λ r. r ≡ with_arc (graph_in system.now) system.now.sharing (stage_in points.now writes.now) p v (arc_at (graph_in system.now) e)) }
{
    let core = system.core();
    if core.edge_at(e).target != p {
        return Ok(v);
    }
    let new = brought(alloc, system, points, writes, e)?;
    let r = join(alloc, &v, &new)?;
    Ok(r)
}

/// The equation of point p.
pub(crate) fn equation(
    alloc: Global,
    system: &System,
    points: &[Option<RangeTable>],
    writes: &[Vec<Option<Interval>>],
    p: u32,
) -> Result<Option<RangeTable>, NoMemory>
    requires point { p < length system.now.core.owners }
    requires long { length points.now ≡ length system.now.core.owners }
    ensures { IfOk result (λ v. v ≡ equation_of (graph_in system.now) system.now.sharing (stage_in points.now writes.now) p) }
{
    let core = system.core();
    if core.proc_at(core.owner(p)).entry == p {
        let v = at_entry(alloc, system, points, writes, p)?;
        return Ok(v);
    }
    let mut v = None;
    for e in 0..core.edge_count() {
        v = with_edge(alloc, system, points, writes, p, v, e)?;
    }
    Ok(v)
}
