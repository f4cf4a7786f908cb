//! The interference: what the edges of each thread write to each variable of main.
ghost use Rattle.std.specs.Prelude.{◌≡◌, ℕ, ◌<◌, Some, None, OnOk, IfOk, length, map, slice_index_or};
ghost use Rattle.std.specs.List.{range_with_len};
ghost use Rattle.spl_core.specs.Graph.{owner_of, arc_at, move_of};
ghost use Rattle.spl_core.specs.GraphFacts.{ActionIsIn};
ghost use Rattle.conc_analysis.specs.Equations.{read_in, with_writes_of, written_by};
ghost use Rattle.conc_analysis.specs.Fits.{IsMoveIn};
ghost use Rattle.conc_analysis.specs.Interference.{join_writes as join_writes_of, writes_in, writes_of};
ghost use Rattle.conc_analysis.specs.Plan.{graph_in, stage_in, written_to};
ghost use Rattle.conc_analysis.specs.Rounds.{same_bound as same_bound_of, same_range, same_option, same_list, same_writes as same_writes_of, widen_writes as widen_writes_of, writes_at, writes_row, writes_table};
ghost use Rattle.conc_analysis.specs.Solved.{no_writes as no_writes_of};
ghost use Rattle.conc_analysis.specs.Tables.{rows_in};

use crate::moves::value_of;
use crate::ranges::{join_range, widen_range};
use crate::reading::{read, written};
use crate::system::System;
use crate::tables::UNBOUNDED;
use crate::write::Write;
use conc_front::Threads;
use interval_form::{Interval, RangeTable};
use memory::NoMemory;
use spl_core::{Action, Core};
use std::alloc::Global;

/// What is written by two sides.
fn join_writes(a: Option<Interval>, b: Option<Interval>) -> Option<Interval>
    ensures { result ≡ join_writes_of a b }
{
    match (a, b) {
        (None, _) => b,
        (Some(x), None) => Some(x),
        (Some(x), Some(y)) => Some(join_range(x, y)),
    }
}

/// What is written, in which an end that grew is unbounded; none gives the other side.
fn widen_writes(a: Option<Interval>, b: Option<Interval>) -> Option<Interval>
    ensures { result ≡ widen_writes_of a b }
{
    match (a, b) {
        (None, _) => b,
        (Some(x), None) => Some(x),
        (Some(x), Some(y)) => Some(widen_range(x, y)),
    }
}

/// What an action of thread t writes to a variable of main, if it writes one, by the ranges that are read.
fn action_write(
    alloc: Global,
    core: &Core,
    threads: &Threads,
    t: u32,
    action: Action,
    ranges: &RangeTable,
) -> Result<Option<Write>, NoMemory>
    requires within { ActionIsIn core.now action }
    requires over { IsMoveIn (Some ranges.now) (move_of core.now action) }
    ensures { IfOk result (λ w. (v : ℕ) → written_to w v ≡ writes_of threads.now t v (move_of core.now action) ranges.now) }
{
    match action {
        Action::Assign { target, expr } => match threads.shared(t, target) {
            None => Ok(None),
            Some(variable) => {
                let range = value_of(alloc, core, expr, ranges)?;
                Ok(Some(Write { variable, range }))
            }
        },
        Action::Havoc { target } => match threads.shared(t, target) {
            None => Ok(None),
            Some(variable) => {
                let range = UNBOUNDED;
                Ok(Some(Write { variable, range }))
            }
        },
        Action::Skip => Ok(None),
        Action::Test { .. } => Ok(None),
        Action::Call { .. } => Ok(None),
        Action::Start { .. } => Ok(None),
    }
}

/// What an edge writes to a variable of main, if it writes one, by what is read at its source.
fn write_of(
    alloc: Global,
    system: &System,
    points: &[Option<RangeTable>],
    writes: &[Vec<Option<Interval>>],
    e: u32,
) -> Result<Option<Write>, NoMemory>
    requires edge { e < length system.now.core.edges }
    requires long { length points.now ≡ length system.now.core.owners }
    ensures { IfOk result (λ w. (v : ℕ) → written_to w v ≡ writes_in system.now.sharing (owner_of (graph_in system.now) (arc_at (graph_in system.now) e).source) v (arc_at (graph_in system.now) e).move (read_in (graph_in system.now) system.now.sharing (stage_in points.now writes.now) (arc_at (graph_in system.now) e).source)) }
{
    let core = system.core();
    let edge = core.edge_at(e);
    let t = core.owner(edge.source);
    let from = read(alloc, system, points, writes, edge.source)?;
    match &from {
        None => Ok(None),
        Some(ranges) => {
            let w = action_write(alloc, core, system.threads(), t, edge.action, ranges)?;
            Ok(w)
        }
    }
}

/// Joins what is written to a variable into a row.
fn add(row: &mut Vec<Option<Interval>>, write: Option<Write>)
    ensures size { length row.new.items ≡ length row.old.items }
    ensures joined { (v : ℕ) → v < length row.old.items → slice_index_or row.new.items v None ≡ join_writes_of (slice_index_or row.old.items v None) (written_to write v) }
{
    let Some(write) = write else {
        return;
    };
    let v = write.variable as usize;
    if v < row.len() {
        row[v] = join_writes(row[v], Some(write.range));
    }
}

/// Joins what an edge writes into the row of thread t, where it is an edge of t.
fn add_edge(
    alloc: Global,
    system: &System,
    points: &[Option<RangeTable>],
    writes: &[Vec<Option<Interval>>],
    t: u32,
    e: u32,
    row: &mut Vec<Option<Interval>>,
) -> Result<(), NoMemory>
    requires edge { e < length system.now.core.edges }
    requires long { length points.now ≡ length system.now.core.owners }
    ensures size { OnOk result (length row.new.items ≡ length row.old.items) }
    ensures joined { OnOk result ((v : ℕ) → v < length row.old.items → slice_index_or row.new.items v None ≡ with_writes_of (graph_in system.now) system.now.sharing (stage_in points.now writes.now) t v (slice_index_or row.old.items v None) (arc_at (graph_in system.now) e)) }
{
    let core = system.core();
    if core.owner(core.edge_at(e).source) != t {
        return Ok(());
    }
    let write = write_of(alloc, system, points, writes, e)?;
    add(row, write);
    Ok(())
}

/// The join of what the edges of thread t write to each of main's n variables.
fn sources(
    alloc: Global,
    system: &System,
    points: &[Option<RangeTable>],
    writes: &[Vec<Option<Interval>>],
    t: u32,
    n: u32,
) -> Result<Vec<Option<Interval>>, NoMemory>
    requires { length points.now ≡ length system.now.core.owners }
    ensures { IfOk result (λ r. r.items ≡ map (written_by (graph_in system.now) system.now.sharing (stage_in points.now writes.now) t) (range_with_len 0 n)) }
{
    let mut row = vec![in alloc; None; n as usize]?;
    for e in 0..system.core().edge_count() {
        add_edge(alloc, system, points, writes, t, e, &mut row)?;
    }
    Ok(row)
}

/// The new interference of thread t.
fn new_row(
    alloc: Global,
    system: &System,
    points: &[Option<RangeTable>],
    writes: &[Vec<Option<Interval>>],
    t: u32,
    n: u32,
) -> Result<Vec<Option<Interval>>, NoMemory>
    requires { length points.now ≡ length system.now.core.owners }
    ensures { IfOk result (λ r. r.items ≡ writes_row (writes_at (graph_in system.now) system.now.sharing (stage_in points.now writes.now)) n t) }
{
    let sources = sources(alloc, system, points, writes, t, n)?;
    let mut row = Vec::new(alloc);
    for v in 0..sources.len() {
        row.push(widen_writes(written(writes, t as usize, v), sources[v]))?;
    }
    Ok(row)
}

/// The new interference: each takes its source, by the join from none and by widening after that.
pub(crate) fn new_writes(
    alloc: Global,
    system: &System,
    points: &[Option<RangeTable>],
    writes: &[Vec<Option<Interval>>],
) -> Result<Vec<Vec<Option<Interval>>>, NoMemory>
    requires { length points.now ≡ length system.now.core.owners }
    ensures { IfOk result (λ r. rows_in r.items ≡ writes_table (graph_in system.now) (writes_at (graph_in system.now) system.now.sharing (stage_in points.now writes.now))) }
{
    let core = system.core();
    let main = core.procs() - 1;
    let n = core.proc_at(main).dims;
    let mut rows = Vec::new(alloc);
    for t in 0..main {
        let row = new_row(alloc, system, points, writes, t, n)?;
        rows.push(row)?;
    }
    Ok(rows)
}

/// Nothing is written.
pub(crate) fn no_writes(
    alloc: Global,
    system: &System,
) -> Result<Vec<Vec<Option<Interval>>>, NoMemory>
    ensures { IfOk result (λ r. rows_in r.items ≡ writes_table (graph_in system.now) no_writes_of) }
{
    let core = system.core();
    let main = core.procs() - 1;
    let n = core.proc_at(main).dims as usize;
    let mut rows = Vec::new(alloc);
    for t in 0..main {
        let row = vec![in alloc; None; n]?;
        rows.push(row)?;
    }
    Ok(rows)
}

/// Whether two ends are the same.
fn same_bound(a: Option<i64>, b: Option<i64>) -> bool
    ensures { result ≡ same_bound_of a b }
{
    match (a, b) {
        (None, None) => true,
        (Some(x), Some(y)) => x == y,
        (_, _) => false,
    }
}

/// Whether the same is written.
fn same_write(a: Option<Interval>, b: Option<Interval>) -> bool
    ensures { result ≡ same_option same_range a b }
{
    match (a, b) {
        (None, None) => true,
        (Some(x), Some(y)) => same_bound(x.low, y.low) && same_bound(x.high, y.high),
        (_, _) => false,
    }
}

/// Whether two rows of the interference are the same.
fn same_row(a: &[Option<Interval>], b: &[Option<Interval>]) -> bool
    ensures { result ≡ same_list (same_option same_range) a.now b.now }
{
    if a.len() != b.len() {
        return false;
    }
    for v in 0..a.len() {
        let same = same_write(a[v], b[v]);
        if !same {
            return false;
        }
    }
    true
}

/// Whether two tables of the interference are the same.
pub(crate) fn same_writes(a: &[Vec<Option<Interval>>], b: &[Vec<Option<Interval>>]) -> bool
    ensures { result ≡ same_writes_of (rows_in a.now) (rows_in b.now) }
{
    if a.len() != b.len() {
        return false;
    }
    for t in 0..a.len() {
        let same = same_row(&a[t], &b[t]);
        if !same {
            return false;
        }
    }
    true
}
