//! What is read at a point: a thread reads the interference of the others on main's variables, main its own environment.
ghost use Rattle.std.specs.Prelude.{◌≡◌, ◌<◌, ◌≤◌, nat_eq, if◌then◌else◌, IfOk, length, map};
ghost use Rattle.std.specs.List.{range_with_len};
ghost use Rattle.conc_analysis.specs.Equations.{read_in};
ghost use Rattle.conc_analysis.specs.Interference.{interference_at, with_writes as with_writes_of, with_others as with_others_of, range_read as range_read_of};
ghost use Rattle.conc_analysis.specs.Plan.{graph_in, stage_in};
ghost use Rattle.conc_analysis.specs.Tables.{rows_in};

use crate::ranges::join_range;
use crate::system::System;
use crate::tables::range_at;
use conc_front::Threads;
use interval_form::{Interval, RangeTable};
use memory::NoMemory;
use std::alloc::Global;

/// What a thread writes to a variable of main.
pub(crate) fn written(writes: &[Vec<Option<Interval>>], t: usize, v: usize) -> Option<Interval>
    ensures { result ≡ interference_at (rows_in writes.now) t v }
{
    if t < writes.len() {
        let row = &writes[t];
        if v < row.len() {
            return row[v];
        }
    }
    None
}

/// An interval joined with what a thread writes.
fn with_writes(w: Option<Interval>, i: Interval) -> Interval
    ensures { result ≡ with_writes_of w i }
{
    match w {
        None => i,
        Some(w) => join_range(w, i),
    }
}

/// An interval joined with what a thread writes, unless it's the one that reads.
fn with_other(writes: &[Vec<Option<Interval>>], t: u32, v: u32, u: usize, i: Interval) -> Interval
    ensures { result ≡ (if nat_eq u t then i else with_writes_of (interference_at (rows_in writes.now) u v) i) }
{
    if u == t as usize {
        i
    } else {
        with_writes(written(writes, u, v as usize), i)
    }
}

/// An interval joined with what all threads but t write to v.
fn with_others(writes: &[Vec<Option<Interval>>], t: u32, v: u32, i: Interval) -> Interval
    ensures { result ≡ with_others_of (rows_in writes.now) t v (length writes.now) i }
{
    let mut joined = i;
    for u in 0..writes.len() {
        joined = with_other(writes, t, v, u, joined);
    }
    joined
}

/// What thread t reads of its dimension d.
fn range_read(
    threads: &Threads,
    writes: &[Vec<Option<Interval>>],
    t: u32,
    ranges: &RangeTable,
    d: u32,
) -> Interval
    ensures { result ≡ range_read_of threads.now (rows_in writes.now) t ranges.now d }
{
    let range = range_at(ranges, d);
    match threads.shared(t, d) {
        None => range,
        Some(v) => with_others(writes, t, v, range),
    }
}

/// What thread t reads of its n dimensions.
fn read_by(
    alloc: Global,
    threads: &Threads,
    writes: &[Vec<Option<Interval>>],
    t: u32,
    n: u32,
    ranges: &RangeTable,
) -> Result<RangeTable, NoMemory>
    requires { n ≤ 512 }
    ensures { IfOk result (λ r. r ≡ map (range_read_of threads.now (rows_in writes.now) t ranges.now) (range_with_len 0 n)) }
{
    let mut read = Vec::new(alloc);
    for d in 0..n {
        read.push(range_read(threads, writes, t, ranges, d))?;
    }
    Ok(RangeTable::of(read))
}

/// What is read at a point.
pub(crate) fn read(
    alloc: Global,
    system: &System,
    points: &[Option<RangeTable>],
    writes: &[Vec<Option<Interval>>],
    p: u32,
) -> Result<Option<RangeTable>, NoMemory>
    requires point { p < length system.now.core.owners }
    requires long { length points.now ≡ length system.now.core.owners }
    ensures { IfOk result (λ r. r ≡ read_in (graph_in system.now) system.now.sharing (stage_in points.now writes.now) p) }
{
    let core = system.core();
    let owner = core.owner(p);
    let dims = core.proc_at(owner).dims;
    match &points[p as usize] {
        None => Ok(None),
        Some(ranges) => {
            if owner + 1 == core.procs() {
                let silence: Vec<Vec<Option<Interval>>> = Vec::new(alloc);
                let r = read_by(alloc, system.threads(), &silence, owner, dims, ranges)?;
                Ok(Some(r))
            } else {
                let r = read_by(alloc, system.threads(), writes, owner, dims, ranges)?;
                Ok(Some(r))
            }
        }
    }
}
