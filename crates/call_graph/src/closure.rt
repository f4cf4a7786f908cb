//! Which procedures reach which: the closure of the calls by pivots (Warshall's), row by row.
ghost use Rattle.std.specs.Prelude.{◌≡◌, ◌<◌, length, map, slice_index_or, false, IfOk};
ghost use Rattle.std.specs.List.{range_with_len};
ghost use Rattle.spl_core.specs.Graph.{graph_of};
ghost use Rattle.call_graph.specs.Reach.{calls_directly, reaches};
ghost use Rattle.call_graph.specs.Tables.{square};
ghost use Rattle.call_graph.specs.Steps.{IsSquare, bit_over, step_bits};

use memory::NoMemory;
use spl_core::Core;
use std::alloc::Global;

/// The closure of a table of calls.
pub(crate) fn closed(
    alloc: Global,
    core: &Core,
    calls: Vec<Vec<bool>>,
) -> Result<Vec<Vec<bool>>, NoMemory>
    requires calls { map (λ v. v.items) calls.items ≡ square (length core.now.procs) (calls_directly (graph_of core.now)) }
    ensures { IfOk result (λ r. map (λ v. v.items) r.items ≡ square (length core.now.procs) (reaches (graph_of core.now))) }
{
    let mut rows = calls;
    for k in 0..core.procs() as usize {
        rows = step(alloc, &rows, k)?;
    }
    Ok(rows)
}

/// All rows after the step over the pivot k.
fn step(alloc: Global, rows: &[Vec<bool>], k: usize) -> Result<Vec<Vec<bool>>, NoMemory>
    requires pivot { k < length rows.now }
    requires shape { IsSquare (map (λ v. v.items) rows.now) }
    ensures { IfOk result (λ r. map (λ v. v.items) r.items ≡ step_bits k (map (λ v. v.items) rows.now)) }
{
    let mut out = Vec::new(alloc);
    for p in 0..rows.len() {
        let row = row_over(alloc, &rows[p], &rows[k], k)?;
        out.push(row)?;
    }
    Ok(out)
}

/// One row after the step over the pivot k, whose own row is given.
fn row_over(alloc: Global, row: &[bool], pivot: &[bool], k: usize) -> Result<Vec<bool>, NoMemory>
    requires same { length pivot.now ≡ length row.now }
    requires within { k < length row.now }
    ensures { IfOk result (λ r. r.items ≡ map (bit_over row.now pivot.now (slice_index_or row.now k false)) (range_with_len 0 (length row.now))) }
{
    let by = row[k];
    let mut out = Vec::new(alloc);
    for q in 0..row.len() {
        out.push(row[q] | (by & pivot[q]))?;
    }
    Ok(out)
}
