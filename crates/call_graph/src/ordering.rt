//! The order of the points: by how many procedures their own reaches.
ghost use Rattle.std.specs.Prelude.{◌≡◌, ◌+◌, ◌<◌, ◌++◌, ◌||◌, nat_eq, length, map, slice_index_or, false, OnOk, IfOk};
ghost use Rattle.std.specs.List.{count_by, range_with_len};
ghost use Rattle.spl_core.specs.Graph.{graph_of};
ghost use Rattle.call_graph.specs.Reach.{reaches, reach_count};
ghost use Rattle.call_graph.specs.Tables.{square};
ghost use Rattle.call_graph.specs.Order.{points_of, points_with, order};

use memory::NoMemory;
use spl_core::Core;
use std::alloc::Global;

/// All points in order, by the table of reaching.
pub(crate) fn ordered(
    alloc: Global,
    core: &Core,
    reached: &[Vec<bool>],
) -> Result<Vec<u32>, NoMemory>
    requires { map (λ v. v.items) reached.now ≡ square (length core.now.procs) (reaches (graph_of core.now)) }
    ensures { IfOk result (λ r. r.items ≡ order (graph_of core.now)) }
{
    let counts = reach_counts(alloc, core, reached)?;
    let mut order = Vec::new(alloc);
    for k in 0..counts.len() + 1 {
        push_group(core, &counts, k, &mut order)?;
    }
    Ok(order)
}

/// For each procedure, how many procedures it reaches, itself counted.
fn reach_counts(alloc: Global, core: &Core, reached: &[Vec<bool>]) -> Result<Vec<usize>, NoMemory>
    requires { map (λ v. v.items) reached.now ≡ square (length core.now.procs) (reaches (graph_of core.now)) }
    ensures { IfOk result (λ r. r.items ≡ map (reach_count (graph_of core.now)) (range_with_len 0 (length core.now.procs))) }
{
    let mut counts = Vec::new(alloc);
    for p in 0..reached.len() {
        counts.push(count_reached(&reached[p], p))?;
    }
    Ok(counts)
}

/// How many numbers are p or marked in its row.
fn count_reached(row: &[bool], p: usize) -> usize
    ensures { result ≡ count_by (λ q. nat_eq q p || slice_index_or row.now q false) (range_with_len 0 (length row.now)) }
{
    let mut count = 0;
    for q in 0..row.len() {
        if q == p || row[q] {
            count += 1;
        }
    }
    count
}

/// Adds the points of the procedures that reach k procedures.
fn push_group(core: &Core, counts: &[usize], k: usize, order: &mut Vec<u32>) -> Result<(), NoMemory>
    requires { counts.now ≡ map (reach_count (graph_of core.now)) (range_with_len 0 (length core.now.procs)) }
    ensures { OnOk result (order.new.items ≡ order.old.items ++ points_with (graph_of core.now) k) }
{
    for p in 0..core.procs() {
        if counts[p as usize] == k {
            push_points(core, p, order)?;
        }
    }
    Ok(())
}

/// Adds the points of procedure p, by number.
fn push_points(core: &Core, p: u32, order: &mut Vec<u32>) -> Result<(), NoMemory>
    ensures { OnOk result (order.new.items ≡ order.old.items ++ points_of (graph_of core.now) p) }
{
    for x in 0..core.points() {
        if core.owner(x) == p {
            order.push(x)?;
        }
    }
    Ok(())
}
