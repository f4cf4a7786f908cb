//! Which procedure calls which, read off the edges in one pass for each procedure.
ghost use Rattle.std.specs.Prelude.{◌≡◌, ◌<◌, length, map, IfOk};
ghost use Rattle.std.specs.List.{range_with_len};
ghost use Rattle.spl_core.specs.Graph.{graph_of};
ghost use Rattle.call_graph.specs.Reach.{calls_directly};
ghost use Rattle.call_graph.specs.Tables.{square};

use memory::NoMemory;
use spl_core::{Action, Core};
use std::alloc::Global;

/// For each procedure, which ones its edges call.
pub(crate) fn call_table(alloc: Global, core: &Core) -> Result<Vec<Vec<bool>>, NoMemory>
    ensures { IfOk result (λ r. map (λ v. v.items) r.items ≡ square (length core.now.procs) (calls_directly (graph_of core.now))) }
{
    let mut rows = Vec::new(alloc);
    for p in 0..core.procs() {
        let row = called_from(alloc, core, p)?;
        rows.push(row)?;
    }
    Ok(rows)
}

/// Which procedures the edges of procedure p call.
fn called_from(alloc: Global, core: &Core, p: u32) -> Result<Vec<bool>, NoMemory>
    requires { p < length core.now.procs }
    ensures { IfOk result (λ r. r.items ≡ map (calls_directly (graph_of core.now) p) (range_with_len 0 (length core.now.procs))) }
{
    let mut row = vec![in alloc; false; core.procs() as usize]?;
    for e in 0..core.edge_count() {
        let edge = core.edge_at(e);
        if core.owner(edge.source) == p {
            if let Action::Call { callee, .. } = edge.action {
                row[callee as usize] = true;
            }
        }
    }
    Ok(row)
}
