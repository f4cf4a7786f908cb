//! The call that makes the call graph of a core.
ghost use Rattle.std.specs.Prelude.{◌≡◌, IfOk};
ghost use Rattle.spl_core.specs.Graph.{graph_of};
ghost use Rattle.call_graph.specs.Tables.{tables_of};

use crate::calling::call_table;
use crate::closure::closed;
use crate::cutting::cut_table;
use crate::ordering::ordered;
use crate::tables::Graph;
use memory::NoMemory;
use spl_core::Core;
use std::alloc::Global;

/// The call graph of a core. It takes time in order of the cube of procedures, and of the square of points at most.
pub fn graph(alloc: Global, core: &Core) -> Result<Graph, NoMemory>
    ensures { IfOk result (λ g. g ≡ tables_of (graph_of core.now)) }
{
    let calls = call_table(alloc, core)?;
    let reached = closed(alloc, core, calls)?;
    let order = ordered(alloc, core, &reached)?;
    let cuts = cut_table(alloc, core, &reached)?;
    Ok(Graph {
        reached,
        order,
        cuts,
    })
}
