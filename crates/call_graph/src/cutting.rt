//! The cut points: loop heads, entries, and exits of procedures that reach themselves.
ghost use Rattle.std.specs.Prelude.{◌≡◌, ◌<◌, ◌||◌, length, map, IfOk};
ghost use Rattle.std.specs.List.{range_with_len};
ghost use Rattle.spl_core.specs.Graph.{graph_of};
ghost use Rattle.call_graph.specs.Reach.{reaches};
ghost use Rattle.call_graph.specs.Tables.{square};
ghost use Rattle.call_graph.specs.Order.{is_loop_head, is_entry, is_recursive_exit, is_cut};

use memory::NoMemory;
use spl_core::Core;
use std::alloc::Global;

/// Which points are cut points, by the table of reaching.
pub(crate) fn cut_table(
    alloc: Global,
    core: &Core,
    reached: &[Vec<bool>],
) -> Result<Vec<bool>, NoMemory>
    requires { map (λ v. v.items) reached.now ≡ square (length core.now.procs) (reaches (graph_of core.now)) }
    ensures { IfOk result (λ r. r.items ≡ map (is_cut (graph_of core.now)) (range_with_len 0 (length core.now.owners))) }
{
    let heads = loop_heads(alloc, core)?;
    let mut cuts = Vec::new(alloc);
    for x in 0..core.points() {
        let cut = heads[x as usize] || cuts_procedure(core, reached, x);
        cuts.push(cut)?;
    }
    Ok(cuts)
}

/// Which points an edge from the same or a higher number enters.
fn loop_heads(alloc: Global, core: &Core) -> Result<Vec<bool>, NoMemory>
    ensures { IfOk result (λ r. r.items ≡ map (is_loop_head (graph_of core.now)) (range_with_len 0 (length core.now.owners))) }
{
    let mut heads = vec![in alloc; false; core.points() as usize]?;
    for e in 0..core.edge_count() {
        let edge = core.edge_at(e);
        if edge.target <= edge.source {
            heads[edge.target as usize] = true;
        }
    }
    Ok(heads)
}

/// An entry, or the exit of a procedure that reaches itself.
fn cuts_procedure(core: &Core, reached: &[Vec<bool>], x: u32) -> bool
    requires table { map (λ v. v.items) reached.now ≡ square (length core.now.procs) (reaches (graph_of core.now)) }
    requires point { x < length core.now.owners }
    ensures { result ≡ (is_entry (graph_of core.now) x || is_recursive_exit (graph_of core.now) x) }
{
    let owner = core.owner(x);
    let procedure = core.proc_at(owner);
    if procedure.entry == x {
        return true;
    }
    procedure.exit == x && reached[owner as usize][owner as usize]
}
