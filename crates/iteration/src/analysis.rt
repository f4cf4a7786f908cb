//! The analysis of a core.
ghost use Rattle.std.specs.Prelude.{◌≤◌, IfOk};
ghost use Rattle.spl_core.specs.Graph.{graph_of};
ghost use Rattle.iteration.specs.Solution.{IsSolution};

use crate::solution::Solution;
use crate::system::CoreSystem;
use call_graph::graph;
use domain::Domain;
use equations::sources;
use memory::NoMemory;
use rounds::{Outcome, solve};
use spl_core::Core;
use std::alloc::Global;

/// The solution of a core: the ascent from Bottom up to and including the first round that changes nothing, in which a cut
/// point is widened after `delay` changes, and `descend` rounds of narrowing. In a round a point is computed only where a value
/// that it reads changed since it was last computed, or since the start if it never was; the first round computes main's
/// entry too, which reads nothing, and the first round of narrowing every cut point. Rounds are counted as if each computed
/// every point.
pub fn analyse<D: Domain>(
    alloc: Global,
    dom: &mut D,
    core: &Core,
    delay: u32,
    descend: u32,
) -> Result<Solution<D>, NoMemory>
    requires delay { delay ≤ 1000 }
    requires descend { descend ≤ 1000 }
    ensures solution { IfOk result (λ s. IsSolution (graph_of core.now) delay descend s) }
    ensures work { D.work dom.old ≤ D.work dom.new }
{
    let _points = core.points();
    let tables = graph(alloc, core)?;
    let table = sources(alloc, core)?;
    let system = CoreSystem {
        core,
        graph: &tables,
        table: &table,
    };
    let Outcome {
        stored,
        read: _,
        rounds,
    } = solve(alloc, dom, &system, delay, descend)?;
    Ok(Solution {
        values: stored,
        graph: tables,
        rounds,
    })
}
