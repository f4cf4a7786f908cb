//! The analysis of a program of threads: main first, then the threads.
ghost use Rattle.std.specs.Prelude.{◌≡◌, ◌<◌, ◌++◌, ◌∷◌, [], OnOk, IfOk, length, map, if◌then◌else◌};
ghost use Rattle.std.specs.List.{All, range_with_len};
ghost use Rattle.spl_core.specs.Graph.{graph_of};
ghost use Rattle.conc_front.specs.Sharing.{IsThreaded};
ghost use Rattle.conc_analysis.specs.Equations.{read_in};
ghost use Rattle.conc_analysis.specs.Plan.{graph_in, stage_in, IsConcSolution};
ghost use Rattle.conc_analysis.specs.Rounds.{ascended_in, ascent, lowered};
ghost use Rattle.conc_analysis.specs.Solved.{no_environment, is_of_kind as is_of_kind_of, points_of as points_of_kind};

use crate::reading::read;
use crate::rounds::{ascend, lower};
use crate::solution::ConcSolution;
use crate::system::System;
use crate::writing::no_writes;
use call_graph::graph;
use conc_front::Threads;
use interval_form::{Interval, RangeTable};
use memory::NoMemory;
use spl_core::Core;
use std::alloc::Global;

// No ascent takes more rounds: 2K + 2 for 4096 cut points over 128 dimensions, and 257 procedures over 128 variables of main.
const MOST_ROUNDS: u64 = 2450690;

/// Bottom at every point.
fn bottoms(alloc: Global, core: &Core) -> Result<Vec<Option<RangeTable>>, NoMemory>
    ensures { IfOk result (λ r. r.items ≡ map no_environment core.now.owners) }
{
    let mut points = Vec::new(alloc);
    for p in 0..core.points() {
        points.push(None)?;
    }
    Ok(points)
}

/// Adds a point, where it's wanted.
fn push_point(points: &mut Vec<u32>, p: u32, wanted: bool) -> Result<(), NoMemory>
    ensures { OnOk result (points.new.items ≡ points.old.items ++ (if wanted then p ∷ [] else [])) }
{
    if wanted {
        points.push(p)?;
    }
    Ok(())
}

/// Whether a point is one of main, or one of the threads.
fn is_of_kind(system: &System, main: bool, p: u32) -> bool
    requires { p < length system.now.core.owners }
    ensures { result ≡ is_of_kind_of (graph_in system.now) main p }
{
    if main {
        system.is_main(p)
    } else {
        !system.is_main(p)
    }
}

/// The points of main in order, or those of the threads.
fn points_of(alloc: Global, system: &System, main: bool) -> Result<Vec<u32>, NoMemory>
    ensures points { IfOk result (λ r. r.items ≡ points_of_kind (graph_in system.now) main) }
    ensures inside { IfOk result (λ r. All (λ p. p < length system.now.core.owners) r.items) }
{
    let mut points = Vec::new(alloc);
    for p in system.order() {
        push_point(&mut points, *p, is_of_kind(system, main, *p))?;
    }
    Ok(points)
}

/// The ascent over some points and its descent. The answer is the number of rounds of the ascent.
fn solve(
    alloc: Global,
    system: &System,
    order: &[u32],
    points: &mut Vec<Option<RangeTable>>,
    writes: &mut Vec<Vec<Option<Interval>>>,
) -> Result<u64, NoMemory>
    requires order { All (λ p. p < length system.now.core.owners) order.now }
    requires long { length points.old.items ≡ length system.now.core.owners }
    ensures long { OnOk result (length points.new.items ≡ length system.now.core.owners) }
    ensures stage { IfOk result (λ n. stage_in points.new.items writes.new.items ≡ lowered (graph_in system.now) system.now.sharing order.now (ascent (graph_in system.now) system.now.sharing order.now MOST_ROUNDS 0 (stage_in points.old.items writes.old.items)).stage) }
    ensures rounds { IfOk result (λ n. n ≡ (ascent (graph_in system.now) system.now.sharing order.now MOST_ROUNDS 0 (stage_in points.old.items writes.old.items)).rounds) }
{
    let rounds = ascend(alloc, system, order, points, writes, MOST_ROUNDS)?;
    lower(alloc, system, order, points, writes)?;
    Ok(rounds)
}

/// What is read at each point.
fn reads(
    alloc: Global,
    system: &System,
    points: &[Option<RangeTable>],
    writes: &[Vec<Option<Interval>>],
) -> Result<Vec<Option<RangeTable>>, NoMemory>
    requires { length points.now ≡ length system.now.core.owners }
    ensures { IfOk result (λ r. r.items ≡ map (read_in (graph_in system.now) system.now.sharing (stage_in points.now writes.now)) (range_with_len 0 (length system.now.core.owners))) }
{
    let mut reads = Vec::new(alloc);
    for p in 0..system.core().points() {
        let environment = read(alloc, system, points, writes, p)?;
        reads.push(environment)?;
    }
    Ok(reads)
}

/// The solution of a system: main first, then the threads.
fn solution(alloc: Global, system: &System) -> Result<ConcSolution, NoMemory>
    ensures { IfOk result (λ s. IsConcSolution (graph_in system.now) system.now.sharing s) }
{
    let core = system.core();
    let mut points = bottoms(alloc, core)?;
    let mut writes = no_writes(alloc, system)?;
    let main = points_of(alloc, system, true)?;
    let alone = solve(alloc, system, main.as_slice(), &mut points, &mut writes)?;
    let others = points_of(alloc, system, false)?;
    let rounds = solve(alloc, system, others.as_slice(), &mut points, &mut writes)?;
    let reads = reads(alloc, system, points.as_slice(), writes.as_slice())?;
    Ok(ConcSolution { reads, rounds })
}

/// The solution of a program of threads. Main is solved first, alone: rounds over its points until one changes nothing, in
/// which a cut point is widened after its first change, then two rounds that narrow. The threads follow in the same way, all
/// points of theirs in one round, after which what each thread writes to each variable of main is replaced: it takes what the
/// thread's edges write by join at first, and by widening after that. All points and all interference of a round read the
/// interference with which the round began, and the rounds that narrow keep it (interference analysis after Miné).
pub fn conc(alloc: Global, core: &Core, threads: &Threads) -> Result<ConcSolution, NoMemory>
    requires { IsThreaded (graph_of core.now) threads.now }
    ensures { IfOk result (λ s. IsConcSolution (graph_of core.now) threads.now s) }
{
    let _points = core.points();
    let graph = graph(alloc, core)?;
    let system = System {
        core,
        threads,
        graph,
    };
    let s = solution(alloc, &system)?;
    Ok(s)
}
