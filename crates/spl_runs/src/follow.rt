//! The run that choices give.

ghost use Rattle.std.specs.Prelude.{◌≡◌, ◌<◌, ◌+◌, ◌^◌, ◌-◌, ◌++◌, ◌∷◌, [], length, map, slice_index_or, IfOk};
ghost use Rattle.spl_core.specs.Facts.{IsCore};
ghost use Rattle.spl_core.specs.Graph.{graph_of};
ghost use Rattle.spl_runs.specs.Choices.{given_of};
ghost use Rattle.spl_runs.specs.Leaving.{edges_out};
ghost use Rattle.spl_runs.specs.Replay.{begun, replayed};
ghost use Rattle.spl_runs.specs.Seen.{Replays, Begins, top_seen, top_held};
ghost use Rattle.spl_runs.specs.Stacks.{frame_of, stack_of};
ghost use Rattle.spl_runs.specs.Laws.{IsRunOf};

use crate::choices::Choices;
use crate::frame::{Frame, StepFault};
use crate::laws::law_replays;
use crate::leaving::{EdgesOut, edges_out};
use crate::stack::Stack;
use spl_core::Core;
use std::alloc::{AllocError, Global};
use std::marker::Model;
use thiserror::Error;

/// The top frame of a stack: its point, the number of frames, and a value for each dimension of the point's procedure.
#[derive(Drop)]
pub struct Seen {
    pub point: u32,
    pub depth: u32,
    pub values: Vec<i128>,
}

/// A run, seen as the list of the top frames, one for each stack.
#[derive(Drop)]
pub struct Run {
    tops: Vec<Seen>,
}

impl Model for Run {
    ghost use Rattle.std.specs.Prelude.{List, map};
    ghost use Rattle.spl_runs.specs.Replay.{Top};
    ghost use Rattle.spl_runs.specs.Seen.{top_seen};

    ghost Value = { List Top };

    ghost view = { λ r. map top_seen r.tops.items };
}

/// Why choices give no run within 128 bits. The start line is step 0.
#[derive(Clone, Copy, Debug, PartialEq, Eq, Drop, Error)]
pub enum ReplayFault {
    /// The step with this number, the first one with a fault, is none of a run.
    #[error("step {0} is none of a run")]
    NotARun(u64),
    /// At the step with this number, the first one with a fault, a value passes 128 bits.
    #[error("a value passes 128 bits at step {0}")]
    Wide(u64),
    #[error("out of memory")]
    NoMemory,
}

impl Run {
    /// The number of stacks, the first one included.
    pub fn len(&self) -> usize
        ensures { result ≡ length self.now }
    {
        self.tops.len()
    }

    /// The top frame of the stack with this number.
    pub fn at(&self, k: usize) -> &Seen
        requires { k < length self.now }
        ensures { top_seen result.now ≡ slice_index_or self.now k (top_seen result.now) }
    {
        &self.tops[k]
    }
}

/// Notes the top frame of a stack with so many frames.
fn note(alloc: Global, tops: &mut Vec<Seen>, top: &Frame, depth: u32) -> Result<(), AllocError>
    ensures { IfOk result (λ _. map top_seen tops.new.items ≡ map top_seen tops.old.items ++ top_held top.now depth ∷ []) }
{
    let mut values = Vec::new(alloc);
    values.extend_from_slice(&top.values)?;
    tops.push(Seen {
        point: top.point,
        depth,
        values,
    })?;
    Ok(())
}

/// The first stack: a frame at main's entry with the given values; none if they're too few or too many.
#[tactic(auto, unfolding(spl_core::specs::Graph::graph_of))]
fn first(alloc: Global, core: &Core, choices: &Choices) -> Result<Option<Stack>, AllocError>
    ensures { Begins (begun (graph_of core.now) choices.now.start.items) result }
{
    let main = core.proc_at(core.procs() - 1);
    if choices.start.len() != main.dims as usize {
        return Ok(None);
    }
    let mut values = Vec::new(alloc);
    values.extend_from_slice(&choices.start)?;
    let top = Frame {
        point: main.entry,
        values,
    };
    Ok(Some(Stack {
        top,
        below: Vec::new(alloc),
    }))
}

/// The top frames of the run of a core with these choices, step by step.
fn follow(alloc: Global, core: &Core, out: &EdgesOut, choices: &Choices) -> Result<Run, ReplayFault>
    requires few { length choices.now.steps.items < 2 ^ 32 - 1 }
    requires out { out.now ≡ edges_out core.now }
    ensures { Replays (replayed (graph_of core.now) (given_of choices.now)) result }
{
    let mut stack = match first(alloc, core, choices) {
        Ok(Some(stack)) => stack,
        Ok(None) => return Err(ReplayFault::NotARun(0)),
        Err(_) => return Err(ReplayFault::NoMemory),
    };
    let mut tops = Vec::new(alloc);
    match note(alloc, &mut tops, &stack.top, 1) {
        Ok(()) => {}
        Err(_) => return Err(ReplayFault::NoMemory),
    }
    for (k, step) in choices.steps.iter().enumerate() {
        match stack.step(alloc, core, out, step) {
            Ok(()) => {}
            Err(StepFault::NotARun) => return Err(ReplayFault::NotARun(k as u64 + 1)),
            Err(StepFault::Wide) => return Err(ReplayFault::Wide(k as u64 + 1)),
            Err(StepFault::NoMemory) => return Err(ReplayFault::NoMemory),
        }
        let depth = stack.below.len() as u32 + 1;
        match note(alloc, &mut tops, &stack.top, depth) {
            Ok(()) => {}
            Err(_) => return Err(ReplayFault::NoMemory),
        }
    }
    Ok(Run { tops })
}

/// The run of a core with these choices, where each step is one of a run and each value in an expression or a condition is
/// within 128 bits. Steps are tested in order. At one step the number of the edge and the count of values come first, then
/// values past 128 bits, then whether the assigned value is there and the condition of a test may come out as the edge wants.
pub fn replay(alloc: Global, core: &Core, choices: &Choices) -> Result<Run, ReplayFault>
    requires { length choices.now.steps.items < 2 ^ 32 - 1 }
    ensures steps { Replays (replayed (graph_of core.now) (given_of choices.now)) result }
    ensures run { IfOk result (λ tops. IsRunOf (graph_of core.now) (given_of choices.now) tops) }
{
    law_replays();
    // for its clause, that the parts are those of a core
    let _points = core.points();
    let out = match edges_out(alloc, core) {
        Ok(out) => out,
        Err(_) => return Err(ReplayFault::NoMemory),
    };
    let run = follow(alloc, core, &out, choices)?;
    Ok(run)
}
