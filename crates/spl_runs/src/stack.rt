//! The stack of a run over integers of 128 bits, and its steps.

ghost use Rattle.std.specs.Prelude.{◌≡◌, ◌<◌, ◌≤◌, ◌+◌, length, take, drop, IfSome};
ghost use Rattle.std.specs.Option.{option_map};
ghost use Rattle.spl_core.specs.Parts.{proc_at, span_dims};
ghost use Rattle.spl_core.specs.Facts.{EdgeFits, IsCore};
ghost use Rattle.spl_core.specs.Graph.{move_of, arc_of, graph_of};
ghost use Rattle.spl_runs.specs.Choices.{choice_of};
ghost use Rattle.spl_runs.specs.Leaving.{edges_out};
ghost use Rattle.spl_runs.specs.Replay.{if_called, entered, over, advanced, return_edge, left, if_pop, step_of};
ghost use Rattle.spl_runs.specs.Stacks.{Moves, frame_of, frames_of, stack_of};

use crate::choices::Step;
use crate::frame::{Frame, StepFault, change, set_outputs, values_at};
use crate::leaving::EdgesOut;
use spl_core::{Action, Core, Edge, Span};
use std::alloc::Global;
use std::mem;

/// The top frame, and the frames below it, the innermost last.
#[derive(Drop)]
pub(crate) struct Stack {
    pub(crate) top: Frame,
    pub(crate) below: Vec<Frame>,
}

/// The outputs of a procedure in its values.
fn outputs(values: &[i128], inputs: u32, outputs: u32) -> &[i128]
    ensures { result.now ≡ take outputs (drop inputs values.now) }
{
    let from = values.len().min(inputs as usize);
    let count = (values.len() - from).min(outputs as usize);
    &values[from..from + count]
}

/// The edge, if it calls a procedure whose exit is this point.
#[tactic(auto, unfolding(spl_core::specs::Graph::graph_of))]
fn if_called(core: &Core, edge: Edge, point: u32) -> Option<Edge>
    requires { EdgeFits core.now edge }
    ensures edge { option_map (arc_of core.now) result ≡ if_called (graph_of core.now) point (arc_of core.now edge) (move_of core.now edge.action) }
    ensures fits { IfSome result (λ e. EdgeFits core.now e) }
{
    match edge.action {
        Action::Call { callee, .. } => {
            let proc = core.proc_at(callee);
            if proc.exit == point { Some(edge) } else { None }
        }
        _ => None,
    }
}

impl Stack {
    /// A call pushes a frame whose inputs are the arguments' values and whose other values are given.
    fn enter(
        &mut self,
        alloc: Global,
        core: &Core,
        callee: u32,
        args: Span,
        given: &[i128],
    ) -> Result<(), StepFault>
        requires callee { callee < length core.now.procs }
        requires args { args.first + args.count ≤ length core.now.dims }
        ensures { Moves (entered (proc_at core.now callee) (span_dims core.now args) (frame_of self.old.top) (frames_of self.old.below.items) given.now) result (stack_of self.new) }
    {
        let proc = core.proc_at(callee);
        if given.len() != (proc.dims - proc.inputs) as usize {
            return Err(StepFault::NotARun);
        }
        let mut values = values_at(alloc, core, args, &self.top.values).map_err(
            |_| StepFault::NoMemory,
        )?;
        values
            .extend_from_slice(given)
            .map_err(|_| StepFault::NoMemory)?;
        let entry = Frame {
            point: proc.entry,
            values,
        };
        let caller = mem::replace(&mut self.top, entry);
        self.below.push(caller).map_err(|_| StepFault::NoMemory)
    }

    /// The top frame moves over an edge from its point.
    fn over(
        &mut self,
        alloc: Global,
        core: &Core,
        edge: Edge,
        given: &[i128],
    ) -> Result<(), StepFault>
        requires { EdgeFits core.now edge }
        ensures { Moves (over (graph_of core.now) edge.target (move_of core.now edge.action) (frame_of self.old.top) (frames_of self.old.below.items) given.now) result (stack_of self.new) }
    {
        match edge.action {
            Action::Call { callee, args, .. } => self.enter(alloc, core, callee, args, given),
            _ => {
                change(core, edge, given, &mut self.top.values)?;
                self.top.point = edge.target;
                Ok(())
            }
        }
    }

    fn advance(
        &mut self,
        alloc: Global,
        core: &Core,
        out: &EdgesOut,
        step: &Step,
    ) -> Result<(), StepFault>
        requires { out.now ≡ edges_out core.now }
        ensures { Moves (advanced (graph_of core.now) (frame_of self.old.top) (frames_of self.old.below.items) (choice_of step.now)) result (stack_of self.new) }
    {
        match out.numbered(core, self.top.point, step.edge) {
            Some(edge) => self.over(alloc, core, edge, &step.values),
            None => Err(StepFault::NotARun),
        }
    }

    /// The call edge that the frame below stands before, if the top frame stands at the exit of the procedure that it calls.
    fn return_edge(&self, core: &Core, out: &EdgesOut) -> Option<Edge>
        requires { out.now ≡ edges_out core.now }
        ensures edge { option_map (arc_of core.now) result ≡ return_edge (graph_of core.now) (frame_of self.now.top) (frames_of self.now.below.items) }
        ensures fits { IfSome result (λ e. EdgeFits core.now e) }
    {
        match self.below.last() {
            Some(caller) => match out.at(core, caller.point, 0) {
                Some(edge) => if_called(core, edge, self.top.point),
                None => None,
            },
            None => None,
        }
    }

    /// The top frame is popped, and the one below moves over its call edge.
    fn leave(&mut self, core: &Core, edge: Edge, step: &Step) -> Result<(), StepFault>
        requires { EdgeFits core.now edge }
        ensures { Moves (if_pop (choice_of step.now) (left (graph_of core.now) (frame_of self.old.top) (frames_of self.old.below.items) (arc_of core.now edge))) result (stack_of self.new) }
    {
        if step.edge != 0 || !step.values.is_empty() {
            return Err(StepFault::NotARun);
        }
        let Action::Call {
            callee,
            targets,
            ..
        } = edge.action
        else {
            return Err(StepFault::NotARun);
        };
        let Some(caller) = self.below.pop() else {
            return Err(StepFault::NotARun);
        };
        let proc = core.proc_at(callee);
        let callee = mem::replace(&mut self.top, caller);
        set_outputs(
            core,
            targets,
            outputs(&callee.values, proc.inputs, proc.outputs),
            &mut self.top.values,
        );
        self.top.point = edge.target;
        Ok(())
    }

    /// One step. After a fault nothing is said of the stack.
    pub(crate) fn step(
        &mut self,
        alloc: Global,
        core: &Core,
        out: &EdgesOut,
        step: &Step,
    ) -> Result<(), StepFault>
        requires { out.now ≡ edges_out core.now }
        ensures { Moves (step_of (graph_of core.now) (stack_of self.old) (choice_of step.now)) result (stack_of self.new) }
    {
        match self.return_edge(core, out) {
            Some(edge) => self.leave(core, edge, step),
            None => self.advance(alloc, core, out, step),
        }
    }
}
