//! A core with what the rounds ask of it: the order of its points, its cut points, and the sources and readers of each point.

use call_graph::Graph;
use domain::Domain;
use equations::{Sources, equation};
use memory::NoMemory;
use rounds::Equations;
use spl_core::Core;
use std::alloc::Global;
use std::marker::Model;

/// A core, its call graph, and its sources and readers: its forward equations.
#[derive(Drop)]
pub(crate) struct CoreSystem<'c> {
    pub(crate) core: &'c Core,
    pub(crate) graph: &'c Graph,
    pub(crate) table: &'c Sources,
}

impl<'c> Model for CoreSystem<'c> {
    ghost use Rattle.spl_core.specs.Parts.{Parts};
    ghost use Rattle.iteration.specs.Plan.{IsPlan};

    ghost Value = { Parts };

    ghost view = { λ s. s.core.now };

    ghost invariant = { λ s. IsPlan s.core.now s.graph.now s.table.now };
}

impl<'c, D: Domain> Equations<D> for CoreSystem<'c> {
    ghost use Rattle.spl_core.specs.Graph.{graph_of};
    ghost use Rattle.iteration.specs.Solved.{system_of};

    ghost system = { λ c. system_of (graph_of c) };

    fn points(&self) -> u32 {
        self.core.points()
    }

    fn dims(&self, p: u32) -> u32 {
        self.core.proc_at(self.core.owner(p)).dims
    }

    fn is_cut(&self, p: u32) -> bool {
        self.graph.is_cut(p)
    }

    fn order(&self) -> &[u32] {
        self.graph.order()
    }

    fn readers(&self, p: u32) -> &[u32] {
        self.table.readers(p)
    }

    // Main's entry reads nothing, and states come from nowhere else.
    fn begins(&self, p: u32) -> bool {
        p == self.core.proc_at(self.core.procs() - 1).entry
    }

    fn equation(
        &self,
        alloc: Global,
        dom: &mut D,
        values: &[D::V],
        p: u32,
    ) -> Result<D::V, NoMemory> {
        let v = equation(alloc, dom, self.core, self.table, values, p)?;
        Ok(v)
    }

    fn widen(&self, alloc: Global, dom: &mut D, a: &D::V, b: &D::V) -> Result<D::V, NoMemory> {
        let v = dom.widen(alloc, a, b)?;
        Ok(v)
    }
}
