//! A program of threads with what the rounds read of it.
ghost use Rattle.std.specs.Prelude.{◌≡◌, ◌<◌, length};
ghost use Rattle.spl_core.specs.Facts.{IsCore};
ghost use Rattle.call_graph.specs.Order.{order, is_cut};
ghost use Rattle.conc_front.specs.Sharing.{IsThreaded};
ghost use Rattle.conc_analysis.specs.Plan.{graph_in};
ghost use Rattle.conc_analysis.specs.Solved.{is_main_point};

use call_graph::Graph;
use conc_front::Threads;
use spl_core::Core;
use std::marker::Model;

/// A core, its call graph, and which variables of its threads are main's.
#[derive(Drop)]
pub(crate) struct System<'c> {
    pub(crate) core: &'c Core,
    pub(crate) threads: &'c Threads,
    pub(crate) graph: Graph,
}

impl<'c> Model for System<'c> {
    ghost use Rattle.conc_analysis.specs.Plan.{Plan, IsPlan};

    ghost Value = { Plan };

    ghost view = { λ s. record { core = s.core.now; sharing = s.threads.now } };

    ghost invariant = { λ s. IsPlan (record { core = s.core.now; sharing = s.threads.now }) s.graph };
}

impl<'c> System<'c> {
    /// The core.
    pub(crate) fn core(&self) -> &Core
        ensures value { result.now ≡ self.now.core }
        ensures known { IsCore self.now.core }
        ensures threaded { IsThreaded (graph_in self.now) self.now.sharing }
    {
        self.core
    }

    /// Which variables of the threads are main's.
    pub(crate) fn threads(&self) -> &Threads
        ensures { result.now ≡ self.now.sharing }
    {
        self.threads
    }

    /// Whether a point is a cut point.
    pub(crate) fn is_cut(&self, p: u32) -> bool
        requires { p < length self.now.core.owners }
        ensures { result ≡ is_cut (graph_in self.now) p }
    {
        self.graph.is_cut(p)
    }

    /// Whether a point is one of main.
    pub(crate) fn is_main(&self, p: u32) -> bool
        requires { p < length self.now.core.owners }
        ensures { result ≡ is_main_point (graph_in self.now) p }
    {
        self.core.owner(p) == self.core.procs() - 1
    }

    /// The points in the order of a round.
    pub(crate) fn order(&self) -> &[u32]
        ensures found { result.now ≡ order (graph_in self.now) }
        ensures known { IsCore self.now.core }
    {
        self.graph.order()
    }
}
