//! What the analysis of a core leaves.
ghost use Rattle.std.specs.Prelude.{◌≡◌, ◌<◌, ◌≤◌, length, IfOk};
ghost use Rattle.iteration.specs.Solution.{stored_in, read_in};

use call_graph::Graph;
use domain::Domain;
use memory::NoMemory;
use std::alloc::Global;
use std::marker::Model;

/// A stored value for each point, with the cut points, and the number of ascending rounds.
#[derive(Drop)]
pub struct Solution<D: Domain> {
    pub(crate) values: Vec<D::V>,
    pub(crate) graph: Graph,
    pub(crate) rounds: u64,
}

impl<D: Domain> Model for Solution<D> {
    ghost use Rattle.std.specs.Prelude.{◌≡◌, length, map};
    ghost use Rattle.iteration.specs.Solution.{Solution};

    ghost Value = { Solution };

    ghost view = { λ s. record { values = map D.meaning s.values.items; cuts = s.graph.cuts; rounds = s.rounds } };

    ghost invariant = { λ s. length s.graph.cuts ≡ length s.values.items };
}

impl<D: Domain> Solution<D> {
    /// The stored value of a point.
    pub fn value(&self, point: u32) -> &D::V
        requires { point < length self.now.values }
        ensures { D.meaning result.now ≡ stored_in self.now point }
    {
        &self.values[point as usize]
    }

    /// The value of a point as it is read: a cut point's is closed.
    pub fn read(&self, alloc: Global, dom: &mut D, point: u32) -> Result<D::V, NoMemory>
        requires { point < length self.now.values }
        ensures value { IfOk result (λ v. D.meaning v ≡ read_in self.now point) }
        ensures work { D.work dom.old ≤ D.work dom.new }
    {
        let value = &self.values[point as usize];
        if self.graph.is_cut(point) {
            let v = dom.close(alloc, value)?;
            Ok(v)
        } else {
            let v = dom.share(value)?;
            Ok(v)
        }
    }

    /// The number of ascending rounds, the last one, which changed nothing, counted.
    pub fn rounds(&self) -> u64
        ensures { result ≡ self.now.rounds }
    {
        self.rounds
    }
}
