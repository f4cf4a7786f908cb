//! What the analysis of a program of threads leaves.
ghost use Rattle.std.specs.Prelude.{◌≡◌, ◌<◌, length};
ghost use Rattle.conc_analysis.specs.Equations.{point_at};
ghost use Rattle.conc_analysis.specs.Plan.{range_in};

use crate::tables::range_at;
use interval_form::{Interval, RangeTable};
use std::marker::Model;

/// What is read at each point, and the number of rounds of the threads' ascent.
#[derive(Drop)]
pub struct ConcSolution {
    pub(crate) reads: Vec<Option<RangeTable>>,
    pub(crate) rounds: u64,
}

impl Model for ConcSolution {
    ghost use Rattle.conc_analysis.specs.Plan.{ConcReads};

    ghost Value = { ConcReads };

    ghost view = { λ s. record { reads = s.reads.items; rounds = s.rounds } };
}

impl ConcSolution {
    /// The range of a dimension as it is read at a point; none exactly for Bottom.
    pub fn range(&self, point: u32, dim: u32) -> Option<Interval>
        requires { point < length self.now.reads }
        ensures { result ≡ range_in (point_at self.now.reads point) dim }
    {
        match &self.reads[point as usize] {
            None => None,
            Some(ranges) => Some(range_at(ranges, dim)),
        }
    }

    /// The number of rounds of the threads' ascent, the last one, which changed nothing, included.
    pub fn rounds(&self) -> u64
        ensures { result ≡ self.now.rounds }
    {
        self.rounds
    }
}
