//! The call graph of a core: who reaches whom, the order of points, and the cut points.
ghost use Rattle.std.specs.Prelude.{◌≡◌, ◌<◌, length, slice_index_or, false};
ghost use Rattle.call_graph.specs.Tables.{bit_at};

use std::marker::Model;

/// What the rounds of the analysis need to know of the calls of a core, computed once.
#[derive(Drop)]
pub struct Graph {
    pub(crate) reached: Vec<Vec<bool>>,
    pub(crate) order: Vec<u32>,
    pub(crate) cuts: Vec<bool>,
}

impl Model for Graph {
    ghost use Rattle.std.specs.Prelude.{map};
    ghost use Rattle.call_graph.specs.Tables.{Tables};
    ghost use Rattle.call_graph.specs.Steps.{IsSquare};

    ghost Value = { Tables };

    ghost view = { λ g. record { reached = map (λ v. v.items) g.reached.items; order = g.order.items; cuts = g.cuts.items } };

    ghost invariant = { λ g. IsSquare (map (λ v. v.items) g.reached.items) };
}

impl Graph {
    /// Whether a chain of one or more calls leads from procedure p to procedure q.
    pub fn reaches(&self, p: u32, q: u32) -> bool
        requires from { p < length self.now.reached }
        requires to { q < length self.now.reached }
        ensures { result ≡ bit_at self.now.reached p q }
    {
        self.reached[p as usize][q as usize]
    }

    /// All points in the order in which a round visits them: procedures by how many procedures they reach, themselves
    /// counted, then by their text; within one by number.
    pub fn order(&self) -> &[u32]
        ensures { result.now ≡ self.now.order }
    {
        &self.order
    }

    /// Whether a point is a cut point: a loop head, an entry, or the exit of a procedure that reaches itself.
    pub fn is_cut(&self, point: u32) -> bool
        requires { point < length self.now.cuts }
        ensures { result ≡ slice_index_or self.now.cuts point false }
    {
        self.cuts[point as usize]
    }
}
