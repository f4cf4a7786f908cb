//! Invariants: for each point Bottom or a matrix.
ghost use Rattle.std.specs.Prelude.{◌≡◌, ℕ, ◌-◌, ◌<◌, ◌≤◌, Some, None, [], ◌∷◌, ◌++◌, length, OnOk, OnErr, IsSomeAnd, MatchOption};
ghost use Rattle.oct_def.specs.Octagon.{top_matrix};
ghost use Rattle.inv_text.specs.Invariants.{matrix_in};
ghost use Rattle.inv_text.specs.Listed.{half_bounds};
ghost use Rattle.inv_text.specs.Given.{TakesBound, last_in, with_last_bound};

use crate::bound::InvBound;
use crate::half_bounds::HalfBounds;
use memory::NoMemory;
use std::alloc::Global;
use std::marker::Model;

/// What is given for the points of a core, at most 4096 of them. A Bottom has no number of variables.
#[derive(Drop)]
pub struct Invariants {
    alloc: Global,
    values: Vec<Option<HalfBounds>>,
}

impl Model for Invariants {
    ghost use Rattle.std.specs.Prelude.{Option, List, length, ◌≤◌};
    ghost use Rattle.oct_def.specs.Table.{Matrix};

    ghost Value = { List (Option Matrix) };

    ghost view = { λ x. x.values.items };

    ghost invariant = { λ x. length x.values.items ≤ 4096 };
}

impl Invariants {
    /// Invariants of no points.
    pub fn new(alloc: Global) -> Invariants
        ensures { result ≡ [] }
    {
        Invariants {
            alloc,
            values: Vec::new(alloc),
        }
    }

    /// The number of points.
    pub fn len(&self) -> u32
        ensures len { result ≡ length self.now }
        ensures few { result ≤ 4096 }
    {
        self.values.len() as u32
    }

    /// Adds a point that no run comes to.
    pub fn push_bottom(&mut self) -> Result<(), NoMemory>
        requires few { length self.old < 4096 }
        ensures ok { OnOk result (self.new ≡ self.old ++ None ∷ []) }
        ensures err { OnErr result (self.new ≡ self.old) }
    {
        self.push(None)
    }

    /// Adds a point whose `dims` variables have no bounds.
    pub fn push_top(&mut self, dims: u32) -> Result<(), NoMemory>
        requires few { length self.old < 4096 }
        requires small { dims ≤ 256 }
        ensures ok { OnOk result (self.new ≡ self.old ++ Some (top_matrix dims) ∷ []) }
        ensures err { OnErr result (self.new ≡ self.old) }
    {
        let top = HalfBounds::top(self.alloc, dims);
        self.push(Some(top))
    }

    /// Puts a bound at its place and at the coherent place of the last matrix. Bounds that come in order of their places
    /// take constant time each; another one takes as many steps as bounds stand behind its place.
    pub fn bound(&mut self, b: InvBound) -> Result<(), NoMemory>
        requires takes { IsSomeAnd (last_in self.old) (λ m. TakesBound m b) }
        ensures ok { OnOk result (self.new ≡ with_last_bound self.old b) }
        ensures err { OnErr result (self.new ≡ self.old) }
    {
        let last = self.values.len() - 1;
        if let Some(matrix) = &mut self.values[last] {
            matrix.put(b)?;
        }
        Ok(())
    }

    /// The finite half entries of a point's matrix, in order of their places; none exactly for Bottom.
    pub fn bounds(&self, p: u32) -> Option<&[InvBound]>
        requires point { p < length self.now }
        ensures { MatchOption result (matrix_in self.now p ≡ None) (λ bounds. IsSomeAnd (matrix_in self.now p) (λ m. bounds.now ≡ half_bounds m)) }
    {
        match &self.values[p as usize] {
            None => None,
            Some(matrix) => Some(matrix.bounds()),
        }
    }

    /// Adds a point.
    pub(crate) fn push(&mut self, value: Option<HalfBounds>) -> Result<(), NoMemory>
        requires few { length self.old < 4096 }
        ensures ok { OnOk result (self.new ≡ self.old ++ value ∷ []) }
        ensures err { OnErr result (self.new ≡ self.old) }
    {
        self.values.push(value)?;
        Ok(())
    }
}
