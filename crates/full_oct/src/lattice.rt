// Join, widening and narrowing, entry by entry, and whether two values are the same. Bottom is never a matrix: it gives the
// other side, or Bottom, without one.
ghost use Rattle.std.specs.Prelude.{◌≡◌, ℕ, ◌<◌, IfOk, length};
ghost use Rattle.std.specs.Bool.{Decides};
ghost use Rattle.oct_def.specs.Bound.{bound_of};
ghost use Rattle.oct_def.specs.Octagon.{join_entry, join_matrix, join_value, widen_entry, widen_matrix, widen_value, narrow_entry, narrow_matrix, narrow_value};

use crate::matrix::FullMatrix;
use crate::value::{FullValue, shared};
use oct_def::{NoMemory, greatest_word, narrowed_word, widened_word};
use std::alloc::Global;

impl FullMatrix {
    // The word at (i, j) of the join.
    fn joined_word(&self, other: &FullMatrix, i: usize, j: usize) -> i64
        requires rows { length other.now ≡ length self.now }
        requires row { i < length self.now }
        requires column { j < length self.now }
        ensures { bound_of result ≡ join_entry self.now other.now i j }
    {
        greatest_word(self.word(i, j), other.word(i, j))
    }

    // The word at (i, j) of the widening.
    fn widened_word(&self, other: &FullMatrix, i: usize, j: usize) -> i64
        requires rows { length other.now ≡ length self.now }
        requires row { i < length self.now }
        requires column { j < length self.now }
        ensures { bound_of result ≡ widen_entry self.now other.now i j }
    {
        widened_word(self.word(i, j), other.word(i, j))
    }

    // The word at (i, j) of the narrowing.
    fn narrowed_word(&self, other: &FullMatrix, i: usize, j: usize) -> i64
        requires rows { length other.now ≡ length self.now }
        requires row { i < length self.now }
        requires column { j < length self.now }
        ensures { bound_of result ≡ narrow_entry self.now other.now i j }
    {
        narrowed_word(self.word(i, j), other.word(i, j))
    }

    /// The join of two matrices of one size.
    pub fn joined(&self, alloc: Global, other: &FullMatrix) -> Result<FullMatrix, NoMemory>
        requires rows { length other.now ≡ length self.now }
        ensures joined { IfOk result (λ m. m ≡ join_matrix self.now other.now) }
    {
        let size = self.size();
        let m = FullMatrix::tabulated(alloc, size, |i, j| self.joined_word(other, i, j))?;
        Ok(m)
    }

    /// The widening of a matrix by another of its size.
    pub fn widened(&self, alloc: Global, other: &FullMatrix) -> Result<FullMatrix, NoMemory>
        requires rows { length other.now ≡ length self.now }
        ensures widened { IfOk result (λ m. m ≡ widen_matrix self.now other.now) }
    {
        let size = self.size();
        let m = FullMatrix::tabulated(alloc, size, |i, j| self.widened_word(other, i, j))?;
        Ok(m)
    }

    /// The narrowing of a matrix by another of its size.
    pub fn narrowed(&self, alloc: Global, other: &FullMatrix) -> Result<FullMatrix, NoMemory>
        requires rows { length other.now ≡ length self.now }
        ensures narrowed { IfOk result (λ m. m ≡ narrow_matrix self.now other.now) }
    {
        let size = self.size();
        let m = FullMatrix::tabulated(alloc, size, |i, j| self.narrowed_word(other, i, j))?;
        Ok(m)
    }
}

impl FullValue {
    /// The join. Where a side is Bottom it is the other one, shared.
    pub fn joined(&self, alloc: Global, other: &FullValue) -> Result<FullValue, NoMemory>
        requires dims { self.now.dims ≡ other.now.dims }
        ensures value { IfOk result (λ v. v ≡ join_value self.now other.now) }
    {
        match (&self.matrix, &other.matrix) {
            (None, _) => {
                let v = other.share()?;
                Ok(v)
            }
            (Some(_), None) => {
                let v = self.share()?;
                Ok(v)
            }
            (Some(a), Some(b)) => {
                let m = a.joined(alloc, b)?;
                let v = shared(alloc, self.dims, Some(m))?;
                Ok(v)
            }
        }
    }

    /// The widening of a value by another. Where a side is Bottom it is the other one, shared.
    pub fn widened(&self, alloc: Global, other: &FullValue) -> Result<FullValue, NoMemory>
        requires dims { self.now.dims ≡ other.now.dims }
        ensures value { IfOk result (λ v. v ≡ widen_value self.now other.now) }
    {
        match (&self.matrix, &other.matrix) {
            (None, _) => {
                let v = other.share()?;
                Ok(v)
            }
            (Some(_), None) => {
                let v = self.share()?;
                Ok(v)
            }
            (Some(a), Some(b)) => {
                let m = a.widened(alloc, b)?;
                let v = shared(alloc, self.dims, Some(m))?;
                Ok(v)
            }
        }
    }

    /// The narrowing of a value by another. Bottom on either side gives Bottom.
    pub fn narrowed(&self, alloc: Global, other: &FullValue) -> Result<FullValue, NoMemory>
        requires dims { self.now.dims ≡ other.now.dims }
        ensures value { IfOk result (λ v. v ≡ narrow_value self.now other.now) }
    {
        match (&self.matrix, &other.matrix) {
            (None, _) => Ok(FullValue::bottom(self.dims)),
            (Some(_), None) => Ok(FullValue::bottom(self.dims)),
            (Some(a), Some(b)) => {
                let m = a.narrowed(alloc, b)?;
                let v = shared(alloc, self.dims, Some(m))?;
                Ok(v)
            }
        }
    }

    /// Whether two values are the same, entry by entry.
    pub fn is_same(&self, other: &FullValue) -> bool
        requires dims { self.now.dims ≡ other.now.dims }
        ensures same { Decides result (self.now ≡ other.now) }
    {
        match (&self.matrix, &other.matrix) {
            (None, None) => true,
            (None, Some(_)) => false,
            (Some(_), None) => false,
            (Some(a), Some(b)) => a.is_same(b),
        }
    }
}
