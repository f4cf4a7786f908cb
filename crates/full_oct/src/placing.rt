//! Values made of listed bounds.
ghost use Rattle.std.specs.Prelude.{◌≡◌, ℕ, ◌*◌, ◌<◌, ◌≤◌, IfOk, length, map};
ghost use Rattle.std.specs.List.{All};
ghost use Rattle.full_oct.specs.Placing.{placed_of};
ghost use Rattle.placed_bounds.specs.Bounded.{IsPlacedIn, all_bounded, bounded_matrix, value_of_bounds};

use crate::matrix::FullMatrix;
use crate::plain::FullDomain;
use crate::value::{FullValue, shared};
use interval_form::OctBound;
use oct_def::{NoMemory, least_word, opposite};
use std::alloc::Global;

impl FullMatrix {
    /// Takes a bound by minimum, at its place and at the coherent one.
    fn take_coherent(&mut self, bound: OctBound)
        requires row { bound.row < length self.old }
        requires column { bound.column < length self.old }
        ensures { self.new ≡ bounded_matrix self.old (placed_of bound) }
    {
        let _size = self.size();
        let row = bound.row as usize;
        let column = bound.column as usize;
        let old = self.word(row, column);
        self.set(row, column, least_word(old, bound.word));
        let twin_row = opposite(column);
        let twin_column = opposite(row);
        let old_twin = self.word(twin_row, twin_column);
        self.set(twin_row, twin_column, least_word(old_twin, bound.word));
    }

    /// Takes each bound of a list by minimum, at its place and at the coherent one.
    fn take_all_coherent(&mut self, dims: u32, bounds: &[OctBound])
        requires rows { length self.old ≡ 2 * dims }
        requires placed { All (IsPlacedIn dims) (map placed_of bounds.now) }
        ensures { self.new ≡ all_bounded self.old (map placed_of bounds.now) }
    {
        'bounds: for k in 0..bounds.len() {
            self.take_coherent(bounds[k]);
        }
    }
}

impl FullDomain {
    /// The top value with these bounds and their coherent ones by minimum.
    pub fn from_bounds(
        &mut self,
        alloc: Global,
        dims: u32,
        bounds: &[OctBound],
    ) -> Result<FullValue, NoMemory>
        requires small { dims ≤ 256 }
        requires placed { All (IsPlacedIn dims) (map placed_of bounds.now) }
        ensures value { IfOk result (λ v. v ≡ value_of_bounds dims (map placed_of bounds.now)) }
    {
        let mut m = FullMatrix::top(alloc, dims as usize)?;
        m.take_all_coherent(dims, bounds);
        let v = shared(alloc, dims, Some(m))?;
        Ok(v)
    }
}
