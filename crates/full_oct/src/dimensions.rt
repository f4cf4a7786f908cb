// Variables that are added behind those of a matrix, and that take the places of others.
ghost use Rattle.std.specs.Prelude.{◌≡◌, ℕ, ◌+◌, ◌*◌, ◌&&◌, nat_lt, ◌<◌, ◌≤◌, IfOk, length, slice_index_or};
ghost use Rattle.std.specs.List.{All};
ghost use Rattle.oct_def.specs.Bound.{bound_of};
ghost use Rattle.oct_def.specs.Table.{at};
ghost use Rattle.transfer_def.specs.Dimensions.{extended_entry, extended, moved_variable as moved_variable_of, moved_dimension as moved_dimension_of, moved};
ghost use Rattle.full_oct.specs.Places.{AreMoved};

use crate::matrix::{FullMatrix, top_word};
use oct_def::NoMemory;
use std::alloc::Global;

/// Whether i and j are below n.
pub fn are_below(i: usize, j: usize, n: usize) -> bool
    ensures { result ≡ (nat_lt i n && nat_lt j n) }
{
    i < n && j < n
}

// The variable that takes the place of v: of the first target the first added one, and so on.
fn moved_variable(first: usize, targets: &[u32], v: usize) -> usize
    requires small { first ≤ 512 }
    ensures { result ≡ moved_variable_of first targets.now v }
{
    for k in 0..targets.len() {
        if targets[k] as usize == v {
            return first + k;
        }
    }
    v
}

// The signed dimensions that take the places of those of `dims` variables.
fn moved_dimensions(alloc: Global, dims: usize, targets: &[u32]) -> Result<Vec<usize>, NoMemory>
    requires small { dims ≤ 512 }
    requires few { length targets.now ≤ 512 }
    ensures each { IfOk result (λ v. AreMoved dims targets.now v.items) }
{
    let mut places = Vec::with_capacity(alloc, 2 * dims)?;
    for i in 0..2 * dims {
        let variable = moved_variable(dims, targets, i / 2);
        places.push(2 * variable + i % 2)?;
    }
    Ok(places)
}

impl FullMatrix {
    // The word at the places of i and j.
    fn picked_word(&self, places: &[usize], i: usize, j: usize) -> i64
        requires inside { All (λ p. p < length self.now) places.now }
        requires row { i < length places.now }
        requires column { j < length places.now }
        ensures { bound_of result ≡ at self.now (slice_index_or places.now i 0) (slice_index_or places.now j 0) }
    {
        self.word(places[i], places[j])
    }

    // The word at (i, j) with variables added that have no bounds.
    fn word_with_added(&self, dims: usize, i: usize, j: usize) -> i64
        requires rows { length self.now ≡ 2 * dims }
        ensures { bound_of result ≡ extended_entry dims self.now i j }
    {
        let size = self.size();
        if are_below(i, j, size) {
            self.word(i, j)
        } else {
            top_word(i, j)
        }
    }

    /// With so many more variables, the last ones, that have no bounds.
    pub fn extended(&self, alloc: Global, dims: usize, added: usize) -> Result<FullMatrix, NoMemory>
        requires small { dims + added ≤ 512 }
        requires rows { length self.now ≡ 2 * dims }
        ensures extended { IfOk result (λ m. m ≡ extended dims added self.now) }
    {
        let size = 2 * (dims + added);
        let m = FullMatrix::tabulated(alloc, size, |i, j| self.word_with_added(dims, i, j))?;
        Ok(m)
    }

    /// The first variables, with each target's place taken by an added variable, the last ones in order.
    pub fn moved(&self, alloc: Global, dims: usize, targets: &[u32]) -> Result<FullMatrix, NoMemory>
        requires small { dims + length targets.now ≤ 512 }
        requires rows { length self.now ≡ 2 * (dims + length targets.now) }
        ensures moved { IfOk result (λ m. m ≡ moved dims targets.now self.now) }
    {
        let places = moved_dimensions(alloc, dims, targets)?;
        let places = places.as_slice();
        let size = 2 * dims;
        let m = FullMatrix::tabulated(alloc, size, |i, j| self.picked_word(places, i, j))?;
        Ok(m)
    }
}
