//! A matrix by its finite half entries, in order of their places.
ghost use Rattle.std.specs.Prelude.{◌≡◌, ◌*◌, ◌<◌, ◌≤◌, OnErr, OnOk, length};
ghost use Rattle.oct_def.specs.Matrix.{IsEvenMatrix, opposite as opposite_of};
ghost use Rattle.oct_def.specs.Octagon.{top_matrix};
ghost use Rattle.inv_text.specs.Listed.{half_bounds};
ghost use Rattle.inv_text.specs.Given.{TakesBound, with_bound};
ghost use Rattle.inv_text.specs.Places.{is_before, order_key as key_of, stored_bound};

use crate::bound::InvBound;
use memory::NoMemory;
use oct_def::opposite;
use std::alloc::Global;
use std::marker::Model;

/// A matrix over at most 256 variables: 16 bytes for each finite half entry.
#[derive(Drop)]
pub struct HalfBounds {
    dims: u32,
    bounds: Vec<InvBound>,
}

impl Model for HalfBounds {
    ghost use Rattle.oct_def.specs.Table.{Matrix};
    ghost use Rattle.inv_text.specs.Listed.{listed_matrix, IsListing};

    ghost Value = { Matrix };

    ghost view = { λ h. listed_matrix h.dims h.bounds.items };

    ghost invariant = { λ h. IsListing h.dims h.bounds.items };
}

impl HalfBounds {
    /// The matrix over `dims` variables without bounds.
    pub fn top(alloc: Global, dims: u32) -> HalfBounds
        requires small { dims ≤ 256 }
        ensures { result ≡ top_matrix dims }
    {
        HalfBounds {
            dims,
            bounds: Vec::new(alloc),
        }
    }

    /// The number of variables.
    pub fn dims(&self) -> u32
        ensures rows { length self.now ≡ 2 * result }
        ensures small { result ≤ 256 }
        ensures value { IsEvenMatrix result self.now }
    {
        self.dims
    }

    /// Law: a matrix with so many rows is one over half as many variables.
    pub fn known(&self, dims: u32)
        requires rows { length self.now ≡ 2 * dims }
        ensures { IsEvenMatrix dims self.now }
    {
        let _ = &self.dims;
    }

    /// The finite half entries.
    pub fn bounds(&self) -> &[InvBound]
        ensures { result.now ≡ half_bounds self.now }
    {
        &self.bounds
    }

    /// Puts a bound at its place and at the coherent one. Bounds that come in order of their places take constant time
    /// each; another one takes as many steps as bounds stand behind its place.
    pub fn put(&mut self, bound: InvBound) -> Result<(), NoMemory>
        requires takes { TakesBound self.old bound }
        ensures ok { OnOk result (self.new ≡ with_bound self.old bound) }
        ensures err { OnErr result (self.new ≡ self.old) }
    {
        let _ = &self.dims;
        let bound = stored(bound);
        let mut place = self.bounds.len();
        while place > 0 && is_earlier(bound, self.bounds[place - 1]) {
            place -= 1;
        }
        self.bounds.insert(place, bound)?;
        Ok(())
    }
}

/// The bound at the place of the two that a half matrix stores.
fn stored(bound: InvBound) -> InvBound
    ensures { result ≡ stored_bound bound }
{
    if bound.column / 2 <= bound.row / 2 {
        return bound;
    }
    InvBound {
        row: opposite(bound.column as usize) as u32,
        column: opposite(bound.row as usize) as u32,
        word: bound.word,
    }
}

/// Whether a bound's place comes before that of another one.
pub fn is_earlier(a: InvBound, b: InvBound) -> bool
    ensures { result ≡ is_before a b }
{
    order_key(a) < order_key(b)
}

/// Numbers in the order of the places: rows follow each other.
fn order_key(bound: InvBound) -> u64
    ensures { result ≡ key_of bound }
{
    bound.row as u64 * 4294967296 + bound.column as u64
}
