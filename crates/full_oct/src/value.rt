// The values of the plain domain: Bottom, or a full matrix that other values may share.
ghost use Rattle.std.specs.Prelude.{◌≡◌, ℕ, ◌*◌, ◌<◌, ◌≤◌, IfOk, IfSome, IsSome, is_none};
ghost use Rattle.oct_def.specs.Bound.{bound_of};
ghost use Rattle.oct_def.specs.Table.{at};
ghost use Rattle.oct_def.specs.Octagon.{IsOctagon, IsValueOver, bottom_value, top_value};
ghost use Rattle.full_oct.specs.Value.{octagon_of};

use crate::matrix::FullMatrix;
use oct_def::NoMemory;
use std::alloc::Global;
use std::marker::Model;
use std::rc::Rc;

/// A value over n variables, at most 256: Bottom, or a full matrix of 32 n^2 bytes that other values may share.
#[derive(Drop)]
pub struct FullValue {
    pub(crate) dims: u32,
    pub(crate) matrix: Option<Rc<FullMatrix>>,
}

impl Model for FullValue {
    ghost use Rattle.std.specs.Option.{option_map};
    ghost use Rattle.oct_def.specs.Octagon.{Octagon};
    ghost use Rattle.full_oct.specs.Value.{octagon_of, IsKept};

    ghost Value = { Octagon };

    ghost view = { λ v. octagon_of v.dims (option_map (λ r. r.value) v.matrix) };

    ghost invariant = { λ v. IsKept v.dims (option_map (λ r. r.value) v.matrix) };
}

/// The value of a matrix, or Bottom. It takes the memory of one shared block.
pub fn shared(alloc: Global, dims: u32, matrix: Option<FullMatrix>) -> Result<FullValue, NoMemory>
    requires small { dims ≤ 256 }
    requires value { IsValueOver dims matrix }
    ensures value { IfOk result (λ v. v ≡ octagon_of dims matrix) }
{
    match matrix {
        None => Ok(FullValue { dims, matrix: None }),
        Some(m) => {
            let m = Rc::new(alloc, m)?;
            Ok(FullValue {
                dims,
                matrix: Some(m),
            })
        }
    }
}

impl FullValue {
    /// Law: a value is one of the definitions, over at most 256 variables.
    pub fn known(&self)
        ensures value { IsOctagon self.now }
        ensures small { self.now.dims ≤ 256 }
    {
        let _ = &self.dims;
    }

    /// The value over `dims` variables without bounds, in memory of its own.
    pub fn top(alloc: Global, dims: u32) -> Result<FullValue, NoMemory>
        requires { dims ≤ 256 }
        ensures value { IfOk result (λ v. v ≡ top_value dims) }
    {
        let m = FullMatrix::top(alloc, dims as usize)?;
        let v = shared(alloc, dims, Some(m))?;
        Ok(v)
    }

    /// Bottom over `dims` variables. It takes no memory.
    pub fn bottom(dims: u32) -> FullValue
        requires { dims ≤ 256 }
        ensures value { result ≡ bottom_value dims }
    {
        FullValue { dims, matrix: None }
    }

    /// The same value. It copies no matrix.
    pub fn share(&self) -> Result<FullValue, NoMemory>
        ensures same { IfOk result (λ w. w ≡ self.now) }
    {
        let matrix = self.matrix.clone()?;
        Ok(FullValue {
            dims: self.dims,
            matrix,
        })
    }

    /// Whether the value is Bottom.
    pub fn is_bottom(&self) -> bool
        ensures { result ≡ is_none self.now.matrix }
    {
        self.matrix.is_none()
    }

    /// The word at row i and column j, which bounds `V_j - V_i`: `NONE`, or from `-LIMIT` to `LIMIT`.
    pub fn entry(&self, i: u32, j: u32) -> i64
        requires not_bottom { IsSome self.now.matrix }
        requires row { i < 2 * self.now.dims }
        requires column { j < 2 * self.now.dims }
        ensures bound { IfSome self.now.matrix (λ m. bound_of result ≡ at m i j) }
    {
        match &self.matrix {
            None => unreachable!(),
            Some(m) => m.word(i as usize, j as usize),
        }
    }
}
