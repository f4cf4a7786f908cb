// Calls and returns: the matrix at a callee's entry, and the matrix after a call.
ghost use Rattle.std.specs.Prelude.{◌≡◌, ℕ, ◌+◌, ◌*◌, ◌^◌, ◌<◌, ◌≤◌, IfOk, length};
ghost use Rattle.std.specs.List.{All};
ghost use Rattle.std.specs.Option.{option_map};
ghost use Rattle.oct_def.specs.Bound.{bound_of, least};
ghost use Rattle.oct_def.specs.Table.{at};
ghost use Rattle.oct_def.specs.Matrix.{IsSquare};
ghost use Rattle.oct_def.specs.Tight.{tight};
ghost use Rattle.transfer_def.specs.Dimensions.{moved};
ghost use Rattle.transfer_def.specs.Enter.{argument_dimension as argument_dimension_of, enter_entry, enter_matrix, enter_value};
ghost use Rattle.transfer_def.specs.Back.{joined_dimension as joined_dimension_of, brought_in_row, joined, back_value};
ghost use Rattle.full_oct.specs.Words.{lowered};

use crate::dimensions::are_below;
use crate::matrix::FullMatrix;
use crate::value::{FullValue, shared};
use oct_def::{NONE, NoMemory, least_word};
use std::alloc::Global;

// The signed dimension of the caller that is the argument of the signed input i.
fn argument_dimension(args: &[u32], i: usize) -> usize
    requires input { i < 2 * length args.now }
    ensures { result ≡ argument_dimension_of args.now i }
{
    2 * args[i / 2] as usize + i % 2
}

// Where a signed dimension of the exit stands beside the caller's variables: an input at its argument, an output at its
// added variable.
fn joined_dimension(dims: usize, args: &[u32], i: usize) -> usize
    requires small { dims ≤ 512 }
    requires few { i < 2 ^ 60 }
    ensures { result ≡ joined_dimension_of dims args.now i }
{
    let variable = i / 2;
    if variable < args.len() {
        2 * args[variable] as usize + i % 2
    } else {
        2 * (dims + (variable - args.len())) + i % 2
    }
}

impl FullMatrix {
    // The word at (i, j) at the callee's entry.
    fn entered_word(&self, dims: usize, args: &[u32], i: usize, j: usize) -> i64
        requires rows { length self.now ≡ 2 * dims }
        requires args { All (λ x. x < dims) args.now }
        ensures { bound_of result ≡ enter_entry args.now self.now i j }
    {
        if i == j {
            return 0;
        }
        if are_below(i, j, 2 * args.len()) {
            self.word(argument_dimension(args, i), argument_dimension(args, j))
        } else {
            NONE
        }
    }

    /// The matrix at the entry of a callee with `inner` variables, from the caller's matrix over `dims` ones.
    pub fn entered(
        &self,
        alloc: Global,
        dims: usize,
        args: &[u32],
        inner: usize,
    ) -> Result<FullMatrix, NoMemory>
        requires rows { length self.now ≡ 2 * dims }
        requires args { All (λ x. x < dims) args.now }
        requires small { inner ≤ 512 }
        ensures entered { IfOk result (λ m. m ≡ enter_matrix args.now inner self.now) }
    {
        let size = 2 * inner;
        let m = FullMatrix::tabulated(alloc, size, |i, j| self.entered_word(dims, args, i, j))?;
        Ok(m)
    }

    // The word at (i, j) becomes the lesser of itself and the given one.
    fn lower(&mut self, i: usize, j: usize, word: i64)
        requires row { i < length self.old }
        requires column { j < length self.old }
        ensures { self.new ≡ lowered self.old i j (bound_of word) }
    {
        let old = self.word(i, j);
        self.set(i, j, least_word(old, word));
    }

    // What row i of the exit says is taken by minimum at the places where its inputs and outputs stand.
    fn bring_row(&mut self, exit: &FullMatrix, dims: usize, args: &[u32], outputs: usize, i: usize)
        requires small { dims + outputs ≤ 512 }
        requires rows { length self.old ≡ 2 * (dims + outputs) }
        requires args { All (λ x. x < dims) args.now }
        requires inside { 2 * (length args.now + outputs) ≤ length exit.now }
        requires row { i < 2 * (length args.now + outputs) }
        ensures rows { length self.new ≡ length self.old }
        ensures square { IsSquare self.new }
        ensures entries { (p q : ℕ) → p < length self.old → q < length self.old
            → at self.new p q ≡ least (at self.old p q) (brought_in_row dims args.now outputs exit.now p q i) }
    {
        let _ = self.size();
        let _ = exit.size();
        let row = joined_dimension(dims, args, i);
        for j in 0..2 * (args.len() + outputs) {
            let column = joined_dimension(dims, args, j);
            self.lower(row, column, exit.word(i, j));
        }
    }

    /// The caller's matrix with a variable added for each output, and by minimum what the exit's matrix says of inputs and
    /// outputs. Arguments may repeat.
    pub fn with_exit(
        &self,
        alloc: Global,
        exit: &FullMatrix,
        dims: usize,
        args: &[u32],
        outputs: usize,
    ) -> Result<FullMatrix, NoMemory>
        requires small { dims + outputs ≤ 512 }
        requires rows { length self.now ≡ 2 * dims }
        requires args { All (λ x. x < dims) args.now }
        requires inside { 2 * (length args.now + outputs) ≤ length exit.now }
        ensures joined { IfOk result (λ m. m ≡ joined dims args.now outputs self.now exit.now) }
        ensures rows { IfOk result (λ m. length m ≡ 2 * (dims + outputs)) }
    {
        let _ = exit.size();
        let mut m = self.extended(alloc, dims, outputs)?;
        for i in 0..2 * (args.len() + outputs) {
            m.bring_row(exit, dims, args, outputs, i);
        }
        Ok(m)
    }

    /// The tight closure, in which the added variables, the last ones, then take the places of the targets. `None` is Bottom.
    pub fn closed_and_moved(
        &self,
        alloc: Global,
        dims: usize,
        targets: &[u32],
    ) -> Result<Option<FullMatrix>, NoMemory>
        requires small { dims + length targets.now ≤ 512 }
        requires rows { length self.now ≡ 2 * (dims + length targets.now) }
        ensures moved { IfOk result (λ m. m ≡ option_map (moved dims targets.now) (tight self.now)) }
    {
        match self.closed(alloc)? {
            None => Ok(None),
            Some(closed) => {
                let moved = closed.moved(alloc, dims, targets)?;
                Ok(Some(moved))
            }
        }
    }
}

impl FullValue {
    /// The value at the entry of a callee with `dims` variables, of which the first ones are its inputs.
    pub fn entered(&self, alloc: Global, args: &[u32], dims: u32) -> Result<FullValue, NoMemory>
        requires small { dims ≤ 256 }
        requires args { All (λ x. x < self.now.dims) args.now }
        ensures value { IfOk result (λ v. v ≡ enter_value self.now args.now dims) }
    {
        match &self.matrix {
            None => Ok(FullValue::bottom(dims)),
            Some(m) => {
                let entered = m.entered(alloc, self.dims as usize, args, dims as usize)?;
                let v = shared(alloc, dims, Some(entered))?;
                Ok(v)
            }
        }
    }

    /// The value after a call, from this value before it and the value at the callee's exit. It closes the caller's
    /// variables and the outputs.
    pub fn returned(
        &self,
        alloc: Global,
        exit: &FullValue,
        args: &[u32],
        outputs: u32,
        targets: &[u32],
    ) -> Result<FullValue, NoMemory>
        requires few { outputs ≤ 128 }
        requires args { All (λ x. x < self.now.dims) args.now }
        requires inside { length args.now + outputs ≤ exit.now.dims }
        requires count { length targets.now ≡ outputs }
        ensures value { IfOk result (λ v. v ≡ back_value self.now exit.now args.now outputs targets.now) }
    {
        match (&self.matrix, &exit.matrix) {
            (None, _) => Ok(FullValue::bottom(self.dims)),
            (Some(_), None) => Ok(FullValue::bottom(self.dims)),
            (Some(before), Some(at_exit)) => {
                let dims = self.dims as usize;
                let joined = before.with_exit(alloc, at_exit, dims, args, outputs as usize)?;
                let after = joined.closed_and_moved(alloc, dims, targets)?;
                let v = shared(alloc, self.dims, after)?;
                Ok(v)
            }
        }
    }
}
