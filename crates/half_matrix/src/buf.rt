// A half matrix of words, row after row.
ghost use Rattle.std.specs.Prelude.{◌≡◌, ℕ, ◌+◌, ◌*◌, ◌/◌, ◌<◌, ◌≤◌, IfOk, length, ℤ, pos, slice_index_or};
ghost use Rattle.std.specs.Borrow.{sem};
ghost use Rattle.oct_def.specs.Bound.{bound_of, word_of};
ghost use Rattle.oct_def.specs.Table.{at};
ghost use Rattle.oct_def.specs.Octagon.{top_matrix};
ghost use Rattle.oct_def.specs.Matrix.{opposite as opposite_of, IsSquare, IsCoherent};
ghost use Rattle.half_matrix.specs.Place.{start as start_of, place as place_of, row_length};
ghost use Rattle.half_matrix.specs.Lending.{LendsRow, with_entry, IsRowOf};

use memory::NoMemory;
use oct_def::{NONE, opposite};
use std::alloc::{AllocError, Global};
use std::marker::Model;

/// A coherent matrix over the signed dimensions of at most 512 variables.
#[derive(Drop)]
pub struct HalfBuf {
    vars: u32,
    words: Vec<i64>,
}

impl Model for HalfBuf {
    ghost use Rattle.oct_def.specs.Table.{Matrix};
    ghost use Rattle.half_matrix.specs.Half.{matrix_of, IsHalf};

    ghost Value = { Matrix };

    ghost view = { λ b. matrix_of b.vars b.words.items };

    ghost invariant = { λ b. IsHalf b.vars b.words.items };
}

// Where row i begins.
fn start(i: usize) -> usize
    requires small { i < 1024 }
    ensures start { result ≡ start_of i }
    ensures small { result < 525312 }
{
    (i + 1) * (i + 1) / 2
}

// The place that the entry (i, j) is read from.
fn place(vars: u32, i: usize, j: usize) -> usize
    requires small { vars ≤ 512 }
    requires row { i < 2 * vars }
    requires column { j < 2 * vars }
    ensures place { result ≡ place_of i j }
    ensures within { result < 2 * vars * (vars + 1) }
{
    if j <= opposite(i) {
        start(i) + j
    } else {
        start(opposite(j)) + opposite(i)
    }
}

impl Clone for HalfBuf {
    ghost is_clone = { λ a b. b ≡ a };

    fn clone(&self) -> Result<HalfBuf, AllocError> {
        let words = self.words.clone()?;
        Ok(HalfBuf {
            vars: self.vars,
            words,
        })
    }
}

impl HalfBuf {
    /// The matrix over so many variables that every state meets: no bounds but 0 on the diagonal.
    pub fn top(alloc: Global, vars: u32) -> Result<HalfBuf, NoMemory>
        requires small { vars ≤ 512 }
        ensures { IfOk result (λ m. m ≡ top_matrix vars) }
    {
        let n = vars as usize;
        let mut words = vec![in alloc; NONE; 2 * n * (n + 1)]?;
        for i in 0..2 * n {
            words[start(i) + i] = 0;
        }
        Ok(HalfBuf { vars, words })
    }

    /// The number of variables.
    pub fn vars(&self) -> u32
        ensures rows { 2 * result ≡ length self.now }
        ensures small { result ≤ 512 }
    {
        self.vars
    }

    /// Law: the matrix is square and coherent, which the type keeps.
    pub fn shape(&self)
        ensures square { IsSquare self.now }
        ensures coherent { IsCoherent self.now }
    {
        let _ = &self.vars;
    }

    /// The word of the bound on V_j - V_i.
    pub fn get(&self, i: u32, j: u32) -> i64
        requires row { i < length self.now }
        requires column { j < length self.now }
        ensures word { result ≡ word_of (at self.now i j) }
        ensures bound { bound_of result ≡ at self.now i j }
    {
        self.words[place(self.vars, i as usize, j as usize)]
    }

    /// The stored words of row i, for the columns from 0 to the greater of i and its opposite. What is written there stands
    /// in the row and at the twins, but for the last word of an odd row, which is never read: see `law_rows`.
    pub fn row_mut(&mut self, i: u32) -> &mut [i64]
        requires row { i < length self.old }
        ensures* writes_back { sem 𝓛 (LendsRow self.entry i result) }
        ensures length { length result.now ≡ row_length i }
        ensures words { (j : ℕ) → j ≤ opposite_of i → bound_of (slice_index_or result.now j (pos 0)) ≡ at self.old i j }
    {
        let _ = &self.vars;
        let from = start(i as usize);
        let to = from + 2 * (i as usize / 2) + 2;
        self.words.slice_mut(from..to)
    }

    /// The word at row i and column j, and at its twin, becomes the given one.
    pub fn set(&mut self, i: u32, j: u32, word: i64)
        requires row { i < length self.old }
        requires column { j < length self.old }
        ensures { self.new ≡ with_entry self.old i j (bound_of word) }
    {
        let at = place(self.vars, i as usize, j as usize);
        self.words[at] = word;
    }

    /// Writes row k of the matrix to the buffer, one word a column.
    pub fn fill_row(&self, k: u32, buf: &mut [i64])
        requires row { k < length self.now }
        requires places { length buf.old ≡ length self.now }
        ensures { IsRowOf self.now k buf.new }
    {
        let _ = &self.vars;
        let k = k as usize;
        let own = opposite(k) + 1;
        let from = start(k);
        for j in 0..own {
            buf[j] = self.words[from + j];
        }
        for j in own..buf.len() {
            buf[j] = self.words[start(opposite(j)) + opposite(k)];
        }
    }
}
