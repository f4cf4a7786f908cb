// A full matrix of words: one word for each place, row after row. One builder carries every loop over the places.
ghost use Rattle.std.specs.Prelude.{◌≡◌, ℕ, ◌+◌, ◌*◌, ◌/◌, ◌%◌, ◌<◌, ◌≤◌, IfOk, length, ℤ, pos, slice_index_or};
ghost use Rattle.std.specs.Bool.{Decides};
ghost use Rattle.oct_def.specs.Bound.{bound_of};
ghost use Rattle.oct_def.specs.Table.{at};
ghost use Rattle.oct_def.specs.Matrix.{IsSquare};
ghost use Rattle.oct_def.specs.Octagon.{top_entry, top_matrix};
ghost use Rattle.full_oct.specs.Words.{replaced, RowIs};

use oct_def::{NONE, NoMemory};
use std::alloc::Global;
use std::marker::Model;

/// A square matrix of bounds over the signed dimensions of at most 512 variables: eight bytes for each entry.
#[derive(Drop)]
pub struct FullMatrix {
    size: usize,
    words: Vec<i64>,
}

impl Model for FullMatrix {
    ghost use Rattle.oct_def.specs.Table.{Matrix};
    ghost use Rattle.full_oct.specs.Words.{matrix_of, IsFull};

    ghost Value = { Matrix };

    ghost view = { λ m. matrix_of m.size m.words.items };

    ghost invariant = { λ m. IsFull m.size m.words.items };
}

impl FullMatrix {
    /// The number of rows.
    pub fn size(&self) -> usize
        ensures rows { result ≡ length self.now }
        ensures square { IsSquare self.now }
        ensures even { result % 2 ≡ 0 }
        ensures small { result ≤ 1024 }
    {
        self.size
    }

    /// The word at row i and column j.
    pub fn word(&self, i: usize, j: usize) -> i64
        requires row { i < length self.now }
        requires column { j < length self.now }
        ensures bound { bound_of result ≡ at self.now i j }
    {
        self.words[i * self.size + j]
    }

    /// The matrix over `dims` variables without bounds.
    pub fn top(alloc: Global, dims: usize) -> Result<FullMatrix, NoMemory>
        requires { dims ≤ 256 }
        ensures top { IfOk result (λ m. m ≡ top_matrix dims) }
    {
        let size = 2 * dims;
        let m = FullMatrix::tabulated(alloc, size, |i, j| top_word(i, j))?;
        Ok(m)
    }

    /// Whether two matrices of one size are the same.
    pub fn is_same(&self, other: &FullMatrix) -> bool
        requires rows { length other.now ≡ length self.now }
        ensures same { Decides result (self.now ≡ other.now) }
    {
        self.words == other.words
    }

    /// The word at row i and column j becomes the given one.
    pub fn set(&mut self, i: usize, j: usize, word: i64)
        requires row { i < length self.old }
        requires column { j < length self.old }
        ensures { self.new ≡ replaced self.old i j (bound_of word) }
    {
        let place = i * self.size + j;
        self.words[place] = word;
    }

    /// Each word of row i becomes what `entry` makes of its column and of itself.
    pub fn rewrite_row<F: Fn(usize, i64) -> i64>(&mut self, i: usize, entry: F)
        requires row { i < length self.old }
        requires callable { (j : ℕ) (w : ℤ) → j < length self.old → F.pre entry j w }
        ensures rows { length self.new ≡ length self.old }
        ensures square { IsSquare self.new }
        ensures others { (r c : ℕ) → r < length self.old → c < length self.old → (r ≡ i → ⊥) → at self.new r c ≡ at self.old r c }
        ensures entries { (j : ℕ) → j < length self.old → (v w : ℤ) × (bound_of v ≡ at self.old i j) × F.post entry j v w × (bound_of w ≡ at self.new i j) }
    {
        for j in 0..self.size {
            let word = self.word(i, j);
            self.set(i, j, entry(j, word));
        }
    }

    /// A copy of row i.
    pub fn row(&self, alloc: Global, i: usize) -> Result<Vec<i64>, NoMemory>
        requires row { i < length self.now }
        ensures words { IfOk result (λ r. RowIs self.now i r.items) }
    {
        let mut row = Vec::with_capacity(alloc, self.size)?;
        for j in 0..self.size {
            row.push(self.word(i, j))?;
        }
        Ok(row)
    }

    /// The matrix of `size` rows whose word at row i and column j is `entry(i, j)`. It takes the memory of its words.
    pub fn tabulated<F: Fn(usize, usize) -> i64>(
        alloc: Global,
        size: usize,
        entry: F,
    ) -> Result<FullMatrix, NoMemory>
        requires even { size % 2 ≡ 0 }
        requires small { size ≤ 1024 }
        requires callable { (i j : ℕ) → i < size → j < size → F.pre entry i j }
        ensures rows { IfOk result (λ m. length m ≡ size) }
        ensures square { IfOk result (λ m. IsSquare m) }
        ensures entries { IfOk result (λ m. (i j : ℕ) → i < size → j < size → (w : ℤ) × F.post entry i j w × (bound_of w ≡ at m i j)) }
    {
        let words = filled(alloc, size, entry)?;
        Ok(FullMatrix { size, words })
    }
}

/// The word at (i, j) where there is no bound but 0 on the diagonal.
pub fn top_word(i: usize, j: usize) -> i64
    ensures { bound_of result ≡ top_entry i j }
{
    if i == j { 0 } else { NONE }
}

// The words of all places, row after row.
fn filled<F: Fn(usize, usize) -> i64>(
    alloc: Global,
    size: usize,
    entry: F,
) -> Result<Vec<i64>, NoMemory>
    requires small { size ≤ 1024 }
    requires callable { (i j : ℕ) → i < size → j < size → F.pre entry i j }
    ensures filled { IfOk result (λ v. length v.items ≡ size * size) }
    ensures entries { IfOk result (λ v. (i j : ℕ) → i < size → j < size → F.post entry i j (slice_index_or v.items (i * size + j) (pos 0))) }
{
    let mut words = Vec::with_capacity(alloc, size * size)?;
    'rows: for i in 0..size {
        'columns: for j in 0..size {
            words.push(entry(i, j))?;
        }
    }
    Ok(words)
}
