// The tight closure of a full matrix, step by step as the definition has it. The pair steps work in place on one matrix.
ghost use Rattle.std.specs.Prelude.{◌≡◌, ℕ, ◌+◌, ◌*◌, ◌%◌, ◌<◌, IfOk, length, pos, slice_index_or};
ghost use Rattle.oct_def.specs.Bound.{bound_of, clamped, plus};
ghost use Rattle.oct_def.specs.Table.{at};
ghost use Rattle.oct_def.specs.Octagon.{tight_value};
ghost use Rattle.full_oct.specs.Words.{RowIs};
ghost use Rattle.oct_def.specs.Tight.{least_of_five, pair_step, closure, has_negative_cycle, even_entry, evening, has_crossing, strong_entry, strengthening, tight};

use crate::matrix::FullMatrix;
use crate::value::{FullValue, shared};
use oct_def::{
    NoMemory, clamped_sum, clamped_sum_of_three, evened_word, has_negative_sum, is_negative_word,
    least_word, opposite, sum_of_halves,
};
use std::alloc::Global;

// The rows of the two signed dimensions p and q of one variable, as they were before the step at it, and where in them the
// two meet.
#[derive(Drop)]
struct Pivots {
    first: Vec<i64>,
    second: Vec<i64>,
    across: i64,
    back: i64,
}

impl Pivots {
    // The word in column j of a row with the words over_p at p, over_q at q and `old` at j, after the step: the least of the
    // old one and of the four paths over the two.
    fn word(&self, over_p: i64, over_q: i64, j: usize, old: i64) -> i64
        requires first { j < length self.now.first.items }
        requires second { j < length self.now.second.items }
        ensures { bound_of result ≡ least_of_five (bound_of old)
            (clamped (plus (bound_of over_p) (bound_of (slice_index_or self.now.first.items j (pos 0)))))
            (clamped (plus (bound_of over_q) (bound_of (slice_index_or self.now.second.items j (pos 0)))))
            (clamped (plus (plus (bound_of over_p) (bound_of self.now.across)) (bound_of (slice_index_or self.now.second.items j (pos 0)))))
            (clamped (plus (plus (bound_of over_q) (bound_of self.now.back)) (bound_of (slice_index_or self.now.first.items j (pos 0))))) }
    {
        let first = self.first[j];
        let second = self.second[j];
        let by_p = clamped_sum(over_p, first);
        let by_q = clamped_sum(over_q, second);
        let by_pq = clamped_sum_of_three(over_p, self.across, second);
        let by_qp = clamped_sum_of_three(over_q, self.back, first);
        let by_both = least_word(by_pq, by_qp);
        let by_one = least_word(by_q, by_both);
        least_word(old, least_word(by_p, by_one))
    }
}

impl FullMatrix {
    // The rows of p and q.
    fn pivots(&self, alloc: Global, p: usize, q: usize) -> Result<Pivots, NoMemory>
        requires first { p < length self.now }
        requires second { q < length self.now }
        ensures first { IfOk result (λ r. RowIs self.now p r.first.items) }
        ensures second { IfOk result (λ r. RowIs self.now q r.second.items) }
        ensures across { IfOk result (λ r. bound_of r.across ≡ at self.now p q) }
        ensures back { IfOk result (λ r. bound_of r.back ≡ at self.now q p) }
    {
        let first = self.row(alloc, p)?;
        let second = self.row(alloc, q)?;
        let across = self.word(p, q);
        let back = self.word(q, p);
        Ok(Pivots {
            first,
            second,
            across,
            back,
        })
    }

    // The step at variable k. Row by row in place: of the old matrix it reads beside the row itself only the rows of the
    // variable, which it copies first.
    fn step(&mut self, alloc: Global, k: usize) -> Result<(), NoMemory>
        requires variable { 2 * k + 1 < length self.old }
        ensures step { IfOk result (λ _. self.new ≡ pair_step k self.old) }
        ensures rows { length self.new ≡ length self.old }
    {
        let size = self.size();
        let p = 2 * k;
        let q = p + 1;
        let pivots = self.pivots(alloc, p, q)?;
        for i in 0..size {
            let over_p = self.word(i, p);
            let over_q = self.word(i, q);
            self.rewrite_row(i, |j, old| pivots.word(over_p, over_q, j, old));
        }
        Ok(())
    }

    /// A matrix with the same words.
    pub fn copied(&self, alloc: Global) -> Result<FullMatrix, NoMemory>
        ensures same { IfOk result (λ m. m ≡ self.now) }
    {
        let size = self.size();
        let m = FullMatrix::tabulated(alloc, size, |i, j| self.word(i, j))?;
        Ok(m)
    }

    // The steps at all variables, in rising order, on one copy.
    fn stepped_at_all(&self, alloc: Global) -> Result<FullMatrix, NoMemory>
        ensures closure { IfOk result (λ m. m ≡ closure self.now) }
    {
        let mut m = self.copied(alloc)?;
        for k in 0..self.size() / 2 {
            m.step(alloc, k)?;
        }
        Ok(m)
    }

    // Whether some entry of the diagonal is negative.
    fn has_negative_cycle(&self) -> bool
        ensures { result ≡ has_negative_cycle self.now }
    {
        for i in 0..self.size() {
            if is_negative_word(self.word(i, i)) {
                return true;
            }
        }
        false
    }

    // The word at (i, j) after the evening.
    fn even_word(&self, i: usize, j: usize) -> i64
        requires row { i < length self.now }
        requires column { j < length self.now }
        ensures { bound_of result ≡ even_entry self.now i j }
    {
        if j == opposite(i) {
            evened_word(self.word(i, j))
        } else {
            self.word(i, j)
        }
    }

    // Each unary entry becomes even, rounded down.
    fn with_even_unary(&self, alloc: Global) -> Result<FullMatrix, NoMemory>
        ensures evening { IfOk result (λ m. m ≡ evening self.now) }
    {
        let size = self.size();
        let m = FullMatrix::tabulated(alloc, size, |i, j| self.even_word(i, j))?;
        Ok(m)
    }

    // Whether the two unary entries of some variable have a negative sum.
    fn has_crossing(&self) -> bool
        ensures { result ≡ has_crossing self.now }
    {
        for i in 0..self.size() {
            let above = self.word(i, opposite(i));
            let below = self.word(opposite(i), i);
            if has_negative_sum(above, below) {
                return true;
            }
        }
        false
    }

    // The word at (i, j) after the strengthening.
    fn strong_word(&self, i: usize, j: usize) -> i64
        requires even { length self.now % 2 ≡ 0 }
        requires row { i < length self.now }
        requires column { j < length self.now }
        ensures { bound_of result ≡ strong_entry self.now i j }
    {
        let halves = sum_of_halves(self.word(i, opposite(i)), self.word(opposite(j), j));
        least_word(self.word(i, j), halves)
    }

    // Each entry becomes at most the sum of the halves of the unary entries of its two dimensions.
    fn strengthened(&self, alloc: Global) -> Result<FullMatrix, NoMemory>
        ensures strengthening { IfOk result (λ m. m ≡ strengthening self.now) }
    {
        let size = self.size();
        let m = FullMatrix::tabulated(alloc, size, |i, j| self.strong_word(i, j))?;
        Ok(m)
    }

    /// The tight closure; `None` is Bottom. The time is cubic in the number of rows. At most three matrices live at a time
    /// beside the argument.
    pub fn closed(&self, alloc: Global) -> Result<Option<FullMatrix>, NoMemory>
        ensures tight { IfOk result (λ m. m ≡ tight self.now) }
    {
        let closure = self.stepped_at_all(alloc)?;
        if closure.has_negative_cycle() {
            return Ok(None);
        }
        let even = closure.with_even_unary(alloc)?;
        if even.has_crossing() {
            return Ok(None);
        }
        let strong = even.strengthened(alloc)?;
        Ok(Some(strong))
    }
}

impl FullValue {
    /// The tight closure. For n variables it takes time of order n^3 and the memory of at most three matrices at a time.
    pub fn closed(&self, alloc: Global) -> Result<FullValue, NoMemory>
        ensures value { IfOk result (λ v. v ≡ tight_value self.now) }
    {
        match &self.matrix {
            None => Ok(FullValue::bottom(self.dims)),
            Some(m) => {
                let closed = m.closed(alloc)?;
                let v = shared(alloc, self.dims, closed)?;
                Ok(v)
            }
        }
    }
}
