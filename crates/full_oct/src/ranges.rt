// The ranges of the variables of a matrix, read once for all forms that are made in them.
ghost use Rattle.std.specs.Prelude.{◌≡◌, ◌+◌, ◌*◌, ◌<◌, ◌≤◌, ◌++◌, [], ◌∷◌, IfOk, length};
ghost use Rattle.interval_form.specs.Interval.{range_of, ranges_of, unbounded};

use crate::matrix::FullMatrix;
use interval_form::{Interval, RangeTable};
use oct_def::NoMemory;
use std::alloc::Global;

impl FullMatrix {
    /// The range of a variable.
    #[tactic(auto, unfolding(interval_form::specs::Interval::range_of))]
    fn range(&self, v: u32) -> Interval
        requires { 2 * v + 1 < length self.now }
        ensures { result ≡ range_of self.now v }
    {
        let plus = 2 * v as usize;
        let minus = plus + 1;
        Interval::of_words(self.word(plus, minus), self.word(minus, plus))
    }
}

/// The ranges of the first `dims` variables of a matrix.
fn read(alloc: Global, matrix: &FullMatrix, dims: u32) -> Result<Vec<Interval>, NoMemory>
    requires small { dims ≤ 511 }
    requires rows { 2 * dims ≤ length matrix.now }
    ensures { IfOk result (λ v. v.items ≡ ranges_of dims matrix.now) }
{
    let mut ranges = Vec::new(alloc);
    'variables: for v in 0..dims {
        ranges.push(matrix.range(v))?;
    }
    Ok(ranges)
}

impl FullMatrix {
    /// The ranges of the first `dims` variables.
    pub(crate) fn ranges(&self, alloc: Global, dims: u32) -> Result<RangeTable, NoMemory>
        requires small { dims ≤ 511 }
        requires rows { 2 * dims ≤ length self.now }
        ensures ranges { IfOk result (λ t. t ≡ ranges_of dims self.now) }
    {
        let ranges = read(alloc, self, dims)?;
        Ok(RangeTable::of(ranges))
    }

    /// The same with one more dimension that has no bounds.
    pub(crate) fn ranges_with_new(&self, alloc: Global, dims: u32) -> Result<RangeTable, NoMemory>
        requires small { dims ≤ 511 }
        requires rows { 2 * dims ≤ length self.now }
        ensures ranges { IfOk result (λ t. t ≡ ranges_of dims self.now ++ unbounded ∷ []) }
    {
        let mut ranges = read(alloc, self, dims)?;
        ranges.push(Interval {
            low: None,
            high: None,
        })?;
        Ok(RangeTable::of(ranges))
    }
}
