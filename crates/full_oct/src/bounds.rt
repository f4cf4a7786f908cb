// The bounds of a form, taken by a matrix.
ghost use Rattle.std.specs.Prelude.{◌≡◌, ◌*◌, ◌<◌, IfOk, length};
ghost use Rattle.std.specs.List.{All};
ghost use Rattle.std.specs.Option.{option_and_then};
ghost use Rattle.interval_form.specs.FormBounds.{bounded};
ghost use Rattle.interval_form.specs.Listed.{IsPlaced};
ghost use Rattle.interval_form.specs.Sparse.{IsFormOver, form_in};
ghost use Rattle.full_oct.specs.Taken.{with_bound, taken};

use crate::matrix::FullMatrix;
use interval_form::{Bounds, Form, OctBound, RangeTable, Ranges, form_constraints};
use oct_def::{NoMemory, least_word};
use std::alloc::Global;

impl FullMatrix {
    /// Takes a bound by minimum.
    fn take(&mut self, bound: OctBound)
        requires row { bound.row < length self.old }
        requires column { bound.column < length self.old }
        ensures { self.new ≡ with_bound self.old bound }
    {
        let row = bound.row as usize;
        let column = bound.column as usize;
        let old = self.word(row, column);
        self.set(row, column, least_word(old, bound.word));
    }

    /// Takes each bound of a list by minimum.
    fn take_all(&mut self, n: usize, bounds: &[OctBound])
        requires rows { length self.old ≡ 2 * n }
        requires placed { All (IsPlaced n) bounds.now }
        ensures { self.new ≡ taken self.old bounds.now }
    {
        'bounds: for k in 0..bounds.len() {
            self.take(bounds[k]);
        }
    }

    /// The matrix where a form is at most 0, not closed; `None` is Bottom.
    pub(crate) fn bounded_by<R: Ranges>(
        self,
        alloc: Global,
        form: &Form,
        ranges: &R,
    ) -> Result<Option<FullMatrix>, NoMemory>
        requires rows { length self ≡ 2 * length (R.intervals ranges.now) }
        requires over { IsFormOver (length (R.intervals ranges.now)) form.now }
        ensures { IfOk result (λ m. m ≡ bounded (R.intervals ranges.now) (form_in (length (R.intervals ranges.now)) form.now) self) }
    {
        let dims = self.size() / 2;
        let constraints = form_constraints(alloc, form, ranges)?;
        match constraints {
            Bounds::Nothing => Ok(None),
            Bounds::Few(bounds) => {
                let mut m = self;
                m.take_all(dims, bounds.as_slice());
                Ok(Some(m))
            }
        }
    }

    /// The matrix where each of two forms is at most 0, not closed; `None` is Bottom.
    pub(crate) fn bounded_twice(
        self,
        alloc: Global,
        first: &Form,
        second: &Form,
        ranges: &RangeTable,
    ) -> Result<Option<FullMatrix>, NoMemory>
        requires rows { length self ≡ 2 * length ranges.now }
        requires first { IsFormOver (length ranges.now) first.now }
        requires second { IsFormOver (length ranges.now) second.now }
        ensures { IfOk result (λ m. m ≡ option_and_then (bounded ranges.now (form_in (length ranges.now) second.now)) (bounded ranges.now (form_in (length ranges.now) first.now) self)) }
    {
        let bounded = self.bounded_by(alloc, first, ranges)?;
        match bounded {
            None => Ok(None),
            Some(m) => {
                let both = m.bounded_by(alloc, second, ranges)?;
                Ok(both)
            }
        }
    }
}
