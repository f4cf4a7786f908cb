// The bounds of forms, as one list.
ghost use Rattle.std.specs.Prelude.{◌≡◌, ◌++◌, IfOk, length};
ghost use Rattle.interval_form.specs.Sparse.{IsFormOver, form_in};
ghost use Rattle.dec_transfer.specs.Listed.{AreBoth};

use interval_form::{Bounds, Form, OctBound, RangeTable, form_constraints};
use memory::NoMemory;
use std::alloc::Global;

// The bounds of one list behind those of another.
fn with_more(first: Vec<OctBound>, second: Vec<OctBound>) -> Result<Vec<OctBound>, NoMemory>
    ensures { IfOk result (λ v. v.items ≡ first.items ++ second.items) }
{
    let mut all = first;
    for k in 0..second.len() {
        let bound = second[k];
        all.push(bound)?;
    }
    Ok(all)
}

/// The bounds where each of two forms is at most 0; `Nothing` where one of them can't be.
pub(crate) fn bounds_of_both(
    alloc: Global,
    first: &Form,
    second: &Form,
    ranges: &RangeTable,
) -> Result<Bounds, NoMemory>
    requires first { IsFormOver (length ranges.now) first.now }
    requires second { IsFormOver (length ranges.now) second.now }
    ensures { IfOk result (λ b. AreBoth ranges.now (form_in (length ranges.now) first.now) (form_in (length ranges.now) second.now) b) }
{
    match form_constraints(alloc, first, ranges)? {
        Bounds::Nothing => Ok(Bounds::Nothing),
        Bounds::Few(bounds) => match form_constraints(alloc, second, ranges)? {
            Bounds::Nothing => Ok(Bounds::Nothing),
            Bounds::Few(more) => {
                let all = with_more(bounds, more)?;
                Ok(Bounds::Few(all))
            }
        },
    }
}
