// The ranges of the variables of a value, read once for all forms that are made in them.
ghost use Rattle.std.specs.Prelude.{◌≡◌, ◌+◌, ◌*◌, ◌<◌, ◌≤◌, ◌++◌, [], ◌∷◌, IfOk, IfSome, IsSome, length};
ghost use Rattle.interval_form.specs.Interval.{range_of, ranges_of, unbounded};
ghost use Rattle.dec_oct.specs.Value.{whole};

use dec_oct::DecOct;
use interval_form::{Interval, RangeTable};
use memory::NoMemory;
use std::alloc::Global;

// The range of a variable.
#[tactic(auto, unfolding(interval_form::specs::Interval::range_of))]
fn range(value: &DecOct, v: u32) -> Interval
    requires not_bottom { IsSome value.now.blocks }
    requires variable { v < value.now.dims }
    ensures { IfSome value.now.blocks (λ b. result ≡ range_of (whole value.now.dims b) v) }
{
    value.known();
    let plus = 2 * v;
    let minus = plus + 1;
    Interval::of_words(value.entry(plus, minus), value.entry(minus, plus))
}

// The ranges of all variables.
fn read(alloc: Global, value: &DecOct) -> Result<Vec<Interval>, NoMemory>
    requires not_bottom { IsSome value.now.blocks }
    ensures { IfOk result (λ v. IfSome value.now.blocks (λ b. v.items ≡ ranges_of value.now.dims (whole value.now.dims b))) }
{
    let mut ranges = Vec::new(alloc);
    'variables: for v in 0..value.dims() {
        ranges.push(range(value, v))?;
    }
    Ok(ranges)
}

/// The ranges of the variables of a value.
pub(crate) fn ranges_of_all(alloc: Global, value: &DecOct) -> Result<RangeTable, NoMemory>
    requires small { value.now.dims ≤ 511 }
    requires not_bottom { IsSome value.now.blocks }
    ensures { IfOk result (λ t. IfSome value.now.blocks (λ b. t ≡ ranges_of value.now.dims (whole value.now.dims b))) }
{
    let ranges = read(alloc, value)?;
    Ok(RangeTable::of(ranges))
}

/// The same with one more dimension that has no bounds.
pub(crate) fn ranges_with_new(alloc: Global, value: &DecOct) -> Result<RangeTable, NoMemory>
    requires small { value.now.dims ≤ 511 }
    requires not_bottom { IsSome value.now.blocks }
    ensures { IfOk result (λ t. IfSome value.now.blocks (λ b. t ≡ ranges_of value.now.dims (whole value.now.dims b) ++ unbounded ∷ [])) }
{
    let mut ranges = read(alloc, value)?;
    ranges.push(Interval {
        low: None,
        high: None,
    })?;
    Ok(RangeTable::of(ranges))
}
