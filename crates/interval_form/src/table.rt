//! Ranges kept in a list, read once for all forms that are made in them.

ghost use Rattle.std.specs.Prelude.{◌≡◌, ◌≤◌, length};
ghost use Rattle.oct_def.specs.Bound.{bound_of, half};
ghost use Rattle.interval_form.specs.Interval.{negated_bound, range_at, range_between};

use crate::interval::Interval;
use crate::ranges::Ranges;
use oct_def::NONE;
use std::marker::Model;

/// A range for each of at most 512 dimensions.
#[derive(Drop)]
pub struct RangeTable {
    ranges: Vec<Interval>,
}

impl Model for RangeTable {
    ghost use Rattle.std.specs.Prelude.{List, length, ◌≤◌};
    ghost use Rattle.interval_form.specs.declared.interval.Interval.{Interval};

    ghost Value = { List Interval };

    ghost view = { λ t. t.ranges.items };

    ghost invariant = { λ t. length t.ranges.items ≤ 512 };
}

impl Ranges for RangeTable {
    ghost intervals = { λ t. t };

    fn dims(&self) -> u32 {
        self.ranges.len() as u32
    }

    #[tactic(auto, unfolding(crate::specs::Interval::range_at))]
    fn range(&self, v: u32) -> Interval {
        self.ranges[v as usize]
    }
}

impl RangeTable {
    /// The ranges of a list. It takes no memory.
    pub fn of(ranges: Vec<Interval>) -> RangeTable
        requires few { length ranges.items ≤ 512 }
        ensures { result ≡ ranges.items }
    {
        RangeTable { ranges }
    }
}

// The upper end of a range: half of the bound on twice a variable.
fn upper_end(word: i64) -> Option<i64>
    ensures { result ≡ half (bound_of word) }
{
    if word == NONE {
        None
    } else {
        Some(word.div_euclid(2))
    }
}

// The lower end of a range: minus half of the bound on minus twice a variable.
fn lower_end(word: i64) -> Option<i64>
    ensures { result ≡ negated_bound (half (bound_of word)) }
{
    if word == NONE {
        None
    } else {
        Some(-word.div_euclid(2))
    }
}

impl Interval {
    /// The range of a variable, from the words of the bounds on minus twice it and on twice it.
    pub fn of_words(below: i64, above: i64) -> Interval
        ensures { result ≡ range_between (half (bound_of below)) (half (bound_of above)) }
    {
        Interval {
            low: lower_end(below),
            high: upper_end(above),
        }
    }
}
