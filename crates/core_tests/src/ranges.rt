//! Ranges of two dimensions.
ghost use Rattle.std.specs.Prelude.{[], ◌∷◌};

use interval_form::{Interval, Ranges};

/// The ranges of x, which is dimension 0, and of y, which is dimension 1.
#[derive(Clone, Copy)]
pub(crate) struct Two {
    pub(crate) x: Interval,
    pub(crate) y: Interval,
}

impl Ranges for Two {
    ghost intervals = { λ t. t.x ∷ t.y ∷ [] };

    fn dims(&self) -> u32 {
        2
    }

    #[tactic(auto, unfolding(interval_form::specs::Interval::range_at))]
    fn range(&self, v: u32) -> Interval {
        if v == 0 { self.x } else { self.y }
    }
}
