//! Laws over the definitions, as calls whose contracts are the laws.
ghost use Rattle.placed_bounds.specs.Bounded.{BoundsGiveValues};

/// A matrix that takes bounds at their places and at the coherent ones stays a value over its variables.
pub fn law_bound()
    ensures { BoundsGiveValues }
{}
