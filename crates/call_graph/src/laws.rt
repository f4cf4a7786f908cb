//! Laws over the definitions, as calls whose contracts are the laws.
ghost use Rattle.call_graph.specs.Laws.{OrderIsSorted, ReachesIsExact};

/// One procedure reaches another exactly where a chain of one or more calls leads there.
pub fn law_reaches()
    ensures { ReachesIsExact }
{}

/// The order has every point, no other, and each before those that follow.
pub fn law_order()
    ensures { OrderIsSorted }
{}
