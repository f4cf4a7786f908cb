//! Laws over the definitions, as calls whose contracts are the laws.
ghost use Rattle.spl_tree.specs.Laws.{NumbersStandForNodes};

/// Each number of a tree stands for its own node over what the numbers of its children stand for.
pub fn law_numbers()
    ensures { NumbersStandForNodes }
{}
