//! Laws over the definitions, as calls whose contracts are the laws.
ghost use Rattle.spl_tree.specs.Facts.{IsTree};
ghost use Rattle.spl_tree.specs.Laws.{NumbersStandForNodes};
ghost use Rattle.spl_types.specs.Examples.{CheckExamples};

use spl_tree::{Tree, law_numbers};

/// Worked programs, with the first rule that each breaks.
pub fn law_examples()
    ensures { CheckExamples }
{}

/// What a tree keeps, and what its numbers stand for. It does nothing with the tree.
pub fn law_tree(tree: &Tree)
    ensures known { IsTree tree.now }
    ensures numbers { NumbersStandForNodes }
{
    law_numbers();
    let _ = tree.name_count();
}
