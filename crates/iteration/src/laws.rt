//! Laws over the definitions, as calls whose contracts are the laws.
ghost use Rattle.iteration.specs.Ends.{GraphsAreSystems, AscentsEnd, AscentsAreInductive, SolutionsAreSized};
ghost use Rattle.iteration.specs.Laws.{WidenAgain, WidenJoined};
ghost use Rattle.iteration.specs.Sound.{AnalysesAreSound};

/// A widening done again by the same value changes nothing.
pub fn law_widen_again()
    ensures { WidenAgain }
{}

/// A widening by a value that was joined before changes nothing.
pub fn law_widen_joined()
    ensures { WidenJoined }
{}

/// The equations of a graph are a system for the rounds. The ascent ends within `2C + 2` of them, and what it leaves is
/// unchanged by a further round, and inductive.
pub fn law_ascent()
    ensures system { GraphsAreSystems }
    ensures ends { AscentsEnd }
    ensures inductive { AscentsAreInductive }
{}

/// The solution has a value for each point, over its point's dimensions.
pub fn law_sizes()
    ensures { SolutionsAreSized }
{}

/// What is read at the points in the end holds of every frame of every stack of every run, at any depth of recursion, for
/// every delay and every descent.
pub fn law_sound()
    ensures { AnalysesAreSound }
{}
