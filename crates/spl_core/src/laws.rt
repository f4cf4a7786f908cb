//! Laws over the definitions, as calls whose contracts are the laws.
ghost use Rattle.spl_core.specs.Examples.{CoreExamples, DivisionExamples};
ghost use Rattle.spl_core.specs.GraphFacts.{CoresAreGraphs, GraphsAreCores};
ghost use Rattle.spl_core.specs.Laws.{LiteralsAreLimited, NumbersStandForNodes, QuotientsTruncateTowardZero};

/// Each number of a core stands for its own node over what the numbers of its children stand for.
pub fn law_numbers()
    ensures { NumbersStandForNodes }
{}

/// The facts of a core are those of its graph, besides that numbers are in range and lists aren't too long.
pub fn law_graph()
    ensures graph { CoresAreGraphs }
    ensures core { GraphsAreCores }
{}

/// No literal of a core is above the greatest one.
pub fn law_literals()
    ensures { LiteralsAreLimited }
{}

/// A quotient is the exact one, truncated toward zero.
pub fn law_quotient()
    ensures { QuotientsTruncateTowardZero }
{}

/// The worked core and the worked quotients and remainders of `specs/Examples.antt`.
pub fn law_examples()
    ensures core { CoreExamples }
    ensures division { DivisionExamples }
{}
