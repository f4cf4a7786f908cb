//! Laws over the definitions, as calls whose contracts are the laws.
ghost use Rattle.equations.specs.Equations.{ReadingCovers, EquationsCover, LoweringCovers, SolutionsCover};
ghost use Rattle.equations.specs.Inductive.{InductiveCovers};

/// Values that solve the equations cover what comes to points, inductive ones among them, and each single replacement of the
/// descent keeps this.
pub fn law_cover()
    ensures reading { ReadingCovers }
    ensures equations { EquationsCover }
    ensures lowering { LoweringCovers }
    ensures solutions { SolutionsCover }
    ensures inductive { InductiveCovers }
{}
