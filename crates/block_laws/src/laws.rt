// The laws of blocks, as calls whose contracts are the laws: each takes nothing and does nothing.
// To use a law, call it and cite its `ensures`.
ghost use Rattle.block_laws.specs.Assembly.{PartOfAssembly, AssemblyOfParts, PartOfPart};
ghost use Rattle.block_laws.specs.Steps.{PairStepInside, PairStepsInBlock, StepsNeverRaise, SettledStays, StrengtheningOfBounds};
ghost use Rattle.block_laws.specs.Closing.{TightOfAssembly, TightOfEmptyBlock, StrengtheningOfClosed, ClosingOfComponents, KeptBlock};
ghost use Rattle.block_laws.specs.Components.{ComponentsSeparate, LinksInBlock};
ghost use Rattle.block_laws.specs.Lattice.{JoinInBlocks, JoinOfParts, WideningInBlocks, WideningOfParts, NarrowingInBlocks, NarrowingOfParts};

/// A pair step at a variable of a block changes nothing outside it, and the steps at all variables, seen in the block, are
/// those of the block's matrix.
pub fn law_pair_steps()
    ensures inside { PairStepInside }
    ensures block { PairStepsInBlock }
{}

/// Pair steps, evening and strengthening never raise an entry, and the strengthening changes only entries between variables
/// that have a bound.
pub fn law_steps()
    ensures lower { StepsNeverRaise }
    ensures bounds { StrengtheningOfBounds }
{}

/// Each step leaves a matrix as it is that the tight closure gives again, and the strengthening one that it gave.
pub fn law_settled()
    ensures stays { SettledStays }
    ensures again { StrengtheningOfClosed }
{}

/// The parts of an assembly are the blocks' matrices, a separated matrix is the assembly of its parts, and a part of a part
/// is a part.
pub fn law_assembly()
    ensures part { PartOfAssembly }
    ensures whole { AssemblyOfParts }
    ensures twice { PartOfPart }
{}

/// The tight closure of an assembly is the strengthening of the assembly of its closed blocks, or Bottom where a block's
/// closure is.
pub fn law_closing()
    ensures closed { TightOfAssembly }
    ensures empty { TightOfEmptyBlock }
{}

/// Where the blocks are the components, the tight closure is that of the blocks, those with bounds merged: again by
/// components. A block that isn't merged keeps the matrix that its closing gives.
pub fn law_merging()
    ensures components { ClosingOfComponents }
    ensures stays { KeptBlock }
{}

/// Components separate a matrix, and the chains of an assembly stay in a block.
pub fn law_components()
    ensures apart { ComponentsSeparate }
    ensures links { LinksInBlock }
{}

/// Join, widening and narrowing block by block.
pub fn law_lattice()
    ensures join { JoinInBlocks }
    ensures join_part { JoinOfParts }
    ensures widening { WideningInBlocks }
    ensures widening_part { WideningOfParts }
    ensures narrowing { NarrowingInBlocks }
    ensures narrowing_part { NarrowingOfParts }
{}
