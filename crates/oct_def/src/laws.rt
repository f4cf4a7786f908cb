// The laws of the definitions, as calls whose contracts are the laws: each takes nothing and does nothing.
// To use a law, call it and cite its `ensures`.
ghost use Rattle.oct_def.specs.Laws.{TightKeepsStates, TightGivesValues, TightOfValues, JoinIsSound, WideningIsSound, NarrowingIsSound, LeastIsSound, JoinGivesValues, WideningGivesValues, NarrowingGivesValues, TopIsMet, TopIsValue, BottomIsValue, BottomIsNotMet};
ghost use Rattle.oct_def.specs.Examples.{WorkedClosures};

/// The tight closure keeps exactly the integer states of a square matrix.
pub fn law_tight()
    ensures { TightKeepsStates }
{}

/// The tight closure gives a value, of a matrix with odd unary entries too.
pub fn law_tight_values()
    ensures matrices { TightGivesValues }
    ensures octagons { TightOfValues }
{}

/// Join and widening keep the states of both sides, narrowing and the lesser entries those that both sides share.
pub fn law_lattice()
    ensures join { JoinIsSound }
    ensures widening { WideningIsSound }
    ensures narrowing { NarrowingIsSound }
    ensures least { LeastIsSound }
{}

/// Join, widening and narrowing of values of one number of variables are values.
pub fn law_lattice_values()
    ensures join { JoinGivesValues }
    ensures widening { WideningGivesValues }
    ensures narrowing { NarrowingGivesValues }
{}

/// Top is a value that every state meets, Bottom one that no state meets.
pub fn law_top()
    ensures top { TopIsValue }
    ensures all { TopIsMet }
    ensures bottom { BottomIsValue }
    ensures nothing { BottomIsNotMet }
{}

/// Worked closures, computed by the definitions.
pub fn law_examples()
    ensures { WorkedClosures }
{}
