//! The assignment, the random assignment, the test, the call and the return on octagons, with their laws. The definitions
//! stand in specs/; the functions here have no code, and each has a law for its contract. To use a law, call it and cite its
//! `ensures`.
#![tactic(auto)]

ghost use Rattle.transfer_def.specs.CallExamples.{CallExamples};
ghost use Rattle.transfer_def.specs.Examples.{AssignExamples};
ghost use Rattle.transfer_def.specs.TestExamples.{LatticeExamples, TestExamples};
ghost use Rattle.transfer_def.specs.Laws.{BackGivesValue, BackIsSound, BackOfBottomCaller, BackOfBottomExit, EnterGivesValue, EnterIsSound, EnterOfBottom, MoveGivesValue, MoveKeepsDims, MoveOfBottom, MovesAreOver, StepIsSound};

pub use interval_form::{law_bounds, law_linearise};
pub use oct_def::{law_lattice, law_tight};

/// Law: where a state meets a value and flows by a move, its successor meets the value after the move. The moves of a
/// procedure of a core are over its variables, as the first clause wants them.
pub fn law_step()
    ensures step { StepIsSound }
    ensures over { MovesAreOver }
{}

/// Law: where a state meets a value, the callee's first state meets the value at its entry.
pub fn law_enter()
    ensures { EnterIsSound }
{}

/// Law: the state after a call meets the value after it.
pub fn law_back()
    ensures { BackIsSound }
{}

/// Law: moves, calls and returns give values of the domain where they are given values.
pub fn law_values()
    ensures moves { MoveGivesValue }
    ensures dims { MoveKeepsDims }
    ensures enter { EnterGivesValue }
    ensures back { BackGivesValue }
{}

/// Law: of Bottom comes Bottom.
pub fn law_bottom()
    ensures moves { MoveOfBottom }
    ensures enter { EnterOfBottom }
    ensures caller { BackOfBottomCaller }
    ensures exit { BackOfBottomExit }
{}

/// Worked assignments, tests, joins, widenings, narrowings, calls and returns, with the matrices that they give.
pub fn law_examples()
    ensures assignments { AssignExamples }
    ensures tests { TestExamples }
    ensures lattice { LatticeExamples }
    ensures calls { CallExamples }
{}
