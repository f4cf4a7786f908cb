//! Laws of the tight closure where entries are small: it is exact, its bounds are attained, it is its own closure, and the
//! quick closure after a change of one variable is the tight closure. The functions here have no code: each has a law for
//! its contract, which a caller cites by calling it.
//!
//! That one strengthening after the steps suffices over the integers is the theorem of R. Bagnara, P. Hill and
//! E. Zaffanella, "An Improved Tight Closure Algorithm for Integer Octagonal Constraints", VMCAI 2008, there for bounds
//! without a limit. What stands here for bounds with one, the bound on the entries and the proof by tight vertices are
//! this project's own.
#![tactic(auto)]

ghost use Rattle.tight_laws.specs.Laws.{OnePassAlone, OnePassIsTight, QuickAlone, QuickIsTight, RestrictionIsTight, TightIsAgain, TightIsAttained, TightIsExact};
ghost use Rattle.tight_laws.specs.Examples.{WorkedClosures};

/// The tight closure is Bottom exactly where no integer state meets the matrix.
pub fn law_tight_exact()
    ensures { TightIsExact }
{}

/// Each finite entry of the tight closure is attained by an integer state that meets it.
pub fn law_tight_attained()
    ensures { TightIsAttained }
{}

/// The tight closure is its own tight closure.
pub fn law_tight_again()
    ensures { TightIsAgain }
{}

/// After a change of one variable's rows and columns the quick closure is the tight closure: where the matrix before the
/// change is its own tight closure, and where that of the other variables alone is.
pub fn law_quick()
    ensures change { QuickIsTight }
    ensures alone { QuickAlone }
{}

/// One pass of the quick closure over the other variables suffices.
pub fn law_one_pass()
    ensures change { OnePassIsTight }
    ensures alone { OnePassAlone }
{}

/// A restriction of a matrix that is its own tight closure is so too.
pub fn law_restriction()
    ensures { RestrictionIsTight }
{}

/// Worked closures, computed by the definitions.
pub fn law_examples()
    ensures { WorkedClosures }
{}
