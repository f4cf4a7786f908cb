//! Laws of the definitions.
ghost use Rattle.command_words.specs.Laws.{AsksWithinLimits, ReadsWhatIsSpelled};

/// Which options and files words give, told as a relation, is what the function over the words gives.
pub fn law_spelling()
    ensures { ReadsWhatIsSpelled }
{}

/// Each number that words ask for lies within its limits.
pub fn law_limits()
    ensures { AsksWithinLimits }
{}
