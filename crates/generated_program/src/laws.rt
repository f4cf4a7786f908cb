//! The laws, as calls whose contracts they are.
ghost use Rattle.generated_program.specs.Accepted.{GeneratedProgramHasPoints, GeneratedTextIsAccepted};

/// A generated text is short, breaks no rule of tokens, derives the program of its number, places aside, and keeps all checks.
pub fn law_generated_text_is_accepted()
    ensures { GeneratedTextIsAccepted }
{}

/// A generated program with `n` groups has `5 * n + 4` points.
pub fn law_points_of_generated()
    ensures { GeneratedProgramHasPoints }
{}
