//! Laws over the definitions, as calls whose contracts are the laws.
ghost use Rattle.spl_runs.specs.Comes.{RunsAreSound};
ghost use Rattle.spl_runs.specs.Examples.{RunExamples};
ghost use Rattle.spl_runs.specs.Takes.{MovesAreTaken, StepsHaveChoices, TakenAreMoves, TakenAreSteps};
ghost use Rattle.spl_runs.specs.Laws.{ChoicesAreOne, FaultIsOne, HasNotBoth, HasOneOrOther, ReplaysAreRuns};

/// The worked choices and replays of `specs/Examples.antt`.
pub fn law_examples()
    ensures { RunExamples }
{}

/// A text has the choices of one run or one first fault.
pub fn law_choices()
    ensures choices { ChoicesAreOne }
    ensures either { HasOneOrOther }
    ensures not_both { HasNotBoth }
    ensures fault { FaultIsOne }
{}

/// What is replayed in the graph of a core is a run with the given start, whose stacks are those that the given steps
/// choose one after another.
pub fn law_replays()
    ensures { ReplaysAreRuns }
{}

/// In every run of the graph of a core each frame of each stack has a state that comes to its point; and where a frame
/// stands on another, that one is at a call of the frame's procedure, and the frame's inputs are the arguments' values.
pub fn law_runs()
    ensures { RunsAreSound }
{}

/// A step of a replay moves on exactly where its choice takes it there and nothing is past 128 bits; what a choice takes is
/// a step of a run, and each step of a run has a choice that takes it.
pub fn law_steps()
    ensures taken { MovesAreTaken }
    ensures moves { TakenAreMoves }
    ensures steps { TakenAreSteps }
    ensures choices { StepsHaveChoices }
{}
