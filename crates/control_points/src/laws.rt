//! Laws over the definitions, as calls whose contracts are the laws.
ghost use Rattle.control_points.specs.Examples.{GraphExamples};
ghost use Rattle.control_points.specs.Laws.{DimensionsAreNamed, EdgesOutAreFew, HeadsAreEntered, PointsArePlaced, PointsHavePlaces, ProgramsMakeGraphs};

/// Worked programs, with the graphs that are made of them.
pub fn law_examples()
    ensures { GraphExamples }
{}

/// Each point of a program's core has a place in its text, and there are no more places: an entry is at `begin`, the first
/// point of a block just past the word that opens it, and the point after a statement just past the statement.
pub fn law_places()
    ensures count { PointsHavePlaces }
    ensures places { PointsArePlaced }
{}

/// The dimension that a name stands for has that name, and that of an input with a working copy has it with `@`.
pub fn law_names()
    ensures { DimensionsAreNamed }
{}

/// The points that an edge from the same or a later point enters are those before a `while`; and a point has at most two
/// edges out, of which that of `true` is the first.
pub fn law_shape()
    ensures heads { HeadsAreEntered }
    ensures few { EdgesOutAreFew }
{}

/// An accepted program makes a graph that keeps what a core's keeps.
pub fn law_graphs()
    ensures { ProgramsMakeGraphs }
{}
