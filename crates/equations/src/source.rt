//! What the value of a point is computed from.

/// A source of a point: always there, which main's entry has; the flow over an edge; the entering by a call's edge; the
/// coming back over a call's edge.
#[derive(Clone, Copy, Debug, Drop, PartialEq, Eq)]
pub enum Source {
    Always,
    Flow { edge: u32 },
    Enter { edge: u32 },
    Back { edge: u32 },
}
