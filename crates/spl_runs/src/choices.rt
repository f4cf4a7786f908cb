//! The choices of a run.

/// One step: the number of the edge among the edges out of the top frame's point, and the values that the step takes in.
#[derive(Drop)]
pub struct Step {
    pub edge: i128,
    pub values: Vec<i128>,
}

/// Main's values at its entry, and the steps in order.
#[derive(Drop)]
pub struct Choices {
    pub start: Vec<i128>,
    pub steps: Vec<Step>,
}
