//! From a checked program to its core: control points, edges, and the places of points.
#![tactic(auto)]

mod actions;
mod builder;
mod built;
mod counts;
mod edges;
mod laws;
mod making;
mod names;
mod nodes_made;
mod offsets;
mod programs;
mod window;

pub use built::{Built, Fail};
pub use laws::{law_examples, law_graphs, law_names, law_places, law_shape};
pub use offsets::offset_of;
pub use programs::core_of;
