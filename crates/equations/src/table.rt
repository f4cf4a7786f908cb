//! The sources and the readers of every point of a core, in a table.
ghost use Rattle.std.specs.Prelude.{◌≡◌, ◌<◌, [], length, slice_index_or};

use crate::source::Source;
use std::marker::Model;

/// The sources of each point of a core, and the points that read it.
#[derive(Drop)]
pub struct Sources {
    pub(crate) lists: Vec<Vec<Source>>,
    pub(crate) readers: Vec<Vec<u32>>,
}

impl Model for Sources {
    ghost use Rattle.std.specs.Prelude.{map};
    ghost use Rattle.equations.specs.Table.{Table};

    ghost Value = { Table };

    ghost view = { λ s. record { lists = map (λ v. v.items) s.lists.items; readers = map (λ v. v.items) s.readers.items } };
}

impl Sources {
    /// The sources of a point, in the order of edges.
    pub fn of(&self, point: u32) -> &[Source]
        requires { point < length self.now.lists }
        ensures { result.now ≡ slice_index_or self.now.lists point [] }
    {
        &self.lists[point as usize]
    }

    /// The points one of whose sources reads a point, in rising order. A return reads the point before the call and the
    /// callee's exit.
    pub fn readers(&self, point: u32) -> &[u32]
        requires { point < length self.now.readers }
        ensures { result.now ≡ slice_index_or self.now.readers point [] }
    {
        &self.readers[point as usize]
    }
}
